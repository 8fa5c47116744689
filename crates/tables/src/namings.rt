// Who names whom: how many each activity waits for, whom it names, and those that name it; and the
// machines that it may run on.
ghost use Rattle.std.specs.Prelude.{◌≡◌, ◌+◌, ◌≤◌, length, take, drop};
ghost use Rattle.words.specs.Words.{words};
ghost use Rattle.graph.specs.Counting.{Below, count_of};
ghost use Rattle.plan.specs.Input.{problem_of, task_of};
ghost use Rattle.plan.specs.Found.{Placed};
ghost use Rattle.tables.specs.Entries.{Entries};
ghost use Rattle.tables.specs.Tabled.{Listed};
ghost use Rattle.tables.specs.Columns.{Filled, before_in};
ghost use Rattle.tables.specs.Parts.{Namings, Pairings};

use crate::lists::{file_into, load_pairs};
use crate::owners::fill_befores;
use plan::Layout;

// Where the lists begin after the waits, and where they end.
const NAMED_FROM: usize = 128;

const WAITING_FROM: usize = 513;

const END: usize = 898;

// waits[a] becomes how many activity a waits for: the step before, and one for each naming by it.
fn fill_waits(owners: &[usize], acts: &[usize], count: usize, waits: &mut [usize])
    requires { (length waits.old ≤ length owners.now) × (count ≤ length acts.now) × (count ≤ 256) × Below (length waits.old) (take count acts.now) }
    ensures { Filled (length waits.old) (λ a. before_in owners.now a + count_of a (take count acts.now)) waits.new }
{
    let n = waits.len();
    fill_befores(owners, n, waits);
    graph::tally_by(&acts[..count], waits);
}

// Fills the waits of n activities, and both lists of `count` pairs.
fn file_pairs(
    owners: &[usize],
    n: usize,
    acts: &[usize],
    preds: &[usize],
    count: usize,
    part: &mut [usize],
)
    requires n_bound { (n ≤ 128) × (n ≤ length owners.now) × (count ≤ 256) × (count ≤ length acts.now) × (count ≤ length preds.now) × (length part.old ≡ 898) }
    requires below { Below n (take count acts.now) × Below n (take count preds.now) }
    ensures { Pairings n owners.now (take count acts.now) (take count preds.now) part.new }
{
    fill_waits(owners, acts, count, &mut part[0..n]);
    file_into(preds, acts, count, &mut part[NAMED_FROM..WAITING_FROM]);
    file_into(acts, preds, count, &mut part[WAITING_FROM..END]);
}

// Fills the waits, whom each activity names, and those that name it.
pub fn fill_namings(s: &[u8], z: Layout, owners: &[usize], part: &mut [usize])
    requires { Placed z × Entries (words s.now) z × (z.activities ≤ length owners.now) × Filled z.activities (task_of (words s.now) z) owners.now × (length part.old ≡ 898) }
    ensures { Namings (problem_of (words s.now) z) part.new }
{
    let at = z.at.predecessors;
    let count = words::word(s, at) as usize;
    let mut acts: [usize; 256] = [0; 256];
    let mut preds: [usize; 256] = [0; 256];
    load_pairs(s, at, count, &mut acts, &mut preds);
    file_pairs(owners, z.activities, &acts, &preds, count, part);
}

// Fills the machines that each activity may run on.
pub fn fill_candidates(s: &[u8], z: Layout, part: &mut [usize])
    requires { Placed z × Entries (words s.now) z × (length part.old ≡ 2177) }
    ensures { Listed z.activities (problem_of (words s.now) z).candidates (take 129 part.new) (drop 129 part.new) }
{
    let at = z.at.candidates;
    let count = words::word(s, at) as usize;
    let mut acts: [usize; 2048] = [0; 2048];
    let mut machines: [usize; 2048] = [0; 2048];
    load_pairs(s, at, count, &mut acts, &mut machines);
    file_into(&machines, &acts, count, part);
}
