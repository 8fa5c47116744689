// Module 1 of document 01: what timing, both decoders and the sheet check ask of one activity.
#![tactic(auto)]

ghost use Rattle.std.specs.Prelude.{◌≡◌, ℕ, ◌+◌, ◌*◌, ◌-◌, ◌<◌, ◌≤◌, ◌^◌, max, length, get_or, Some};
ghost use Rattle.words.specs.Words.{words};
ghost use Rattle.words.specs.Signed.{signed_word};
ghost use Rattle.graph.specs.Links.{linked};
ghost use Rattle.graph.specs.Counting.{Below};
ghost use Rattle.plan.specs.Problem.{Problem};
ghost use Rattle.plan.specs.Input.{problem_of, genes_of};
ghost use Rattle.plan.specs.Found.{Placed};
ghost use Rattle.plan.specs.Accepted.{Accepted};
ghost use Rattle.tables.specs.Regions.{cells};
ghost use Rattle.tables.specs.Tabled.{Tabled};
ghost use Rattle.bounds.specs.Bounds.{category_before, setup_of, span_of, arrival_of, tardiness_of};

use plan::Layout;

// The category of the task of the activity that ran before; 8 where nothing did.
fn category_before(table: &[usize], before: Option<usize>) -> usize
    requires { Below 128 (linked before) × (length table.now ≡ cells) }
    ensures { (p : Problem) → Tabled p table.now → Below p.n (linked before) → result ≡ category_before p before }
{
    let Some(b) = before else {
        return 8;
    };
    tables::category_of(table, b)
}

// The setup of an activity on a machine after another: what Setups says of the change, else its own.
pub fn setup_of(
    s: &[u8],
    z: Layout,
    table: &[usize],
    a: usize,
    m: usize,
    before: Option<usize>,
) -> u64
    requires placed { Placed z × Accepted (problem_of (words s.now) z) (genes_of (words s.now) z) × Tabled (problem_of (words s.now) z) table.now }
    requires a_lt_activities { (a < z.activities) × (m < z.machines) × Below z.activities (linked before) }
    ensures { result ≡ setup_of (problem_of (words s.now) z) a m before }
{
    let own = tables::category_of(table, a);
    let previous = category_before(table, before);
    let change = tables::change_of(table, m, previous, own);
    let Some(setup) = change else {
        let t = plan::times_on(s, z, a, m);
        return t.setup as u64;
    };
    setup
}

// Before when an activity may not start: the greater of its task's release and its own.
pub fn release_of(table: &[usize], a: usize) -> u64
    requires { (a < 128) × (length table.now ≡ cells) }
    ensures { (p : Problem) → Tabled p table.now → a < p.n → result ≡ p.release a }
{
    tables::release(table, a) as u64
}

// Setup, process and teardown of an activity on a machine, after the setup given.
pub fn span(s: &[u8], z: Layout, a: usize, m: usize, setup: u64) -> u64
    requires { Placed z × (a < 2 ^ 16) × (m < 2 ^ 16) × (setup < 2 ^ 32) }
    ensures { result ≡ span_of (problem_of (words s.now) z) a m setup }
{
    let t = plan::times_on(s, z, a, m);
    let process = t.process as u64;
    let teardown = t.teardown as u64;
    setup + process + teardown
}

// When an activity can be at its machine, from the step before it and the way from that one's machine.
pub fn arrival(before: Option<usize>, ends: &[u64], way: u64) -> u64
    requires { Below (length ends.now) (linked before) × ((t : ℕ) → before ≡ Some t → get_or ends.now t 0 < 2 ^ 62) × (way < 2 ^ 32) }
    ensures { result ≡ arrival_of before (λ t. get_or ends.now t 0) way }
{
    let Some(t) = before else {
        return 0;
    };
    ends[t] + way
}

// Completion less the deadline of a word, 0 if negative. A word from 2^31 on stands for a deadline below 0, which adds to the completion.
fn late_by(completion: u64, deadline: u32) -> u64
    requires { completion < 2 ^ 62 }
    ensures { result ≡ tardiness_of completion (Some (signed_word deadline)) }
{
    let d = deadline as u64;
    if deadline < 0x8000_0000 {
        if completion <= d {
            return 0;
        }
        return completion - d;
    }
    completion + (0x1_0000_0000 - d)
}

// Completion less deadline, 0 if negative or without a deadline.
pub fn tardiness(completion: u64, due: Option<i32>) -> u64
    requires { completion < 2 ^ 62 }
    ensures { result ≡ tardiness_of completion due }
{
    let Some(d) = due else {
        return 0;
    };
    late_by(completion, words::unsigned_word(d))
}
