// What a search from timed lines comes to, and how it is told.
ghost use Rattle.std.specs.Prelude.{◌≡◌, not, ◌≤◌, T, length};
ghost use Rattle.std.specs.Float.Ieee.{is_nan};
ghost use Rattle.words.specs.Words.{words};
ghost use Rattle.plan.specs.Input.{problem_of};
ghost use Rattle.lines.specs.Lines.{lines_in};
ghost use Rattle.timing.specs.Placing.{Timed};
ghost use Rattle.trial.specs.Trial.{Ready, Kept};
ghost use Rattle.search.specs.Asked.{Lined};
ghost use Rattle.search.specs.Search.{saved_of, searched, answer, thirteen_or};
ghost use Rattle.improving.specs.Improving.{told, tasks_over, machines_over};

use crate::Ending;
use plan::Layout;
use search::Finish;
use steps::search_lines;

// Searches from timed lines, as many steps as the plan says.
fn search_timed(
    s: &[u8],
    z: Layout,
    table: &[usize],
    ways: [[u32; 16]; 16],
    cells: &mut [usize],
    lens: [usize; 16],
    order: &mut [usize],
    starts: &mut [u64],
    ends: &mut [u64],
    tasks: &mut [usize],
    machines: &mut [usize],
) -> Finish
    requires ready { Ready s.now z table.now ways × Lined z.activities z.machines cells.old lens × Timed (problem_of (words s.now) z) (lines_in cells.old lens) order.old starts.old ends.old }
    requires kept { Kept z.activities order.old starts.old ends.old × (length tasks.old ≡ z.activities) × (length machines.old ≡ z.activities) }
    ensures best { result.best ≡ (searched (problem_of (words s.now) z) (lines_in cells.old lens)).best }
    ensures found { saved_of result.found tasks.new machines.new ≡ (searched (problem_of (words s.now) z) (lines_in cells.old lens)).found }
    ensures number { T (not (is_nan result.best)) }
{
    let n = z.activities;
    let mut taken = [0usize; 128];
    let mut begun = [0u64; 128];
    let mut done = [0u64; 128];
    let choices = reassign::is_flexible(table, n);
    let limit = plan::limit(s, z) as usize;
    let first = fitness::fitness_of(s, z, ends);
    search_lines(
        s,
        z,
        table,
        ways,
        choices,
        limit,
        first,
        cells,
        lens,
        order,
        starts,
        ends,
        &mut taken[..n],
        &mut begun[..n],
        &mut done[..n],
        tasks,
        machines,
    )
}

// Outcome 13, or 14 with what was found written over the first cells of the results.
fn tell(
    f: Finish,
    found: &[usize],
    on: &[usize],
    tasks: &mut [usize],
    machines: &mut [usize],
) -> Ending
    requires { T (not (is_nan f.best)) × (length found.now ≤ length tasks.old) × (length on.now ≤ length machines.old) }
    ensures answer { result ≡ told (answer (saved_of f.found found.now on.now) f.best) }
    ensures tasks { tasks.new ≡ tasks_over (answer (saved_of f.found found.now on.now) f.best) tasks.old }
    ensures machines { machines.new ≡ machines_over (answer (saved_of f.found found.now on.now) f.best) machines.old }
{
    let best = f.best;
    let bits = f64::to_bits(best);
    if !f.found {
        return Ending::NothingBetter(bits);
    }
    rows::copy_over(found, tasks);
    rows::copy_over(on, machines);
    Ending::Better(bits)
}

// Searches from timed lines, and tells outcome 13 or 14.
pub fn search_and_tell(
    s: &[u8],
    z: Layout,
    table: &[usize],
    ways: [[u32; 16]; 16],
    cells: &mut [usize],
    lens: [usize; 16],
    order: &mut [usize],
    starts: &mut [u64],
    ends: &mut [u64],
    tasks: &mut [usize],
    machines: &mut [usize],
) -> Ending
    requires ready { Ready s.now z table.now ways × Lined z.activities z.machines cells.old lens × Timed (problem_of (words s.now) z) (lines_in cells.old lens) order.old starts.old ends.old }
    requires kept { Kept z.activities order.old starts.old ends.old × (128 ≤ length tasks.old) × (128 ≤ length machines.old) }
    ensures answer { result ≡ told (thirteen_or (searched (problem_of (words s.now) z) (lines_in cells.old lens))) }
    ensures tasks { tasks.new ≡ tasks_over (thirteen_or (searched (problem_of (words s.now) z) (lines_in cells.old lens))) tasks.old }
    ensures machines { machines.new ≡ machines_over (thirteen_or (searched (problem_of (words s.now) z) (lines_in cells.old lens))) machines.old }
{
    let n = z.activities;
    let mut found = [0usize; 128];
    let mut on = [0usize; 128];
    let f = search_timed(
        s,
        z,
        table,
        ways,
        cells,
        lens,
        order,
        starts,
        ends,
        &mut found[..n],
        &mut on[..n],
    );
    tell(f, &found[..n], &on[..n], tasks, machines)
}
