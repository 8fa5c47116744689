// A step, with work space of its own.
ghost use Rattle.std.specs.Prelude.{◌≡◌, length, ◌≤◌};
ghost use Rattle.std.specs.Float.Ieee.{lt};
ghost use Rattle.words.specs.Words.{words};
ghost use Rattle.graph.specs.Counting.{Below};
ghost use Rattle.plan.specs.Problem.{Problem};
ghost use Rattle.plan.specs.Input.{problem_of};
ghost use Rattle.tables.specs.Tabled.{Tabled};
ghost use Rattle.tables.specs.Regions.{cells as cellsOfTable};
ghost use Rattle.intake.specs.Circle.{each};
ghost use Rattle.lines.specs.Lines.{lines_in, machine_of, WellFormed};
ghost use Rattle.timing.specs.Placing.{Timed};
ghost use Rattle.reassign.specs.Reassignments.{flexible};
ghost use Rattle.trial.specs.Taboo.{forbidden};
ghost use Rattle.trial.specs.Trial.{Ready, Kept, Holding, tried_all};
ghost use Rattle.trial.specs.declared.Best.TheVariants.{Nothing};
ghost use Rattle.search.specs.Step.{moves_from};
ghost use Rattle.search.specs.Asked.{Lined};
ghost use Rattle.search.specs.Saving.{tasks_of};
ghost use Rattle.search.specs.Search.{lesser_if, saved_if, saved_of, genes_by};

use plan::Layout;
use search::Finish;
use trial::{Best, Taboo};

// The best of all moves that a step tries. Its timing is kept in the last three buffers.
pub fn try_step(
    s: &[u8],
    z: Layout,
    table: &[usize],
    ways: &[[u32; 16]; 16],
    choices: bool,
    step: usize,
    pairs: [Taboo; 6],
    left: [Taboo; 6],
    best: f64,
    cells: &mut [usize],
    lens: [usize; 16],
    order: &[usize],
    starts: &[u64],
    ends: &[u64],
    taken: &mut [usize],
    begun: &mut [u64],
    done: &mut [u64],
) -> Best
    requires ready { Ready s.now z table.now ways.now × Lined z.activities z.machines cells.old lens × Timed (problem_of (words s.now) z) (lines_in cells.old lens) order.now starts.now ends.now × (choices ≡ flexible (problem_of (words s.now) z)) }
    requires kept { Kept z.activities taken.old begun.old done.old }
    ensures answer { result ≡ tried_all (problem_of (words s.now) z) (lines_in cells.old lens) (forbidden step pairs left (lines_in cells.old lens)) best (moves_from (problem_of (words s.now) z) (lines_in cells.old lens)) Nothing }
    ensures holding { Holding (problem_of (words s.now) z) (lines_in cells.old lens) result taken.new begun.new done.new }
    ensures lines { lines_in cells.new lens ≡ lines_in cells.old lens }
{
    let n = z.activities;
    let mut before = [0usize; 128];
    let mut after = [0usize; 128];
    let mut machines = [0usize; 128];
    let mut places = [0usize; 128];
    let mut path = [0usize; 128];
    let mut stack = [0usize; 128];
    let mut tail = [0u64; 128];
    let mut heads = [0u64; 128];
    let mut tried = [0usize; 128];
    let mut begins = [0u64; 128];
    let mut finishes = [0u64; 128];
    search::best_move(
        s,
        z,
        table,
        ways,
        choices,
        step,
        pairs,
        left,
        best,
        cells,
        lens,
        order,
        starts,
        ends,
        &mut before[..n],
        &mut after[..n],
        &mut machines[..n],
        &mut places[..n],
        &mut path[..n],
        &mut stack[..n],
        &mut tail[..n],
        &mut heads,
        &mut tried[..n],
        &mut begins[..n],
        &mut finishes[..n],
        taken,
        begun,
        done,
    )
}

// Saves lines and their timing order.
fn save(
    n: usize,
    table: &[usize],
    cells: &[usize],
    lens: [usize; 16],
    order: &[usize],
    tasks: &mut [usize],
    machines: &mut [usize],
)
    requires table_len { (length table.now ≡ cellsOfTable) × Below 128 order.now × (length cells.now ≡ 2048) × WellFormed n 16 (lines_in cells.now lens) × (n ≤ 128) }
    requires tasks_len { (length tasks.old ≡ length order.now) × (length machines.old ≡ n) }
    ensures tasks { (p : Problem) → Tabled p table.now → Below p.n order.now → tasks.new ≡ tasks_of p order.now }
    ensures machines { machines.new ≡ each (machine_of (lines_in cells.now lens)) n 0 }
{
    let mut before = [0usize; 128];
    let mut after = [0usize; 128];
    let mut places = [0usize; 128];
    search::save(
        n,
        table,
        cells,
        lens,
        order,
        &mut before[..n],
        &mut after[..n],
        &mut places[..n],
        tasks,
        machines,
    );
}

// Saves lines and their timing order where they are better than the best so far.
pub fn keep(
    n: usize,
    table: &[usize],
    cells: &[usize],
    lens: [usize; 16],
    order: &[usize],
    tasks: &mut [usize],
    machines: &mut [usize],
    f: f64,
    sofar: Finish,
) -> Finish
    requires table_len { (length table.now ≡ cellsOfTable) × Below 128 order.now × (length cells.now ≡ 2048) × WellFormed n 16 (lines_in cells.now lens) × (n ≤ 128) }
    requires tasks_len { (length tasks.old ≡ length order.now) × (length machines.old ≡ n) }
    ensures best { result.best ≡ lesser_if (lt f sofar.best) f sofar.best }
    ensures saved { (p : Problem) → Tabled p table.now → Below p.n order.now → saved_of result.found tasks.new machines.new ≡ saved_if (lt f sofar.best) (genes_by p n order.now (lines_in cells.now lens)) (saved_of sofar.found tasks.old machines.old) }
{
    let old = sofar.best;
    if f < old {
        save(n, table, cells, lens, order, tasks, machines);
        return Finish {
            best: f,
            found: true,
        };
    }
    sofar
}
