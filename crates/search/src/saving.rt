// A new best is saved: the task of each activity in timing order, and the machine of each activity.
ghost use Rattle.std.specs.Prelude.{◌≡◌, ◌≤◌, length};
ghost use Rattle.words.specs.Words.{words};
ghost use Rattle.graph.specs.Counting.{Below};
ghost use Rattle.plan.specs.Problem.{Problem};
ghost use Rattle.plan.specs.Input.{problem_of};
ghost use Rattle.tables.specs.Tabled.{Tabled};
ghost use Rattle.tables.specs.Regions.{cells as cellsOfTable};
ghost use Rattle.intake.specs.Circle.{each};
ghost use Rattle.lines.specs.Lines.{lines_in, machine_of, WellFormed};
ghost use Rattle.search.specs.Saving.{tasks_of};

use plan::Layout;

// The task of each activity of an order.
fn save_tasks(table: &[usize], order: &[usize], tasks: &mut [usize])
    requires { (length table.now ≡ cellsOfTable) × Below 128 order.now × (length tasks.old ≡ length order.now) }
    ensures { (p : Problem) → Tabled p table.now → Below p.n order.now → tasks.new ≡ tasks_of p order.now }
{
    for (i, &a) in order.iter().enumerate() {
        tasks[i] = tables::owner(table, a);
    }
}

// Saves lines and their timing order. The three buffers between are work space.
pub fn save(
    n: usize,
    table: &[usize],
    cells: &[usize],
    lens: [usize; 16],
    order: &[usize],
    before: &mut [usize],
    after: &mut [usize],
    places: &mut [usize],
    tasks: &mut [usize],
    machines: &mut [usize],
)
    requires table_len { (length table.now ≡ cellsOfTable) × Below 128 order.now × (length cells.now ≡ 2048) × WellFormed n 16 (lines_in cells.now lens) }
    requires before_len { (length before.old ≡ n) × (length after.old ≡ n) × (length places.old ≡ n) × (length tasks.old ≡ length order.now) × (length machines.old ≡ n) }
    ensures tasks { (p : Problem) → Tabled p table.now → Below p.n order.now → tasks.new ≡ tasks_of p order.now }
    ensures machines { machines.new ≡ each (machine_of (lines_in cells.now lens)) n 0 }
{
    lines::link_lines(n, cells, lens, before, after, machines, places);
    save_tasks(table, order, tasks);
}
