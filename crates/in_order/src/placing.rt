// Activities placed upon a board, in the order in which they are taken.
ghost use Rattle.std.specs.Prelude.{◌≡◌, ◌+◌, ◌≤◌, ◌<◌, length, set};
ghost use Rattle.words.specs.Words.{words};
ghost use Rattle.plan.specs.Problem.{Problem};
ghost use Rattle.plan.specs.Input.{problem_of, genes_of};
ghost use Rattle.plan.specs.Found.{Placed, transports_of};
ghost use Rattle.plan.specs.Accepted.{Accepted};
ghost use Rattle.tables.specs.Tabled.{Tabled};
ghost use Rattle.genes.specs.Indexed.{indexed, assigned_to};
ghost use Rattle.genes.specs.Held.{Listed};
ghost use Rattle.board.specs.Board.{board_of, empty_board, last_placed, seat, sit};
ghost use Rattle.in_order.specs.InOrder.{ready_order, sit_all, place_in_order};
ghost use Rattle.in_order.specs.Waiting.{Coming, Owned, Upon, Given, Rooms, Timed};

use crate::ready_order;
use plan::Layout;

// The last placed of an activity's task, of n activities.
fn step_of(table: &[usize], steps: &[usize], a: usize, n: usize) -> Option<usize>
    requires { Owned table.now steps.now a }
    ensures { (p : Problem) → Tabled p table.now → a < p.n → result ≡ last_placed n steps.now (p.task_of a) }
{
    let t = tables::owner(table, a);
    board::last_placed(steps, t, n)
}

// Places one activity on machine m, on a board that has `count`. `step` is the last placed of its task, `way` that from its machine.
fn place_one(
    s: &[u8],
    z: Layout,
    table: &[usize],
    a: usize,
    m: usize,
    step: Option<usize>,
    way: u64,
    count: usize,
    order: &mut [usize],
    starts: &mut [u64],
    ends: &mut [u64],
    setups: &mut [u64],
    lines: &mut [usize],
    steps: &mut [usize],
    settled: &mut [usize],
)
    requires placed { Placed z × Accepted (problem_of (words s.now) z) (genes_of (words s.now) z) × Tabled (problem_of (words s.now) z) table.now }
    requires coming { Coming (problem_of (words s.now) z) (genes_of (words s.now) z) (board_of count order.old starts.old ends.old setups.old lines.old steps.old settled.old) a m step way × (count < length order.old) }
    ensures board { board_of (count + 1) order.new starts.new ends.new setups.new lines.new steps.new settled.new ≡ sit (problem_of (words s.now) z) (seat (problem_of (words s.now) z) (assigned_to (genes_of (words s.now) z)) (board_of count order.old starts.old ends.old setups.old lines.old steps.old settled.old) a m) (board_of count order.old starts.old ends.old setups.old lines.old steps.old settled.old) }
    ensures order { order.new ≡ set order.old count a }
{
    let task = tables::owner(table, a);
    let line = board::last_placed(lines, m, z.activities);
    let seat = board::seat_after(s, z, table, a, m, line, step, way, ends);
    board::sit(
        seat, task, count, order, starts, ends, setups, lines, steps, settled,
    );
}

// Places all that are ready upon an empty board, and answers how many have a machine; the others are settled.
fn place_ready(
    s: &[u8],
    z: Layout,
    table: &[usize],
    ways: [[u32; 16]; 16],
    ready: &[usize],
    order: &mut [usize],
    starts: &mut [u64],
    ends: &mut [u64],
    setups: &mut [u64],
    lines: &mut [usize],
    steps: &mut [usize],
    settled: &mut [usize],
) -> usize
    requires placed { Placed z × Accepted (problem_of (words s.now) z) (genes_of (words s.now) z) × Tabled (problem_of (words s.now) z) table.now × (ways ≡ transports_of (problem_of (words s.now) z)) }
    requires upon { Upon z.activities ready.now order.old (board_of 0 order.old starts.old ends.old setups.old lines.old steps.old settled.old) }
    ensures board { board_of result order.new starts.new ends.new setups.new lines.new steps.new settled.new ≡ sit_all (problem_of (words s.now) z) (genes_of (words s.now) z) ready.now (empty_board z.activities) }
    ensures order { Listed (sit_all (problem_of (words s.now) z) (genes_of (words s.now) z) ready.now (empty_board z.activities)).order order.old order.new result }
{
    let mut count = 0;
    for &a in ready {
        let Some(m) = plan::assigned(s, z, a) else {
            board::settle(settled, a);
            continue;
        };
        let step = step_of(table, steps, a, z.activities);
        let from = board::machine_from(s, z, step);
        let way = ways[from][m] as u64;
        place_one(
            s, z, table, a, m, step, way, count, order, starts, ends, setups, lines, steps, settled,
        );
        count += 1;
    }
    count
}

// The same upon cells that may hold anything.
fn place_all(
    s: &[u8],
    z: Layout,
    table: &[usize],
    ways: [[u32; 16]; 16],
    ready: &[usize],
    order: &mut [usize],
    starts: &mut [u64],
    ends: &mut [u64],
    setups: &mut [u64],
    lines: &mut [usize],
    steps: &mut [usize],
    settled: &mut [usize],
) -> usize
    requires placed { Placed z × Accepted (problem_of (words s.now) z) (genes_of (words s.now) z) × Tabled (problem_of (words s.now) z) table.now × (ways ≡ transports_of (problem_of (words s.now) z)) }
    requires given { Given z.activities ready.now order.old (board_of 0 order.old starts.old ends.old setups.old lines.old steps.old settled.old) }
    ensures board { board_of result order.new starts.new ends.new setups.new lines.new steps.new settled.new ≡ sit_all (problem_of (words s.now) z) (genes_of (words s.now) z) ready.now (empty_board z.activities) }
    ensures order { Listed (sit_all (problem_of (words s.now) z) (genes_of (words s.now) z) ready.now (empty_board z.activities)).order order.old order.new result }
{
    board::clear(z.activities, starts, ends, setups, lines, steps, settled);
    place_ready(
        s, z, table, ways, ready, order, starts, ends, setups, lines, steps, settled,
    )
}

// Writes the activities that the genes give, in the order in which they are taken, and answers how many they are.
fn ready_activities(s: &[u8], z: Layout, table: &[usize], ready: &mut [usize]) -> usize
    requires placed { Placed z × Accepted (problem_of (words s.now) z) (genes_of (words s.now) z) × Tabled (problem_of (words s.now) z) table.now }
    requires activities_in_bounds { z.activities ≤ length ready.old }
    ensures { Listed (ready_order (problem_of (words s.now) z) (indexed (problem_of (words s.now) z) (genes_of (words s.now) z))) ready.old ready.new result × (result ≤ z.activities) }
{
    let mut activities = [0usize; 128];
    let given = genes::indexed(s, z, &mut activities);
    ready_order(table, &activities[..given], ready)
}

// Places in order what the genes give: writes the activities placed, in placing order, and the start, the end and the setup of each by its
// number, and answers how many are placed.
pub fn place_in_order(
    s: &[u8],
    z: Layout,
    table: &[usize],
    ways: [[u32; 16]; 16],
    order: &mut [usize],
    starts: &mut [u64],
    ends: &mut [u64],
    setups: &mut [u64],
) -> usize
    requires placed { Placed z × Accepted (problem_of (words s.now) z) (genes_of (words s.now) z) × Tabled (problem_of (words s.now) z) table.now × (ways ≡ transports_of (problem_of (words s.now) z)) }
    requires rooms { Rooms z.activities order.old starts.old ends.old setups.old }
    ensures order { Listed (place_in_order (problem_of (words s.now) z) (genes_of (words s.now) z)).order order.old order.new result }
    ensures times { Timed (place_in_order (problem_of (words s.now) z) (genes_of (words s.now) z)) starts.new ends.new setups.new }
{
    let n = z.activities;
    let mut ready = [0usize; 128];
    let given = ready_activities(s, z, table, &mut ready);
    let mut lines = [0usize; 16];
    let mut steps = [0usize; 32];
    let mut settled = [0usize; 128];
    place_all(
        s,
        z,
        table,
        ways,
        &ready[..given],
        order,
        starts,
        ends,
        setups,
        &mut lines,
        &mut steps,
        &mut settled[..n],
    )
}
