// What both decoders place upon: who was placed last on each machine and of each task, when each placed activity starts and ends, and who is
// settled. Cells by activity are 0 until it is placed; the last placed are held as numbers, one that is no activity standing for none.
#![tactic(auto)]

ghost use Rattle.std.specs.Prelude.{◌≡◌, ℕ, ◌+◌, ◌^◌, ◌<◌, List, length, get_or, set};
ghost use Rattle.words.specs.Words.{words};
ghost use Rattle.graph.specs.Counting.{Below};
ghost use Rattle.graph.specs.Links.{linked};
ghost use Rattle.plan.specs.Problem.{Problem};
ghost use Rattle.plan.specs.Input.{problem_of, genes_of};
ghost use Rattle.plan.specs.Found.{Placed};
ghost use Rattle.plan.specs.Accepted.{Accepted};
ghost use Rattle.tables.specs.Tabled.{Tabled};
ghost use Rattle.genes.specs.Indexed.{assigned_to};
ghost use Rattle.timing.specs.Placing.{machine_before};
ghost use Rattle.board.specs.Board.{board_of, empty_board, last_placed, seat_after, sit};
ghost use Rattle.board.specs.Sound.{Room};

use plan::Layout;

// An activity's place on its machine.
#[derive(Clone, Copy)]
pub struct Seat {
    pub activity: usize,
    pub machine: usize,
    pub start: u64,
    pub finish: u64,
    pub setup: u64,
}

// The last placed on a machine or of a task, of n activities.
pub fn last_placed(cells: &[usize], k: usize, n: usize) -> Option<usize>
    requires { k < length cells.now }
    ensures { result ≡ last_placed n cells.now k }
{
    let a = cells[k];
    if a < n {
        return Some(a);
    }
    None
}

// The machine that the genes give the last placed of a task; 0 where there is none.
pub fn machine_from(s: &[u8], z: Layout, step: Option<usize>) -> usize
    requires { Placed z × Below z.activities (linked step) }
    ensures { result ≡ machine_before step (assigned_to (genes_of (words s.now) z)) }
{
    let Some(q) = step else {
        return 0;
    };
    let Some(m) = plan::assigned(s, z, q) else {
        return 0;
    };
    m
}

// Where and when an activity can run on a machine, after `line` there and `step` in its task, with the way from that one's machine.
pub fn seat_after(
    s: &[u8],
    z: Layout,
    table: &[usize],
    a: usize,
    m: usize,
    line: Option<usize>,
    step: Option<usize>,
    way: u64,
    ends: &[u64],
) -> Seat
    requires placed { Placed z × Accepted (problem_of (words s.now) z) (genes_of (words s.now) z) × Tabled (problem_of (words s.now) z) table.now }
    requires a_lt_activities { (a < z.activities) × (m < z.machines) × Below z.activities (linked line) × Below z.activities (linked step) × (way < 2 ^ 32) }
    requires ends_len { (length ends.now ≡ z.activities) × ((q : ℕ) → get_or ends.now q 0 < 2 ^ 61) }
    ensures { result ≡ seat_after (problem_of (words s.now) z) a m line step way (λ q. get_or ends.now q 0) }
{
    let start = timing::start_after(table, a, line, step, way, ends);
    let setup = bounds::setup_of(s, z, table, a, m, line);
    let span = bounds::span(s, z, a, m, setup);
    Seat {
        activity: a,
        machine: m,
        start,
        finish: start + span,
        setup,
    }
}

// Places a seat upon a board that has `count`: last in the order, last on its machine and of its task.
pub fn sit(
    seat: Seat,
    task: usize,
    count: usize,
    order: &mut [usize],
    starts: &mut [u64],
    ends: &mut [u64],
    setups: &mut [u64],
    lines: &mut [usize],
    steps: &mut [usize],
    settled: &mut [usize],
)
    requires { Room seat task count order.old starts.old ends.old setups.old lines.old steps.old settled.old }
    ensures board { (p : Problem) → task ≡ p.task_of seat.activity → board_of (count + 1) order.new starts.new ends.new setups.new lines.new steps.new settled.new ≡ sit p seat (board_of count order.old starts.old ends.old setups.old lines.old steps.old settled.old) }
    ensures order { order.new ≡ set order.old count seat.activity }
{
    let a = seat.activity;
    let m = seat.machine;
    order[count] = a;
    starts[a] = seat.start;
    ends[a] = seat.finish;
    setups[a] = seat.setup;
    lines[m] = a;
    steps[task] = a;
    settled[a] = 1;
}

// Passes an activity over: settled, and not placed.
pub fn settle(settled: &mut [usize], a: usize)
    requires { a < length settled.old }
    ensures { settled.new ≡ set settled.old a 1 }
{
    settled[a] = 1;
}

// Clears the cells of a board for n activities: none placed, none settled.
pub fn clear(
    n: usize,
    starts: &mut [u64],
    ends: &mut [u64],
    setups: &mut [u64],
    lines: &mut [usize],
    steps: &mut [usize],
    settled: &mut [usize],
)
    requires { (length starts.old ≡ n) × (length ends.old ≡ n) × (length setups.old ≡ n) × (length lines.old ≡ 16) × (length steps.old ≡ 32) × (length settled.old ≡ n) }
    ensures { (order : List ℕ) → board_of 0 order starts.new ends.new setups.new lines.new steps.new settled.new ≡ empty_board n }
{
    starts.fill(0);
    ends.fill(0);
    setups.fill(0);
    lines.fill(n);
    steps.fill(n);
    settled.fill(0);
}
