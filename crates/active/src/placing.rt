// Activities placed upon a board, each the one that a scan of the tasks chooses.
ghost use Rattle.std.specs.Prelude.{◌≡◌, ◌+◌, length};
ghost use Rattle.words.specs.Words.{words};
ghost use Rattle.plan.specs.Input.{problem_of, genes_of};
ghost use Rattle.plan.specs.Found.{Placed};
ghost use Rattle.plan.specs.Accepted.{Accepted};
ghost use Rattle.tables.specs.Tabled.{Tabled};
ghost use Rattle.genes.specs.Indexed.{indexed};
ghost use Rattle.genes.specs.Held.{Listed};
ghost use Rattle.board.specs.Board.{board_of, empty_board};
ghost use Rattle.in_order.specs.Waiting.{Rooms, Timed};
ghost use Rattle.active.specs.Active.{ranks_of, place_all, place_active};
ghost use Rattle.active.specs.Asked.{Begun, Started};

use crate::choosing::choose;
use crate::scanning::put_ranks;
use crate::seats::{Machine, begin, fill_on, forget};
use plan::Layout;

// Places upon an empty board until a scan has no candidate, and answers how many are placed.
fn place_chosen(
    s: &[u8],
    z: Layout,
    table: &[usize],
    ranks: &[usize],
    on: &[Machine],
    order: &mut [usize],
    starts: &mut [u64],
    ends: &mut [u64],
    setups: &mut [u64],
    lines: &mut [usize],
    steps: &mut [usize],
    settled: &mut [usize],
    kept: &mut [usize],
) -> usize
    requires placed { Placed z × Accepted (problem_of (words s.now) z) (genes_of (words s.now) z) × Tabled (problem_of (words s.now) z) table.now }
    requires begun { Begun (problem_of (words s.now) z) (genes_of (words s.now) z) ranks.now on.now order.old kept.old (board_of 0 order.old starts.old ends.old setups.old lines.old steps.old settled.old) }
    ensures board { board_of result order.new starts.new ends.new setups.new lines.new steps.new settled.new ≡ place_all (problem_of (words s.now) z) (genes_of (words s.now) z) ranks.now z.activities (empty_board z.activities) }
    ensures order { Listed (place_all (problem_of (words s.now) z) (genes_of (words s.now) z) ranks.now z.activities (empty_board z.activities)).order order.old order.new result }
{
    let mut count = 0;
    loop {
        let Some(seat) = choose(s, z, table, ranks, on, ends, lines, steps, settled, kept) else {
            return count;
        };
        let a = seat.activity;
        let task = tables::owner(table, a);
        board::sit(
            seat, task, count, order, starts, ends, setups, lines, steps, settled,
        );
        forget(z.activities, z.tasks, seat.machine, task, kept);
        count += 1;
    }
}

// The same upon cells that may hold anything.
fn place_all(
    s: &[u8],
    z: Layout,
    table: &[usize],
    ranks: &[usize],
    on: &[Machine],
    order: &mut [usize],
    starts: &mut [u64],
    ends: &mut [u64],
    setups: &mut [u64],
    lines: &mut [usize],
    steps: &mut [usize],
    settled: &mut [usize],
    kept: &mut [usize],
) -> usize
    requires placed { Placed z × Accepted (problem_of (words s.now) z) (genes_of (words s.now) z) × Tabled (problem_of (words s.now) z) table.now }
    requires started { Started (problem_of (words s.now) z) (genes_of (words s.now) z) ranks.now on.now order.old kept.old (board_of 0 order.old starts.old ends.old setups.old lines.old steps.old settled.old) }
    ensures board { board_of result order.new starts.new ends.new setups.new lines.new steps.new settled.new ≡ place_all (problem_of (words s.now) z) (genes_of (words s.now) z) ranks.now z.activities (empty_board z.activities) }
    ensures order { Listed (place_all (problem_of (words s.now) z) (genes_of (words s.now) z) ranks.now z.activities (empty_board z.activities)).order order.old order.new result }
{
    board::clear(z.activities, starts, ends, setups, lines, steps, settled);
    place_chosen(
        s, z, table, ranks, on, order, starts, ends, setups, lines, steps, settled, kept,
    )
}

// Gives each activity its rank: its place in the order, or the order's length.
fn fill_ranks(s: &[u8], z: Layout) -> [usize; 128]
    requires { Placed z × Accepted (problem_of (words s.now) z) (genes_of (words s.now) z) }
    ensures { result ≡ ranks_of (indexed (problem_of (words s.now) z) (genes_of (words s.now) z)) }
{
    let mut activities = [0usize; 128];
    let given = genes::indexed(s, z, &mut activities);
    let mut ranks = [given; 128];
    put_ranks(&activities[..given], &mut ranks);
    ranks
}

// Places actively what the genes give: writes the activities placed, in placing order, and the start, the end and the setup of each by its
// number, and answers how many are placed.
pub fn place_active(
    s: &[u8],
    z: Layout,
    table: &[usize],
    order: &mut [usize],
    starts: &mut [u64],
    ends: &mut [u64],
    setups: &mut [u64],
) -> usize
    requires placed { Placed z × Accepted (problem_of (words s.now) z) (genes_of (words s.now) z) × Tabled (problem_of (words s.now) z) table.now }
    requires rooms { Rooms z.activities order.old starts.old ends.old setups.old }
    ensures order { Listed (place_active (problem_of (words s.now) z) (genes_of (words s.now) z)).order order.old order.new result }
    ensures times { Timed (place_active (problem_of (words s.now) z) (genes_of (words s.now) z)) starts.new ends.new setups.new }
{
    let n = z.activities;
    let ranks = fill_ranks(s, z);
    let mut lines = [0usize; 16];
    let mut steps = [0usize; 32];
    let mut settled = [0usize; 128];
    let mut on = [None; 128];
    // As the sums in docs/CALLS.md count them.
    prove!(size_of::<[Machine; 128]>() == 1024);
    fill_on(s, z, &mut on);
    let mut kept = [0usize; 224];
    begin(s, z, &mut kept);
    place_all(
        s,
        z,
        table,
        &ranks,
        &on,
        order,
        starts,
        ends,
        setups,
        &mut lines,
        &mut steps,
        &mut settled[..n],
        &mut kept,
    )
}
