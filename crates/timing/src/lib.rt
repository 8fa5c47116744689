// The timing order and the starts of a problem's lines.
#![tactic(auto)]

mod placing;

ghost use Rattle.std.specs.Prelude.{◌≡◌, ℕ, ◌^◌, ◌≤◌, ◌<◌, length, get_or, take, true, not};
ghost use Rattle.words.specs.Words.{words};
ghost use Rattle.graph.specs.Counting.{Below};
ghost use Rattle.graph.specs.Links.{linked, link_of};
ghost use Rattle.graph.specs.Shop.{greatest};
ghost use Rattle.plan.specs.Input.{problem_of, genes_of};
ghost use Rattle.plan.specs.Accepted.{Accepted};
ghost use Rattle.tables.specs.Tabled.{Tabled};
ghost use Rattle.lines.specs.Lines.{lines_in, WellFormed};
ghost use Rattle.timing.specs.Timing.{timing_order};
ghost use Rattle.timing.specs.Ordering.{with_line, Neighbours, Space, Stacked};
ghost use Rattle.plan.specs.Found.{Placed, transports_of};
ghost use Rattle.lines.specs.Linking.{LinesHeld, links_of};
ghost use Rattle.timing.specs.Timing.{contradicts};
ghost use Rattle.timing.specs.Placing.{Seated, Placement, Timed, Rooms};

use placing::place;
pub use placing::{fill_setups, machine_before, span_after, start_after};
use plan::Layout;

// The latest of a moment and of the ends of all that are named.
pub fn after_named(named: &[usize], ends: &[u64], first: u64) -> u64
    requires { Below (length ends.now) named.now }
    ensures { result ≡ greatest (λ q. get_or ends.now q 0) named.now first }
{
    let mut latest = first;
    for &q in named {
        latest = latest.max(ends[q]);
    }
    latest
}

// How many each activity waits for: what it waits for without its line, and one more where another stands before it there.
fn add_line_waits(waits: &[usize], before: &[usize], counts: &mut [usize])
    requires { (length before.now ≡ length waits.now) × (length counts.old ≡ length waits.now) × ((a : ℕ) → a < length waits.now → get_or waits.now a 0 < 2 ^ 32) }
    ensures { counts.new ≡ with_line waits.now before.now (length waits.now) }
{
    for (a, &wait) in waits.iter().enumerate() {
        counts[a] = wait + line_waits(before, a);
    }
}

// 1 where another stands before the activity on its line, else 0.
fn line_waits(before: &[usize], a: usize) -> usize
    requires { a < length before.now }
    ensures { result ≡ length (linked (link_of before.now a)) }
{
    let Some(_) = graph::link_of(before, a) else {
        return 0;
    };
    1
}

// Takes from the stack until it is empty: writes each activity taken into the order, places it, and frees those that wait for it. When it is
// taken, all that it waits for have their ends. Answers how many are taken: fewer than there are where the lines contradict.
fn take_and_place(
    s: &[u8],
    z: Layout,
    table: &[usize],
    ways: &[[u32; 16]; 16],
    own: bool,
    cells: &[usize],
    lens: &[usize; 16],
    before: &[usize],
    after: &[usize],
    nexts: &[usize],
    at: &[usize],
    waiting: &[usize],
    machines: &[usize],
    counts: &mut [usize],
    stack: &mut [usize],
    first: usize,
    order: &mut [usize],
    starts: &mut [u64],
    ends: &mut [u64],
) -> usize
    requires placed { Placed z × Accepted (problem_of (words s.now) z) (genes_of (words s.now) z) × Tabled (problem_of (words s.now) z) table.now × (own ≡ true → get_or (words s.now) z.at.setups 0 ≡ 0) × (ways.now ≡ transports_of (problem_of (words s.now) z)) }
    requires well_formed { WellFormed z.activities z.machines (lines_in cells.now lens.now) × Seated z.activities (lines_in cells.now lens.now) before.now machines.now }
    requires stacked { Stacked (problem_of (words s.now) z) (lines_in cells.now lens.now) after.now nexts.now at.now waiting.now counts.old stack.old first }
    requires order_len { (length order.old ≡ z.activities) × (length starts.old ≡ z.activities) × (length ends.old ≡ z.activities) }
    ensures order_after { (take result order.new ≡ timing_order (problem_of (words s.now) z) (lines_in cells.now lens.now)) × (result ≤ z.activities) }
    ensures placement { z.activities ≤ result → Placement (problem_of (words s.now) z) (lines_in cells.now lens.now) starts.new ends.new }
{
    let mut top = first;
    let mut taken = 0;
    while 0 < top {
        top -= 1;
        let a = stack[top];
        order[taken] = a;
        taken += 1;
        place(s, z, table, ways, own, before, machines, a, starts, ends);
        top = graph::release(a, after, nexts, at, waiting, counts, stack, top);
    }
    taken
}

// Orders and places, with work space lent: counts, stack.
fn order_and_place(
    s: &[u8],
    z: Layout,
    table: &[usize],
    ways: &[[u32; 16]; 16],
    cells: &[usize],
    lens: &[usize; 16],
    before: &[usize],
    after: &[usize],
    machines: &[usize],
    counts: &mut [usize],
    stack: &mut [usize],
    order: &mut [usize],
    starts: &mut [u64],
    ends: &mut [u64],
) -> usize
    requires placed { Placed z × Accepted (problem_of (words s.now) z) (genes_of (words s.now) z) × Tabled (problem_of (words s.now) z) table.now × (ways.now ≡ transports_of (problem_of (words s.now) z)) }
    requires well_formed { WellFormed z.activities z.machines (lines_in cells.now lens.now) × Neighbours z.activities (lines_in cells.now lens.now) before.now after.now × Seated z.activities (lines_in cells.now lens.now) before.now machines.now }
    requires space { Space z.activities counts.old stack.old order.old × (length starts.old ≡ z.activities) × (length ends.old ≡ z.activities) }
    ensures order_after { (take result order.new ≡ timing_order (problem_of (words s.now) z) (lines_in cells.now lens.now)) × (result ≤ z.activities) }
    ensures placement { z.activities ≤ result → Placement (problem_of (words s.now) z) (lines_in cells.now lens.now) starts.new ends.new }
{
    let n = z.activities;
    let waits = tables::WAITS;
    let waits_end = waits + n;
    add_line_waits(&table[waits..waits_end], before, counts);
    let first = graph::stack_free(counts, stack);
    let own = words::word(s, z.at.setups) == 0;
    let nexts = tables::NEXTS;
    let nexts_end = nexts + n;
    let at = tables::WAITING_AT;
    let at_end = at + 129;
    let waiting = tables::WAITING;
    let waiting_end = waiting + 256;
    take_and_place(
        s,
        z,
        table,
        ways,
        own,
        cells,
        lens,
        before,
        after,
        &table[nexts..nexts_end],
        &table[at..at_end],
        &table[waiting..waiting_end],
        machines,
        counts,
        stack,
        first,
        order,
        starts,
        ends,
    )
}

// Times lines whose links are known: false where they contradict; else the timing order, and each activity's start and end. Counts and stack
// are work space.
pub fn time_linked(
    s: &[u8],
    z: Layout,
    table: &[usize],
    ways: &[[u32; 16]; 16],
    cells: &[usize],
    lens: &[usize; 16],
    before: &[usize],
    after: &[usize],
    machines: &[usize],
    counts: &mut [usize],
    stack: &mut [usize],
    order: &mut [usize],
    starts: &mut [u64],
    ends: &mut [u64],
) -> bool
    requires placed { Placed z × Accepted (problem_of (words s.now) z) (genes_of (words s.now) z) × Tabled (problem_of (words s.now) z) table.now × (ways.now ≡ transports_of (problem_of (words s.now) z)) }
    requires well_formed { WellFormed z.activities z.machines (lines_in cells.now lens.now) × Neighbours z.activities (lines_in cells.now lens.now) before.now after.now × Seated z.activities (lines_in cells.now lens.now) before.now machines.now }
    requires space { Space z.activities counts.old stack.old order.old × (length starts.old ≡ z.activities) × (length ends.old ≡ z.activities) }
    ensures answer { result ≡ not (contradicts (problem_of (words s.now) z) (lines_in cells.now lens.now)) }
    ensures timed { result ≡ true → Timed (problem_of (words s.now) z) (lines_in cells.now lens.now) order.new starts.new ends.new }
{
    let taken = order_and_place(
        s, z, table, ways, cells, lens, before, after, machines, counts, stack, order, starts, ends,
    );
    z.activities <= taken
}

// Times lines: false where they contradict; else the timing order, and each activity's start and end. Of each activity is written, too, who
// stands before and after it on its line, its machine and its place there.
pub fn time_sequences(
    s: &[u8],
    z: Layout,
    table: &[usize],
    ways: [[u32; 16]; 16],
    cells: &[usize],
    lens: [usize; 16],
    before: &mut [usize],
    after: &mut [usize],
    machines: &mut [usize],
    places: &mut [usize],
    order: &mut [usize],
    starts: &mut [u64],
    ends: &mut [u64],
) -> bool
    requires placed { Placed z × Accepted (problem_of (words s.now) z) (genes_of (words s.now) z) × Tabled (problem_of (words s.now) z) table.now × (ways ≡ transports_of (problem_of (words s.now) z)) }
    requires cells_len { (length cells.now ≡ 2048) × WellFormed z.activities z.machines (lines_in cells.now lens) × Rooms z.activities before.old after.old machines.old places.old order.old starts.old ends.old }
    ensures answer { result ≡ not (contradicts (problem_of (words s.now) z) (lines_in cells.now lens)) }
    ensures linked { LinesHeld z.activities (lines_in cells.now lens) (links_of before.new after.new machines.new places.new) }
    ensures timed { result ≡ true → Timed (problem_of (words s.now) z) (lines_in cells.now lens) order.new starts.new ends.new }
{
    let n = z.activities;
    let mut counts = [0usize; 128];
    let mut stack = [0usize; 128];
    lines::link_lines(n, cells, lens, before, after, machines, places);
    time_linked(
        s,
        z,
        table,
        &ways,
        cells,
        &lens,
        before,
        after,
        machines,
        &mut counts[..n],
        &mut stack,
        order,
        starts,
        ends,
    )
}
