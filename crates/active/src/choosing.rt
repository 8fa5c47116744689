// Which candidate is placed.
ghost use Rattle.std.specs.Prelude.{◌≡◌, ◌+◌, ◌<◌, length};
ghost use Rattle.words.specs.Words.{words};
ghost use Rattle.plan.specs.Input.{problem_of, genes_of};
ghost use Rattle.plan.specs.Found.{Placed};
ghost use Rattle.plan.specs.Accepted.{Accepted};
ghost use Rattle.tables.specs.Tabled.{Tabled};
ghost use Rattle.active.specs.Active.{seat_now, sooner, contends, preferred, lead_of, least_rank, chosen_of, scan_of};
ghost use Rattle.active.specs.Kept.{seat_in, Kept, Offered};
ghost use Rattle.active.specs.Asked.{Chosen};

use crate::scanning::scan;
use crate::seats::{Machine, seat_at};
use board::Seat;
use plan::Layout;

// The first of two seats if it finishes sooner, or together and ranks before; else the second.
fn sooner(ranks: &[usize], x: Seat, y: Seat) -> Seat
    requires { (x.activity < length ranks.now) × (y.activity < length ranks.now) }
    ensures { result ≡ sooner ranks.now x y }
{
    if (x.finish, ranks[x.activity]) < (y.finish, ranks[y.activity]) {
        return x;
    }
    y
}

// Whether a seat is on the lead's machine, and starts before its finish or is it.
fn contends(lead: Seat, x: Seat) -> bool
    ensures { result ≡ contends lead x }
{
    x.machine == lead.machine && (x.start < lead.finish || x.activity == lead.activity)
}

// The first of two seats if it contends with the lead and the second doesn't rank before it; else the second.
fn preferred(ranks: &[usize], lead: Seat, x: Seat, y: Seat) -> Seat
    requires { (x.activity < length ranks.now) × (y.activity < length ranks.now) }
    ensures { result ≡ preferred ranks.now lead x y }
{
    if contends(lead, x) && ranks[x.activity] <= ranks[y.activity] {
        return x;
    }
    y
}

// The seat of least (finish, rank), the first among equals.
fn lead_of(n: usize, ranks: &[usize], kept: &[usize], tasks: &[usize]) -> Seat
    requires { Offered n ranks.now kept.now tasks.now }
    ensures { result ≡ lead_of ranks.now (seat_in kept.now) tasks.now }
{
    let mut best = seat_at(kept, tasks[0]);
    for &t in &tasks[1..] {
        best = sooner(ranks, seat_at(kept, t), best);
    }
    best
}

// The seat of least rank among those that contend with the lead, the first among equals: they are taken from the last to the first.
fn least_rank(n: usize, ranks: &[usize], kept: &[usize], lead: Seat, tasks: &[usize]) -> Seat
    requires { Offered n ranks.now kept.now tasks.now × (lead.activity < n) }
    ensures { result ≡ least_rank ranks.now (seat_in kept.now) lead tasks.now }
{
    let mut best = lead;
    for k in (0..tasks.len()).rev() {
        best = preferred(ranks, lead, seat_at(kept, tasks[k]), best);
    }
    best
}

// Scans the tasks, and chooses among the candidates.
pub fn choose(
    s: &[u8],
    z: Layout,
    table: &[usize],
    ranks: &[usize],
    on: &[Machine],
    ends: &[u64],
    lines: &[usize],
    steps: &[usize],
    settled: &mut [usize],
    kept: &mut [usize],
) -> Option<Seat>
    requires placed { Placed z × Accepted (problem_of (words s.now) z) (genes_of (words s.now) z) × Tabled (problem_of (words s.now) z) table.now }
    requires chosen { Chosen (problem_of (words s.now) z) (genes_of (words s.now) z) ranks.now on.now ends.now lines.now steps.now settled.old kept.old }
    ensures choice { result ≡ chosen_of ranks.now (seat_now (problem_of (words s.now) z) (genes_of (words s.now) z) ends.now lines.now steps.now) (scan_of (problem_of (words s.now) z) (genes_of (words s.now) z) settled.old).candidates }
    ensures settled { settled.new ≡ (scan_of (problem_of (words s.now) z) (genes_of (words s.now) z) settled.old).settled }
    ensures kept { Kept (problem_of (words s.now) z) (genes_of (words s.now) z) kept.new ends.now lines.now steps.now settled.new }
{
    let mut offered = [0usize; 32];
    let found = scan(
        s,
        z,
        table,
        on,
        ends,
        lines,
        steps,
        settled,
        kept,
        &mut offered,
    );
    if found == 0 {
        return None;
    }
    let tasks = &offered[..found];
    let lead = lead_of(z.activities, ranks, kept, tasks);
    let seat = least_rank(z.activities, ranks, kept, lead, tasks);
    Some(seat)
}
