// Seats worked out, kept by task, and forgotten.
ghost use Rattle.std.specs.Prelude.{◌≡◌, ◌+◌, ◌≤◌, ◌<◌, ◌^◌, length, set};
ghost use Rattle.words.specs.Words.{words};
ghost use Rattle.plan.specs.Input.{problem_of, genes_of};
ghost use Rattle.plan.specs.Found.{Placed};
ghost use Rattle.plan.specs.Accepted.{Accepted};
ghost use Rattle.tables.specs.Tabled.{Tabled};
ghost use Rattle.active.specs.Active.{seat_now};
ghost use Rattle.active.specs.Kept.{activity_row, seat_in, with_seat, keep_seat, forgotten, Manned, Fresh};
ghost use Rattle.active.specs.Asked.{Timely};

use board::Seat;
use plan::Layout;

// Where each row of what is kept begins, after the first, which says how far a task is passed.
pub const LAST_ROW: usize = 32;

pub const ACTIVITY_ROW: usize = 64;

const MACHINE_ROW: usize = 96;

const START_ROW: usize = 128;

const FINISH_ROW: usize = 160;

const SETUP_ROW: usize = 192;

// An activity's machine, or none, in one cell.
pub type Machine = Option<u32>;

// The machine of an activity, or none.
fn machine_of(s: &[u8], z: Layout, a: usize) -> Machine
    requires { Placed z × Accepted (problem_of (words s.now) z) (genes_of (words s.now) z) × (a < 2 ^ 32) }
    ensures { result ≡ (genes_of (words s.now) z).assigned a }
{
    let m = plan::assigned(s, z, a)?;
    Some(m as u32)
}

// The machine of each activity, or none.
pub fn fill_on(s: &[u8], z: Layout, on: &mut [Machine])
    requires { Placed z × Accepted (problem_of (words s.now) z) (genes_of (words s.now) z) × (length on.old ≡ 128) }
    ensures { Manned (genes_of (words s.now) z) z.activities on.new }
{
    for a in 0..z.activities {
        on[a] = machine_of(s, z, a);
    }
}

// Where each task begins and ends; no seat is kept.
pub fn begin(s: &[u8], z: Layout, kept: &mut [usize])
    requires { Placed z × Accepted (problem_of (words s.now) z) (genes_of (words s.now) z) × (length kept.old ≡ 224) }
    ensures { Fresh (problem_of (words s.now) z) kept.new }
{
    let mut first = 0;
    for t in 0..z.tasks {
        let next = first + plan::steps(s, z, t) as usize;
        kept[t] = first;
        kept[LAST_ROW + t] = next;
        kept[ACTIVITY_ROW + t] = z.activities;
        first = next;
    }
}

// A candidate's seat.
fn seat_of(
    s: &[u8],
    z: Layout,
    table: &[usize],
    a: usize,
    ends: &[u64],
    lines: &[usize],
    steps: &[usize],
) -> Seat
    requires placed { Placed z × Accepted (problem_of (words s.now) z) (genes_of (words s.now) z) × Tabled (problem_of (words s.now) z) table.now }
    requires a_lt_activities { (a < z.activities) × Timely z.activities ends.now lines.now steps.now }
    ensures { result ≡ seat_now (problem_of (words s.now) z) (genes_of (words s.now) z) ends.now lines.now steps.now a }
{
    let m = board::machine_from(s, z, Some(a));
    let line = board::last_placed(lines, m, z.activities);
    let task = tables::owner(table, a);
    let step = board::last_placed(steps, task, z.activities);
    let from = board::machine_from(s, z, step);
    let way = plan::transport(s, z, from, m) as u64;
    board::seat_after(s, z, table, a, m, line, step, way, ends)
}

// The seat that is kept of a task.
pub fn seat_at(kept: &[usize], t: usize) -> Seat
    requires { (length kept.now ≡ 224) × (t < 32) }
    ensures { result ≡ seat_in kept.now t }
{
    Seat {
        activity: kept[ACTIVITY_ROW + t],
        machine: kept[MACHINE_ROW + t],
        start: kept[START_ROW + t] as u64,
        finish: kept[FINISH_ROW + t] as u64,
        setup: kept[SETUP_ROW + t] as u64,
    }
}

// Keeps the seat of a task.
fn keep(t: usize, seat: Seat, kept: &mut [usize])
    requires { (length kept.old ≡ 224) × (t < 32) }
    ensures { kept.new ≡ with_seat kept.old t seat }
{
    kept[ACTIVITY_ROW + t] = seat.activity;
    kept[MACHINE_ROW + t] = seat.machine;
    kept[START_ROW + t] = seat.start as usize;
    kept[FINISH_ROW + t] = seat.finish as usize;
    kept[SETUP_ROW + t] = seat.setup as usize;
}

// Keeps the seat of a task's candidate, where it is not kept already.
pub fn keep_seat(
    s: &[u8],
    z: Layout,
    table: &[usize],
    ends: &[u64],
    lines: &[usize],
    steps: &[usize],
    t: usize,
    a: usize,
    kept: &mut [usize],
)
    requires placed { Placed z × Accepted (problem_of (words s.now) z) (genes_of (words s.now) z) × Tabled (problem_of (words s.now) z) table.now }
    requires a_lt_activities { (a < z.activities) × Timely z.activities ends.now lines.now steps.now × (length kept.old ≡ 224) × (t < 32) }
    ensures { kept.new ≡ keep_seat (problem_of (words s.now) z) (genes_of (words s.now) z) ends.now lines.now steps.now kept.old t a }
{
    if kept[ACTIVITY_ROW + t] == a {
        return;
    }
    let seat = seat_of(s, z, table, a, ends, lines, steps);
    keep(t, seat, kept);
}

// Forgets the seats on a machine, and that of a task; n stands for none.
pub fn forget(n: usize, tasks: usize, m: usize, task: usize, kept: &mut [usize])
    requires { (length kept.old ≡ 224) × (tasks ≤ 32) × (task < 32) }
    ensures { kept.new ≡ set (forgotten n m tasks kept.old) (activity_row + task) n }
{
    for k in 0..tasks {
        if kept[MACHINE_ROW + k] != m {
            continue;
        }
        kept[ACTIVITY_ROW + k] = n;
    }
    kept[ACTIVITY_ROW + task] = n;
}
