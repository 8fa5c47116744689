// One scan of the tasks: each stops at its first step that is not settled and has a machine.
ghost use Rattle.std.specs.Prelude.{◌≡◌, false, ◌+◌, ◌≤◌, ◌<◌, length, take};
ghost use Rattle.words.specs.Words.{words};
ghost use Rattle.graph.specs.Counting.{Below};
ghost use Rattle.plan.specs.Input.{problem_of, genes_of};
ghost use Rattle.plan.specs.Found.{Placed};
ghost use Rattle.plan.specs.Accepted.{Accepted};
ghost use Rattle.tables.specs.Tabled.{Tabled};
ghost use Rattle.active.specs.Active.{ranked_from, any_unsettled};
ghost use Rattle.active.specs.Kept.{stops_here, Manned, held_in, Kept, ScannedAll};
ghost use Rattle.active.specs.Asked.{Timely};

use crate::seats::{ACTIVITY_ROW, LAST_ROW, Machine, keep_seat};
use plan::Layout;

// Gives each of the order its place as its rank.
pub fn put_ranks(activities: &[usize], ranks: &mut [usize])
    requires { Below (length ranks.old) activities.now }
    ensures { ranks.new ≡ ranked_from 0 activities.now ranks.old }
{
    for (i, &a) in activities.iter().enumerate() {
        ranks[a] = i;
    }
}

// Whether one of the list is not settled.
fn any_unsettled(list: &[usize], settled: &[usize]) -> bool
    requires { Below (length settled.now) list.now }
    ensures { result ≡ any_unsettled settled.now list.now }
{
    for &b in list {
        if settled[b] != 1 {
            return true;
        }
    }
    false
}

// Whether a task's next activity waits for a predecessor; one whose seat is kept does not.
fn waits(
    s: &[u8],
    z: Layout,
    table: &[usize],
    t: usize,
    a: usize,
    settled: &[usize],
    kept: &[usize],
) -> bool
    requires accepted { Accepted (problem_of (words s.now) z) (genes_of (words s.now) z) × Tabled (problem_of (words s.now) z) table.now × (a < z.activities) × (t < 32) }
    requires settled_len { (length settled.now ≡ z.activities) × (length kept.now ≡ 224) }
    requires a_value { held_in kept.now t ≡ a → any_unsettled settled.now ((problem_of (words s.now) z).predecessors a) ≡ false }
    ensures { result ≡ any_unsettled settled.now ((problem_of (words s.now) z).predecessors a) }
{
    if kept[ACTIVITY_ROW + t] == a {
        return false;
    }
    any_unsettled(tables::named_by(table, a), settled)
}

// Whether a task stops at a step.
fn stops(on: &[Machine], settled: &[usize], a: usize) -> bool
    requires { (a < length on.now) × (a < length settled.now) }
    ensures { result ≡ stops_here on.now settled.now a }
{
    settled[a] != 1 && on[a].is_some()
}

// Scans the tasks, each from its next step until it stops: writes those that have a candidate, and answers how many they are.
pub fn scan(
    s: &[u8],
    z: Layout,
    table: &[usize],
    on: &[Machine],
    ends: &[u64],
    lines: &[usize],
    steps: &[usize],
    settled: &mut [usize],
    kept: &mut [usize],
    offered: &mut [usize],
) -> usize
    requires placed { Placed z × Accepted (problem_of (words s.now) z) (genes_of (words s.now) z) × Tabled (problem_of (words s.now) z) table.now }
    requires manned { Manned (genes_of (words s.now) z) z.activities on.now × Timely z.activities ends.now lines.now steps.now × (length offered.old ≡ 32) }
    requires settled_len { (length settled.old ≡ z.activities) × Kept (problem_of (words s.now) z) (genes_of (words s.now) z) kept.old ends.now lines.now steps.now settled.old }
    ensures { ScannedAll (problem_of (words s.now) z) (genes_of (words s.now) z) settled.old settled.new kept.new ends.now lines.now steps.now (take result offered.new) × (result ≤ 32) × (result ≡ length (take result offered.new)) }
{
    let mut found = 0;
    'tasks: for task in 0..z.tasks {
        let last = kept[LAST_ROW + task];
        for a in kept[task]..last {
            if !stops(on, settled, a) {
                settled[a] = 1;
                continue;
            }
            kept[task] = a;
            if waits(s, z, table, task, a, settled, kept) {
                continue 'tasks;
            }
            keep_seat(s, z, table, ends, lines, steps, task, a, kept);
            offered[found] = task;
            found += 1;
            continue 'tasks;
        }
        kept[task] = last;
    }
    found
}
