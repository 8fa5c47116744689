// What one search step finds out about timed lines: the critical path, and the tail behind each activity.
#![tactic(auto)]

mod following;

ghost use Rattle.std.specs.Prelude.{◌≡◌, ℕ, ◌+◌, ◌^◌, ◌<◌, ◌≤◌, eqb, length, get_or, take, drop, Some};
ghost use Rattle.graph.specs.Counting.{Below};
ghost use Rattle.graph.specs.Links.{linked, link_of};
ghost use Rattle.plan.specs.Problem.{Problem};
ghost use Rattle.tables.specs.Tabled.{Tabled};
ghost use Rattle.lines.specs.Lines.{Lines};
ghost use Rattle.path.specs.Placing.{placed};
ghost use Rattle.path.specs.Path.{last_to_end, or_else, meeting, first_meeting, machine_before, critical_path};
ghost use Rattle.path.specs.Walking.{Backed, Walkable, Walked};

pub use following::{after_all, after_link, tails};

// The activity with the greatest end, the latest in the order among equals.
fn last_to_end(order: &[usize], ends: &[u64]) -> usize
    requires { (0 < length order.now) × Below (length ends.now) order.now }
    ensures { last_to_end order.now ends.now ≡ Some result }
{
    let mut last = order[0];
    for &a in &order[1..] {
        if ends[last] <= ends[a] {
            last = a;
        }
    }
    last
}

// The linked activity, if a way after its end is this start.
fn meeting(link: Option<usize>, ends: &[u64], way: u64, start: u64) -> Option<usize>
    requires { Below (length ends.now) (linked link) × ((b : ℕ) → get_or ends.now b 0 < 2 ^ 62) × (way < 2 ^ 32) }
    ensures { result ≡ meeting (λ b. eqb (get_or ends.now b 0 + way) start) link }
{
    let Some(b) = link else {
        return None;
    };
    if ends[b] + way == start {
        return Some(b);
    }
    None
}

// The first listed activity that ends at this start.
fn first_meeting(named: &[usize], ends: &[u64], start: u64) -> Option<usize>
    requires { Below (length ends.now) named.now }
    ensures { result ≡ first_meeting (λ b. eqb (get_or ends.now b 0) start) named.now }
{
    for &b in named {
        if ends[b] == start {
            return Some(b);
        }
    }
    None
}

// Where the path goes back to from an activity that its line does not hold back: the step before it, if a way after its end is this start,
// else the first listed predecessor that ends there.
fn back_by_plan(
    table: &[usize],
    task: Option<usize>,
    ends: &[u64],
    a: usize,
    way: u64,
    start: u64,
) -> Option<usize>
    requires { Backed table.now ends.now a × Below (length ends.now) (linked task) × ((b : ℕ) → get_or ends.now b 0 < 2 ^ 62) × (way < 2 ^ 32) }
    ensures { (p : Problem) → Tabled p table.now → a < p.n → p.n ≤ 128 → result ≡ or_else (meeting (λ b. eqb (get_or ends.now b 0 + way) start) task) (first_meeting (λ b. eqb (get_or ends.now b 0) start) (p.predecessors a)) }
{
    let Some(b) = meeting(task, ends, way, start) else {
        return first_meeting(tables::named_by(table, a), ends, start);
    };
    Some(b)
}

// Where the path goes back to: the line predecessor if it ends at this start, else what task order and predecessors give. `task` is the
// step before, `way` the transport from its machine.
fn back_of(
    table: &[usize],
    before: &[usize],
    task: Option<usize>,
    starts: &[u64],
    ends: &[u64],
    a: usize,
    way: u64,
) -> Option<usize>
    requires backed { Backed table.now ends.now a × Below (length ends.now) (linked task) × ((b : ℕ) → get_or ends.now b 0 < 2 ^ 62) × (way < 2 ^ 32) }
    requires a_in_bounds { (a < length starts.now) × (length before.now ≡ length ends.now) × (a < length before.now) }
    ensures { (p : Problem) → Tabled p table.now → a < p.n → p.n ≤ 128 → result ≡ or_else (meeting (λ b. eqb (get_or ends.now b 0) (get_or starts.now a 0)) (link_of before.now a)) (or_else (meeting (λ b. eqb (get_or ends.now b 0 + way) (get_or starts.now a 0)) task) (first_meeting (λ b. eqb (get_or ends.now b 0) (get_or starts.now a 0)) (p.predecessors a))) }
{
    let start = starts[a];
    let line = graph::link_of(before, a);
    let Some(b) = meeting(line, ends, 0, start) else {
        return back_by_plan(table, task, ends, a, way, start);
    };
    Some(b)
}

// The machine that an activity comes from: that of the step before it, its own where there is none.
fn machine_before(task: Option<usize>, machines: &[usize], a: usize) -> usize
    requires { Below (length machines.now) (linked task) × (a < length machines.now) }
    ensures { result ≡ machine_before machines.now a task }
{
    let Some(b) = task else {
        return machines[a];
    };
    machines[b]
}

// A transport time in the width of starts and ends.
fn wide(way: u32) -> u64
    ensures { (result ≡ way) × (result < 2 ^ 32) }
{
    way as u64
}

// Writes the critical path at the end of `path`, the first activity first, and answers where it begins. `before` links each activity to the
// one before it on its line, `machines` has the machine of each, `ways` the transport from machine to machine.
pub fn critical_path(
    table: &[usize],
    before: &[usize],
    machines: &[usize],
    ways: &[[u32; 16]; 16],
    order: &[usize],
    starts: &[u64],
    ends: &[u64],
    path: &mut [usize],
) -> usize
    requires { Walked table.now before.now machines.now ways.now (placed order.now starts.now ends.now) × (length path.old ≡ length order.now) }
    ensures path_after { (p : Problem) (lines : Lines) → Walkable p lines table.now before.now machines.now ways.now (placed order.now starts.now ends.now) → drop result path.new ≡ critical_path p lines (placed order.now starts.now ends.now) }
    ensures upper_bound { (result < length path.old) × (take result path.new ≡ take result path.old) }
{
    let mut a = last_to_end(order, ends);
    let mut at = path.len();
    let first = loop {
        at -= 1;
        path[at] = a;
        let task = tables::before_of(table, a);
        let from = machine_before(task, machines, a);
        let to = machines[a];
        let way = wide(ways[from][to]);
        let Some(b) = back_of(table, before, task, starts, ends, a, way) else {
            break at;
        };
        a = b;
    };
    first
}
