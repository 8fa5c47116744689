// The order in which activities are taken: repeatedly the first of the given order that waits for none that is still to come.
ghost use Rattle.std.specs.Prelude.{◌≡◌, ℕ, ◌+◌, ◌≤◌, ◌<◌, length, drop};
ghost use Rattle.graph.specs.Counting.{count_of, Below};
ghost use Rattle.plan.specs.Problem.{Problem};
ghost use Rattle.lines.specs.Linking.{marked};
ghost use Rattle.tables.specs.Tabled.{Tabled};
ghost use Rattle.genes.specs.Held.{Listed};
ghost use Rattle.in_order.specs.InOrder.{any_pending, is_ready, can_come, first_ready, ready_order};
ghost use Rattle.in_order.specs.Waiting.{taken_before, step_pending, Told, Stepwise, Naming, Flagged, Waiting, Ordered};

// Marks all of the order as pending.
fn mark(activities: &[usize], pending: &mut [usize])
    requires { Below (length pending.old) activities.now }
    ensures { pending.new ≡ marked activities.now 1 pending.old }
{
    for &a in activities {
        pending[a] = 1;
    }
}

// Whether one of the list is pending.
fn any_pending(list: &[usize], pending: &[usize]) -> bool
    requires { Below (length pending.now) list.now }
    ensures { result ≡ any_pending pending.now list.now }
{
    for &b in list {
        if pending[b] == 1 {
            return true;
        }
    }
    false
}

// Whether the step before an activity is pending.
fn step_pending(table: &[usize], pending: &[usize], a: usize) -> bool
    requires { Flagged table.now pending.now a }
    ensures { (p : Problem) → Tabled p table.now → a < p.n → result ≡ step_pending p pending.now a }
{
    let Some(b) = tables::before_of(table, a) else {
        return false;
    };
    if pending[b] == 1 {
        return true;
    }
    false
}

// Whether an activity's predecessors and earlier steps are taken or not in the order. The steps of a task are taken one after the other, so
// that the step before tells of all earlier ones.
fn is_ready(table: &[usize], pending: &[usize], a: usize) -> bool
    requires { Flagged table.now pending.now a }
    ensures { (p : Problem) → Naming p table.now → a < p.n → Told p pending.now a → result ≡ is_ready p pending.now a }
{
    if any_pending(tables::named_by(table, a), pending) {
        return false;
    }
    if step_pending(table, pending, a) {
        return false;
    }
    true
}

// Whether an activity is pending and ready.
fn can_come(table: &[usize], pending: &[usize], a: usize) -> bool
    requires { Flagged table.now pending.now a }
    ensures { (p : Problem) → Naming p table.now → a < p.n → Told p pending.now a → result ≡ can_come p pending.now a }
{
    if pending[a] != 1 {
        return false;
    }
    is_ready(table, pending, a)
}

// How far the activities from one place on are taken.
fn skip_taken(activities: &[usize], pending: &[usize], from: usize) -> usize
    requires { Below (length pending.now) activities.now × (from ≤ length activities.now) }
    ensures { result ≡ from + taken_before pending.now (drop from activities.now) }
{
    for i in from..activities.len() {
        let a = activities[i];
        if pending[a] == 1 {
            return i;
        }
    }
    activities.len()
}

// The first of the order, from one place on, that is pending and ready.
fn first_ready(
    table: &[usize],
    activities: &[usize],
    pending: &[usize],
    from: usize,
) -> Option<usize>
    requires { Waiting table.now activities.now pending.now × (from ≤ length activities.now) }
    ensures { (p : Problem) → Naming p table.now → Below p.n activities.now → ((a : ℕ) → 0 < count_of a activities.now → Told p pending.now a) → result ≡ first_ready p pending.now (drop from activities.now) }
{
    for &a in &activities[from..] {
        if can_come(table, pending, a) {
            return Some(a);
        }
    }
    None
}

// Writes the activities in the order in which they are taken, and answers how many they are. All before the front are taken, so that an
// order in which none waits for a later one is passed once.
pub fn ready_order(table: &[usize], activities: &[usize], order: &mut [usize]) -> usize
    requires { Ordered table.now activities.now × (length activities.now ≤ length order.old) }
    ensures listed { (p : Problem) → Naming p table.now → Below p.n activities.now → Stepwise p activities.now → Listed (ready_order p activities.now) order.old order.new result }
    ensures upper_bound { result ≤ length activities.now }
{
    let mut pending = [0usize; 128];
    mark(activities, &mut pending);
    let mut front = 0;
    for taken in 0..activities.len() {
        front = skip_taken(activities, &pending, front);
        let Some(a) = first_ready(table, activities, &pending, front) else {
            return taken;
        };
        order[taken] = a;
        pending[a] = 0;
    }
    activities.len()
}
