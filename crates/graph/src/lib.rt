// Whom an activity frees, the timing order by a stack, and the filing of those that name each.
#![tactic(auto)]

mod counting;
mod filing;

ghost use Rattle.std.specs.Prelude.{◌≡◌, [], ℕ, ◌+◌, ◌-◌, ◌<◌, ◌≤◌, length, get_or, take};
ghost use Rattle.graph.specs.Order.{free, free_all, order_from, stack_free, order_of};
ghost use Rattle.graph.specs.Links.{linked, link_of, part_of, succs_of, Shaped, Linked};
ghost use Rattle.graph.specs.Run.{stack_of, state_of, Safe, SafeRun};

pub use counting::{count_arcs, tally_by, tally_links};
pub use filing::file_naming;

// The activity that a link names. There are as many links as activities, so a number that is not
// below their count is no activity and stands for none.
pub fn link_of(links: &[usize], a: usize) -> Option<usize>
    requires { a < length links.now }
    ensures { result ≡ link_of links.now a }
{
    let b = links[a];
    if b < links.len() {
        return Some(b);
    }
    None
}

// One arc into b is met: it waits for one less, and is stacked where that leaves none.
fn lower(b: usize, counts: &mut [usize], stack: &mut [usize], top: usize) -> usize
    requires { (b < length counts.old) × (0 < get_or counts.old b 0) × (length (free b (state_of counts.old stack.old top)).stack ≤ length stack.old) }
    ensures { state_of counts.new stack.new result ≡ free b (state_of counts.old stack.old top) }
{
    let left = counts[b] - 1;
    counts[b] = left;
    if left == 0 {
        stack[top] = b;
        return top + 1;
    }
    top
}

// Frees a's successor by one array of links, where it has one.
fn meet(a: usize, links: &[usize], counts: &mut [usize], stack: &mut [usize], top: usize) -> usize
    requires { (a < length links.now) × Safe (linked (link_of links.now a)) (state_of counts.old stack.old top) (length stack.old) }
    ensures { state_of counts.new stack.new result ≡ free_all (linked (link_of links.now a)) (state_of counts.old stack.old top) }
{
    let Some(b) = link_of(links, a) else {
        return top;
    };
    lower(b, counts, stack, top)
}

// Frees all of a list, the first first.
fn release_list(bs: &[usize], counts: &mut [usize], stack: &mut [usize], top: usize) -> usize
    requires { Safe bs.now (state_of counts.old stack.old top) (length stack.old) }
    ensures { (state_of counts.new stack.new result ≡ free_all bs.now (state_of counts.old stack.old top)) × (result ≤ length stack.old) }
{
    let mut over = top;
    for &b in bs {
        over = lower(b, counts, stack, over);
    }
    over
}

// Frees those that name a: they stand in waiting[at[a]..at[a + 1]].
fn release_naming(
    a: usize,
    at: &[usize],
    waiting: &[usize],
    counts: &mut [usize],
    stack: &mut [usize],
    top: usize,
) -> usize
    requires a_in_bounds { (a + 1 < length at.now) × (get_or at.now a 0 ≤ get_or at.now (a + 1) 0) × (get_or at.now (a + 1) 0 ≤ length waiting.now) }
    requires safe { Safe (part_of at.now waiting.now a) (state_of counts.old stack.old top) (length stack.old) }
    ensures { (state_of counts.new stack.new result ≡ free_all (part_of at.now waiting.now a) (state_of counts.old stack.old top)) × (result ≤ length stack.old) }
{
    let from = at[a];
    let to = at[a + 1];
    release_list(&waiting[from..to], counts, stack, top)
}

// Frees a's line successor, its task successor, then those that name it.
pub fn release(
    a: usize,
    line: &[usize],
    task: &[usize],
    at: &[usize],
    waiting: &[usize],
    counts: &mut [usize],
    stack: &mut [usize],
    top: usize,
) -> usize
    requires a_in_bounds { (a < length line.now) × Shaped (length line.now) line.now task.now at.now waiting.now }
    requires safe { Safe (succs_of line.now task.now at.now waiting.now a) (state_of counts.old stack.old top) (length stack.old) }
    ensures { (state_of counts.new stack.new result ≡ free_all (succs_of line.now task.now at.now waiting.now a) (state_of counts.old stack.old top)) × (result ≤ length stack.old) }
{
    let after_line = meet(a, line, counts, stack, top);
    let after_task = meet(a, task, counts, stack, after_line);
    release_naming(a, at, waiting, counts, stack, after_task)
}

// Stacks those that wait for nothing, the lowest number first.
pub fn stack_free(counts: &[usize], stack: &mut [usize]) -> usize
    requires { length counts.now ≤ length stack.old }
    ensures { (stack_of stack.new result ≡ stack_free counts.now (length counts.now) 0 []) × (result ≤ length counts.now) }
{
    let mut top = 0;
    for (a, &count) in counts.iter().enumerate() {
        if count == 0 {
            stack[top] = a;
            top += 1;
        }
    }
    top
}

// Takes from the stack until it is empty, writes down each activity taken and frees those that
// wait for it.
fn take_all(
    line: &[usize],
    task: &[usize],
    at: &[usize],
    waiting: &[usize],
    counts: &mut [usize],
    stack: &mut [usize],
    first: usize,
    order: &mut [usize],
) -> usize
    requires first_in_bounds { (first ≤ length stack.old) × Shaped (length line.now) line.now task.now at.now waiting.now }
    requires safe_run { SafeRun (length line.now) (succs_of line.now task.now at.now waiting.now) (length order.old) counts.old (stack_of stack.old first) (length stack.old) }
    ensures { (take result order.new ≡ order_from (succs_of line.now task.now at.now waiting.now) (length order.old) counts.old (stack_of stack.old first)) × (result ≤ length order.old) }
{
    let mut top = first;
    let mut taken = 0;
    while 0 < top {
        top -= 1;
        let a = stack[top];
        order[taken] = a;
        taken += 1;
        top = release(a, line, task, at, waiting, counts, stack, top);
    }
    taken
}

// Writes the timing order into `order`, and answers how many activities it names: fewer than there
// are exactly where the arcs close a circle. Line and task successors are links; those that name a
// stand in waiting[at[a]..at[a + 1]]; counts[b] is the number of arcs into b, and is used up.
pub fn order_of(
    line: &[usize],
    task: &[usize],
    at: &[usize],
    waiting: &[usize],
    counts: &mut [usize],
    stack: &mut [usize],
    order: &mut [usize],
) -> usize
    requires { Linked (length order.old) line.now task.now at.now waiting.now counts.old × (length order.old ≤ length stack.old) }
    ensures { (take result order.new ≡ order_of (succs_of line.now task.now at.now waiting.now) (length order.old) counts.old) × (result ≤ length order.old) }
{
    let top = stack_free(counts, stack);
    take_all(line, task, at, waiting, counts, stack, top, order)
}
