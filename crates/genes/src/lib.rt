// What the genes give: the activities that the Order names, one after the other, and the machine of each.
#![tactic(auto)]

ghost use Rattle.std.specs.Prelude.{◌≡◌, ◌≤◌, ◌<◌, ◌^◌, length};
ghost use Rattle.words.specs.Words.{words};
ghost use Rattle.plan.specs.Input.{cell, problem_of, genes_of};
ghost use Rattle.plan.specs.Found.{Placed};
ghost use Rattle.plan.specs.Accepted.{Accepted};
ghost use Rattle.genes.specs.Indexed.{indexed, assigned_to, all_assigned};
ghost use Rattle.genes.specs.Held.{filled_to, Listed, task_named};
ghost use Rattle.genes.specs.Lot.{Lines};

use plan::Layout;

// The first activity of each task.
fn fill_firsts(s: &[u8], z: Layout, firsts: &mut [usize])
    requires { Placed z × (z.tasks ≤ length firsts.old) }
    ensures { firsts.new ≡ filled_to (problem_of (words s.now) z).first z.tasks firsts.old }
{
    let mut first: usize = 0;
    for t in 0..z.tasks {
        firsts[t] = first;
        first += plan::steps(s, z, t) as usize;
    }
}

// The task that the k-th word of the Order names.
fn task_named(s: &[u8], z: Layout, k: usize) -> Option<usize>
    requires { Placed z × (k < 2 ^ 32) }
    ensures { result ≡ task_named (problem_of (words s.now) z) (cell (words s.now) z.at.order 1 k 0) }
{
    let t = plan::naming(s, z, k) as usize;
    if z.tasks <= t {
        return None;
    }
    Some(t)
}

// The activities that the Order gives, and how many they are. A task's k-th naming is its k-th
// activity; a task that there is not, and a naming for which its task has no activity left, give none.
pub fn indexed(s: &[u8], z: Layout, activities: &mut [usize]) -> usize
    requires { Placed z × Accepted (problem_of (words s.now) z) (genes_of (words s.now) z) × (z.activities ≤ length activities.old) }
    ensures listed { Listed (indexed (problem_of (words s.now) z) (genes_of (words s.now) z)) activities.old activities.new result }
    ensures upper_bound { result ≤ z.activities }
{
    let mut firsts: [usize; 32] = [0; 32];
    fill_firsts(s, z, &mut firsts);
    let mut named: [usize; 32] = [0; 32];
    let namings = plan::namings(s, z);
    let mut count: usize = 0;
    for k in 0..namings {
        let Some(t) = task_named(s, z, k) else {
            continue;
        };
        let nth = named[t];
        named[t] += 1;
        let steps = plan::steps(s, z, t) as usize;
        if nth < steps {
            activities[count] = firsts[t] + nth;
            count += 1;
        }
    }
    count
}

// The machine of each activity, 0 where it has none; answers whether each has one.
pub fn fill_machines(s: &[u8], z: Layout, machines: &mut [usize]) -> bool
    requires { Placed z × (z.activities ≤ length machines.old) }
    ensures value { result ≡ all_assigned (problem_of (words s.now) z) (genes_of (words s.now) z) }
    ensures machines_after { machines.new ≡ filled_to (assigned_to (genes_of (words s.now) z)) z.activities machines.old }
{
    let mut all = true;
    for a in 0..z.activities {
        let Some(m) = plan::assigned(s, z, a) else {
            machines[a] = 0;
            all = false;
            continue;
        };
        machines[a] = m;
    }
    all
}

// Deals the lines that the genes give, and answers how many activities stand on each machine. Where an activity has no machine, or the order
// names too few, there are none, and the cells are left as they are.
pub fn deal_lines(s: &[u8], z: Layout, cells: &mut [usize]) -> Option<[usize; 16]>
    requires { Placed z × Accepted (problem_of (words s.now) z) (genes_of (words s.now) z) × (length cells.old ≡ 2048) }
    ensures { Lines (problem_of (words s.now) z) (genes_of (words s.now) z) cells.new result }
{
    let mut on = [0usize; 128];
    let mut listed = [0usize; 128];
    let all = fill_machines(s, z, &mut on);
    let count = indexed(s, z, &mut listed);
    if !all {
        return None;
    }
    if count < z.activities {
        return None;
    }
    Some(lines::deal(&listed[..count], &on, cells))
}
