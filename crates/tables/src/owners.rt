// Of each activity: its task, the next step of that task, and whether a step comes before.
ghost use Rattle.std.specs.Prelude.{◌≡◌, ◌+◌, ◌<◌, ◌≤◌, length};
ghost use Rattle.words.specs.Words.{words};
ghost use Rattle.plan.specs.Input.{problem_of, task_of};
ghost use Rattle.plan.specs.Found.{Placed};
ghost use Rattle.tables.specs.Entries.{Entries};
ghost use Rattle.tables.specs.Columns.{Filled, Begun, next_in, before_in};

use crate::Place;
use plan::Layout;

// The task of activity a, from one that has begun by then. Every task has an activity, so it is
// that one or the next.
fn place_of(s: &[u8], z: Layout, p: Place, a: usize) -> Place
    requires { Placed z × Entries (words s.now) z × (a < z.activities) × Begun (words s.now) z p a }
    ensures { Begun (words s.now) z result a × (a < result.end) }
{
    if a < p.end {
        return p;
    }
    let task = p.task + 1;
    let count = plan::steps(s, z, task) as usize;
    Place {
        task,
        end: a + count,
    }
}

// owners[a] becomes the task of activity a.
pub fn fill_owners(s: &[u8], z: Layout, owners: &mut [usize])
    requires { Placed z × Entries (words s.now) z × (z.activities ≤ length owners.old) }
    ensures { Filled z.activities (task_of (words s.now) z) owners.new }
{
    let mut place = Place {
        task: 0,
        end: plan::steps(s, z, 0) as usize,
    };
    for a in 0..z.activities {
        place = place_of(s, z, place, a);
        owners[a] = place.task;
    }
}

// The next activity of the same task, n where there is none.
fn next_in(owners: &[usize], n: usize, a: usize) -> usize
    requires { (a < n) × (n ≤ length owners.now) }
    ensures { result ≡ next_in owners.now n a }
{
    let b = a + 1;
    if n <= b {
        return n;
    }
    if owners[b] == owners[a] {
        return b;
    }
    n
}

// nexts[a] becomes the next activity of a's task, n where there is none.
pub fn fill_nexts(owners: &[usize], n: usize, nexts: &mut [usize])
    requires { (n ≤ length owners.now) × (n ≤ length nexts.old) }
    ensures { Filled n (next_in owners.now n) nexts.new }
{
    for a in 0..n {
        nexts[a] = next_in(owners, n, a);
    }
}

// 1 where the activity before is of the same task, else 0.
fn before_in(owners: &[usize], a: usize) -> usize
    requires { a < length owners.now }
    ensures { result ≡ before_in owners.now a }
{
    if a == 0 {
        return 0;
    }
    let earlier = a - 1;
    if owners[earlier] == owners[a] {
        return 1;
    }
    0
}

// befores[a] becomes 1 where a step comes before a in its task, else 0.
pub fn fill_befores(owners: &[usize], n: usize, befores: &mut [usize])
    requires { (n ≤ length owners.now) × (n ≤ length befores.old) }
    ensures { Filled n (before_in owners.now) befores.new }
{
    for a in 0..n {
        befores[a] = before_in(owners, a);
    }
}

// releases[a] becomes the release of activity a.
pub fn fill_releases(s: &[u8], z: Layout, owners: &[usize], releases: &mut [usize])
    requires { Placed z × (z.activities ≤ length owners.now) × (z.activities ≤ length releases.old) × Filled z.activities (task_of (words s.now) z) owners.now }
    ensures { Filled z.activities (problem_of (words s.now) z).release releases.new }
{
    for a in 0..z.activities {
        let t = owners[a];
        releases[a] = plan::later_release(s, z, t, a) as usize;
    }
}

// categories[a] becomes the category of the task of activity a.
pub fn fill_categories(s: &[u8], z: Layout, owners: &[usize], categories: &mut [usize])
    requires { Placed z × (z.activities ≤ length owners.now) × (z.activities ≤ length categories.old) × Filled z.activities (task_of (words s.now) z) owners.now }
    ensures { Filled z.activities (λ a. (problem_of (words s.now) z).category (task_of (words s.now) z a)) categories.new }
{
    for a in 0..z.activities {
        let t = owners[a];
        categories[a] = plan::category(s, z, t) as usize;
    }
}
