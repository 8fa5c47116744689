// What an accepted plan says, looked up in the stored words. Each answer is the function of the same name of `Problem` in specs/.
#![tactic(auto)]

ghost use Rattle.std.specs.Prelude.{◌≡◌, ℕ, ◌+◌, ◌*◌, ◌-◌, ◌<◌, ◌≤◌, ◌^◌, length, get_or, Option};
ghost use Rattle.words.specs.Words.{words};
ghost use Rattle.plan.specs.Input.{cell, release_in, problem_of, genes_of};
ghost use Rattle.plan.specs.Found.{Placed, Weighed, layout_in, times_of, row_to, transports_of};

use reader::Sections;

// Where each section's count stands, as a word number.
#[derive(Clone, Copy)]
pub struct Starts {
    pub tasks: usize,
    pub activities: usize,
    pub machines: usize,
    pub times: usize,
    pub candidates: usize,
    pub setups: usize,
    pub predecessors: usize,
    pub search: usize,
    pub order: usize,
    pub assignment: usize,
}

// How many tasks, activities and machines there are, and where the sections stand.
#[derive(Clone, Copy)]
pub struct Layout {
    pub tasks: usize,
    pub activities: usize,
    pub machines: usize,
    pub at: Starts,
}

// An activity's three times on a machine.
#[derive(Clone, Copy)]
pub struct Times {
    pub setup: u32,
    pub process: u32,
    pub teardown: u32,
}

// The layout of what was read, its numbers one by one.
pub fn layout_of(r: Sections) -> Layout
    ensures { result ≡ layout_in r.known r.starts }
{
    let starts = r.starts;
    let known = r.known;
    Layout {
        tasks: known.tasks as usize,
        activities: known.activities as usize,
        machines: known.machines as usize,
        at: Starts {
            tasks: starts[0],
            activities: starts[1],
            machines: starts[2],
            times: starts[3],
            candidates: starts[4],
            setups: starts[5],
            predecessors: starts[6],
            search: starts[7],
            order: starts[8],
            assignment: starts[9],
        },
    }
}

// The f-th word of the e-th entry of a section of `width` words an entry.
fn cell_at(s: &[u8], at: usize, width: usize, e: usize, f: usize) -> u32
    requires { (at < 2 ^ 32) × (width ≤ 16) × (e < 2 ^ 32) × (f < 2 ^ 32) }
    ensures { result ≡ cell (words s.now) at width e f }
{
    words::word(s, at + 1 + width * e + f)
}

pub fn category(s: &[u8], z: Layout, t: usize) -> u32
    requires { Placed z × (t < 2 ^ 32) }
    ensures { result ≡ (problem_of (words s.now) z).category t }
{
    cell_at(s, z.at.tasks, 5, t, 0)
}

// How many activities a task has.
pub fn steps(s: &[u8], z: Layout, t: usize) -> u32
    requires { Placed z × (t < 2 ^ 32) }
    ensures { result ≡ (problem_of (words s.now) z).steps t }
{
    cell_at(s, z.at.tasks, 5, t, 4)
}

pub fn deadline(s: &[u8], z: Layout, t: usize) -> Option<i32>
    requires { Placed z × (t < 2 ^ 32) }
    ensures { result ≡ (problem_of (words s.now) z).deadline t }
{
    let flag = cell_at(s, z.at.tasks, 5, t, 2);
    if flag != 1 {
        return None;
    }
    let word = cell_at(s, z.at.tasks, 5, t, 3);
    Some(words::signed_word(word))
}

// An activity's times on a machine.
pub fn times_on(s: &[u8], z: Layout, a: usize, m: usize) -> Times
    requires { Placed z × (a < 2 ^ 16) × (m < 2 ^ 16) }
    ensures { result ≡ times_of (problem_of (words s.now) z) a m }
{
    let e = a * z.machines + m;
    let at = z.at.times;
    let setup = cell_at(s, at, 3, e, 0);
    let process = cell_at(s, at, 3, e, 1);
    let teardown = cell_at(s, at, 3, e, 2);
    Times {
        setup,
        process,
        teardown,
    }
}

// The way from a machine to a machine.
pub fn transport(s: &[u8], z: Layout, from: usize, to: usize) -> u32
    requires { Placed z × (from < 2 ^ 16) × (to < 2 ^ 16) }
    ensures { result ≡ (problem_of (words s.now) z).transport from to }
{
    cell_at(s, z.at.machines, z.machines, from, to)
}

// How many steps the search may take.
pub fn limit(s: &[u8], z: Layout) -> u32
    requires { Placed z }
    ensures { result ≡ (problem_of (words s.now) z).limit }
{
    cell_at(s, z.at.search, 3, 0, 2)
}

// The machine that the genes give an activity.
pub fn assigned(s: &[u8], z: Layout, a: usize) -> Option<usize>
    requires { Placed z × (a < 2 ^ 32) }
    ensures { result ≡ (genes_of (words s.now) z).assigned a }
{
    let at = z.at.assignment;
    let count = words::word(s, at) as usize;
    if count <= a {
        return None;
    }
    let m = cell_at(s, at, 1, a, 0);
    if m == 0xFFFF_FFFF {
        return None;
    }
    Some(m as usize)
}

// The release of an activity of a task: the greater of both, a negative one as 0.
pub fn later_release(s: &[u8], z: Layout, t: usize, a: usize) -> u32
    requires { Placed z × (t < 2 ^ 32) × (a < 2 ^ 32) }
    ensures { result ≡ release_in (words s.now) z t a }
{
    let task = words::clamped(cell_at(s, z.at.tasks, 5, t, 1));
    let own = words::clamped(cell_at(s, z.at.activities, 1, a, 0));
    task.max(own)
}

// The ways from one machine to each, zeros after the last.
fn transport_row(s: &[u8], z: Layout, from: usize) -> [u32; 16]
    requires { Placed z × (from < 2 ^ 16) }
    ensures { result ≡ row_to ((problem_of (words s.now) z).transport from) z.machines }
{
    let mut row: [u32; 16] = [0; 16];
    for to in 0..z.machines {
        row[to] = transport(s, z, from, to);
    }
    row
}

// The ways between machines as sixteen rows of sixteen, to be handed on by value.
pub fn transports(s: &[u8], z: Layout) -> [[u32; 16]; 16]
    requires { Placed z }
    ensures { result ≡ transports_of (problem_of (words s.now) z) }
{
    let mut rows: [[u32; 16]; 16] = [[0; 16]; 16];
    for from in 0..z.machines {
        rows[from] = transport_row(s, z, from);
    }
    rows
}

// The weight of tardiness.
pub fn weight(s: &[u8], z: Layout) -> f64
    requires { Placed z × Weighed (words s.now) z }
    ensures { result ≡ (problem_of (words s.now) z).weight }
{
    let low = cell_at(s, z.at.search, 3, 0, 0);
    let high = cell_at(s, z.at.search, 3, 0, 1);
    let bits = (high as u64) * 0x1_0000_0000 + (low as u64);
    f64::from_bits(bits)
}

// How many words the Order has, and its k-th.
pub fn namings(s: &[u8], z: Layout) -> usize
    ensures { result ≡ get_or (words s.now) z.at.order 0 }
{
    words::word(s, z.at.order) as usize
}

pub fn naming(s: &[u8], z: Layout, k: usize) -> u32
    requires { Placed z × (k < 2 ^ 32) }
    ensures { result ≡ cell (words s.now) z.at.order 1 k 0 }
{
    cell_at(s, z.at.order, 1, k, 0)
}
