// How good a placing is: its makespan and its total tardiness, weighed against each other.
#![tactic(auto)]

mod last_steps;

ghost use Rattle.std.specs.Prelude.{◌≡◌, ◌+◌, ◌≤◌, ◌^◌, length, get_or};
ghost use Rattle.std.specs.Float.Ieee.{to_bits};
ghost use Rattle.std.specs.Float.{binary64};
ghost use Rattle.words.specs.Words.{words};
ghost use Rattle.plan.specs.Input.{problem_of, genes_of};
ghost use Rattle.plan.specs.Found.{Placed, Weighed};
ghost use Rattle.plan.specs.Accepted.{Accepted};
ghost use Rattle.fitness.specs.Fitness.{latest, sums_of, weighted, fitness_of};
ghost use Rattle.fitness.specs.Ended.{Ended};

pub use last_steps::fitness_by_last_steps;
use plan::Layout;

// The makespan, and the sum of the tasks' tardinesses.
#[derive(Clone, Copy)]
pub struct Sums {
    pub makespan: u64,
    pub late: u64,
}

// Of a task: the word that says whether it has a deadline, the deadline's word, and how many steps it has.
#[derive(Clone, Copy)]
pub struct Row {
    pub dated: u32,
    pub deadline: u32,
    pub steps: u32,
}

// When a task is complete: the latest end of its activities.
pub fn completion(first: usize, steps: usize, ends: &[u64]) -> u64
    requires { first + steps ≤ length ends.now }
    ensures { result ≡ latest (λ a. get_or ends.now a 0) first steps }
{
    let mut latest: u64 = 0;
    for &end in &ends[first..first + steps] {
        latest = latest.max(end);
    }
    latest
}

// Activities are numbered task by task, so each task's first one follows from the steps of those before it.
pub fn sums_of(s: &[u8], z: Layout, ends: &[u64]) -> Sums
    requires placed { Placed z × Accepted (problem_of (words s.now) z) (genes_of (words s.now) z) }
    requires ended { Ended z.activities ends.now }
    ensures { (result ≡ sums_of (problem_of (words s.now) z) (λ a. get_or ends.now a 0)) × (result.makespan ≤ 2 ^ 53) × (result.late ≤ 2 ^ 53) }
{
    let mut first: usize = 0;
    let mut makespan: u64 = 0;
    let mut late: u64 = 0;
    for t in 0..z.tasks {
        let steps = plan::steps(s, z, t) as usize;
        let done = completion(first, steps, ends);
        makespan = makespan.max(done);
        let due = plan::deadline(s, z, t);
        late += bounds::tardiness(done, due);
        first += steps;
    }
    Sums { makespan, late }
}

// (1 - w) * makespan + w * late, each operation rounded once. Both numbers are whole ones that a float holds exactly.
pub fn weighted(w: f64, makespan: u64, late: u64) -> f64
    requires { (makespan ≤ 2 ^ 53) × (late ≤ 2 ^ 53) }
    ensures { result ≡ weighted w makespan late }
{
    (1.0 - w) * (makespan as f64) + w * (late as f64)
}

// The fitness of a placing with these ends.
pub fn fitness_of(s: &[u8], z: Layout, ends: &[u64]) -> f64
    requires placed { Placed z × Accepted (problem_of (words s.now) z) (genes_of (words s.now) z) × Weighed (words s.now) z }
    requires ended { Ended z.activities ends.now }
    ensures { result ≡ fitness_of (problem_of (words s.now) z) (λ a. get_or ends.now a 0) }
{
    let w = plan::weight(s, z);
    let of = sums_of(s, z, ends);
    weighted(w, of.makespan, of.late)
}

// The same as bits. The weight lies from 0 to 1, so a fitness is never a NaN, whose bits could be any.
pub fn fitness_bits(s: &[u8], z: Layout, ends: &[u64]) -> u64
    requires placed { Placed z × Accepted (problem_of (words s.now) z) (genes_of (words s.now) z) × Weighed (words s.now) z }
    requires ended { Ended z.activities ends.now }
    ensures { result ≡ to_bits binary64 (fitness_of (problem_of (words s.now) z) (λ a. get_or ends.now a 0)) }
{
    f64::to_bits(fitness_of(s, z, ends))
}
