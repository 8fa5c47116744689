// The fitness of timed lines, whose tasks are complete when their last steps end: no other end is looked at.
ghost use Rattle.std.specs.Prelude.{◌≡◌, ◌+◌, ◌≤◌, ◌<◌, ◌^◌, eqb, get_or};
ghost use Rattle.words.specs.Words.{words};
ghost use Rattle.words.specs.Signed.{signed_word};
ghost use Rattle.plan.specs.Input.{problem_of, genes_of, some_if};
ghost use Rattle.plan.specs.Found.{Placed, Weighed};
ghost use Rattle.plan.specs.Accepted.{Accepted};
ghost use Rattle.bounds.specs.Bounds.{tardiness_of};
ghost use Rattle.fitness.specs.Fitness.{sums_of, fitness_of};
ghost use Rattle.fitness.specs.Ended.{Ended};
ghost use Rattle.fitness.specs.Rising.{Rising, row_from};

use crate::{Row, Sums, weighted};
use plan::Layout;

// Three words that follow each other.
fn row_words(s: &[u8], at: usize) -> Row
    requires { at < 2 ^ 40 }
    ensures { result ≡ row_from (words s.now) at }
{
    let dated = words::word(s, at);
    let deadline = words::word(s, at + 1);
    let steps = words::word(s, at + 2);
    Row {
        dated,
        deadline,
        steps,
    }
}

// The same, quicker: of a part that has three words it is tested once, not for each, that they are there.
fn row(s: &[u8], at: usize) -> Row
    requires { at < 2 ^ 40 }
    ensures { result ≡ row_from (words s.now) at }
{
    let from = 4 * at;
    let to = from + 12;
    if s.len() < to {
        return row_words(s, at);
    }
    row_words(&s[from..to], 0)
}

// How late a task is that is complete at `done`.
fn late_in(of: Row, done: u64) -> u64
    requires { done < 2 ^ 62 }
    ensures { result ≡ tardiness_of done (some_if (eqb of.dated 1) (signed_word of.deadline)) }
{
    if of.dated != 1 {
        return 0;
    }
    let word = of.deadline;
    let d = words::signed_word(word);
    bounds::tardiness(done, Some(d))
}

// Both sums of ends that rise within each task.
fn sums_by_last_steps(s: &[u8], z: Layout, ends: &[u64]) -> Sums
    requires placed { Placed z × Accepted (problem_of (words s.now) z) (genes_of (words s.now) z) }
    requires ended { Ended z.activities ends.now × Rising (problem_of (words s.now) z) ends.now }
    ensures { (result ≡ sums_of (problem_of (words s.now) z) (λ a. get_or ends.now a 0)) × (result.makespan ≤ 2 ^ 53) × (result.late ≤ 2 ^ 53) }
{
    let mut first: usize = 0;
    let mut makespan: u64 = 0;
    let mut late: u64 = 0;
    for t in 0..z.tasks {
        let of = row(s, z.at.tasks + 3 + 5 * t);
        let steps = of.steps as usize;
        let last = first + steps - 1;
        let done = ends[last];
        makespan = makespan.max(done);
        late += late_in(of, done);
        first += steps;
    }
    Sums { makespan, late }
}

// The fitness of a placing whose ends rise within each task.
pub fn fitness_by_last_steps(s: &[u8], z: Layout, ends: &[u64]) -> f64
    requires placed { Placed z × Accepted (problem_of (words s.now) z) (genes_of (words s.now) z) × Weighed (words s.now) z }
    requires ended { Ended z.activities ends.now × Rising (problem_of (words s.now) z) ends.now }
    ensures { result ≡ fitness_of (problem_of (words s.now) z) (λ a. get_or ends.now a 0) }
{
    let w = plan::weight(s, z);
    let of = sums_by_last_steps(s, z, ends);
    weighted(w, of.makespan, of.late)
}
