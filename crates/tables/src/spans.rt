// How long each activity takes on each machine with its own setup.
ghost use Rattle.std.specs.Prelude.{◌≡◌, ℕ, ◌+◌, ◌*◌, ◌<◌, ◌^◌, length};
ghost use Rattle.words.specs.Words.{words};
ghost use Rattle.plan.specs.Input.{problem_of};
ghost use Rattle.plan.specs.Found.{Placed};
ghost use Rattle.tables.specs.Columns.{Filled, row_sum, Spanned};

use plan::Layout;

// The sum of three words that follow each other.
fn sum_words(s: &[u8], first: usize) -> usize
    requires { first < 2 ^ 40 }
    ensures { result ≡ row_sum (words s.now) first }
{
    let setup = words::word(s, first) as usize;
    let process = words::word(s, first + 1) as usize;
    let teardown = words::word(s, first + 2) as usize;
    setup + process + teardown
}

// The same, quicker: of a part that has three words it is tested once, not for each, that they are there.
fn sum_row(s: &[u8], first: usize) -> usize
    requires { first < 2 ^ 40 }
    ensures { result ≡ row_sum (words s.now) first }
{
    let from = 4 * first;
    let to = from + 12;
    if s.len() < to {
        return sum_words(s, first);
    }
    sum_words(&s[from..to], 0)
}

// spans[m] becomes how long an activity takes on machine m; `first` is the word of its setup on machine 0.
fn fill_machines(s: &[u8], first: usize, spans: &mut [usize])
    requires { (first < 2 ^ 34) × (length spans.old < 2 ^ 34) }
    ensures { Filled (length spans.old) (λ m. row_sum (words s.now) (first + 3 * m)) spans.new }
{
    for (m, span) in spans.iter_mut().enumerate() {
        *span = sum_row(s, first + 3 * m);
    }
}

// spans[16 a + m] becomes how long activity a takes on machine m with its own setup.
pub fn fill_spans(s: &[u8], z: Layout, spans: &mut [usize])
    requires { Placed z × (length spans.old ≡ 2048) }
    ensures { Spanned (problem_of (words s.now) z) z.activities spans.new }
{
    let machines = z.machines;
    let mut first = z.at.times + 1;
    for a in 0..z.activities {
        let from = 16 * a;
        let to = from + machines;
        fill_machines(s, first, &mut spans[from..to]);
        first += 3 * machines;
    }
}
