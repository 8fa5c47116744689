// The lines of a workshop's machines: number 7's test, who stands before and after whom, and the lines that an order gives.
#![tactic(auto)]

mod dealing;
mod linking;
mod relinking;

ghost use Rattle.std.specs.Prelude.{◌≡◌, ℕ, ◌≤◌, length, get_or, ltb};
ghost use Rattle.lines.specs.Lines.{lines_in, all_short, all_zero, all, all_one, all_fit, CountedLines, Fit, well_formed};

pub use dealing::deal;
pub use linking::link_lines;
pub use relinking::relink_line;

// Whether no line is longer than its stretch.
fn all_short(lens: &[usize]) -> bool
    ensures { result ≡ all_short lens.now }
{
    lens.iter().all(|&len| len < 129)
}

// Whether none of these machines has a line.
fn all_zero(lens: &[usize]) -> bool
    ensures { result ≡ all_zero lens.now }
{
    lens.iter().all(|&len| len == 0)
}

// Whether each on the line is an activity.
fn all_below(line: &[usize], n: usize) -> bool
    ensures { result ≡ all (λ a. ltb a n) line.now }
{
    line.iter().all(|&a| a < n)
}

// Whether each was counted once.
fn all_one(counts: &[usize]) -> bool
    ensures { result ≡ all_one counts.now }
{
    counts.iter().all(|&count| count == 1)
}

// Whether each line fits its stretch, and only the machines that there are have one.
fn all_fit(lens: [usize; 16], machines: usize) -> bool
    requires { machines ≤ 16 }
    ensures { result ≡ all_fit machines lens }
{
    if !all_short(&lens) {
        return false;
    }
    all_zero(&lens[machines..])
}

// Counts how often each activity stands on the lines, and stops at a number that is no activity.
fn count_lines(n: usize, cells: &[usize], lens: [usize; 16], seen: &mut [usize]) -> bool
    requires { (n ≤ length seen.old) × (length cells.now ≡ 2048) × Fit lens × ((a : ℕ) → get_or seen.old a 0 ≡ 0) }
    ensures { CountedLines n (lines_in cells.now lens) seen.new result }
{
    for (m, &len) in lens.iter().enumerate() {
        let at = 128 * m;
        let end = at + len;
        let line = &cells[at..end];
        if !all_below(line, n) {
            return false;
        }
        graph::tally_by(line, seen);
    }
    true
}

// Number 7: whether lines can be timed. Each of n activities stands on them once, nothing else
// does, and they fit the machines. `seen` is work space, with a cell for each activity.
pub fn well_formed(
    n: usize,
    machines: usize,
    cells: &[usize],
    lens: [usize; 16],
    seen: &mut [usize],
) -> bool
    requires { (n ≤ length seen.old) × (machines ≤ 16) × (length cells.now ≡ 2048) }
    ensures { result ≡ well_formed n machines (lines_in cells.now lens) }
{
    if !all_fit(lens, machines) {
        return false;
    }
    seen.fill(0);
    if !count_lines(n, cells, lens, seen) {
        return false;
    }
    all_one(&seen[..n])
}
