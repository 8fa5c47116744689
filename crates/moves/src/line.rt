// One machine's line, lent as the part of the cells that it uses.
ghost use Rattle.std.specs.Prelude.{◌≡◌, [], ◌∷◌, ◌++◌, ◌+◌, ◌-◌, ◌≤◌, ◌<◌, length, get_or, take};
ghost use Rattle.moves.specs.Moves.{shifted, remove_at, insert_at};

// Towards the front: those between move one place back.
fn shift_down(line: &mut [usize], from: usize, to: usize)
    requires { (from < length line.old) × (to ≤ from) }
    ensures { line.new ≡ shifted line.old from to }
{
    for k in (to..from).rev() {
        line.swap(k, k + 1);
    }
}

// Towards the back: those between move one place to the front.
fn shift_up(line: &mut [usize], from: usize, to: usize)
    requires { (to < length line.old) × (from ≤ to) }
    ensures { line.new ≡ shifted line.old from to }
{
    for k in from..to {
        line.swap(k, k + 1);
    }
}

// The activity at `from` is taken out and put in again at `to`. Those between are swapped one by one: std's rotations would have the archive
// for C ask for `memmove` from outside.
pub fn shift(line: &mut [usize], from: usize, to: usize)
    requires { (from < length line.old) × (to < length line.old) }
    ensures { line.new ≡ shifted line.old from to }
{
    if to < from {
        shift_down(line, from, to);
    } else {
        shift_up(line, from, to);
    }
}

// Takes the activity at a position out. It goes behind the others, so that the line is all but the
// last cell.
pub fn take_out(line: &mut [usize], at: usize)
    requires { at < length line.old }
    ensures { line.new ≡ remove_at line.old at ++ (get_or line.old at 0 ∷ []) }
{
    let last = line.len() - 1;
    shift_up(line, at, last);
}

// Puts an activity in. The line is lent with one cell more than it has.
pub fn put_in(line: &mut [usize], at: usize, a: usize)
    requires { at < length line.old }
    ensures { line.new ≡ insert_at (take (length line.old - 1) line.old) at a }
{
    let last = line.len() - 1;
    line[last] = a;
    shift_down(line, last, at);
}

// The activity at position k once the one at `from` went to `to`. The line itself stays as it is: the
// estimates read a reordered stretch this way. A swap is a shift by one.
pub fn moved(line: &[usize], from: usize, to: usize, k: usize) -> usize
    requires { (from < length line.now) × (to < length line.now) × (k < length line.now) }
    ensures { result ≡ get_or (shifted line.now from to) k 0 }
{
    if k == to {
        return line[from];
    }
    if k < to {
        if k < from {
            return line[k];
        }
        return line[k + 1];
    }
    if from < k {
        return line[k];
    }
    line[k - 1]
}
