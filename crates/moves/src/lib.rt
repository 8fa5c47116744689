// Moves of the search: what each does to the lines, how it is taken back, and the pair by which it is
// forbidden for a while.
#![tactic(auto)]

mod line;
mod relinking;

ghost use Rattle.std.specs.Prelude.{◌≡◌, ◌+◌, ◌≤◌, ◌<◌, length, get_or, set};
ghost use Rattle.lines.specs.Lines.{lines_in, Fit};
ghost use Rattle.moves.specs.Moves.{swap_at, shifted, line_of, left, joined, applied, reversed, two, pair_of, stretches, Holds, SwapFits, ShiftFits, Fits, Reads};

pub use line::moved;
pub use relinking::relink;

#[derive(Clone, Copy)]
pub enum Move {
    // Machine, position: with the next.
    Swap(usize, usize),
    // Machine, position, new position.
    Shift(usize, usize, usize),
    // Activity, its machine, its position there, new machine, position there.
    Reassign(usize, usize, usize, usize, usize),
}

// Two numbers by which a move is forbidden.
#[derive(Clone, Copy)]
pub struct Pairing {
    pub first: usize,
    pub second: usize,
}

// The activity at a position of a machine's line and the next one change places.
fn swap_on(machine: usize, at: usize, cells: &mut [usize], lens: &[usize; 16])
    requires { Holds cells.old lens.now × SwapFits machine at (lines_in cells.old lens.now) }
    ensures { lines_in cells.new lens.now ≡ set (lines_in cells.old lens.now) machine (swap_at (line_of (lines_in cells.old lens.now) machine) at) }
{
    let start = 128 * machine;
    let end = start + lens[machine];
    cells[start..end].swap(at, at + 1);
}

// An activity goes to another position of its line.
fn shift_on(machine: usize, from: usize, to: usize, cells: &mut [usize], lens: &[usize; 16])
    requires { Holds cells.old lens.now × ShiftFits machine from to (lines_in cells.old lens.now) }
    ensures { lines_in cells.new lens.now ≡ set (lines_in cells.old lens.now) machine (shifted (line_of (lines_in cells.old lens.now) machine) from to) }
{
    let start = 128 * machine;
    let end = start + lens[machine];
    line::shift(&mut cells[start..end], from, to);
}

// The activity at a position leaves its line.
fn leave(machine: usize, at: usize, cells: &mut [usize], lens: &mut [usize; 16])
    requires { Holds cells.old lens.old × (machine < 16) × (at < length (line_of (lines_in cells.old lens.old) machine)) }
    ensures lens_after { lines_in cells.new lens.new ≡ left (lines_in cells.old lens.old) machine at }
    ensures holds { Holds cells.new lens.new }
{
    let start = 128 * machine;
    let len = lens[machine];
    let end = start + len;
    line::take_out(&mut cells[start..end], at);
    lens[machine] = len - 1;
}

// An activity joins a line that has room.
fn join(a: usize, machine: usize, at: usize, cells: &mut [usize], lens: &mut [usize; 16])
    requires { Holds cells.old lens.old × (machine < 16) × (at ≤ length (line_of (lines_in cells.old lens.old) machine)) × (length (line_of (lines_in cells.old lens.old) machine) < 128) }
    ensures lens_after { lines_in cells.new lens.new ≡ joined (lines_in cells.old lens.old) machine at a }
    ensures holds { Holds cells.new lens.new }
{
    let start = 128 * machine;
    let len = lens[machine] + 1;
    let end = start + len;
    line::put_in(&mut cells[start..end], at, a);
    lens[machine] = len;
}

// Makes a move that fits the lines, and answers their lengths afterwards. Cells past a line's length
// are work space: what stands there is not part of the lines, and a reassignment changes it.
pub fn apply(made: Move, cells: &mut [usize], lens: [usize; 16]) -> [usize; 16]
    requires { (length cells.old ≡ 2048) × Fit lens × Fits made (lines_in cells.old lens) }
    ensures result_after { lines_in cells.new result ≡ applied made (lines_in cells.old lens) }
    ensures fit { Fit result }
{
    match made {
        Move::Swap(machine, at) => {
            swap_on(machine, at, cells, &lens);
            lens
        }
        Move::Shift(machine, from, to) => {
            shift_on(machine, from, to, cells, &lens);
            lens
        }
        Move::Reassign(a, old, from, new, to) => {
            let mut after = lens;
            leave(old, from, cells, &mut after);
            join(a, new, to, cells, &mut after);
            after
        }
    }
}

// The move that takes a move back.
pub fn reverse(made: Move) -> Move
    ensures { result ≡ reversed made }
{
    match made {
        Move::Swap(machine, at) => Move::Swap(machine, at),
        Move::Shift(machine, from, to) => Move::Shift(machine, to, from),
        Move::Reassign(a, old, from, new, to) => Move::Reassign(a, new, to, old, from),
    }
}

// The activities at two positions of a machine's stretch.
fn two_at(machine: usize, i: usize, j: usize, cells: &[usize]) -> Pairing
    requires { (length cells.now ≡ 2048) × (machine < 16) × (i < 128) × (j < 128) }
    ensures { result ≡ two (get_or (line_of (stretches cells.now) machine) i 0) (get_or (line_of (stretches cells.now) machine) j 0) }
{
    let start = 128 * machine;
    let end = start + 128;
    let stretch = &cells[start..end];
    Pairing {
        first: stretch[i],
        second: stretch[j],
    }
}

// A block move's pair is the activity moved, the first of a swap, and the one at the target; a
// reassignment's is the activity and the machine that it leaves.
pub fn pair(made: Move, cells: &[usize]) -> Pairing
    requires { (length cells.now ≡ 2048) × Reads made }
    ensures { result ≡ pair_of (stretches cells.now) made }
{
    match made {
        Move::Swap(machine, at) => two_at(machine, at, at + 1, cells),
        Move::Shift(machine, from, to) => two_at(machine, from, to, cells),
        Move::Reassign(a, old, _, _, _) => Pairing {
            first: a,
            second: old,
        },
    }
}
