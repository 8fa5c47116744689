// Who stands before and after whom once a move is made: only the lines that it changed are linked
// again.
ghost use Rattle.std.specs.Prelude.{◌≡◌, ◌<◌, length};
ghost use Rattle.lines.specs.Lines.{Lines, lines_in, WellFormed};
ghost use Rattle.lines.specs.Linking.{links_of, line_relinked, Roomy, LinesHeld};
ghost use Rattle.moves.specs.Moves.{line_of, applied, Fits, Known};

use crate::Move;

// Links one machine's line again.
fn relink_on(
    machine: usize,
    n: usize,
    cells: &[usize],
    lens: &[usize; 16],
    before: &mut [usize],
    after: &mut [usize],
    machines: &mut [usize],
    places: &mut [usize],
)
    requires { (length cells.now ≡ 2048) × WellFormed n 16 (lines_in cells.now lens.now) × Roomy n (links_of before.old after.old machines.old places.old) × (machine < 16) }
    ensures { links_of before.new after.new machines.new places.new ≡ line_relinked n machine (line_of (lines_in cells.now lens.now) machine) (links_of before.old after.old machines.old places.old) }
{
    let start = 128 * machine;
    let end = start + lens[machine];
    lines::relink_line(
        n,
        &cells[start..end],
        machine,
        before,
        after,
        machines,
        places,
    );
}

// Where the arrays held the lines that a move was made on, they hold the lines after it, which are
// those in the cells.
pub fn relink(
    made: Move,
    n: usize,
    cells: &[usize],
    lens: &[usize; 16],
    before: &mut [usize],
    after: &mut [usize],
    machines: &mut [usize],
    places: &mut [usize],
)
    requires { (length cells.now ≡ 2048) × WellFormed n 16 (lines_in cells.now lens.now) × (length before.old ≡ n) × (length after.old ≡ n) × (length machines.old ≡ n) × (length places.old ≡ n) × Known made }
    ensures { (lines : Lines) → WellFormed n 16 lines → Fits made lines → lines_in cells.now lens.now ≡ applied made lines → LinesHeld n lines (links_of before.old after.old machines.old places.old) → LinesHeld n (lines_in cells.now lens.now) (links_of before.new after.new machines.new places.new) }
{
    match made {
        Move::Swap(machine, _) => {
            relink_on(machine, n, cells, lens, before, after, machines, places);
        }
        Move::Shift(machine, _, _) => {
            relink_on(machine, n, cells, lens, before, after, machines, places);
        }
        Move::Reassign(_, old, _, new, _) => {
            relink_on(old, n, cells, lens, before, after, machines, places);
            relink_on(new, n, cells, lens, before, after, machines, places);
        }
    }
}
