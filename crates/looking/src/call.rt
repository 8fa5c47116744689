// The public call.
ghost use Rattle.std.specs.Prelude.{◌≡◌, ◌≤◌, length};
ghost use Rattle.words.specs.Words.{words};
ghost use Rattle.plan.specs.Input.{problem_of};
ghost use Rattle.lines.specs.Lines.{lines_in, WellFormed};
ghost use Rattle.timing.specs.Timing.{contradicts};
ghost use Rattle.timing.specs.Placing.{Rooms};
ghost use Rattle.calls.specs.Asked.{Taken};
ghost use Rattle.looking.specs.Looking.{answer_of, Leaves, eight_if, seen_lines, roomy, looked};

use crate::Seen;
use crate::sight::see;
use plan::Layout;
use reader::{Reason, Refusal};

// Number 8 where the lines contradict, else what a step sees.
fn look_lines(
    s: &[u8],
    z: Layout,
    table: &[usize],
    cells: &[usize],
    lens: [usize; 16],
    path: &mut [usize],
    moves: &mut [usize],
    kept: &mut [usize],
    ranks: &mut [u64],
) -> Result<Seen, Refusal>
    requires taken { Taken s.now z table.now × (length cells.now ≡ 2048) × WellFormed z.activities z.machines (lines_in cells.now lens) }
    requires in_bounds { (128 ≤ length path.old) × (1536 ≤ length moves.old) × (128 ≤ length kept.old) × (128 ≤ length ranks.old) }
    ensures answer { result ≡ answer_of (eight_if (contradicts (problem_of (words s.now) z) (lines_in cells.now lens)) (problem_of (words s.now) z) (lines_in cells.now lens)) }
    ensures left { Leaves (eight_if (contradicts (problem_of (words s.now) z) (lines_in cells.now lens)) (problem_of (words s.now) z) (lines_in cells.now lens)) path.old moves.old kept.old ranks.old path.new moves.new kept.new ranks.new }
{
    let before = &mut [0usize; 128][..z.activities];
    let after = &mut [0usize; 128][..z.activities];
    let on = &mut [0usize; 128][..z.activities];
    let places = &mut [0usize; 128][..z.activities];
    let order = &mut [0usize; 128][..z.activities];
    let starts = &mut [0u64; 128][..z.activities];
    let ends = &mut [0u64; 128][..z.activities];
    let trail = &mut [0usize; 128][..z.activities];
    let tail = &mut [0u64; 128][..z.activities];
    let heads = &mut [0u64; 128];
    let ways = plan::transports(s, z);
    if !timing::time_sequences(
        s, z, table, ways, cells, lens, before, after, on, places, order, starts, ends,
    ) {
        return Err(Refusal {
            reason: Reason::Contradiction,
            place: 0,
        });
    }
    Ok(see(
        s, z, table, ways, cells, lens, order, starts, ends, before, after, on, places, trail,
        tail, heads, path, moves, kept, ranks,
    ))
}

// Number 7 where the lines do not hold each activity once on the machines that there are.
fn look_known(
    s: &[u8],
    z: Layout,
    table: &[usize],
    cells: &[usize],
    lens: [usize; 16],
    path: &mut [usize],
    moves: &mut [usize],
    kept: &mut [usize],
    ranks: &mut [u64],
) -> Result<Seen, Refusal>
    requires taken { Taken s.now z table.now × (length cells.now ≡ 2048) }
    requires in_bounds { (128 ≤ length path.old) × (1536 ≤ length moves.old) × (128 ≤ length kept.old) × (128 ≤ length ranks.old) }
    ensures answer { result ≡ answer_of (seen_lines (problem_of (words s.now) z) (lines_in cells.now lens)) }
    ensures left { Leaves (seen_lines (problem_of (words s.now) z) (lines_in cells.now lens)) path.old moves.old kept.old ranks.old path.new moves.new kept.new ranks.new }
{
    let mut met = [0usize; 128];
    if !lines::well_formed(z.activities, z.machines, cells, lens, &mut met) {
        return Err(Refusal {
            reason: Reason::Lines,
            place: 0,
        });
    }
    look_lines(s, z, table, cells, lens, path, moves, kept, ranks)
}

// Whether the lines have 2,048 cells, the block moves 1,536 and each other result 128 places.
fn is_roomy(cells: &[usize], path: &[usize], moves: &[usize], kept: &[usize], ranks: &[u64]) -> bool
    ensures { result ≡ roomy cells.now path.now moves.now kept.now ranks.now }
{
    2048 <= cells.len()
        && 128 <= path.len()
        && 1536 <= moves.len()
        && 128 <= kept.len()
        && 128 <= ranks.len()
}

// Shows one step of the search on the lines given for a plan: machine m's line is the first lens[m] cells from cell 128 m on. The path, first
// activity first, every block move of it, the moves that are kept and their ranks are written over the first cells of the results; a refusal
// writes nothing.
pub fn look(
    s: &[u8],
    cells: &[usize],
    lens: [usize; 16],
    path: &mut [usize],
    moves: &mut [usize],
    kept: &mut [usize],
    ranks: &mut [u64],
) -> Result<Seen, Refusal>
    ensures answer { result ≡ answer_of (looked s.now cells.now lens path.old moves.old kept.old ranks.old) }
    ensures left { Leaves (looked s.now cells.now lens path.old moves.old kept.old ranks.old) path.old moves.old kept.old ranks.old path.new moves.new kept.new ranks.new }
{
    if !is_roomy(cells, path, moves, kept, ranks) {
        return Err(Refusal {
            reason: Reason::Room,
            place: 0,
        });
    }
    let mut table = intake::table_room();
    let z = intake::take_in(s, &mut table)?;
    look_known(s, z, &table, &cells[..2048], lens, path, moves, kept, ranks)
}
