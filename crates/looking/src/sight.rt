// What a step looks at on timed lines: the path with all its block moves, and the moves that are kept.
ghost use Rattle.std.specs.Prelude.{◌≡◌, ◌++◌, ◌≤◌, length, Ok};
ghost use Rattle.words.specs.Words.{words};
ghost use Rattle.plan.specs.Input.{problem_of};
ghost use Rattle.lines.specs.Lines.{lines_in};
ghost use Rattle.lines.specs.Linking.{LinesHeld, links_of};
ghost use Rattle.timing.specs.Placing.{Timed};
ghost use Rattle.rows.specs.Rows.{over};
ghost use Rattle.trial.specs.Trial.{Ready, moves_of};
ghost use Rattle.search.specs.Asked.{Lined, Space};
ghost use Rattle.looking.specs.Rows.{rows_of, ranks_of};
ghost use Rattle.looking.specs.Looking.{path_on, moves_on, blocks_on, others_on, sight_of, seen, answer_of, Leaves};

use crate::Seen;
use crate::kept::write_kept;
use crate::listing::list_moves;
use plan::Layout;

// How many activities the path has, and how many block moves.
#[derive(Clone, Copy)]
struct Walked {
    path: usize,
    moves: usize,
}

// How many block moves are kept, and how many reassignments.
#[derive(Clone, Copy)]
struct Held {
    blocks: usize,
    others: usize,
}

// Writes the path and every block move of it. The two buffers before the results are work space.
fn see_path(
    s: &[u8],
    z: Layout,
    table: &[usize],
    ways: &[[u32; 16]; 16],
    cells: &[usize],
    lens: [usize; 16],
    order: &[usize],
    starts: &[u64],
    ends: &[u64],
    before: &[usize],
    after: &[usize],
    machines: &[usize],
    places: &[usize],
    trail: &mut [usize],
    tail: &mut [u64],
    path: &mut [usize],
    moves: &mut [usize],
) -> Walked
    requires ready { Ready s.now z table.now ways.now × Lined z.activities z.machines cells.now lens × Timed (problem_of (words s.now) z) (lines_in cells.now lens) order.now starts.now ends.now }
    requires lines_held { LinesHeld z.activities (lines_in cells.now lens) (links_of before.now after.now machines.now places.now) × (length before.now ≡ z.activities) × (length after.now ≡ z.activities) × (length machines.now ≡ z.activities) × (length places.now ≡ z.activities) × (length trail.old ≡ z.activities) × (length tail.old ≡ z.activities) × (128 ≤ length path.old) × (1536 ≤ length moves.old) }
    ensures counts { (result.path ≡ length (path_on (problem_of (words s.now) z) (lines_in cells.now lens))) × (result.moves ≡ length (moves_on (problem_of (words s.now) z) (lines_in cells.now lens))) }
    ensures path { path.new ≡ over (path_on (problem_of (words s.now) z) (lines_in cells.now lens)) path.old }
    ensures moves { moves.new ≡ over (rows_of (moves_on (problem_of (words s.now) z) (lines_in cells.now lens))) moves.old }
{
    let at = search::survey::survey(
        s, z, table, ways, cells, lens, order, starts, ends, before, after, machines, places,
        trail, tail,
    );
    rows::copy_over(&trail[at..], path);
    let listed = list_moves(moves, &trail[at..], machines, places);
    let n = z.activities;
    let long = n - at;
    let count = listed / 6;
    Walked {
        path: long,
        moves: count,
    }
}

// Writes the moves that are kept, and their ranks. The three buffers before the results are work space.
fn see_kept(
    s: &[u8],
    z: Layout,
    table: &[usize],
    ways: &[[u32; 16]; 16],
    cells: &[usize],
    lens: [usize; 16],
    order: &[usize],
    starts: &[u64],
    ends: &[u64],
    before: &[usize],
    after: &[usize],
    machines: &[usize],
    places: &[usize],
    trail: &mut [usize],
    tail: &mut [u64],
    heads: &mut [u64],
    kept: &mut [usize],
    ranks: &mut [u64],
) -> Held
    requires ready { Ready s.now z table.now ways.now × Lined z.activities z.machines cells.now lens × Timed (problem_of (words s.now) z) (lines_in cells.now lens) order.now starts.now ends.now }
    requires lines_held { LinesHeld z.activities (lines_in cells.now lens) (links_of before.now after.now machines.now places.now) × Space z.activities before.now after.now machines.now places.now trail.old tail.old heads.old × (128 ≤ length kept.old) × (128 ≤ length ranks.old) }
    ensures counts { (result.blocks ≡ length (blocks_on (problem_of (words s.now) z) (lines_in cells.now lens))) × (result.others ≡ length (others_on (problem_of (words s.now) z) (lines_in cells.now lens))) }
    ensures kept { kept.new ≡ over (rows_of (moves_of (blocks_on (problem_of (words s.now) z) (lines_in cells.now lens))) ++ rows_of (moves_of (others_on (problem_of (words s.now) z) (lines_in cells.now lens)))) kept.old }
    ensures ranks { ranks.new ≡ over (ranks_of (blocks_on (problem_of (words s.now) z) (lines_in cells.now lens)) ++ ranks_of (others_on (problem_of (words s.now) z) (lines_in cells.now lens))) ranks.old }
{
    let n = z.activities;
    let choices = reassign::is_flexible(table, n);
    let moves = search::find_moves(
        s, z, table, ways, choices, cells, lens, order, starts, ends, before, after, machines,
        places, trail, tail, heads,
    );
    let blocks = moves.blocks;
    let others = moves.others;
    write_kept(kept, ranks, blocks, others);
    Held {
        blocks: blocks.count,
        others: others.count,
    }
}

// Writes all that a step sees of timed lines. The three buffers before the results are work space.
pub fn see(
    s: &[u8],
    z: Layout,
    table: &[usize],
    ways: [[u32; 16]; 16],
    cells: &[usize],
    lens: [usize; 16],
    order: &[usize],
    starts: &[u64],
    ends: &[u64],
    before: &[usize],
    after: &[usize],
    machines: &[usize],
    places: &[usize],
    trail: &mut [usize],
    tail: &mut [u64],
    heads: &mut [u64],
    path: &mut [usize],
    moves: &mut [usize],
    kept: &mut [usize],
    ranks: &mut [u64],
) -> Seen
    requires ready { Ready s.now z table.now ways × Lined z.activities z.machines cells.now lens × Timed (problem_of (words s.now) z) (lines_in cells.now lens) order.now starts.now ends.now }
    requires lines_held { LinesHeld z.activities (lines_in cells.now lens) (links_of before.now after.now machines.now places.now) × Space z.activities before.now after.now machines.now places.now trail.old tail.old heads.old × (128 ≤ length path.old) × (1536 ≤ length moves.old) × (128 ≤ length kept.old) × (128 ≤ length ranks.old) }
    ensures answer { Ok result ≡ answer_of (seen (sight_of (problem_of (words s.now) z) (lines_in cells.now lens))) }
    ensures left { Leaves (seen (sight_of (problem_of (words s.now) z) (lines_in cells.now lens))) path.old moves.old kept.old ranks.old path.new moves.new kept.new ranks.new }
{
    let walked = see_path(
        s, z, table, &ways, cells, lens, order, starts, ends, before, after, machines, places,
        trail, tail, path, moves,
    );
    let held = see_kept(
        s, z, table, &ways, cells, lens, order, starts, ends, before, after, machines, places,
        trail, tail, heads, kept, ranks,
    );
    let bits = fitness::fitness_bits(s, z, ends);
    Seen {
        path: walked.path,
        moves: walked.moves,
        blocks: held.blocks,
        others: held.others,
        bits,
    }
}
