// The moves that a step keeps, and their ranks, one row after the other.
ghost use Rattle.std.specs.Prelude.{◌≡◌, ◌∷◌, [], ◌++◌, ◌+◌, ◌≤◌, length};
ghost use Rattle.ranking.specs.Ranking.{ranked};
ghost use Rattle.rows.specs.Rows.{over};
ghost use Rattle.trial.specs.Trial.{moves_of};
ghost use Rattle.looking.specs.Rows.{rows_of, ranks_of, Put};

use crate::listing::put_move;
use ranking::Three;

// Puts the rows of the moves that are held, and answers the place after them.
fn put_moves(rows: &mut [usize], at: usize, three: Three) -> usize
    requires { at + 18 ≤ length rows.old }
    ensures { Put (rows_of (moves_of (ranked three))) at rows.old rows.new result }
{
    let mut next = at;
    for k in 0..three.count {
        let rated = ranking::at(three, k);
        let m = rated.made;
        next = put_move(rows, next, m);
    }
    next
}

// Puts one rank.
fn put_rank(ranks: &mut [u64], at: usize, far: u64, time: u64) -> usize
    requires { at + 2 ≤ length ranks.old }
    ensures { Put (far ∷ time ∷ []) at ranks.old ranks.new result }
{
    ranks[at] = far;
    ranks[at + 1] = time;
    at + 2
}

// Puts the ranks of the moves that are held, length and time of each.
fn put_ranks(ranks: &mut [u64], at: usize, three: Three) -> usize
    requires { at + 6 ≤ length ranks.old }
    ensures { Put (ranks_of (ranked three)) at ranks.old ranks.new result }
{
    let mut next = at;
    for k in 0..three.count {
        let rated = ranking::at(three, k);
        next = put_rank(ranks, next, rated.length, rated.time);
    }
    next
}

// Writes the moves and the ranks that a step keeps: those of block moves, then those of reassignments.
pub fn write_kept(kept: &mut [usize], ranks: &mut [u64], blocks: Three, others: Three)
    requires { (128 ≤ length kept.old) × (128 ≤ length ranks.old) }
    ensures kept { kept.new ≡ over (rows_of (moves_of (ranked blocks)) ++ rows_of (moves_of (ranked others))) kept.old }
    ensures ranks { ranks.new ≡ over (ranks_of (ranked blocks) ++ ranks_of (ranked others)) ranks.old }
{
    let row = put_moves(kept, 0, blocks);
    put_moves(kept, row, others);
    let rank = put_ranks(ranks, 0, blocks);
    put_ranks(ranks, rank, others);
}
