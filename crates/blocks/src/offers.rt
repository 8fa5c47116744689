// The moves of a block, each offered with its estimate to the best three so far.
ghost use Rattle.std.specs.Prelude.{◌≡◌, cond, List, [], ◌∷◌, ◌++◌, ℕ, ◌+◌, ◌-◌, ◌<◌, ◌≤◌, max, min, length};
ghost use Rattle.plan.specs.Problem.{Problem};
ghost use Rattle.moves.specs.Moves.{shifted};
ghost use Rattle.moves.specs.declared.Move.TheVariants.{Swap, Shift};
ghost use Rattle.ranking.specs.Ranking.{ranked};
ghost use Rattle.path.specs.Placing.{placed};
ghost use Rattle.blocks.specs.Estimates.{estimate_of};
ghost use Rattle.blocks.specs.BlockMoves.{block, shifts};
ghost use Rattle.blocks.specs.Weighing.{Weighed, Low, Lined, Estimable};
ghost use Rattle.blocks.specs.Scanning.{own_moves, Offers};

use crate::stretch::estimate;
use moves::Move;
use ranking::{Rated, Three};

// The estimate of a stretch; 0 where all moves are kept, which are then not sorted.
fn weigh(
    all: bool,
    line: &[usize],
    from: usize,
    to: usize,
    table: &[usize],
    starts: &[u64],
    ends: &[u64],
    tail: &[u64],
    heads: &mut [u64],
) -> u64
    requires { Estimable table.now starts.now ends.now tail.now line.now × (from < length line.now) × (to < length line.now) × (length line.now ≤ length heads.old) }
    ensures { (p : Problem) (order : List ℕ) → Weighed p table.now starts.now ends.now → Low p.n tail.now → Lined p.n line.now → result ≡ cond all 0 (estimate_of p (placed order starts.now ends.now) tail.now line.now (shifted line.now from to) (min from to) (max from to)) }
{
    if all {
        return 0;
    }
    let first = from.min(to);
    let last = from.max(to);
    estimate(
        line, from, to, first, last, table, starts, ends, tail, heads,
    )
}

// The swap of a position with the next is offered. The three are left alone where its estimate does not enter.
fn offer_swap(
    all: bool,
    m: usize,
    at: usize,
    line: &[usize],
    table: &[usize],
    starts: &[u64],
    ends: &[u64],
    tail: &[u64],
    heads: &mut [u64],
    three: Three,
) -> Three
    requires { Estimable table.now starts.now ends.now tail.now line.now × (at + 1 < length line.now) × (length line.now ≤ length heads.old) }
    ensures { Offers all m (Swap m at ∷ []) table.now starts.now ends.now tail.now line.now (ranked three) (ranked result) }
{
    let length = weigh(all, line, at, at + 1, table, starts, ends, tail, heads);
    if !ranking::enters(
        three.count,
        three.first,
        three.second,
        three.third,
        length,
        0,
    ) {
        return three;
    }
    let rated = Rated {
        length,
        time: 0,
        made: Move::Swap(m, at),
    };
    ranking::keep(three, rated)
}

// The shifts to one position are offered, from each of others in turn. The three are left alone where an estimate does not enter.
fn offer_shifts(
    all: bool,
    m: usize,
    to: usize,
    from: usize,
    end: usize,
    line: &[usize],
    table: &[usize],
    starts: &[u64],
    ends: &[u64],
    tail: &[u64],
    heads: &mut [u64],
    three: Three,
) -> Three
    requires { Estimable table.now starts.now ends.now tail.now line.now × (to < length line.now) × (from ≤ end) × (end ≤ length line.now) × (length line.now ≤ length heads.old) }
    ensures { Offers all m (shifts m to from (end - from)) table.now starts.now ends.now tail.now line.now (ranked three) (ranked result) }
{
    let mut best = three;
    for at in from..end {
        let length = weigh(all, line, at, to, table, starts, ends, tail, heads);
        if !ranking::enters(best.count, best.first, best.second, best.third, length, 0) {
            continue;
        }
        let rated = Rated {
            length,
            time: 0,
            made: Move::Shift(m, at, to),
        };
        best = ranking::keep(best, rated);
    }
    best
}

// The shifts of a block of three or more are offered: to its front, then to its back.
fn offer_ends(
    all: bool,
    m: usize,
    first: usize,
    last: usize,
    line: &[usize],
    table: &[usize],
    starts: &[u64],
    ends: &[u64],
    tail: &[u64],
    heads: &mut [u64],
    three: Three,
) -> Three
    requires { Estimable table.now starts.now ends.now tail.now line.now × (first + 1 < last) × (last < length line.now) × (length line.now ≤ length heads.old) }
    ensures { Offers all m (shifts m first (first + 2) (last - first - 1) ++ shifts m last first (last - first - 1)) table.now starts.now ends.now tail.now line.now (ranked three) (ranked result) }
{
    let third = first + 2;
    let behind = last + 1;
    let to_front = offer_shifts(
        all, m, first, third, behind, line, table, starts, ends, tail, heads, three,
    );
    let end = last - 1;
    offer_shifts(
        all, m, last, first, end, line, table, starts, ends, tail, heads, to_front,
    )
}

// The moves of a block are offered: positions first..last of machine m's line. The two swaps of a block of two are one move.
pub fn offer_block(
    all: bool,
    m: usize,
    first: usize,
    last: usize,
    line: &[usize],
    table: &[usize],
    starts: &[u64],
    ends: &[u64],
    tail: &[u64],
    heads: &mut [u64],
    three: Three,
) -> Three
    requires { Estimable table.now starts.now ends.now tail.now line.now × (first < last) × (last < length line.now) × (length line.now ≤ length heads.old) }
    ensures { Offers all m (own_moves (block m first last)) table.now starts.now ends.now tail.now line.now (ranked three) (ranked result) }
{
    let one = offer_swap(all, m, first, line, table, starts, ends, tail, heads, three);
    let next = first + 1;
    if last <= next {
        return one;
    }
    let at = last - 1;
    let two = offer_swap(all, m, at, line, table, starts, ends, tail, heads, one);
    offer_ends(
        all, m, first, last, line, table, starts, ends, tail, heads, two,
    )
}
