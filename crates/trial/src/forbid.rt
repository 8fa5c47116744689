// The taboo lists: six places each, every entry live for six steps.
ghost use Rattle.std.specs.Prelude.{◌≡◌, ◌<◌, ◌+◌, length};
ghost use Rattle.moves.specs.Moves.{stretches, Reads};
ghost use Rattle.trial.specs.Taboo.{names, listed, either_way, forbidden, listing_pair, pairs_after, left_after};

use crate::{Search, Taboo};
use moves::{Move, Pairing};

// Whether a place is live and names these two in this order.
fn names(t: Taboo, step: usize, x: usize, y: usize) -> bool
    ensures { result ≡ names step t x y }
{
    step < t.until && t.first == x && t.second == y
}

// Whether some place does.
fn listed(places: [Taboo; 6], step: usize, x: usize, y: usize) -> bool
    ensures { result ≡ listed step places x y }
{
    for place in places {
        if names(place, step, x, y) {
            return true;
        }
    }
    false
}

// Whether a pair is listed, either way round.
fn either_way(places: [Taboo; 6], step: usize, two: Pairing) -> bool
    ensures { result ≡ either_way step places two }
{
    listed(places, step, two.first, two.second) || listed(places, step, two.second, two.first)
}

// Whether a move is forbidden for now: a block move by its pair, a reassignment by its activity and target.
pub fn is_forbidden(
    m: Move,
    step: usize,
    pairs: [Taboo; 6],
    left: [Taboo; 6],
    cells: &[usize],
) -> bool
    requires { (length cells.now ≡ 2048) × Reads m }
    ensures { result ≡ forbidden step pairs left (stretches cells.now) m }
{
    match m {
        Move::Swap(machine, at) => either_way(
            pairs,
            step,
            moves::pair(Move::Swap(machine, at), cells),
        ),
        Move::Shift(machine, from, to) => either_way(
            pairs,
            step,
            moves::pair(Move::Shift(machine, from, to), cells),
        ),
        Move::Reassign(a, _, _, new, _) => listed(left, step, a, new),
    }
}

// Lists two until six steps from now. The place was written six steps ago or earlier, so what it held is outdated.
fn list(places: [Taboo; 6], step: usize, two: Pairing) -> [Taboo; 6]
    requires { step < 1000 }
    ensures { result ≡ listing_pair step places two }
{
    let mut out = places;
    out[step % Search::TABOO_STEPS] = Taboo {
        first: two.first,
        second: two.second,
        until: step + Search::TABOO_STEPS,
    };
    out
}

// The pairs once a move is made: a block move lists its own. The cells have the lines before the move.
pub fn pairs_after(m: Move, step: usize, pairs: [Taboo; 6], cells: &[usize]) -> [Taboo; 6]
    requires { (step < 1000) × (length cells.now ≡ 2048) × Reads m }
    ensures { result ≡ pairs_after step pairs (stretches cells.now) m }
{
    match m {
        Move::Swap(machine, at) => list(pairs, step, moves::pair(Move::Swap(machine, at), cells)),
        Move::Shift(machine, from, to) => list(
            pairs,
            step,
            moves::pair(Move::Shift(machine, from, to), cells),
        ),
        Move::Reassign(_, _, _, _, _) => pairs,
    }
}

// The machines left once a move is made: a reassignment lists its activity and the machine that it leaves.
pub fn left_after(m: Move, step: usize, left: [Taboo; 6]) -> [Taboo; 6]
    requires { step < 1000 }
    ensures { result ≡ left_after step left m }
{
    match m {
        Move::Swap(_, _) => left,
        Move::Shift(_, _, _) => left,
        Move::Reassign(a, old, _, _, _) => list(
            left,
            step,
            Pairing {
                first: a,
                second: old,
            },
        ),
    }
}
