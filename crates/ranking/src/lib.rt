// The best three of the moves that a search step looks at. Moves are offered one after the other, so that
// no list of them is held or sorted.
#![tactic(auto)]

mod held;

ghost use Rattle.std.specs.Prelude.{◌≡◌, [], ◌≤◌, ◌<◌, min, suc, get_or};
ghost use Rattle.ranking.specs.declared.held.Rated.{Rated};
ghost use Rattle.ranking.specs.Ranking.{ranked, with_one, goes_at, enters};

pub use held::{Rated, Three};
use moves::Move;

// What stands past the count.
fn nothing() -> Rated {
    Rated {
        length: 0,
        time: 0,
        made: Move::Swap(0, 0),
    }
}

// None held yet.
pub fn none() -> Three
    ensures { ranked result ≡ [] }
{
    Three {
        count: 0,
        first: nothing(),
        second: nothing(),
        third: nothing(),
    }
}

// A place is free for a rank, or held by one that it precedes.
fn goes_at(count: usize, place: usize, length: u64, time: u64, held: Rated) -> bool
    ensures { result ≡ goes_at count place length time held }
{
    count <= place || (length, time) < (held.length, held.time)
}

// A move of this rank would be held by three places of which so many are: a place is free, or one that is held falls out for it. The places
// come one by one and not as `Three`, since the answer is there for any count.
pub fn enters(
    count: usize,
    first: Rated,
    second: Rated,
    third: Rated,
    length: u64,
    time: u64,
) -> bool
    ensures { result ≡ enters count first second third length time }
{
    goes_at(count, 0, length, time, first)
        || goes_at(count, 1, length, time, second)
        || goes_at(count, 2, length, time, third)
}

// One more held, at most three.
fn grown(count: usize) -> usize
    requires { count ≤ 3 }
    ensures { result ≡ min (suc count) 3 }
{
    (count + 1).min(3)
}

// One more move is offered: it stands after those of equal rank, and the fourth falls out.
pub fn keep(three: Three, rated: Rated) -> Three
    ensures { ranked result ≡ with_one rated (ranked three) }
{
    let count = grown(three.count);
    let length = rated.length;
    let time = rated.time;
    let first = three.first;
    let second = three.second;
    if goes_at(three.count, 0, length, time, first) {
        return Three {
            count,
            first: rated,
            second: first,
            third: second,
        };
    }
    if goes_at(three.count, 1, length, time, second) {
        return Three {
            count,
            first,
            second: rated,
            third: second,
        };
    }
    if goes_at(three.count, 2, length, time, three.third) {
        return Three {
            count,
            first,
            second,
            third: rated,
        };
    }
    three
}

// The k-th of those held.
pub fn at(three: Three, k: usize) -> Rated
    requires { k < three.count }
    ensures { (other : Rated) → result ≡ get_or (ranked three) k other }
{
    if k == 0 {
        return three.first;
    }
    if k == 1 {
        return three.second;
    }
    three.third
}
