// Moves of the path's activities to other machines that they may run on.
#![tactic(auto)]

mod position;

ghost use Rattle.std.specs.Prelude.{◌≡◌, List, [], ◌∷◌, ℕ, ◌≤◌, ◌<◌, ◌^◌, length, get_or};
ghost use Rattle.words.specs.Words.{words};
ghost use Rattle.graph.specs.Counting.{Below};
ghost use Rattle.plan.specs.Problem.{Problem};
ghost use Rattle.plan.specs.Input.{problem_of};
ghost use Rattle.plan.specs.Found.{Placed};
ghost use Rattle.tables.specs.Tabled.{Tabled};
ghost use Rattle.lines.specs.Lines.{Lines, lines_in};
ghost use Rattle.moves.specs.Moves.{line_of, Holds};
ghost use Rattle.ranking.specs.Ranking.{best_three, ranked, with_all};
ghost use Rattle.timing.specs.Placing.{Bound};
ghost use Rattle.path.specs.Placing.{placed};
ghost use Rattle.reassign.specs.Reassignments.{flexible, head_of, rest_of, leaving_of, room_in, rated_at, to_machine, of_activity, gathered, reassignments, best_reassignments};
ghost use Rattle.reassign.specs.Reassigning.{unordered, Counted, Awaited, Reckoned, Ready, Able, SomeAble, Seen, SomeSeen, Open, Movable, SomeMovable};

use moves::Move;
use plan::Layout;
use ranking::{Rated, Three};

// How long the work is before an activity, of it, and behind it, its line apart.
#[derive(Clone, Copy)]
pub struct Way {
    pub head: u64,
    pub time: u64,
    pub rest: u64,
}

// A position with its length.
#[derive(Clone, Copy)]
pub struct Spot {
    pub length: u64,
    pub place: usize,
}

// An activity that leaves its machine and its position there, and how long the work is before it and behind it, its line apart.
#[derive(Clone, Copy)]
pub struct Leaving {
    pub activity: usize,
    pub machine: usize,
    pub place: usize,
    pub head: u64,
    pub rest: u64,
}

// Some activity of n may run on two machines.
pub fn is_flexible(table: &[usize], n: usize) -> bool
    requires { Counted table.now n }
    ensures { (p : Problem) → Tabled p table.now → n ≡ p.n → p.n ≤ 128 → result ≡ flexible p }
{
    for a in 0..n {
        let machines = tables::candidates_of(table, a);
        if 2 <= machines.len() {
            return true;
        }
    }
    false
}

// The greatest of an activity's release, the end of the step before it and the ends of all that it names.
fn head_of(table: &[usize], ends: &[u64], a: usize) -> u64
    requires { Bound table.now ends.now a × (a < length ends.now) × ((b : ℕ) → get_or ends.now b 0 < 2 ^ 62) }
    ensures { (p : Problem) (starts : List ℕ) → Tabled p table.now → a < p.n → p.n ≤ 128 → result ≡ head_of p (unordered starts ends.now) a }
{
    let released = bounds::release_of(table, a);
    let there = bounds::arrival(tables::before_of(table, a), ends, 0);
    let named = timing::after_named(tables::named_by(table, a), ends, released);
    named.max(there)
}

// The greatest span plus tail of the step after an activity and of those waiting for it.
fn rest_of(table: &[usize], starts: &[u64], ends: &[u64], tail: &[u64], a: usize) -> u64
    requires { Awaited table.now tail.now a × Reckoned starts.now ends.now tail.now }
    ensures { (p : Problem) → Tabled p table.now → a < p.n → p.n ≤ 128 → length tail.now ≡ p.n → result ≡ rest_of p (unordered starts.now ends.now) tail.now a }
{
    let step = path::after_link(tables::next_of(table, tail.len(), a), starts, ends, tail, 0);
    path::after_all(tables::waiting_for(table, a), starts, ends, tail, step)
}

// An activity as it leaves its machine.
fn leaving_of(
    table: &[usize],
    machines: &[usize],
    places: &[usize],
    starts: &[u64],
    ends: &[u64],
    tail: &[u64],
    a: usize,
) -> Leaving
    requires { SomeSeen table.now machines.now places.now starts.now ends.now tail.now a }
    ensures { (p : Problem) (lines : Lines) → Seen p lines table.now machines.now places.now starts.now ends.now tail.now → a < p.n → result ≡ leaving_of p lines (unordered starts.now ends.now) tail.now a }
{
    let head = head_of(table, ends, a);
    let rest = rest_of(table, starts, ends, tail, a);
    Leaving {
        activity: a,
        machine: machines[a],
        place: places[a],
        head,
        rest,
    }
}

// The best position on a line, if there is any.
fn room_in(
    line: &[usize],
    starts: &[u64],
    ends: &[u64],
    tail: &[u64],
    leaving: Leaving,
    time: u64,
) -> Option<Spot>
    requires { Below (length tail.now) line.now × Reckoned starts.now ends.now tail.now × Ready (length tail.now) leaving × (time < 2 ^ 34) }
    ensures { result ≡ room_in (unordered starts.now ends.now) tail.now line.now leaving time }
{
    let a = leaving.activity;
    let first = position::leading_ended(line, ends, starts[a]);
    let last = position::leading_begun(line, starts, ends[a]);
    if last < first {
        return None;
    }
    let way = Way {
        head: leaving.head,
        time,
        rest: leaving.rest,
    };
    let spot = position::best_position(line, starts, ends, tail, way, first, last);
    Some(spot)
}

// The best position on a machine's line, if there is any.
fn room_on(
    cells: &[usize],
    lens: &[usize; 16],
    starts: &[u64],
    ends: &[u64],
    tail: &[u64],
    leaving: Leaving,
    to: usize,
    time: u64,
) -> Option<Spot>
    requires holds { Holds cells.now lens.now × (to < 16) × Below (length tail.now) (line_of (lines_in cells.now lens.now) to) }
    requires reckoned { Reckoned starts.now ends.now tail.now × Ready (length tail.now) leaving × (time < 2 ^ 34) }
    ensures { result ≡ room_in (unordered starts.now ends.now) tail.now (line_of (lines_in cells.now lens.now) to) leaving time }
{
    let start = 128 * to;
    let end = start + lens[to];
    room_in(&cells[start..end], starts, ends, tail, leaving, time)
}

// The move to a position of another machine's line, with its rank.
fn rated_at(leaving: Leaving, to: usize, time: u64, spot: Spot) -> Rated
    ensures { result ≡ rated_at leaving to time spot }
{
    Rated {
        length: spot.length,
        time,
        made: Move::Reassign(
            leaving.activity,
            leaving.machine,
            leaving.place,
            to,
            spot.place,
        ),
    }
}

// Offers all machines that the activity may run on, but its own. The three are left alone where a rank does not enter.
fn offer_candidates(
    table: &[usize],
    cells: &[usize],
    lens: &[usize; 16],
    starts: &[u64],
    ends: &[u64],
    tail: &[u64],
    leaving: Leaving,
    candidates: &[usize],
    three: Three,
) -> Three
    requires some_able { SomeAble table.now leaving.activity candidates.now × Holds cells.now lens.now × ((m : ℕ) → Below (length tail.now) (line_of (lines_in cells.now lens.now) m)) }
    requires reckoned { Reckoned starts.now ends.now tail.now × Ready (length tail.now) leaving }
    ensures { (p : Problem) → Able p table.now leaving.activity candidates.now → ranked result ≡ with_all (ranked three) (gathered (to_machine p (lines_in cells.now lens.now) (unordered starts.now ends.now) tail.now leaving) candidates.now) }
{
    let mut best = three;
    for &to in candidates {
        if to == leaving.machine {
            continue;
        }
        let time = tables::own_span(table, leaving.activity, to);
        let room = room_on(cells, lens, starts, ends, tail, leaving, to, time);
        let Some(spot) = room else {
            continue;
        };
        if !ranking::enters(
            best.count,
            best.first,
            best.second,
            best.third,
            spot.length,
            time,
        ) {
            continue;
        }
        best = ranking::keep(best, rated_at(leaving, to, time, spot));
    }
    best
}

// Offers all moves of one activity.
fn offer_activity(
    table: &[usize],
    cells: &[usize],
    lens: &[usize; 16],
    machines: &[usize],
    places: &[usize],
    starts: &[u64],
    ends: &[u64],
    tail: &[u64],
    a: usize,
    three: Three,
) -> Three
    requires { Holds cells.now lens.now × SomeMovable (lines_in cells.now lens.now) table.now machines.now places.now starts.now ends.now tail.now (a ∷ []) }
    ensures { (p : Problem) → Movable p (lines_in cells.now lens.now) table.now machines.now places.now starts.now ends.now tail.now (a ∷ []) → ranked result ≡ with_all (ranked three) (of_activity p (lines_in cells.now lens.now) (unordered starts.now ends.now) tail.now a) }
{
    let leaving = leaving_of(table, machines, places, starts, ends, tail, a);
    let candidates = tables::candidates_of(table, a);
    offer_candidates(
        table, cells, lens, starts, ends, tail, leaving, candidates, three,
    )
}

// The best three of all moves of the path's activities.
fn best_on_path(
    table: &[usize],
    cells: &[usize],
    lens: &[usize; 16],
    machines: &[usize],
    places: &[usize],
    starts: &[u64],
    ends: &[u64],
    tail: &[u64],
    path: &[usize],
) -> Three
    requires { Holds cells.now lens.now × SomeMovable (lines_in cells.now lens.now) table.now machines.now places.now starts.now ends.now tail.now path.now }
    ensures { (p : Problem) → Movable p (lines_in cells.now lens.now) table.now machines.now places.now starts.now ends.now tail.now path.now → ranked result ≡ best_three (reassignments p (lines_in cells.now lens.now) (unordered starts.now ends.now) tail.now path.now) }
{
    let mut best = ranking::none();
    for &a in path {
        best = offer_activity(
            table, cells, lens, machines, places, starts, ends, tail, a, best,
        );
    }
    best
}

// The best three moves of the path's activities to other machines. `choices` says whether any activity may run on two machines: without,
// there is none. `machines` and `places` have where each activity stands in the lines, `tail` the tail behind each.
pub fn reassignments(
    choices: bool,
    s: &[u8],
    z: Layout,
    table: &[usize],
    cells: &[usize],
    lens: &[usize; 16],
    machines: &[usize],
    places: &[usize],
    starts: &[u64],
    ends: &[u64],
    tail: &[u64],
    path: &[usize],
) -> Three
    requires choices_value { (choices ≡ flexible (problem_of (words s.now) z)) × Placed z × Holds cells.now lens.now × Open (problem_of (words s.now) z) (lines_in cells.now lens.now) × Below z.activities path.now }
    requires seen { Seen (problem_of (words s.now) z) (lines_in cells.now lens.now) table.now machines.now places.now starts.now ends.now tail.now }
    ensures { (order : List ℕ) → ranked result ≡ best_reassignments (problem_of (words s.now) z) (lines_in cells.now lens.now) (placed order starts.now ends.now) tail.now path.now }
{
    if choices {
        return best_on_path(
            table, cells, lens, machines, places, starts, ends, tail, path,
        );
    }
    ranking::none()
}
