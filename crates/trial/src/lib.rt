// The moves of a search step, tried one after the other: each is timed and weighed, and the strictly least counts, the first among equals.
#![tactic(auto)]

mod forbid;

ghost use Rattle.std.specs.Prelude.{◌≡◌, true, false, not, ◌<◌, length, get_or};
ghost use Rattle.words.specs.Words.{words};
ghost use Rattle.plan.specs.Input.{problem_of, genes_of};
ghost use Rattle.plan.specs.Accepted.{Accepted};
ghost use Rattle.plan.specs.Found.{Placed, Weighed};
ghost use Rattle.lines.specs.Lines.{lines_in, WellFormed};
ghost use Rattle.lines.specs.Linking.{links_of, LinesHeld};
ghost use Rattle.moves.specs.Moves.{applied};
ghost use Rattle.ranking.specs.Ranking.{ranked};
ghost use Rattle.fitness.specs.Fitness.{fitness_of};
ghost use Rattle.fitness.specs.Ended.{Ended};
ghost use Rattle.fitness.specs.Rising.{Rising};
ghost use Rattle.timing.specs.Timing.{contradicts};
ghost use Rattle.timing.specs.Placing.{Timed, Rooms};
ghost use Rattle.trial.specs.declared.Best.TheVariants.{Nothing};
ghost use Rattle.trial.specs.Taboo.{fresh, forbidden};
ghost use Rattle.trial.specs.Trial.{beats, counts, pick_list, weighed, tried, tried_all, moves_of, Ready, Allowed, AllAllowed, Kept, Holding};

pub use forbid::{is_forbidden, left_after, pairs_after};
use moves::Move;
use plan::Layout;
use ranking::Three;

// Two numbers that are listed until a step.
#[derive(Clone, Copy)]
pub struct Taboo {
    pub first: usize,
    pub second: usize,
    pub until: usize,
}

// Nothing yet, or a fitness with its move: an enum of its own, and no Option, since the project names this form for this place.
#[derive(Clone, Copy)]
pub enum Best {
    Nothing,
    Found(f64, Move),
}

// Where the search is.
#[derive(Clone, Copy)]
pub struct Search {
    pub step: usize,
}

impl Search {
    // How many block moves are timed in a step, and how many reassignments.
    pub const TIMED_SWAPS: usize = 3;
    // For how many steps an entry is live; so many places a list has.
    pub const TABOO_STEPS: usize = 6;
    // No end of an accepted plan is later.
    pub const LARGEST_END: u64 = 1_101_659_110_911;

    // Places that are live at no step.
    pub fn fresh_taboo() -> [Taboo; 6]
        ensures { result ≡ fresh }
    {
        [Taboo {
            first: 0,
            second: 0,
            until: 0,
        }; Search::TABOO_STEPS]
    }

    // No move counts yet.
    pub fn nothing() -> Best
        ensures { result ≡ Nothing }
    {
        Best::Nothing
    }
}

// Whether a fitness is strictly smaller than what is held.
fn beats(held: Best, fitness: f64) -> bool
    ensures { result ≡ beats held fitness }
{
    match held {
        Best::Nothing => true,
        Best::Found(old, _) => fitness < old,
    }
}

// Whether a move counts: a forbidden one only below the best ever.
fn counts(forbidden: bool, best: f64, fitness: f64, held: Best) -> bool
    ensures { result ≡ counts forbidden best fitness held }
{
    (!forbidden || fitness < best) && beats(held, fitness)
}

// Copies a list over another of its length, cell by cell: where it is not seen that the two lie apart, std's `copy_from_slice` asks for `memmove`
// from outside, and the archive for C does without.
fn copy<T: Copy>(from: &[T], to: &mut [T])
    requires { length to.old ≡ length from.now }
    ensures { to.new ≡ from.now }
{
    for i in 0..from.len() {
        to[i] = from[i];
    }
}

// Weighs a move whose lines are timed. Where it counts, its timing is kept and it is answered, else what was held.
fn weigh_move(
    s: &[u8],
    z: Layout,
    m: Move,
    forbidden: bool,
    best: f64,
    held: Best,
    order: &[usize],
    starts: &[u64],
    ends: &[u64],
    taken: &mut [usize],
    begun: &mut [u64],
    done: &mut [u64],
) -> Best
    requires placed { Placed z × Accepted (problem_of (words s.now) z) (genes_of (words s.now) z) × Weighed (words s.now) z }
    requires ended { Ended z.activities ends.now × Rising (problem_of (words s.now) z) ends.now }
    requires kept { Kept z.activities order.now starts.now ends.now × Kept z.activities taken.old begun.old done.old }
    ensures answer { result ≡ weighed false forbidden best (fitness_of (problem_of (words s.now) z) (λ a. get_or ends.now a 0)) m held }
    ensures order { taken.new ≡ pick_list (counts forbidden best (fitness_of (problem_of (words s.now) z) (λ a. get_or ends.now a 0)) held) order.now taken.old }
    ensures starts { begun.new ≡ pick_list (counts forbidden best (fitness_of (problem_of (words s.now) z) (λ a. get_or ends.now a 0)) held) starts.now begun.old }
    ensures ends { done.new ≡ pick_list (counts forbidden best (fitness_of (problem_of (words s.now) z) (λ a. get_or ends.now a 0)) held) ends.now done.old }
{
    let fitness = fitness::fitness_by_last_steps(s, z, ends);
    if !counts(forbidden, best, fitness, held) {
        return held;
    }
    copy(order, taken);
    copy(starts, begun);
    copy(ends, done);
    Best::Found(fitness, m)
}

// Times the lines as a move would leave them: false where they contradict. The lines stay as they are, and so do their links; cells past a
// line's length do not.
fn time_move(
    s: &[u8],
    z: Layout,
    table: &[usize],
    ways: &[[u32; 16]; 16],
    m: Move,
    cells: &mut [usize],
    lens: [usize; 16],
    before: &mut [usize],
    after: &mut [usize],
    machines: &mut [usize],
    places: &mut [usize],
    counts: &mut [usize],
    stack: &mut [usize],
    order: &mut [usize],
    starts: &mut [u64],
    ends: &mut [u64],
) -> bool
    requires ready { Ready s.now z table.now ways.now × (length cells.old ≡ 2048) × WellFormed z.activities z.machines (lines_in cells.old lens) × Allowed z.machines (lines_in cells.old lens) m }
    requires rooms { Rooms z.activities before.old after.old machines.old places.old order.old starts.old ends.old × LinesHeld z.activities (lines_in cells.old lens) (links_of before.old after.old machines.old places.old) × (length counts.old ≡ z.activities) × (length stack.old ≡ z.activities) }
    ensures answer { result ≡ not (contradicts (problem_of (words s.now) z) (applied m (lines_in cells.old lens))) }
    ensures timed { result ≡ true → Timed (problem_of (words s.now) z) (applied m (lines_in cells.old lens)) order.new starts.new ends.new }
    ensures lines { lines_in cells.new lens ≡ lines_in cells.old lens }
    ensures linked { LinesHeld z.activities (lines_in cells.old lens) (links_of before.new after.new machines.new places.new) }
{
    let n = z.activities;
    let moved = moves::apply(m, cells, lens);
    moves::relink(m, n, cells, &moved, before, after, machines, places);
    let possible = timing::time_linked(
        s, z, table, ways, cells, &moved, before, after, machines, counts, stack, order, starts,
        ends,
    );
    let back = moves::reverse(m);
    moves::apply(back, cells, moved);
    moves::relink(back, n, cells, &lens, before, after, machines, places);
    possible
}

// Tries a move: times it, and weighs it where its lines do not contradict.
fn try_move(
    s: &[u8],
    z: Layout,
    table: &[usize],
    ways: &[[u32; 16]; 16],
    m: Move,
    forbidden: bool,
    best: f64,
    held: Best,
    cells: &mut [usize],
    lens: [usize; 16],
    before: &mut [usize],
    after: &mut [usize],
    machines: &mut [usize],
    places: &mut [usize],
    counts: &mut [usize],
    stack: &mut [usize],
    order: &mut [usize],
    starts: &mut [u64],
    ends: &mut [u64],
    taken: &mut [usize],
    begun: &mut [u64],
    done: &mut [u64],
) -> Best
    requires ready { Ready s.now z table.now ways.now × (length cells.old ≡ 2048) × WellFormed z.activities z.machines (lines_in cells.old lens) × Allowed z.machines (lines_in cells.old lens) m }
    requires rooms { Rooms z.activities before.old after.old machines.old places.old order.old starts.old ends.old × LinesHeld z.activities (lines_in cells.old lens) (links_of before.old after.old machines.old places.old) × (length counts.old ≡ z.activities) × (length stack.old ≡ z.activities) }
    requires kept { Kept z.activities taken.old begun.old done.old × Holding (problem_of (words s.now) z) (lines_in cells.old lens) held taken.old begun.old done.old }
    ensures answer { result ≡ tried (problem_of (words s.now) z) (lines_in cells.old lens) forbidden best m held }
    ensures holding { Holding (problem_of (words s.now) z) (lines_in cells.old lens) result taken.new begun.new done.new }
    ensures lines { lines_in cells.new lens ≡ lines_in cells.old lens }
    ensures linked { LinesHeld z.activities (lines_in cells.old lens) (links_of before.new after.new machines.new places.new) }
{
    if !time_move(
        s, z, table, ways, m, cells, lens, before, after, machines, places, counts, stack, order,
        starts, ends,
    ) {
        return held;
    }
    weigh_move(
        s, z, m, forbidden, best, held, order, starts, ends, taken, begun, done,
    )
}

// Tries up to three moves in turn, after what is held. `best` is the best ever. The timing of the one answered is kept in the last three
// buffers; the five before them are work space. The lines stay as they are, and so do their links.
pub fn try_three(
    s: &[u8],
    z: Layout,
    table: &[usize],
    ways: &[[u32; 16]; 16],
    three: Three,
    step: usize,
    pairs: [Taboo; 6],
    left: [Taboo; 6],
    best: f64,
    held: Best,
    cells: &mut [usize],
    lens: [usize; 16],
    before: &mut [usize],
    after: &mut [usize],
    machines: &mut [usize],
    places: &mut [usize],
    counts: &mut [usize],
    stack: &mut [usize],
    order: &mut [usize],
    starts: &mut [u64],
    ends: &mut [u64],
    taken: &mut [usize],
    begun: &mut [u64],
    done: &mut [u64],
) -> Best
    requires ready { Ready s.now z table.now ways.now × (length cells.old ≡ 2048) × WellFormed z.activities z.machines (lines_in cells.old lens) × AllAllowed z.machines (lines_in cells.old lens) three }
    requires rooms { Rooms z.activities before.old after.old machines.old places.old order.old starts.old ends.old × LinesHeld z.activities (lines_in cells.old lens) (links_of before.old after.old machines.old places.old) × (length counts.old ≡ z.activities) × (length stack.old ≡ z.activities) }
    requires kept { Kept z.activities taken.old begun.old done.old × Holding (problem_of (words s.now) z) (lines_in cells.old lens) held taken.old begun.old done.old }
    ensures answer { result ≡ tried_all (problem_of (words s.now) z) (lines_in cells.old lens) (forbidden step pairs left (lines_in cells.old lens)) best (moves_of (ranked three)) held }
    ensures holding { Holding (problem_of (words s.now) z) (lines_in cells.old lens) result taken.new begun.new done.new }
    ensures lines { lines_in cells.new lens ≡ lines_in cells.old lens }
    ensures linked { LinesHeld z.activities (lines_in cells.old lens) (links_of before.new after.new machines.new places.new) }
{
    let mut kept = held;
    for k in 0..three.count {
        let rated = ranking::at(three, k);
        let m = rated.made;
        let forbidden = forbid::is_forbidden(m, step, pairs, left, cells);
        kept = try_move(
            s, z, table, ways, m, forbidden, best, kept, cells, lens, before, after, machines,
            places, counts, stack, order, starts, ends, taken, begun, done,
        );
    }
    kept
}
