// Blocks of the critical path: their moves, the estimate of each, and the three that are tried.
#![tactic(auto)]

mod offers;
mod runs;
mod stretch;

ghost use Rattle.std.specs.Prelude.{◌≡◌, List, [], ℕ, ◌≤◌, ◌<◌, length, get_or};
ghost use Rattle.plan.specs.Problem.{Problem};
ghost use Rattle.lines.specs.Lines.{lines_in};
ghost use Rattle.moves.specs.Moves.{Holds};
ghost use Rattle.ranking.specs.Ranking.{ranked};
ghost use Rattle.path.specs.Placing.{placed};
ghost use Rattle.blocks.specs.BlockMoves.{block, closed, blocks_by, block_moves};
ghost use Rattle.blocks.specs.Keeping.{keep_best_estimated};
ghost use Rattle.blocks.specs.Scanning.{Run, own_moves_of_all, Searched, Searchable, OffersAll};

use ranking::Three;
pub use runs::{block_end, count_moves};

// The moves of the run from place i to place r of the path are offered; a single activity has none.
fn offer_run(
    all: bool,
    path: &[usize],
    i: usize,
    r: usize,
    machines: &[usize],
    places: &[usize],
    cells: &[usize],
    lens: &[usize; 16],
    table: &[usize],
    starts: &[u64],
    ends: &[u64],
    tail: &[u64],
    heads: &mut [u64],
    three: Three,
) -> Three
    requires { Searchable (lines_in cells.now lens.now) table.now starts.now ends.now tail.now path.now machines.now places.now × Holds cells.now lens.now × Run (λ a. get_or machines.now a 0) (λ a. get_or places.now a 0) path.now i r × (128 ≤ length heads.old) }
    ensures { OffersAll all (own_moves_of_all (closed (block (get_or machines.now (get_or path.now i 0) 0) (get_or places.now (get_or path.now i 0) 0) (get_or places.now (get_or path.now r 0) 0)))) (lines_in cells.now lens.now) table.now starts.now ends.now tail.now path.now machines.now places.now (ranked three) (ranked result) }
{
    let a = path[i];
    let b = path[r];
    let machine = machines[a];
    let first = places[a];
    let last = places[b];
    if last <= first {
        return three;
    }
    let start = 128 * machine;
    let end = start + lens[machine];
    offers::offer_block(
        all,
        machine,
        first,
        last,
        &cells[start..end],
        table,
        starts,
        ends,
        tail,
        heads,
        three,
    )
}

// The moves of all blocks of a path are offered.
fn offer_blocks(
    all: bool,
    path: &[usize],
    machines: &[usize],
    places: &[usize],
    cells: &[usize],
    lens: &[usize; 16],
    table: &[usize],
    starts: &[u64],
    ends: &[u64],
    tail: &[u64],
    heads: &mut [u64],
) -> Three
    requires { Searchable (lines_in cells.now lens.now) table.now starts.now ends.now tail.now path.now machines.now places.now × Holds cells.now lens.now × (128 ≤ length heads.old) }
    ensures { OffersAll all (own_moves_of_all (blocks_by (λ a. get_or machines.now a 0) (λ a. get_or places.now a 0) path.now)) (lines_in cells.now lens.now) table.now starts.now ends.now tail.now path.now machines.now places.now [] (ranked result) }
{
    let mut three = ranking::none();
    let mut i = 0;
    while i < path.len() {
        let last = runs::block_end(path, i, machines, places);
        three = offer_run(
            all, path, i, last, machines, places, cells, lens, table, starts, ends, tail, heads,
            three,
        );
        i = last + 1;
    }
    three
}

// The block moves of a path that are tried: of more than three the three of least estimate, else all as given. `machines` and `places` say
// where each activity stands, `tail` has the tails; `heads` is work space.
pub fn block_moves(
    path: &[usize],
    machines: &[usize],
    places: &[usize],
    cells: &[usize],
    lens: &[usize; 16],
    table: &[usize],
    starts: &[u64],
    ends: &[u64],
    tail: &[u64],
    heads: &mut [u64],
) -> Three
    requires { Searchable (lines_in cells.now lens.now) table.now starts.now ends.now tail.now path.now machines.now places.now × Holds cells.now lens.now × (128 ≤ length heads.old) }
    ensures { (p : Problem) (order : List ℕ) → Searched p (lines_in cells.now lens.now) table.now starts.now ends.now tail.now path.now machines.now places.now → ranked result ≡ keep_best_estimated p (lines_in cells.now lens.now) (placed order starts.now ends.now) tail.now (block_moves (lines_in cells.now lens.now) path.now) }
{
    let count = runs::count_moves(path, machines, places);
    let all = count <= 3;
    offer_blocks(
        all, path, machines, places, cells, lens, table, starts, ends, tail, heads,
    )
}
