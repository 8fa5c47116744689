// One step after the other, until no move counts or the last step is made.
ghost use Rattle.std.specs.Prelude.{◌≡◌, not, ◌≤◌, T, length};
ghost use Rattle.std.specs.Float.Ieee.{is_nan};
ghost use Rattle.words.specs.Words.{words};
ghost use Rattle.plan.specs.Input.{problem_of};
ghost use Rattle.lines.specs.Lines.{lines_in};
ghost use Rattle.timing.specs.Placing.{Timed};
ghost use Rattle.reassign.specs.Reassignments.{flexible};
ghost use Rattle.trial.specs.Trial.{Ready, Kept, line_fitness};
ghost use Rattle.search.specs.Asked.{Lined};
ghost use Rattle.search.specs.Search.{saved_of, searched_to};

use crate::step::{keep, try_step};
use plan::Layout;
use search::Finish;
use trial::{Best, Search};

// Makes at most so many steps from timed lines, whose fitness is `first`. Tasks and machines are those of the best, where it is below the first;
// the lines, their timing and the three buffers behind it are work space.
pub fn search_lines(
    s: &[u8],
    z: Layout,
    table: &[usize],
    ways: [[u32; 16]; 16],
    choices: bool,
    limit: usize,
    first: f64,
    cells: &mut [usize],
    lens: [usize; 16],
    order: &mut [usize],
    starts: &mut [u64],
    ends: &mut [u64],
    taken: &mut [usize],
    begun: &mut [u64],
    done: &mut [u64],
    tasks: &mut [usize],
    machines: &mut [usize],
) -> Finish
    requires ready { Ready s.now z table.now ways × Lined z.activities z.machines cells.old lens × Timed (problem_of (words s.now) z) (lines_in cells.old lens) order.old starts.old ends.old × (choices ≡ flexible (problem_of (words s.now) z)) }
    requires limit_bound { (limit ≤ 1000) × (first ≡ line_fitness (problem_of (words s.now) z) (lines_in cells.old lens)) × (length tasks.old ≡ z.activities) × (length machines.old ≡ z.activities) }
    requires kept { Kept z.activities order.old starts.old ends.old × Kept z.activities taken.old begun.old done.old }
    ensures best { result.best ≡ (searched_to (problem_of (words s.now) z) limit (lines_in cells.old lens)).best }
    ensures found { saved_of result.found tasks.new machines.new ≡ (searched_to (problem_of (words s.now) z) limit (lines_in cells.old lens)).found }
    ensures number { T (not (is_nan result.best)) }
{
    let mut lengths = lens;
    let mut pairs = Search::fresh_taboo();
    let mut left = Search::fresh_taboo();
    let mut sofar = Finish {
        best: first,
        found: false,
    };
    for step in 0..limit {
        let best = sofar.best;
        let tried = try_step(
            s, z, table, &ways, choices, step, pairs, left, best, cells, lengths, order, starts,
            ends, taken, begun, done,
        );
        let Best::Found(f, m) = tried else {
            break;
        };
        let paired = trial::pairs_after(m, step, pairs, cells);
        pairs = paired;
        let quit = trial::left_after(m, step, left);
        left = quit;
        let moved = search::make_move(m, cells, lengths, taken, begun, done, order, starts, ends);
        lengths = moved;
        sofar = keep(
            z.activities,
            table,
            cells,
            lengths,
            order,
            tasks,
            machines,
            f,
            sofar,
        );
    }
    sofar
}
