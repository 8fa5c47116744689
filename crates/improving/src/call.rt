// The public call.
ghost use Rattle.std.specs.Prelude.{◌≡◌, ◌&&◌, ◌≤◌, eqb, length};
ghost use Rattle.words.specs.Words.{words};
ghost use Rattle.plan.specs.Input.{problem_of, genes_of};
ghost use Rattle.lines.specs.Lines.{lines_in, WellFormed};
ghost use Rattle.timing.specs.Timing.{contradicts};
ghost use Rattle.timing.specs.Placing.{Rooms};
ghost use Rattle.calls.specs.Asked.{Taken};
ghost use Rattle.trial.specs.Trial.{Ready};
ghost use Rattle.search.specs.Search.{twelve_if, improve};
ghost use Rattle.improving.specs.Improving.{told, tasks_over, machines_over, roomy, improved_in, answer_of, tasks_left, machines_left};

use crate::Ending;
use crate::found::search_and_tell;
use plan::Layout;
use reader::{Reason, Refusal};

// Outcome 12 where the lines contradict, else 13 or 14.
fn improve_lines(
    s: &[u8],
    z: Layout,
    table: &[usize],
    cells: &mut [usize],
    lens: [usize; 16],
    tasks: &mut [usize],
    machines: &mut [usize],
) -> Ending
    requires taken { Taken s.now z table.now × (length cells.old ≡ 2048) × WellFormed z.activities z.machines (lines_in cells.old lens) }
    requires in_bounds { (128 ≤ length tasks.old) × (128 ≤ length machines.old) }
    ensures answer { result ≡ told (twelve_if (contradicts (problem_of (words s.now) z) (lines_in cells.old lens)) (problem_of (words s.now) z) (lines_in cells.old lens)) }
    ensures tasks { tasks.new ≡ tasks_over (twelve_if (contradicts (problem_of (words s.now) z) (lines_in cells.old lens)) (problem_of (words s.now) z) (lines_in cells.old lens)) tasks.old }
    ensures machines { machines.new ≡ machines_over (twelve_if (contradicts (problem_of (words s.now) z) (lines_in cells.old lens)) (problem_of (words s.now) z) (lines_in cells.old lens)) machines.old }
{
    let n = z.activities;
    let mut before_room = [0usize; 128];
    let mut after_room = [0usize; 128];
    let mut on_room = [0usize; 128];
    let mut places_room = [0usize; 128];
    let mut order_room = [0usize; 128];
    let mut start_room = [0u64; 128];
    let mut end_room = [0u64; 128];
    let before = &mut before_room[..n];
    let after = &mut after_room[..n];
    let on = &mut on_room[..n];
    let places = &mut places_room[..n];
    let order = &mut order_room[..n];
    let starts = &mut start_room[..n];
    let ends = &mut end_room[..n];
    let ways = plan::transports(s, z);
    if !timing::time_sequences(
        s, z, table, ways, cells, lens, before, after, on, places, order, starts, ends,
    ) {
        return Ending::Contradictory;
    }
    search_and_tell(
        s, z, table, ways, cells, lens, order, starts, ends, tasks, machines,
    )
}

// Outcomes 10 and 11, else what the lines of the genes come to. The cells hold those lines at first, and are work space.
fn improve_genes(
    s: &[u8],
    z: Layout,
    table: &[usize],
    cells: &mut [usize],
    tasks: &mut [usize],
    machines: &mut [usize],
) -> Ending
    requires { Taken s.now z table.now × (length cells.old ≡ 2048) × (128 ≤ length tasks.old) × (128 ≤ length machines.old) }
    ensures answer { result ≡ told (improve (problem_of (words s.now) z) (genes_of (words s.now) z)) }
    ensures tasks { tasks.new ≡ tasks_over (improve (problem_of (words s.now) z) (genes_of (words s.now) z)) tasks.old }
    ensures machines { machines.new ≡ machines_over (improve (problem_of (words s.now) z) (genes_of (words s.now) z)) machines.old }
{
    if plan::limit(s, z) == 0 {
        return Ending::NoSteps;
    }
    let Some(lens) = genes::deal_lines(s, z, cells) else {
        return Ending::Incomplete;
    };
    improve_lines(s, z, table, cells, lens, tasks, machines)
}

// Whether the lines have 2,048 cells, and each result 128 places.
fn is_roomy(cells: &[usize], tasks: &[usize], machines: &[usize]) -> bool
    ensures { result ≡ roomy cells.now tasks.now machines.now }
{
    2048 <= cells.len() && 128 <= tasks.len() && 128 <= machines.len()
}

// Improves a plan: searches from the lines that its Order and Assignment give. Where something better is found, its task numbers, in timing
// order, and the machine of each activity are written over the first cells of the results; else nothing is. The cells are work space.
pub fn improve(
    s: &[u8],
    cells: &mut [usize],
    tasks: &mut [usize],
    machines: &mut [usize],
) -> Result<Ending, Refusal>
    ensures answer { result ≡ answer_of (improved_in s.now cells.old tasks.old machines.old) }
    ensures tasks { tasks.new ≡ tasks_left (improved_in s.now cells.old tasks.old machines.old) tasks.old }
    ensures machines { machines.new ≡ machines_left (improved_in s.now cells.old tasks.old machines.old) machines.old }
{
    if !is_roomy(cells, tasks, machines) {
        return Err(Refusal {
            reason: Reason::Room,
            place: 0,
        });
    }
    let mut table = intake::table_room();
    let z = intake::take_in(s, &mut table)?;
    Ok(improve_genes(s, z, &table, &mut cells[..2048], tasks, machines))
}
