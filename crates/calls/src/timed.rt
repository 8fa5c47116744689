// Timing of lines that the caller gives.
ghost use Rattle.std.specs.Prelude.{◌≡◌, ◌&&◌, leb, length, take};
ghost use Rattle.words.specs.Words.{words};
ghost use Rattle.plan.specs.Input.{problem_of, genes_of};
ghost use Rattle.lines.specs.Lines.{lines_in, WellFormed};
ghost use Rattle.timing.specs.Timing.{contradicts};
ghost use Rattle.timing.specs.Placing.{Seated, Timed};
ghost use Rattle.rows.specs.Rows.{Roomy, Written};
ghost use Rattle.calls.specs.Outcome.{answer_of, Leaves};
ghost use Rattle.calls.specs.Timing.{sheet_of, eight_if, timed_lines, timed_genes, timed, timed_order, roomy};
ghost use Rattle.calls.specs.Asked.{Taken};

use crate::Sheet;
use plan::Layout;
use reader::{Reason, Refusal};

// Whether each result has 128 places.
pub fn rows_fit(a: &[usize], m: &[usize], s: &[u64], e: &[u64], u: &[u64]) -> bool
    ensures { result ≡ roomy a.now m.now s.now e.now u.now }
{
    128 <= a.len() && 128 <= m.len() && 128 <= s.len() && 128 <= e.len() && 128 <= u.len()
}

// Whether the lines have 2,048 cells, too.
fn is_roomy(cells: &[usize], a: &[usize], m: &[usize], s: &[u64], e: &[u64], u: &[u64]) -> bool
    ensures { result ≡ (leb 2048 (length cells.now) && roomy a.now m.now s.now e.now u.now) }
{
    2048 <= cells.len() && rows_fit(a, m, s, e, u)
}

// Writes the rows of timed lines.
fn write_sheet(
    s: &[u8],
    z: Layout,
    table: &[usize],
    cells: &[usize],
    lens: [usize; 16],
    before: &[usize],
    on: &[usize],
    order: &[usize],
    begun: &[u64],
    done: &[u64],
    activities: &mut [usize],
    machines: &mut [usize],
    starts: &mut [u64],
    ends: &mut [u64],
    setups: &mut [u64],
)
    requires taken { Taken s.now z table.now × WellFormed z.activities z.machines (lines_in cells.now lens) }
    requires seated { Seated z.activities (lines_in cells.now lens) before.now on.now × Timed (problem_of (words s.now) z) (lines_in cells.now lens) order.now begun.now done.now }
    requires roomy { Roomy 128 activities.old machines.old starts.old ends.old setups.old }
    ensures { Written (sheet_of (problem_of (words s.now) z) (lines_in cells.now lens)) activities.old machines.old starts.old ends.old setups.old activities.new machines.new starts.new ends.new setups.new }
{
    let n = z.activities;
    let mut prepared = [0u64; 128];
    timing::fill_setups(s, z, table, cells, lens, before, on, &mut prepared[..n]);
    rows::write(
        order,
        on,
        begun,
        done,
        &prepared[..n],
        activities,
        machines,
        starts,
        ends,
        setups,
    );
}

// Number 8 where the lines contradict, else their rows.
fn time_lines(
    s: &[u8],
    z: Layout,
    table: &[usize],
    cells: &[usize],
    lens: [usize; 16],
    activities: &mut [usize],
    machines: &mut [usize],
    starts: &mut [u64],
    ends: &mut [u64],
    setups: &mut [u64],
) -> Result<Sheet, Refusal>
    requires taken { Taken s.now z table.now × (length cells.now ≡ 2048) × WellFormed z.activities z.machines (lines_in cells.now lens) }
    requires roomy { Roomy 128 activities.old machines.old starts.old ends.old setups.old }
    ensures answer { result ≡ answer_of (eight_if (contradicts (problem_of (words s.now) z) (lines_in cells.now lens)) (problem_of (words s.now) z) (lines_in cells.now lens)) }
    ensures rows { Leaves (eight_if (contradicts (problem_of (words s.now) z) (lines_in cells.now lens)) (problem_of (words s.now) z) (lines_in cells.now lens)) activities.old machines.old starts.old ends.old setups.old activities.new machines.new starts.new ends.new setups.new }
{
    let n = z.activities;
    let mut before_room = [0usize; 128];
    let mut after_room = [0usize; 128];
    let mut on_room = [0usize; 128];
    let mut places_room = [0usize; 128];
    let mut order_room = [0usize; 128];
    let mut begun_room = [0u64; 128];
    let mut done_room = [0u64; 128];
    let before = &mut before_room[..n];
    let after = &mut after_room[..n];
    let on = &mut on_room[..n];
    let places = &mut places_room[..n];
    let order = &mut order_room[..n];
    let begun = &mut begun_room[..n];
    let done = &mut done_room[..n];
    let ways = plan::transports(s, z);
    if !timing::time_sequences(
        s, z, table, ways, cells, lens, before, after, on, places, order, begun, done,
    ) {
        return Err(Refusal {
            reason: Reason::Contradiction,
            place: 0,
        });
    }
    write_sheet(
        s, z, table, cells, lens, before, on, order, begun, done, activities, machines, starts,
        ends, setups,
    );
    Ok(Sheet {
        rows: z.activities,
        bits: fitness::fitness_bits(s, z, done),
    })
}

// Number 7 where the lines do not hold each activity once on the machines that there are.
fn time_known(
    s: &[u8],
    z: Layout,
    table: &[usize],
    cells: &[usize],
    lens: [usize; 16],
    activities: &mut [usize],
    machines: &mut [usize],
    starts: &mut [u64],
    ends: &mut [u64],
    setups: &mut [u64],
) -> Result<Sheet, Refusal>
    requires taken { Taken s.now z table.now × (length cells.now ≡ 2048) }
    requires roomy { Roomy 128 activities.old machines.old starts.old ends.old setups.old }
    ensures answer { result ≡ answer_of (timed_lines (problem_of (words s.now) z) (lines_in cells.now lens)) }
    ensures rows { Leaves (timed_lines (problem_of (words s.now) z) (lines_in cells.now lens)) activities.old machines.old starts.old ends.old setups.old activities.new machines.new starts.new ends.new setups.new }
{
    let mut seen = [0usize; 128];
    if !lines::well_formed(z.activities, z.machines, cells, lens, &mut seen) {
        return Err(Refusal {
            reason: Reason::Lines,
            place: 0,
        });
    }
    time_lines(
        s, z, table, cells, lens, activities, machines, starts, ends, setups,
    )
}

// Times the lines given for a plan: machine m's line is the first lens[m] cells from cell 128 m on. The rows are written in timing order; a
// refusal writes nothing.
pub fn time(
    s: &[u8],
    cells: &[usize],
    lens: [usize; 16],
    activities: &mut [usize],
    machines: &mut [usize],
    starts: &mut [u64],
    ends: &mut [u64],
    setups: &mut [u64],
) -> Result<Sheet, Refusal>
    ensures answer { result ≡ answer_of (timed s.now cells.now lens activities.old machines.old starts.old ends.old setups.old) }
    ensures rows { Leaves (timed s.now cells.now lens activities.old machines.old starts.old ends.old setups.old) activities.old machines.old starts.old ends.old setups.old activities.new machines.new starts.new ends.new setups.new }
{
    if !is_roomy(cells, activities, machines, starts, ends, setups) {
        return Err(Refusal {
            reason: Reason::Room,
            place: 0,
        });
    }
    let mut table = intake::table_room();
    let z = intake::take_in(s, &mut table)?;
    time_known(
        s,
        z,
        &table,
        &cells[..2048],
        lens,
        activities,
        machines,
        starts,
        ends,
        setups,
    )
}

// Number 7 where the genes miss an activity, else their lines timed.
fn time_genes(
    s: &[u8],
    z: Layout,
    table: &[usize],
    activities: &mut [usize],
    machines: &mut [usize],
    starts: &mut [u64],
    ends: &mut [u64],
    setups: &mut [u64],
) -> Result<Sheet, Refusal>
    requires { Taken s.now z table.now × Roomy 128 activities.old machines.old starts.old ends.old setups.old }
    ensures answer { result ≡ answer_of (timed_genes (problem_of (words s.now) z) (genes_of (words s.now) z)) }
    ensures rows { Leaves (timed_genes (problem_of (words s.now) z) (genes_of (words s.now) z)) activities.old machines.old starts.old ends.old setups.old activities.new machines.new starts.new ends.new setups.new }
{
    let mut cells = [0usize; 2048];
    let Some(lens) = genes::deal_lines(s, z, &mut cells) else {
        return Err(Refusal {
            reason: Reason::Lines,
            place: 0,
        });
    };
    time_lines(
        s, z, table, &cells, lens, activities, machines, starts, ends, setups,
    )
}

// Times the lines that a plan's own Order and Assignment give.
pub fn time_order(
    s: &[u8],
    activities: &mut [usize],
    machines: &mut [usize],
    starts: &mut [u64],
    ends: &mut [u64],
    setups: &mut [u64],
) -> Result<Sheet, Refusal>
    ensures answer { result ≡ answer_of (timed_order s.now activities.old machines.old starts.old ends.old setups.old) }
    ensures rows { Leaves (timed_order s.now activities.old machines.old starts.old ends.old setups.old) activities.old machines.old starts.old ends.old setups.old activities.new machines.new starts.new ends.new setups.new }
{
    if !rows_fit(activities, machines, starts, ends, setups) {
        return Err(Refusal {
            reason: Reason::Room,
            place: 0,
        });
    }
    let mut table = intake::table_room();
    let z = intake::take_in(s, &mut table)?;
    time_genes(s, z, &table, activities, machines, starts, ends, setups)
}
