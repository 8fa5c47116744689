// A plan taken in whole: read, its tables filled, and refused 4 where task order and predecessors close a circle.
#![tactic(auto)]

ghost use Rattle.std.specs.Prelude.{◌≡◌, IfOk, length, replicate};
ghost use Rattle.words.specs.Words.{words};
ghost use Rattle.plan.specs.Input.{problem_of, genes_of};
ghost use Rattle.plan.specs.Accepted.{Accepted};
ghost use Rattle.tables.specs.Regions.{cells};
ghost use Rattle.tables.specs.Tabled.{Tabled};
ghost use Rattle.intake.specs.Intake.{laid_out, taken_in};
ghost use Rattle.intake.specs.Circle.{closes_circle, Room};

use plan::Layout;
use reader::{Reason, Refusal};

// Whether the order over the tables, with no lines, leaves an activity out. The lent parts are as long as there are activities; those of
// the counts and the order are work space.
fn leaves_out(
    s: &[u8],
    z: Layout,
    table: &[usize],
    none: &[usize],
    counts: &mut [usize],
    stack: &mut [usize],
    order: &mut [usize],
) -> bool
    requires tabled { Tabled (problem_of (words s.now) z) table.now × Accepted (problem_of (words s.now) z) (genes_of (words s.now) z) }
    requires room { Room z.activities none.now counts.old stack.old order.old }
    ensures { result ≡ closes_circle (problem_of (words s.now) z) }
{
    let n = z.activities;
    let waits = tables::WAITS;
    let waits_end = waits + n;
    counts.copy_from_slice(&table[waits..waits_end]);
    let nexts = tables::NEXTS;
    let nexts_end = nexts + n;
    let at = tables::WAITING_AT;
    let at_end = at + 129;
    let waiting = tables::WAITING;
    let waiting_end = waiting + 256;
    let taken = graph::order_of(
        none,
        &table[nexts..nexts_end],
        &table[at..at_end],
        &table[waiting..waiting_end],
        counts,
        stack,
        order,
    );
    taken < n
}

// Whether task order and predecessors alone close a circle.
fn closes_circle(s: &[u8], z: Layout, table: &[usize]) -> bool
    requires { Tabled (problem_of (words s.now) z) table.now × Accepted (problem_of (words s.now) z) (genes_of (words s.now) z) }
    ensures { result ≡ closes_circle (problem_of (words s.now) z) }
{
    let n = z.activities;
    let none = [n; 128];
    let mut counts = [0usize; 128];
    let mut stack = [0usize; 128];
    let mut order = [0usize; 128];
    leaves_out(
        s,
        z,
        table,
        &none[..n],
        &mut counts[..n],
        &mut stack,
        &mut order[..n],
    )
}

// Takes a plan in, and answers how it lies: refusals 1, 2, 3 as the words come, then 5, then 4; the tables of what is accepted are filled. The
// table is work space.
pub fn take_in(s: &[u8], table: &mut [usize]) -> Result<Layout, Refusal>
    requires { length table.old ≡ cells }
    ensures answer { result ≡ laid_out (taken_in s.now) }
    ensures tabled { IfOk result (λ z. Tabled (problem_of (words s.now) z) table.new) }
    ensures total { IfOk result (λ z. (taken_in s.now).known.total ≡ z.activities) }
{
    let z = plan::layout_of(reader::read(s)?);
    tables::fill(s, z, table);
    if closes_circle(s, z, table) {
        return Err(Refusal {
            reason: Reason::Circle,
            place: 0,
        });
    }
    Ok(z)
}

// Room for the tables, all zeros.
pub fn table_room() -> [usize; 6787]
    ensures length { cells ≡ length result }
    ensures zeros { result ≡ replicate cells 0 }
{
    [0; 6787]
}
