// Activities placed by a decoder in local cells, and their rows written from there.
ghost use Rattle.std.specs.Prelude.{◌≡◌, Ok};
ghost use Rattle.words.specs.Words.{words};
ghost use Rattle.plan.specs.Input.{problem_of, genes_of};
ghost use Rattle.genes.specs.Held.{Listed};
ghost use Rattle.in_order.specs.Waiting.{Rooms, Timed};
ghost use Rattle.rows.specs.Rows.{Roomy};
ghost use Rattle.calls.specs.Outcome.{answer_of, Leaves};
ghost use Rattle.calls.specs.Asked.{Taken};
ghost use Rattle.decoding.specs.Decoding.{sheet_in, board_sheet};
ghost use Rattle.decoding.specs.Rule.{rule_of, Laid};

use crate::Decoder;
use calls::Sheet;
use plan::Layout;

// Places the activities, and answers how many are placed.
fn place_by(
    which: Decoder,
    s: &[u8],
    z: Layout,
    table: &[usize],
    order: &mut [usize],
    begun: &mut [u64],
    done: &mut [u64],
    prepared: &mut [u64],
) -> usize
    requires { Taken s.now z table.now × Rooms z.activities order.old begun.old done.old prepared.old }
    ensures order { Listed (rule_of which (problem_of (words s.now) z) (genes_of (words s.now) z)).order order.old order.new result }
    ensures times { Timed (rule_of which (problem_of (words s.now) z) (genes_of (words s.now) z)) begun.new done.new prepared.new }
{
    let ways = plan::transports(s, z);
    match which {
        Decoder::InOrder => {
            in_order::place_in_order(s, z, table, ways, order, begun, done, prepared)
        }
        Decoder::Active => active::place_active(s, z, table, order, begun, done, prepared),
        Decoder::Better => {
            decode::better_placement(s, z, table, ways, order, begun, done, prepared)
        }
    }
}

// Writes the rows of a board: its activities in placing order, and their times by number.
fn write_board(
    s: &[u8],
    z: Layout,
    table: &[usize],
    order: &[usize],
    begun: &[u64],
    done: &[u64],
    prepared: &[u64],
    activities: &mut [usize],
    machines: &mut [usize],
    starts: &mut [u64],
    ends: &mut [u64],
    setups: &mut [u64],
) -> Sheet
    requires taken { Taken s.now z table.now × Laid z.activities order.now begun.now done.now prepared.now }
    requires roomy { Roomy 128 activities.old machines.old starts.old ends.old setups.old }
    ensures answer { Ok result ≡ answer_of (sheet_in (problem_of (words s.now) z) (genes_of (words s.now) z) order.now begun.now done.now prepared.now) }
    ensures rows { Leaves (sheet_in (problem_of (words s.now) z) (genes_of (words s.now) z) order.now begun.now done.now prepared.now) activities.old machines.old starts.old ends.old setups.old activities.new machines.new starts.new ends.new setups.new }
{
    let mut on = [0usize; 128];
    genes::fill_machines(s, z, &mut on);
    rows::write(
        order, &on, begun, done, prepared, activities, machines, starts, ends, setups,
    );
    Sheet {
        rows: order.len(),
        bits: fitness::fitness_bits(s, z, done),
    }
}

// Places and writes, with work space of its own.
pub fn write_placed(
    which: Decoder,
    s: &[u8],
    z: Layout,
    table: &[usize],
    activities: &mut [usize],
    machines: &mut [usize],
    starts: &mut [u64],
    ends: &mut [u64],
    setups: &mut [u64],
) -> Sheet
    requires taken { Taken s.now z table.now }
    requires roomy { Roomy 128 activities.old machines.old starts.old ends.old setups.old }
    ensures answer { Ok result ≡ answer_of (board_sheet (problem_of (words s.now) z) (genes_of (words s.now) z) (rule_of which (problem_of (words s.now) z) (genes_of (words s.now) z))) }
    ensures rows { Leaves (board_sheet (problem_of (words s.now) z) (genes_of (words s.now) z) (rule_of which (problem_of (words s.now) z) (genes_of (words s.now) z))) activities.old machines.old starts.old ends.old setups.old activities.new machines.new starts.new ends.new setups.new }
{
    let n = z.activities;
    let mut order = [0usize; 128];
    let mut begun_room = [0u64; 128];
    let mut done_room = [0u64; 128];
    let mut prepared_room = [0u64; 128];
    let begun = &mut begun_room[..n];
    let done = &mut done_room[..n];
    let prepared = &mut prepared_room[..n];
    let count = place_by(which, s, z, table, &mut order, begun, done, prepared);
    write_board(
        s,
        z,
        table,
        &order[..count],
        begun,
        done,
        prepared,
        activities,
        machines,
        starts,
        ends,
        setups,
    )
}
