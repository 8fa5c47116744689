// The sheet that is shown: the better of the two decoders'.
#![tactic(auto)]

ghost use Rattle.std.specs.Prelude.{◌≡◌, ◌≤◌, length};
ghost use Rattle.words.specs.Words.{words};
ghost use Rattle.plan.specs.Input.{problem_of, genes_of};
ghost use Rattle.plan.specs.Found.{Placed, Weighed, transports_of};
ghost use Rattle.plan.specs.Accepted.{Accepted};
ghost use Rattle.tables.specs.Tabled.{Tabled};
ghost use Rattle.genes.specs.Held.{Listed};
ghost use Rattle.in_order.specs.InOrder.{place_in_order};
ghost use Rattle.in_order.specs.Waiting.{Rooms, Timed};
ghost use Rattle.active.specs.Active.{place_active};
ghost use Rattle.decode.specs.Decode.{sheet_fitness, better_placement};

use plan::Layout;

// A decoder's sheet: how many are placed, and its fitness.
#[derive(Clone, Copy)]
struct Sheet {
    rows: usize,
    fitness: f64,
}

// Copies the activities of a sheet over the first cells of an order, and answers how many they are.
fn put_rows(list: &[usize], order: &mut [usize]) -> usize
    requires { length list.now ≤ length order.old }
    ensures { Listed list.now order.old order.new result }
{
    let count = list.len();
    order[..count].copy_from_slice(list);
    count
}

// Places in order, and answers the sheet.
fn in_order_sheet(
    s: &[u8],
    z: Layout,
    table: &[usize],
    ways: [[u32; 16]; 16],
    order: &mut [usize],
    starts: &mut [u64],
    ends: &mut [u64],
    setups: &mut [u64],
) -> Sheet
    requires placed { Placed z × Accepted (problem_of (words s.now) z) (genes_of (words s.now) z) × Tabled (problem_of (words s.now) z) table.now × (ways ≡ transports_of (problem_of (words s.now) z)) }
    requires weighed { Weighed (words s.now) z × Rooms z.activities order.old starts.old ends.old setups.old }
    ensures fitness { result.fitness ≡ sheet_fitness (problem_of (words s.now) z) (place_in_order (problem_of (words s.now) z) (genes_of (words s.now) z)) }
    ensures order { Listed (place_in_order (problem_of (words s.now) z) (genes_of (words s.now) z)).order order.old order.new result.rows }
    ensures times { Timed (place_in_order (problem_of (words s.now) z) (genes_of (words s.now) z)) starts.new ends.new setups.new }
{
    let rows = in_order::place_in_order(s, z, table, ways, order, starts, ends, setups);
    let fitness = fitness::fitness_of(s, z, ends);
    Sheet { rows, fitness }
}

// Places actively, and answers the sheet.
fn active_sheet(
    s: &[u8],
    z: Layout,
    table: &[usize],
    order: &mut [usize],
    starts: &mut [u64],
    ends: &mut [u64],
    setups: &mut [u64],
) -> Sheet
    requires placed { Placed z × Accepted (problem_of (words s.now) z) (genes_of (words s.now) z) × Tabled (problem_of (words s.now) z) table.now }
    requires weighed { Weighed (words s.now) z × Rooms z.activities order.old starts.old ends.old setups.old }
    ensures fitness { result.fitness ≡ sheet_fitness (problem_of (words s.now) z) (place_active (problem_of (words s.now) z) (genes_of (words s.now) z)) }
    ensures order { Listed (place_active (problem_of (words s.now) z) (genes_of (words s.now) z)).order order.old order.new result.rows }
    ensures times { Timed (place_active (problem_of (words s.now) z) (genes_of (words s.now) z)) starts.new ends.new setups.new }
{
    let rows = active::place_active(s, z, table, order, starts, ends, setups);
    let fitness = fitness::fitness_of(s, z, ends);
    Sheet { rows, fitness }
}

// Places what the genes give by the decoder whose sheet is better, in order unless active is strictly less: writes the activities placed, in
// placing order, and the start, the end and the setup of each by its number, and answers how many are placed. Both orders are held apart, so
// that no cell after the last row is touched, and so are the active times, which are copied where they are used.
pub fn better_placement(
    s: &[u8],
    z: Layout,
    table: &[usize],
    ways: [[u32; 16]; 16],
    order: &mut [usize],
    starts: &mut [u64],
    ends: &mut [u64],
    setups: &mut [u64],
) -> usize
    requires placed { Placed z × Accepted (problem_of (words s.now) z) (genes_of (words s.now) z) × Tabled (problem_of (words s.now) z) table.now × (ways ≡ transports_of (problem_of (words s.now) z)) }
    requires weighed { Weighed (words s.now) z × Rooms z.activities order.old starts.old ends.old setups.old }
    ensures order { Listed (better_placement (problem_of (words s.now) z) (genes_of (words s.now) z)).order order.old order.new result }
    ensures times { Timed (better_placement (problem_of (words s.now) z) (genes_of (words s.now) z)) starts.new ends.new setups.new }
{
    let n = z.activities;
    let mut taken = [0usize; 128];
    let mut chosen = [0usize; 128];
    let mut begun_room = [0u64; 128];
    let mut done_room = [0u64; 128];
    let mut prepared_room = [0u64; 128];
    let begun = &mut begun_room[..n];
    let done = &mut done_room[..n];
    let prepared = &mut prepared_room[..n];
    let usual = in_order_sheet(s, z, table, ways, &mut taken, starts, ends, setups);
    let tight = active_sheet(s, z, table, &mut chosen, begun, done, prepared);
    if tight.fitness < usual.fitness {
        starts.copy_from_slice(begun);
        ends.copy_from_slice(done);
        setups.copy_from_slice(prepared);
        let rows = tight.rows;
        return put_rows(&chosen[..rows], order);
    }
    let rows = usual.rows;
    put_rows(&taken[..rows], order)
}
