// Lines timed again and again into the same arrays, to measure how long one timing takes.
ghost use Rattle.std.specs.Prelude.{◌≡◌, length};
ghost use Rattle.words.specs.Words.{words};
ghost use Rattle.plan.specs.Input.{problem_of};
ghost use Rattle.lines.specs.Lines.{lines_in, well_formed};
ghost use Rattle.calls.specs.Timing.{again_if, timed_again};
ghost use Rattle.calls.specs.Asked.{Taken};

use plan::Layout;

// The makespan of the last of so many timings; 0 where the lines do not hold each activity once.
fn repeat_known(
    s: &[u8],
    z: Layout,
    table: &[usize],
    cells: &[usize],
    lens: [usize; 16],
    times: usize,
) -> u64
    requires { Taken s.now z table.now × (length cells.now ≡ 2048) }
    ensures { result ≡ again_if (well_formed z.activities z.machines (lines_in cells.now lens)) times (problem_of (words s.now) z) (lines_in cells.now lens) }
{
    let n = z.activities;
    let mut before_room = [0usize; 128];
    let mut after_room = [0usize; 128];
    let mut on_room = [0usize; 128];
    let mut places_room = [0usize; 128];
    let mut order_room = [0usize; 128];
    let mut begun_room = [0u64; 128];
    let mut done_room = [0u64; 128];
    if !lines::well_formed(n, z.machines, cells, lens, &mut before_room) {
        return 0;
    }
    let before = &mut before_room[..n];
    let after = &mut after_room[..n];
    let on = &mut on_room[..n];
    let places = &mut places_room[..n];
    let order = &mut order_room[..n];
    let begun = &mut begun_room[..n];
    let done = &mut done_room[..n];
    let ways = plan::transports(s, z);
    for _ in 0..times {
        if !timing::time_sequences(
            s, z, table, ways, cells, lens, before, after, on, places, order, begun, done,
        ) {
            return 0;
        }
    }
    if times == 0 {
        return 0;
    }
    let sums = fitness::sums_of(s, z, done);
    sums.makespan
}

// Takes a plan in once, then times the lines given so many times. Answers the makespan of the last time, 0 where anything is refused.
pub fn time_again(s: &[u8], cells: &[usize], lens: [usize; 16], times: usize) -> u64
    ensures { result ≡ timed_again s.now cells.now lens times }
{
    if cells.len() < 2048 {
        return 0;
    }
    let mut table = intake::table_room();
    let Ok(z) = intake::take_in(s, &mut table) else {
        return 0;
    };
    repeat_known(s, z, &table, &cells[..2048], lens, times)
}
