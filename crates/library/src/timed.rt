// Timing of lines.
ghost use Rattle.std.specs.Prelude.{◌≡◌};
ghost use Rattle.calls.specs.Outcome.{answer_of, Leaves};
ghost use Rattle.calls.specs.Timing.{timed, timed_order, timed_again};
ghost use Rattle.library.specs.Code.{code_of};

use crate::code_of;

pub fn lavkkesto_time(
    s: &[u8],
    cells: &[usize],
    lens: &[usize; 16],
    activities: &mut [usize],
    machines: &mut [usize],
    starts: &mut [u64],
    ends: &mut [u64],
    setups: &mut [u64],
    code: &mut [u64; 4],
)
    ensures answer { code.new ≡ code_of (answer_of (timed s.now cells.now lens.now activities.old machines.old starts.old ends.old setups.old)) }
    ensures rows { Leaves (timed s.now cells.now lens.now activities.old machines.old starts.old ends.old setups.old) activities.old machines.old starts.old ends.old setups.old activities.new machines.new starts.new ends.new setups.new }
{
    let lengths = *lens;
    let a = calls::time(
        s, cells, lengths, activities, machines, starts, ends, setups,
    );
    *code = code_of(a);
}

pub fn lavkkesto_time_order(
    s: &[u8],
    activities: &mut [usize],
    machines: &mut [usize],
    starts: &mut [u64],
    ends: &mut [u64],
    setups: &mut [u64],
    code: &mut [u64; 4],
)
    ensures answer { code.new ≡ code_of (answer_of (timed_order s.now activities.old machines.old starts.old ends.old setups.old)) }
    ensures rows { Leaves (timed_order s.now activities.old machines.old starts.old ends.old setups.old) activities.old machines.old starts.old ends.old setups.old activities.new machines.new starts.new ends.new setups.new }
{
    let a = calls::time_order(s, activities, machines, starts, ends, setups);
    *code = code_of(a);
}

pub fn lavkkesto_time_again(s: &[u8], cells: &[usize], lens: &[usize; 16], times: usize) -> u64
    ensures { result ≡ timed_again s.now cells.now lens.now times }
{
    let lengths = *lens;
    calls::time_again(s, cells, lengths, times)
}
