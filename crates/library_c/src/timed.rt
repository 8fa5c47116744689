// Timing of lines.
ghost use Rattle.std.specs.Prelude.{◌≡◌};
ghost use Rattle.calls.specs.Outcome.{answer_of, Leaves};
ghost use Rattle.calls.specs.Timing.{timed, timed_order, timed_again};
ghost use Rattle.library.specs.Code.{code_of};

#[unsafe(no_mangle)]
pub extern "C" fn lavkkesto_time(
    s: &[u8],
    cells: &[usize],
    lens: &[usize; 16],
    activities: &mut [usize],
    machines: &mut [usize],
    starts: &mut [u64],
    ends: &mut [u64],
    setups: &mut [u64],
    code: &mut [u64; 4],
)
    ensures answer { code.new ≡ code_of (answer_of (timed s.now cells.now lens.now activities.old machines.old starts.old ends.old setups.old)) }
    ensures rows { Leaves (timed s.now cells.now lens.now activities.old machines.old starts.old ends.old setups.old) activities.old machines.old starts.old ends.old setups.old activities.new machines.new starts.new ends.new setups.new }
{
    library::timed::lavkkesto_time(
        s, cells, lens, activities, machines, starts, ends, setups, code,
    );
}

#[unsafe(no_mangle)]
pub extern "C" fn lavkkesto_time_order(
    s: &[u8],
    activities: &mut [usize],
    machines: &mut [usize],
    starts: &mut [u64],
    ends: &mut [u64],
    setups: &mut [u64],
    code: &mut [u64; 4],
)
    ensures answer { code.new ≡ code_of (answer_of (timed_order s.now activities.old machines.old starts.old ends.old setups.old)) }
    ensures rows { Leaves (timed_order s.now activities.old machines.old starts.old ends.old setups.old) activities.old machines.old starts.old ends.old setups.old activities.new machines.new starts.new ends.new setups.new }
{
    library::timed::lavkkesto_time_order(s, activities, machines, starts, ends, setups, code);
}

#[unsafe(no_mangle)]
pub extern "C" fn lavkkesto_time_again(
    s: &[u8],
    cells: &[usize],
    lens: &[usize; 16],
    times: usize,
) -> u64
    ensures { result ≡ timed_again s.now cells.now lens.now times }
{
    library::timed::lavkkesto_time_again(s, cells, lens, times)
}
