// The sheets of the decoders.
ghost use Rattle.std.specs.Prelude.{◌≡◌};
ghost use Rattle.calls.specs.Outcome.{answer_of, Leaves};
ghost use Rattle.decoding.specs.Decoding.{in_order, active, decoded};
ghost use Rattle.library.specs.Code.{code_of};

#[unsafe(no_mangle)]
pub extern "C" fn lavkkesto_in_order(
    s: &[u8],
    activities: &mut [usize],
    machines: &mut [usize],
    starts: &mut [u64],
    ends: &mut [u64],
    setups: &mut [u64],
    code: &mut [u64; 4],
)
    ensures answer { code.new ≡ code_of (answer_of (in_order s.now activities.old machines.old starts.old ends.old setups.old)) }
    ensures rows { Leaves (in_order s.now activities.old machines.old starts.old ends.old setups.old) activities.old machines.old starts.old ends.old setups.old activities.new machines.new starts.new ends.new setups.new }
{
    library::decoded::lavkkesto_in_order(s, activities, machines, starts, ends, setups, code);
}

#[unsafe(no_mangle)]
pub extern "C" fn lavkkesto_active(
    s: &[u8],
    activities: &mut [usize],
    machines: &mut [usize],
    starts: &mut [u64],
    ends: &mut [u64],
    setups: &mut [u64],
    code: &mut [u64; 4],
)
    ensures answer { code.new ≡ code_of (answer_of (active s.now activities.old machines.old starts.old ends.old setups.old)) }
    ensures rows { Leaves (active s.now activities.old machines.old starts.old ends.old setups.old) activities.old machines.old starts.old ends.old setups.old activities.new machines.new starts.new ends.new setups.new }
{
    library::decoded::lavkkesto_active(s, activities, machines, starts, ends, setups, code);
}

#[unsafe(no_mangle)]
pub extern "C" fn lavkkesto_decode(
    s: &[u8],
    activities: &mut [usize],
    machines: &mut [usize],
    starts: &mut [u64],
    ends: &mut [u64],
    setups: &mut [u64],
    code: &mut [u64; 4],
)
    ensures answer { code.new ≡ code_of (answer_of (decoded s.now activities.old machines.old starts.old ends.old setups.old)) }
    ensures rows { Leaves (decoded s.now activities.old machines.old starts.old ends.old setups.old) activities.old machines.old starts.old ends.old setups.old activities.new machines.new starts.new ends.new setups.new }
{
    library::decoded::lavkkesto_decode(s, activities, machines, starts, ends, setups, code);
}
