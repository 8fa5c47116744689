// The public calls that write a decoder's sheet. Each tests its own input and asks nothing of its caller.
#![tactic(auto)]

mod placed;

ghost use Rattle.std.specs.Prelude.{◌≡◌};
ghost use Rattle.calls.specs.Outcome.{answer_of, Leaves};
ghost use Rattle.decoding.specs.Decoding.{decoded_by, in_order, active, decoded};
ghost use Rattle.decoding.specs.Rule.{rule_of};

use calls::Sheet;
use reader::{Reason, Refusal};

// How activities are placed: in order, actively, or as the better of these two sheets. The step is named and not handed over as a closure,
// since the project asks for named steps.
#[derive(Clone, Copy)]
enum Decoder {
    InOrder,
    Active,
    Better,
}

// Number 6 where a result is too short, then what the plan is refused for, else the rows of what is placed.
fn decode_by(
    which: Decoder,
    s: &[u8],
    activities: &mut [usize],
    machines: &mut [usize],
    starts: &mut [u64],
    ends: &mut [u64],
    setups: &mut [u64],
) -> Result<Sheet, Refusal>
    ensures answer { result ≡ answer_of (decoded_by (rule_of which) s.now activities.old machines.old starts.old ends.old setups.old) }
    ensures rows { Leaves (decoded_by (rule_of which) s.now activities.old machines.old starts.old ends.old setups.old) activities.old machines.old starts.old ends.old setups.old activities.new machines.new starts.new ends.new setups.new }
{
    if !calls::rows_fit(activities, machines, starts, ends, setups) {
        return Err(Refusal {
            reason: Reason::Room,
            place: 0,
        });
    }
    let mut table = intake::table_room();
    let z = intake::take_in(s, &mut table)?;
    Ok(placed::write_placed(
        which, s, z, &table, activities, machines, starts, ends, setups,
    ))
}

// Places a plan's activities in order. The rows are written in placing order; there may be fewer than activities. A refusal writes nothing.
pub fn in_order(
    s: &[u8],
    activities: &mut [usize],
    machines: &mut [usize],
    starts: &mut [u64],
    ends: &mut [u64],
    setups: &mut [u64],
) -> Result<Sheet, Refusal>
    ensures answer { result ≡ answer_of (in_order s.now activities.old machines.old starts.old ends.old setups.old) }
    ensures rows { Leaves (in_order s.now activities.old machines.old starts.old ends.old setups.old) activities.old machines.old starts.old ends.old setups.old activities.new machines.new starts.new ends.new setups.new }
{
    decode_by(
        Decoder::InOrder,
        s,
        activities,
        machines,
        starts,
        ends,
        setups,
    )
}

// The same, placed actively.
pub fn active(
    s: &[u8],
    activities: &mut [usize],
    machines: &mut [usize],
    starts: &mut [u64],
    ends: &mut [u64],
    setups: &mut [u64],
) -> Result<Sheet, Refusal>
    ensures answer { result ≡ answer_of (active s.now activities.old machines.old starts.old ends.old setups.old) }
    ensures rows { Leaves (active s.now activities.old machines.old starts.old ends.old setups.old) activities.old machines.old starts.old ends.old setups.old activities.new machines.new starts.new ends.new setups.new }
{
    decode_by(
        Decoder::Active,
        s,
        activities,
        machines,
        starts,
        ends,
        setups,
    )
}

// The sheet that is shown: the better of the two.
pub fn decode(
    s: &[u8],
    activities: &mut [usize],
    machines: &mut [usize],
    starts: &mut [u64],
    ends: &mut [u64],
    setups: &mut [u64],
) -> Result<Sheet, Refusal>
    ensures answer { result ≡ answer_of (decoded s.now activities.old machines.old starts.old ends.old setups.old) }
    ensures rows { Leaves (decoded s.now activities.old machines.old starts.old ends.old setups.old) activities.old machines.old starts.old ends.old setups.old activities.new machines.new starts.new ends.new setups.new }
{
    decode_by(
        Decoder::Better,
        s,
        activities,
        machines,
        starts,
        ends,
        setups,
    )
}
