// The lines that an order gives.
ghost use Rattle.lines.specs.Dealing.{Dealable, Dealt};

// Deals activities out in order, each to the end of its machine's stretch, and answers how many
// stand on each machine.
pub fn deal(activities: &[usize], machines: &[usize], cells: &mut [usize]) -> [usize; 16]
    requires { Dealable activities.now machines.now cells.old }
    ensures { Dealt activities.now machines.now cells.new result }
{
    let mut lens: [usize; 16] = [0; 16];
    for &a in activities {
        let m = machines[a];
        let len = lens[m];
        let place = 128 * m + len;
        cells[place] = a;
        lens[m] = len + 1;
    }
    lens
}
