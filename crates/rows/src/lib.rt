// A sheet's rows, written into five lent buffers: activity, machine, start, end, setup.
#![tactic(auto)]

ghost use Rattle.std.specs.Prelude.{◌≡◌, ◌≤◌, ◌++◌, length, get_or, drop, map};
ghost use Rattle.graph.specs.Counting.{Below};
ghost use Rattle.rows.specs.Rows.{over, columns_of, Written, Roomy};

// Copies a list over the first cells of a buffer.
pub fn copy_over(list: &[usize], to: &mut [usize])
    requires { length list.now ≤ length to.old }
    ensures { to.new ≡ over list.now to.old }
{
    to[..list.len()].copy_from_slice(list);
}

// Writes what each activity of an order has over the first cells of a buffer.
pub fn gather<T: Copy>(order: &[usize], values: &[T], to: &mut [T])
    requires { (length order.now ≤ length to.old) × Below (length values.now) order.now }
    ensures { (d : T) → to.new ≡ map (λ a. get_or values.now a d) order.now ++ drop (length order.now) to.old }
{
    for (i, &a) in order.iter().enumerate() {
        to[i] = values[a];
    }
}

// Writes the rows of an order, by what each of its activities has.
pub fn write(
    order: &[usize],
    on: &[usize],
    begun: &[u64],
    done: &[u64],
    prepared: &[u64],
    activities: &mut [usize],
    machines: &mut [usize],
    starts: &mut [u64],
    ends: &mut [u64],
    setups: &mut [u64],
)
    requires roomy { Roomy (length order.now) activities.old machines.old starts.old ends.old setups.old }
    requires below { Below (length on.now) order.now × Below (length begun.now) order.now × Below (length done.now) order.now × Below (length prepared.now) order.now }
    ensures { Written (columns_of order.now on.now begun.now done.now prepared.now) activities.old machines.old starts.old ends.old setups.old activities.new machines.new starts.new ends.new setups.new }
{
    copy_over(order, activities);
    gather(order, on, machines);
    gather(order, begun, starts);
    gather(order, done, ends);
    gather(order, prepared, setups);
}
