// One line linked again, once a move has changed it.
ghost use Rattle.std.specs.Prelude.{◌≡◌, length};
ghost use Rattle.graph.specs.Counting.{Below};
ghost use Rattle.lines.specs.Linking.{links_of, line_relinked};

// Writes of each on a machine's line who stands before and after it (n for none), its machine, and
// its place. Those on other lines keep what was written of them.
pub fn relink_line(
    n: usize,
    line: &[usize],
    machine: usize,
    before: &mut [usize],
    after: &mut [usize],
    machines: &mut [usize],
    places: &mut [usize],
)
    requires { Below (length before.old) line.now × Below (length after.old) line.now × Below (length machines.old) line.now × Below (length places.old) line.now }
    ensures { links_of before.new after.new machines.new places.new ≡ line_relinked n machine line.now (links_of before.old after.old machines.old places.old) }
{
    if line.len() == 0 {
        return;
    }
    let first = line[0];
    before[first] = n;
    machines[first] = machine;
    places[first] = 0;
    let mut previous = first;
    for i in 1..line.len() {
        let a = line[i];
        before[a] = previous;
        after[previous] = a;
        machines[a] = machine;
        places[a] = i;
        previous = a;
    }
    after[previous] = n;
}
