// Who stands before and after whom, on which machine and where, looked up by the activity's number.
ghost use Rattle.std.specs.Prelude.{◌≡◌, length};
ghost use Rattle.graph.specs.Counting.{Below};
ghost use Rattle.lines.specs.Lines.{lines_in, rest, Fit, WellFormed};
ghost use Rattle.lines.specs.Linking.{links_of, written, marked, numbered, line_linked, lines_linked, Roomy, AllBelow, LinesHeld};

// Writes for each on the line who stands right before it, and who right after it. The first has
// none before it and the last none after it, and their cells are left as they are.
fn link_pairs(line: &[usize], before: &mut [usize], after: &mut [usize])
    requires { Below (length before.old) line.now × Below (length after.old) line.now }
    ensures { (before.new ≡ written (rest line.now) line.now before.old) × (after.new ≡ written line.now (rest line.now) after.old) }
{
    for i in 1..line.len() {
        let p = line[i - 1];
        let a = line[i];
        before[a] = p;
        after[p] = a;
    }
}

// Writes for each on the line its machine and its place.
fn place_line(line: &[usize], machine: usize, machines: &mut [usize], places: &mut [usize])
    requires { Below (length machines.old) line.now × Below (length places.old) line.now }
    ensures { (machines.new ≡ marked line.now machine machines.old) × (places.new ≡ numbered line.now 0 places.old) }
{
    for (i, &a) in line.iter().enumerate() {
        machines[a] = machine;
        places[a] = i;
    }
}

// Writes what is to be known of each on one line.
fn link_line(
    line: &[usize],
    machine: usize,
    before: &mut [usize],
    after: &mut [usize],
    machines: &mut [usize],
    places: &mut [usize],
)
    requires { Below (length before.old) line.now × Below (length after.old) line.now × Below (length machines.old) line.now × Below (length places.old) line.now }
    ensures { links_of before.new after.new machines.new places.new ≡ line_linked machine line.now (links_of before.old after.old machines.old places.old) }
{
    link_pairs(line, before, after);
    place_line(line, machine, machines, places);
}

// Writes all sixteen lines.
fn link_each(
    n: usize,
    cells: &[usize],
    lens: [usize; 16],
    before: &mut [usize],
    after: &mut [usize],
    machines: &mut [usize],
    places: &mut [usize],
)
    requires { (length cells.now ≡ 2048) × Fit lens × AllBelow n (lines_in cells.now lens) × Roomy n (links_of before.old after.old machines.old places.old) }
    ensures { links_of before.new after.new machines.new places.new ≡ lines_linked 0 (lines_in cells.now lens) (links_of before.old after.old machines.old places.old) }
{
    for (m, &len) in lens.iter().enumerate() {
        let at = 128 * m;
        let end = at + len;
        link_line(&cells[at..end], m, before, after, machines, places);
    }
}

// Writes of each of n activities who stands before and after it on its line (n for none), its
// machine, and its place on the line.
pub fn link_lines(
    n: usize,
    cells: &[usize],
    lens: [usize; 16],
    before: &mut [usize],
    after: &mut [usize],
    machines: &mut [usize],
    places: &mut [usize],
)
    requires { (length cells.now ≡ 2048) × WellFormed n 16 (lines_in cells.now lens) × Roomy n (links_of before.old after.old machines.old places.old) }
    ensures { LinesHeld n (lines_in cells.now lens) (links_of before.new after.new machines.new places.new) }
{
    before.fill(n);
    after.fill(n);
    link_each(n, cells, lens, before, after, machines, places);
}
