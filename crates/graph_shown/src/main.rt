// Small plans, ordered by the compiled code: how many activities the timing order names, then the
// order.
#![tactic(auto)]

ghost use Rattle.std.specs.Prelude.{◌≤◌, length};
ghost use Rattle.graph_shown.specs.Plan.{Plan};

use std::io;
use std::io::Write;

fn print_order<W: Write>(out: &mut W, order: &[usize], named: usize) -> io::Result<()>
    requires { named ≤ length order.now }
{
    write!(out, "{named}")?;
    for activity in &order[..named] {
        write!(out, " {activity}")?;
    }
    out.write_all(b"\n")
}

// Orders four activities by their line and task links and those that they name.
fn show<W: Write>(
    out: &mut W,
    line: &[usize],
    task: &[usize],
    acts: &[usize],
    preds: &[usize],
) -> io::Result<()>
    requires { Plan line.now task.now acts.now preds.now }
{
    let mut at = [0, 0, 0, 0, 0];
    let mut waiting = [0, 0, 0];
    graph::file_naming(acts, preds, &mut at, &mut waiting);
    let mut counts = [0, 0, 0, 0];
    graph::count_arcs(line, task, acts, &mut counts);
    let mut stack = [0, 0, 0, 0];
    let mut order = [0, 0, 0, 0];
    let named = graph::order_of(
        line,
        task,
        &at,
        &waiting,
        &mut counts,
        &mut stack,
        &mut order,
    );
    print_order(out, &order, named)
}

// Plan S as improved: tasks a0 a1 and a2 a3, lines a2 a0 and a3 a1, and none named. 4 stands for
// no successor.
fn plan_s<W: Write>(out: &mut W) -> io::Result<()> {
    let acts = [0];
    let preds = [0];
    show(out, &[4, 4, 0, 1], &[1, 4, 3, 4], &acts[..0], &preds[..0])
}

// P7: the same tasks, lines a3 a0 and a1 a2: a circle.
fn p7<W: Write>(out: &mut W) -> io::Result<()> {
    let acts = [0];
    let preds = [0];
    show(out, &[4, 2, 4, 0], &[1, 4, 3, 4], &acts[..0], &preds[..0])
}

// a1, a2 and a3 each name a0: freed by rising number, and the last stacked is taken first.
fn all_name_one<W: Write>(out: &mut W) -> io::Result<()> {
    show(out, &[4, 4, 4, 4], &[4, 4, 4, 4], &[1, 2, 3], &[0, 0, 0])
}

fn main(rt: HostRuntime) -> io::Result<()> {
    let mut out = rt.stdout();
    plan_s(&mut out)?;
    p7(&mut out)?;
    all_name_one(&mut out)
}
