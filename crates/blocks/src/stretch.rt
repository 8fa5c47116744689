// How long the work through a reordered stretch of a line would be, by the heads before it and the tails behind it.
ghost use Rattle.std.specs.Prelude.{◌≡◌, List, ℕ, ◌+◌, ◌-◌, ◌^◌, ◌<◌, ◌≤◌, max, length, get_or};
ghost use Rattle.graph.specs.Counting.{Below};
ghost use Rattle.graph.specs.Links.{linked};
ghost use Rattle.graph.specs.Shop.{greatest};
ghost use Rattle.plan.specs.Problem.{Problem};
ghost use Rattle.tables.specs.Tabled.{Tabled, task_pred, task_succ};
ghost use Rattle.moves.specs.Moves.{shifted};
ghost use Rattle.path.specs.Placing.{placed};
ghost use Rattle.path.specs.Following.{Addable};
ghost use Rattle.blocks.specs.Estimates.{end_before, after_at, estimate_of};
ghost use Rattle.blocks.specs.Weighing.{Weighed, Low, Lined, Reordering, Known, Headed, Estimable, HeadsHeld};

// The later of a time and of the linked one's end.
fn later_end(link: Option<usize>, ends: &[u64], first: u64) -> u64
    requires { Below (length ends.now) (linked link) }
    ensures { result ≡ greatest (λ x. get_or ends.now x 0) (linked link) first }
{
    let Some(x) = link else {
        return first;
    };
    first.max(ends[x])
}

// The head of an activity that its line lets go at `ready`.
fn head_of(table: &[usize], ends: &[u64], ready: u64, x: usize) -> u64
    requires { Known table.now ends.now x }
    ensures { (p : Problem) → Tabled p table.now → x < p.n → result ≡ greatest (λ b. get_or ends.now b 0) (linked (task_pred p x)) (max (p.release x) ready) }
{
    let free = bounds::release_of(table, x).max(ready);
    later_end(tables::before_of(table, x), ends, free)
}

// The tail of an activity, where `next` is the span plus tail of the one behind it on its line.
fn tail_of(table: &[usize], starts: &[u64], ends: &[u64], tail: &[u64], next: u64, x: usize) -> u64
    requires { Known table.now tail.now x × Addable (length tail.now) starts.now ends.now tail.now }
    ensures { (p : Problem) → Tabled p table.now → x < p.n → length tail.now ≡ p.n → result ≡ greatest (λ b. get_or ends.now b 0 - get_or starts.now b 0 + get_or tail.now b 0) (linked (task_succ p x)) next }
{
    path::after_link(
        tables::next_of(table, tail.len(), x),
        starts,
        ends,
        tail,
        next,
    )
}

// The end before a position of a line, 0 at its front.
fn end_before(line: &[usize], ends: &[u64], at: usize) -> u64
    requires { (at ≤ length line.now) × Below (length ends.now) line.now }
    ensures { result ≡ end_before ends.now line.now at }
{
    if at == 0 {
        return 0;
    }
    let x = line[at - 1];
    ends[x]
}

// The span plus tail at a position of a line, 0 behind its end.
fn after_at(line: &[usize], starts: &[u64], ends: &[u64], tail: &[u64], at: usize) -> u64
    requires { Below (length tail.now) line.now × Addable (length tail.now) starts.now ends.now tail.now }
    ensures { (order : List ℕ) → result ≡ after_at (placed order starts.now ends.now) tail.now line.now at }
{
    if at < line.len() {
        let x = line[at];
        return ends[x] - starts[x] + tail[x];
    }
    0
}

// Writes the head of each activity in positions first..last, once the one at `from` went to `to`.
fn fill_heads(
    line: &[usize],
    from: usize,
    to: usize,
    first: usize,
    last: usize,
    table: &[usize],
    starts: &[u64],
    ends: &[u64],
    heads: &mut [u64],
)
    requires { Headed table.now starts.now ends.now line.now × Reordering line.now from to first last × (length line.now ≤ length heads.old) }
    ensures { (p : Problem) (order : List ℕ) → Weighed p table.now starts.now ends.now → Lined p.n line.now → HeadsHeld p (placed order starts.now ends.now) (shifted line.now from to) (end_before ends.now line.now first) first last heads.new }
{
    let mut ready = end_before(line, ends, first);
    for k in first..last + 1 {
        let x = moves::moved(line, from, to, k);
        let head = head_of(table, ends, ready, x);
        heads[k] = head;
        ready = head + (ends[x] - starts[x]);
    }
}

// The greatest head + span + tail of positions first..last, by their heads, the last of them first.
fn longest(
    line: &[usize],
    from: usize,
    to: usize,
    first: usize,
    last: usize,
    table: &[usize],
    starts: &[u64],
    ends: &[u64],
    tail: &[u64],
    heads: &[u64],
) -> u64
    requires estimable { Estimable table.now starts.now ends.now tail.now line.now × Reordering line.now from to first last × (length line.now ≤ length heads.now) }
    requires by_index { (j : ℕ) → first + j ≤ last → get_or heads.now (first + j) 0 ≤ 2 ^ 42 }
    ensures { (p : Problem) (order : List ℕ) → Weighed p table.now starts.now ends.now → Low p.n tail.now → Lined p.n line.now → HeadsHeld p (placed order starts.now ends.now) (shifted line.now from to) (end_before ends.now line.now first) first last heads.now → result ≡ estimate_of p (placed order starts.now ends.now) tail.now line.now (shifted line.now from to) first last }
{
    let mut next = after_at(line, starts, ends, tail, last + 1);
    let mut most: u64 = 0;
    for at in (first..last + 1).rev() {
        let x = moves::moved(line, from, to, at);
        let rest = ends[x] - starts[x] + tail_of(table, starts, ends, tail, next, x);
        most = most.max(heads[at] + rest);
        next = rest;
    }
    most
}

// The estimate of positions first..last, once the one at `from` went to `to`.
pub fn estimate(
    line: &[usize],
    from: usize,
    to: usize,
    first: usize,
    last: usize,
    table: &[usize],
    starts: &[u64],
    ends: &[u64],
    tail: &[u64],
    heads: &mut [u64],
) -> u64
    requires { Estimable table.now starts.now ends.now tail.now line.now × Reordering line.now from to first last × (length line.now ≤ length heads.old) }
    ensures { (p : Problem) (order : List ℕ) → Weighed p table.now starts.now ends.now → Low p.n tail.now → Lined p.n line.now → result ≡ estimate_of p (placed order starts.now ends.now) tail.now line.now (shifted line.now from to) first last }
{
    fill_heads(line, from, to, first, last, table, starts, ends, heads);
    longest(
        line, from, to, first, last, table, starts, ends, tail, heads,
    )
}
