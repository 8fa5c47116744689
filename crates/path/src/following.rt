// Tails: how long the work is that follows each activity, at least.
ghost use Rattle.std.specs.Prelude.{◌≡◌, ◌++◌, ◌+◌, ◌-◌, ◌<◌, ◌≤◌, length, get_or};
ghost use Rattle.graph.specs.Counting.{Below};
ghost use Rattle.graph.specs.Links.{linked, link_of};
ghost use Rattle.graph.specs.Shop.{greatest};
ghost use Rattle.plan.specs.Problem.{Problem};
ghost use Rattle.tables.specs.Tabled.{Tabled, task_succ};
ghost use Rattle.lines.specs.Lines.{Lines};
ghost use Rattle.path.specs.Placing.{placed};
ghost use Rattle.path.specs.Tails.{tails};
ghost use Rattle.path.specs.Following.{Addable, Freed, Followed, Tailed};

// An activity's span plus its tail.
fn span_and_tail(starts: &[u64], ends: &[u64], tail: &[u64], x: usize) -> u64
    requires { (x < length tail.now) × Addable (length tail.now) starts.now ends.now tail.now }
    ensures { result ≡ get_or ends.now x 0 - get_or starts.now x 0 + get_or tail.now x 0 }
{
    ends[x] - starts[x] + tail[x]
}

// The greatest of a time and of all listed ones' span plus tail.
pub fn after_all(list: &[usize], starts: &[u64], ends: &[u64], tail: &[u64], first: u64) -> u64
    requires { Below (length tail.now) list.now × Addable (length tail.now) starts.now ends.now tail.now }
    ensures { result ≡ greatest (λ x. get_or ends.now x 0 - get_or starts.now x 0 + get_or tail.now x 0) list.now first }
{
    let mut longest = first;
    for &x in list {
        longest = longest.max(span_and_tail(starts, ends, tail, x));
    }
    longest
}

// The greater of a time and of the linked one's span plus tail.
pub fn after_link(
    link: Option<usize>,
    starts: &[u64],
    ends: &[u64],
    tail: &[u64],
    first: u64,
) -> u64
    requires { Below (length tail.now) (linked link) × Addable (length tail.now) starts.now ends.now tail.now }
    ensures { result ≡ greatest (λ x. get_or ends.now x 0 - get_or starts.now x 0 + get_or tail.now x 0) (linked link) first }
{
    let Some(x) = link else {
        return first;
    };
    first.max(span_and_tail(starts, ends, tail, x))
}

// The tail of an activity, by the tails of its line successor, its task successor and those waiting for it.
fn tail_of(
    table: &[usize],
    after: &[usize],
    starts: &[u64],
    ends: &[u64],
    tail: &[u64],
    a: usize,
) -> u64
    requires { Freed table.now after.now tail.now a × Addable (length tail.now) starts.now ends.now tail.now }
    ensures { (p : Problem) → Tabled p table.now → a < p.n → p.n ≤ 128 → length after.now ≡ p.n → result ≡ greatest (λ x. get_or ends.now x 0 - get_or starts.now x 0 + get_or tail.now x 0) (linked (link_of after.now a) ++ (linked (task_succ p a) ++ p.waiting a)) 0 }
{
    let line = after_link(graph::link_of(after, a), starts, ends, tail, 0);
    let task = after_link(
        tables::next_of(table, after.len(), a),
        starts,
        ends,
        tail,
        line,
    );
    after_all(tables::waiting_for(table, a), starts, ends, tail, task)
}

// Writes each activity's tail, the last in the timing order first.
pub fn tails(
    table: &[usize],
    after: &[usize],
    order: &[usize],
    starts: &[u64],
    ends: &[u64],
    tail: &mut [u64],
)
    requires { Tailed table.now after.now tail.old (placed order.now starts.now ends.now) }
    ensures { (p : Problem) (lines : Lines) → Followed p lines table.now after.now (placed order.now starts.now ends.now) → length tail.old ≡ p.n → tail.new ≡ tails p lines (placed order.now starts.now ends.now) }
{
    tail.fill(0);
    for i in (0..order.len()).rev() {
        let a = order[i];
        let longest = tail_of(table, after, starts, ends, tail, a);
        tail[a] = longest;
    }
}
