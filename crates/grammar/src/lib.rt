// The stored form's grammar as data: ten sections, each a row of what its count, its words and its entries have to keep.
// Reading, and later writing, go over these rows; nothing else knows what a section holds.
#![tactic(auto)]

ghost use Rattle.std.specs.Prelude.{◌≡◌, cond, ◌+◌, ◌*◌, ◌-◌, ◌<◌, ◌≤◌, ◌^◌, length, get_or};
ghost use Rattle.words.specs.Words.{words};
ghost use Rattle.grammar.specs.Sections.{sections, no_section, kind_at};
ghost use Rattle.grammar.specs.Ranges.{in_range, back};
ghost use Rattle.grammar.specs.Rules.{width_of, count_kept, rising, pair_before, precedes, strict, Risen, entry_kept, total_from, learnt, after};
ghost use Rattle.grammar.specs.declared.Rule.{Rule};
ghost use Rattle.grammar.specs.declared.Rule.TheVariants.{RisingOnce};

// The range of a word.
#[derive(Clone, Copy)]
pub enum Kind {
    Any,
    Span(u32, u32),
    Activity,
    Machine,
    MachineOrNone,
    Deadline,
    WeightHigh,
}

// The rule about an entry, after those before it.
#[derive(Clone, Copy)]
pub enum Rule {
    Free,
    Rising,
    RisingOnce,
    Strict,
}

// The rule about a count.
#[derive(Clone, Copy)]
pub enum Check {
    None,
    Total,
    Product,
    Most,
}

// What a count is kept as.
#[derive(Clone, Copy)]
pub enum Keep {
    Nothing,
    Tasks,
    Activities,
    Machines,
}

// A row of the grammar. A width of 0 stands for one word for each machine; a word past the fifth is of the fifth's kind.
#[derive(Clone, Copy)]
pub struct Section {
    pub low: u32,
    pub high: u32,
    pub keep: Keep,
    pub check: Check,
    pub rule: Rule,
    pub width: usize,
    pub a: Kind,
    pub b: Kind,
    pub c: Kind,
    pub d: Kind,
    pub e: Kind,
}

// The counts read so far, 0 before, and the sum of the tasks' activities.
#[derive(Clone, Copy)]
pub struct Known {
    pub tasks: u32,
    pub activities: u32,
    pub machines: u32,
    pub total: u64,
}

// The rows, in the paper's order.
pub fn section_at(i: usize) -> Section
    requires { i < 10 }
    ensures { result ≡ get_or sections i no_section }
{
    match i {
        // Tasks: category, release, deadline flag, deadline, activities
        0 => Section {
            low: 1,
            high: 32,
            keep: Keep::Tasks,
            check: Check::None,
            rule: Rule::Free,
            width: 5,
            a: Kind::Span(0, 7),
            b: Kind::Any,
            c: Kind::Span(0, 1),
            d: Kind::Deadline,
            e: Kind::Span(1, 128),
        },
        // Activities: release
        1 => Section {
            low: 1,
            high: 128,
            keep: Keep::Activities,
            check: Check::Total,
            rule: Rule::Free,
            width: 1,
            a: Kind::Any,
            b: Kind::Any,
            c: Kind::Any,
            d: Kind::Any,
            e: Kind::Any,
        },
        // Machines: a transport time to each machine
        2 => Section {
            low: 1,
            high: 16,
            keep: Keep::Machines,
            check: Check::None,
            rule: Rule::Free,
            width: 0,
            a: Kind::Span(0, 2147483647),
            b: Kind::Span(0, 2147483647),
            c: Kind::Span(0, 2147483647),
            d: Kind::Span(0, 2147483647),
            e: Kind::Span(0, 2147483647),
        },
        // Times: setup, process, teardown
        3 => Section {
            low: 0,
            high: 4294967295,
            keep: Keep::Nothing,
            check: Check::Product,
            rule: Rule::Free,
            width: 3,
            a: Kind::Span(0, 2147483647),
            b: Kind::Span(0, 2147483647),
            c: Kind::Span(0, 2147483647),
            d: Kind::Any,
            e: Kind::Any,
        },
        // Candidates: activity, machine
        4 => Section {
            low: 0,
            high: 2048,
            keep: Keep::Nothing,
            check: Check::None,
            rule: Rule::RisingOnce,
            width: 2,
            a: Kind::Activity,
            b: Kind::Machine,
            c: Kind::Any,
            d: Kind::Any,
            e: Kind::Any,
        },
        // Setups: machine, previous category, category, setup
        5 => Section {
            low: 0,
            high: 1152,
            keep: Keep::Nothing,
            check: Check::None,
            rule: Rule::Strict,
            width: 4,
            a: Kind::Machine,
            b: Kind::Span(0, 8),
            c: Kind::Span(0, 7),
            d: Kind::Span(0, 2147483647),
            e: Kind::Any,
        },
        // Predecessors: activity, predecessor
        6 => Section {
            low: 0,
            high: 256,
            keep: Keep::Nothing,
            check: Check::None,
            rule: Rule::Rising,
            width: 2,
            a: Kind::Activity,
            b: Kind::Activity,
            c: Kind::Any,
            d: Kind::Any,
            e: Kind::Any,
        },
        // Search: weight's low word, weight's high word, steps
        7 => Section {
            low: 1,
            high: 1,
            keep: Keep::Nothing,
            check: Check::None,
            rule: Rule::Free,
            width: 3,
            a: Kind::Any,
            b: Kind::WeightHigh,
            c: Kind::Span(0, 1000),
            d: Kind::Any,
            e: Kind::Any,
        },
        // Order: task number
        8 => Section {
            low: 0,
            high: 256,
            keep: Keep::Nothing,
            check: Check::None,
            rule: Rule::Free,
            width: 1,
            a: Kind::Any,
            b: Kind::Any,
            c: Kind::Any,
            d: Kind::Any,
            e: Kind::Any,
        },
        // Assignment: machine or none
        _ => Section {
            low: 0,
            high: 128,
            keep: Keep::Nothing,
            check: Check::Most,
            rule: Rule::Free,
            width: 1,
            a: Kind::MachineOrNone,
            b: Kind::Any,
            c: Kind::Any,
            d: Kind::Any,
            e: Kind::Any,
        },
    }
}

// The kind of an entry's f-th word.
pub fn kind_at(row: Section, f: usize) -> Kind
    ensures { result ≡ kind_at row f }
{
    match f {
        0 => row.a,
        1 => row.b,
        2 => row.c,
        3 => row.d,
        _ => row.e,
    }
}

// How many words an entry has.
pub fn width_of(row: Section, k: Known) -> usize
    ensures { result ≡ width_of row k }
{
    let w = row.width;
    if w == 0 { k.machines as usize } else { w }
}

// Whether a word is in its range.
pub fn is_in_range(kind: Kind, k: Known, before: u32, w: u32) -> bool
    ensures { result ≡ in_range kind k before w }
{
    match kind {
        Kind::Any => true,
        Kind::Span(low, high) => low <= w && w <= high,
        Kind::Activity => w < k.activities,
        Kind::Machine => w < k.machines,
        Kind::MachineOrNone => w < k.machines || w == 4294967295,
        Kind::Deadline => before == 1 || w == 0,
        Kind::WeightHigh => {
            w < 1072693248 || (before == 0 && (w == 1072693248 || w == 2147483648))
        }
    }
}

// How many words before itself a word's refusal names.
pub fn back_of(kind: Kind) -> usize
    ensures { result ≡ back kind }
{
    match kind {
        Kind::Any => 0,
        Kind::Span(_, _) => 0,
        Kind::Activity => 0,
        Kind::Machine => 0,
        Kind::MachineOrNone => 0,
        Kind::Deadline => 0,
        Kind::WeightHigh => 1,
    }
}

// Whether a count keeps its rule.
pub fn is_count_kept(check: Check, k: Known, n: u32) -> bool
    ensures { result ≡ count_kept check k n }
{
    match check {
        Check::None => true,
        Check::Total => k.total == n as u64,
        Check::Product => n as u64 == k.activities as u64 * k.machines as u64,
        Check::Most => n <= k.activities,
    }
}

// Whether an entry's first word is not below that of the entry before it.
fn is_rising(s: &[u8], w: usize, done: usize, at: usize) -> bool
    ensures { result ≡ rising (words s.now) w done at }
{
    done == 0 || words::word(s, at.saturating_sub(w)) <= words::word(s, at)
}

// Whether one of the entries before `at` begins with the words a, m. The entries before have risen to a or less, so those of a are the last
// ones, and the search stops at the first of another activity.
fn pair_before(s: &[u8], w: usize, done: usize, at: usize, a: u32, m: u32) -> bool
    requires { (at < 2 ^ 62) × Risen (words s.now) w done at × ((0 < done) → get_or (words s.now) (at - w) 0 ≤ a) }
    ensures { result ≡ pair_before (words s.now) w done at a m }
{
    let mut p = at;
    for _ in 0..done {
        p = p.saturating_sub(w);
        if words::word(s, p) != a {
            return false;
        }
        if words::word(s, p + 1) == m {
            return true;
        }
    }
    false
}

// Whether of n words each from i and from j on the first that differs is less at i.
fn comes_before(s: &[u8], n: usize, i: usize, j: usize) -> bool
    requires { (i + n < 2 ^ 63) × (j + n < 2 ^ 63) }
    ensures { result ≡ precedes (words s.now) n i j }
{
    for k in 0..n {
        let x = words::word(s, i + k);
        let y = words::word(s, j + k);
        if x != y {
            return x < y;
        }
    }
    false
}

// Whether an entry's first three words come after those of the entry before it.
fn is_strict(s: &[u8], w: usize, done: usize, at: usize) -> bool
    requires { at < 2 ^ 62 }
    ensures { result ≡ strict (words s.now) w done at }
{
    done == 0 || comes_before(s, 3, at.saturating_sub(w), at)
}

// Whether the entry at `at`, after `done` others of w words each, keeps its rule.
pub fn is_entry_kept(s: &[u8], rule: Rule, w: usize, done: usize, at: usize) -> bool
    requires { (at < 2 ^ 62) × ((rule ≡ RisingOnce) → Risen (words s.now) w done at) }
    ensures { result ≡ entry_kept (words s.now) rule w done at }
{
    match rule {
        Rule::Free => true,
        Rule::Rising => is_rising(s, w, done, at),
        Rule::RisingOnce => {
            is_rising(s, w, done, at)
                && !pair_before(s, w, done, at, words::word(s, at), words::word(s, at + 1))
        }
        Rule::Strict => is_strict(s, w, done, at),
    }
}

// What is known once a count is read.
pub fn learn(keep: Keep, k: Known, n: u32) -> Known
    ensures { result ≡ learnt keep k n }
{
    let mut r = k;
    match keep {
        Keep::Nothing => {}
        Keep::Tasks => {
            r.tasks = n;
        }
        Keep::Activities => {
            r.activities = n;
        }
        Keep::Machines => {
            r.machines = n;
        }
    }
    r
}

// The sum of the fifth words of n entries of five.
fn total(s: &[u8], n: u32, at: usize) -> u64
    requires { at < 2 ^ 62 }
    ensures { result ≡ total_from (words s.now) n at }
{
    let mut sum: u64 = 0;
    for e in 0..n as usize {
        sum += words::word(s, at + 5 * e + 4) as u64;
    }
    sum
}

// What is known after a section whose count stands at `at`.
pub fn after_section(s: &[u8], keep: Keep, k: Known, at: usize) -> Known
    requires { at < 2 ^ 61 }
    ensures { result ≡ after (words s.now) keep k at }
{
    match keep {
        Keep::Nothing => k,
        Keep::Tasks => {
            let sum = total(s, k.tasks, at + 1);
            Known {
                tasks: k.tasks,
                activities: k.activities,
                machines: k.machines,
                total: sum,
            }
        }
        Keep::Activities => k,
        Keep::Machines => k,
    }
}
