// Looked up in a filled table. Each answer is that of whatever problem the table holds.
ghost use Rattle.std.specs.Prelude.{◌≡◌, ◌+◌, ◌-◌, ◌*◌, ◌≤◌, ◌<◌, length, get_or, take, drop};
ghost use Rattle.plan.specs.Problem.{Problem};
ghost use Rattle.tables.specs.Regions.{cells};
ghost use Rattle.tables.specs.Tabled.{Tabled, task_pred, task_succ, own_span};
ghost use Rattle.tables.specs.Found.{Held};

// The task of an activity.
pub fn owner(table: &[usize], a: usize) -> usize
    requires { (a < 128) × (length table.now ≡ cells) }
    ensures { (p : Problem) → Tabled p table.now → a < p.n → result ≡ p.task_of a }
{
    table[crate::OWNERS + a]
}

pub fn release(table: &[usize], a: usize) -> usize
    requires { (a < 128) × (length table.now ≡ cells) }
    ensures { (p : Problem) → Tabled p table.now → a < p.n → result ≡ p.release a }
{
    table[crate::RELEASES + a]
}

// The category of an activity's task.
pub fn category_of(table: &[usize], a: usize) -> usize
    requires { (a < 128) × (length table.now ≡ cells) }
    ensures { (p : Problem) → Tabled p table.now → a < p.n → result ≡ p.category (p.task_of a) }
{
    table[crate::CATEGORIES + a]
}

// The next step of an activity's task, where there is one; n activities there are.
pub fn next_of(table: &[usize], n: usize, a: usize) -> Option<usize>
    requires { (a < 128) × (length table.now ≡ cells) }
    ensures { (p : Problem) → Tabled p table.now → n ≡ p.n → a < p.n → result ≡ task_succ p a }
{
    let b = table[crate::NEXTS + a];
    if b < n {
        return Some(b);
    }
    None
}

// The step before an activity in its task, where there is one.
pub fn before_of(table: &[usize], a: usize) -> Option<usize>
    requires { (a < 128) × (length table.now ≡ cells) }
    ensures { (p : Problem) → Tabled p table.now → a < p.n → result ≡ task_pred p a }
{
    if a == 0 {
        return None;
    }
    let b = a - 1;
    if owner(table, b) == owner(table, a) {
        return Some(b);
    }
    None
}

// The setup that an entry gives a machine from one category to another; 8 is before the first.
pub fn change_of(table: &[usize], m: usize, before: usize, own: usize) -> Option<u64>
    requires { (m < 16) × (before < 9) × (own < 8) × (length table.now ≡ cells) }
    ensures { (p : Problem) → Tabled p table.now → result ≡ p.change m before own }
{
    let code = table[crate::CHANGES + 72 * m + 8 * before + own];
    if code == 0 {
        return None;
    }
    Some((code - 1) as u64)
}

// How long an activity takes on a machine with its own setup.
pub fn own_span(table: &[usize], a: usize, m: usize) -> u64
    requires { (a < 128) × (m < 16) × (length table.now ≡ cells) }
    ensures { (p : Problem) → Tabled p table.now → a < p.n → m < p.machines → result ≡ own_span p a m }
{
    table[crate::SPANS + 16 * a + m] as u64
}

// The numbers of an activity in a list that is cut by offsets.
fn numbers_of(table: &[usize], offsets: usize, list: usize, a: usize) -> &[usize]
    requires { (offsets + a + 1 < length table.now) × (get_or table.now (offsets + a) 0 ≤ get_or table.now (offsets + a + 1) 0) × (list + get_or table.now (offsets + a + 1) 0 ≤ length table.now) }
    ensures { result.now ≡ take (list + get_or table.now (offsets + a + 1) 0 - (list + get_or table.now (offsets + a) 0)) (drop (list + get_or table.now (offsets + a) 0) table.now) }
{
    let first = offsets + a;
    let next = first + 1;
    let from = list + table[first];
    let to = list + table[next];
    &table[from..to]
}

// The machines that an activity may run on, as listed.
pub fn candidates_of(table: &[usize], a: usize) -> &[usize]
    requires { Held table.now a }
    ensures { (p : Problem) → Tabled p table.now → a < p.n → p.n ≤ 128 → result.now ≡ p.candidates a }
{
    numbers_of(table, crate::CANDIDATES_AT, crate::CANDIDATES, a)
}

// The activities that an activity names, as listed.
pub fn named_by(table: &[usize], a: usize) -> &[usize]
    requires { Held table.now a }
    ensures { (p : Problem) → Tabled p table.now → a < p.n → p.n ≤ 128 → result.now ≡ p.predecessors a }
{
    numbers_of(table, crate::NAMED_AT, crate::NAMED, a)
}

// The activities that name an activity, as listed.
pub fn waiting_for(table: &[usize], a: usize) -> &[usize]
    requires { Held table.now a }
    ensures { (p : Problem) → Tabled p table.now → a < p.n → p.n ≤ 128 → result.now ≡ p.waiting a }
{
    numbers_of(table, crate::WAITING_AT, crate::WAITING, a)
}
