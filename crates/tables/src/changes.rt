// The Setups entries as a table with a cell for each machine, previous category and category.
ghost use Rattle.std.specs.Prelude.{◌≡◌, ℕ, ◌+◌, ◌*◌, ◌<◌, ◌^◌, length, get_or};
ghost use Rattle.words.specs.Words.{words};
ghost use Rattle.plan.specs.Input.{cell, count};
ghost use Rattle.plan.specs.Found.{Placed};
ghost use Rattle.tables.specs.Entries.{Entries};
ghost use Rattle.tables.specs.Columns.{change_put, Coded};

use plan::Layout;

// Puts the entry whose first word is `from` into its cell, as one more than its setup.
fn put_change(s: &[u8], from: usize, changes: &mut [usize])
    requires { (from < 2 ^ 33) × (length changes.old ≡ 1152) × (get_or (words s.now) from 0 < 16) × (get_or (words s.now) (from + 1) 0 < 9) × (get_or (words s.now) (from + 2) 0 < 8) }
    ensures { changes.new ≡ change_put (words s.now) from changes.old }
{
    let machine = words::word(s, from) as usize;
    let previous = words::word(s, from + 1) as usize;
    let category = words::word(s, from + 2) as usize;
    let setup = words::word(s, from + 3) as usize;
    let cell = 72 * machine + 8 * previous + category;
    changes[cell] = setup + 1;
}

// Puts every entry into its cell, from the last to the first, so that of two in one cell the first
// stays.
fn put_changes(s: &[u8], z: Layout, changes: &mut [usize])
    requires { Placed z × Entries (words s.now) z × (length changes.old ≡ 1152) × ((i : ℕ) → get_or changes.old i 0 ≡ 0) }
    ensures { Coded (words s.now) (count (words s.now) z z.at.setups) (z.at.setups + 1) changes.new }
{
    let at = z.at.setups;
    let count = words::word(s, at) as usize;
    for e in (0..count).rev() {
        put_change(s, at + 1 + 4 * e, changes);
    }
}

// changes[72 m + 8 b + c] becomes one more than the setup of machine m from category b to c, and 0
// where there is no entry for it.
pub fn fill_changes(s: &[u8], z: Layout, changes: &mut [usize])
    requires { Placed z × Entries (words s.now) z × (length changes.old ≡ 1152) }
    ensures { Coded (words s.now) (count (words s.now) z z.at.setups) (z.at.setups + 1) changes.new }
{
    changes.fill(0);
    put_changes(s, z, changes);
}
