// What the search looks up often, worked out once for each call and laid in one slice.
#![tactic(auto)]

mod changes;
mod lists;
mod lookups;
mod namings;
mod owners;
mod spans;

ghost use Rattle.std.specs.Prelude.{◌≡◌, length};
ghost use Rattle.words.specs.Words.{words};
ghost use Rattle.plan.specs.Input.{problem_of, task_of};
ghost use Rattle.plan.specs.Found.{Placed};
ghost use Rattle.tables.specs.Entries.{Entries};
ghost use Rattle.tables.specs.Regions.{cells};
ghost use Rattle.tables.specs.Columns.{Filled};
ghost use Rattle.tables.specs.Parts.{Activities, Steps};
ghost use Rattle.tables.specs.Tabled.{Tabled};

use crate::changes::fill_changes;
use crate::namings::{fill_candidates, fill_namings};
use crate::owners::{fill_categories, fill_nexts, fill_owners, fill_releases};
use crate::spans::fill_spans;
pub use lookups::{
    before_of, candidates_of, category_of, change_of, named_by, next_of, own_span, owner, release,
    waiting_for,
};
use plan::Layout;

// A task, and the number after its last activity.
#[derive(Clone, Copy)]
struct Place {
    task: usize,
    end: usize,
}

// Where each region begins, and how many cells there are in all.
pub const OWNERS: usize = 0;

pub const NEXTS: usize = 128;

pub const RELEASES: usize = 256;

pub const CATEGORIES: usize = 384;

pub const WAITS: usize = 512;

pub const NAMED_AT: usize = 640;

pub const NAMED: usize = 769;

pub const WAITING_AT: usize = 1025;

pub const WAITING: usize = 1154;

pub const CANDIDATES_AT: usize = 1410;

pub const CANDIDATES: usize = 1539;

pub const CHANGES: usize = 3587;

pub const SPANS: usize = 4739;

pub const CELLS: usize = 6787;

// Fills owners, next steps, releases and categories.
fn fill_activities(s: &[u8], z: Layout, owners: &[usize], part: &mut [usize])
    requires { Placed z × (length owners.now ≡ 128) × Filled z.activities (task_of (words s.now) z) owners.now × (length part.old ≡ 512) }
    ensures { Activities (problem_of (words s.now) z) part.new }
{
    part[OWNERS..NEXTS].copy_from_slice(owners);
    fill_nexts(owners, z.activities, &mut part[NEXTS..RELEASES]);
    fill_releases(s, z, owners, &mut part[RELEASES..CATEGORIES]);
    fill_categories(s, z, owners, &mut part[CATEGORIES..WAITS]);
}

// Fills all that goes by the owners.
fn fill_steps(s: &[u8], z: Layout, part: &mut [usize])
    requires { Placed z × Entries (words s.now) z × (length part.old ≡ 1410) }
    ensures { Steps (problem_of (words s.now) z) part.new }
{
    let mut owners: [usize; 128] = [0; 128];
    fill_owners(s, z, &mut owners);
    fill_activities(s, z, &owners, &mut part[OWNERS..WAITS]);
    fill_namings(s, z, &owners, &mut part[WAITS..CANDIDATES_AT]);
}

// Fills the whole table for an accepted plan.
pub fn fill(s: &[u8], z: Layout, table: &mut [usize])
    requires { Placed z × Entries (words s.now) z × (length table.old ≡ cells) }
    ensures { Tabled (problem_of (words s.now) z) table.new }
{
    fill_steps(s, z, &mut table[OWNERS..CANDIDATES_AT]);
    fill_candidates(s, z, &mut table[CANDIDATES_AT..CHANGES]);
    fill_changes(s, z, &mut table[CHANGES..SPANS]);
    fill_spans(s, z, &mut table[SPANS..CELLS]);
}
