// One step of the search, shown: what it looks at on lines that the caller gives.
#![tactic(auto)]

mod call;
mod kept;
mod listing;
mod sight;

pub use call::look;

// How many activities of the path, block moves, kept block moves and kept reassignments were written, and the bits of the line fitness.
#[derive(Clone, Copy)]
pub struct Seen {
    pub path: usize,
    pub moves: usize,
    pub blocks: usize,
    pub others: usize,
    pub bits: u64,
}
