// The search: steps that try moves on timed lines and make the best of them.
#![tactic(auto)]

mod saving;
mod step;
pub mod survey;

use ranking::Three;
pub use saving::save;
pub use step::{best_move, make_move};
pub use survey::find_moves;

// The moves that a step tries: block moves, then moves to other machines.
#[derive(Clone, Copy)]
pub struct Moves {
    pub blocks: Three,
    pub others: Three,
}

// What steps came to: the best line fitness, and whether it is below that of the lines at first. There is a best either way; `found` says
// whether lent buffers hold its genes, so that an Option would hold nothing.
#[derive(Clone, Copy)]
pub struct Finish {
    pub best: f64,
    pub found: bool,
}
