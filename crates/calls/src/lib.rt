// The public calls of timing, and what a call that writes a sheet answers. Each tests its own input and asks nothing of its caller.
#![tactic(auto)]

mod again;
mod timed;

pub use again::time_again;
pub use timed::{rows_fit, time, time_order};

// How many rows were written, and the bits of their fitness.
#[derive(Clone, Copy)]
pub struct Sheet {
    pub rows: usize,
    pub bits: u64,
}
