// Improve: the steps of the search one after the other, from the lines of the order.
#![tactic(auto)]

mod call;
mod found;

pub use call::improve;

// The outcomes 10 to 14, with the bits of the best line fitness where there is one.
#[derive(Clone, Copy)]
pub enum Ending {
    NoSteps,
    Incomplete,
    Contradictory,
    NothingBetter(u64),
    Better(u64),
}
