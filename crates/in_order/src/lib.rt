// The decoder that places in order: repeatedly the first activity that waits for none that is still to come.
#![tactic(auto)]

mod placing;
mod ready;

pub use placing::place_in_order;
pub use ready::ready_order;
