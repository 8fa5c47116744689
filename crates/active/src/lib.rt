// The active decoder: scan the tasks for candidates, and place the one that ranks first where the first to finish would run.
#![tactic(auto)]

mod choosing;
mod placing;
mod scanning;
mod seats;

use board::Seat;
pub use placing::place_active;
