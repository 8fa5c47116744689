// The steps of the search, one after the other.
#![tactic(auto)]

mod step;
mod steps;

pub use steps::search_lines;
