//! A planner of circulation, over any chooser.
#![tactic(auto)]

mod answer;
mod machine;

pub use answer::{Outcome, Side, Tally};
pub use machine::calls::MAX_WORK;
pub use machine::{Planner, State};
