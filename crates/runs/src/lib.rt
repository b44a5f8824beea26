//! Plays scripts of calls on a planner.
#![tactic(auto)]

mod playing;
mod replaying;

pub use playing::play;
pub use replaying::replay;
