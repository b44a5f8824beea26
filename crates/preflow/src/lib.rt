//! The code of a stage of push and relabel, over any chooser.
#![tactic(auto)]

mod arrays;
mod begin;
mod discharge;
mod network;
mod opening;
mod push;
mod rows;
mod running;
mod stages;

pub use arrays::{any_active, begin_stage, open_first, open_second, run_stage, step};
pub use discharge::discharge_junction;
pub use network::{HELD_LINES, Lines, Network};
pub use opening::is_filled;
pub use rows::{ROWS, Rows};
pub use stages::Stage;
