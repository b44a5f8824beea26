//! Text in the caller's buffer: pieces one after another, and the rows of a sheet.
#![tactic(auto)]

mod page;
mod sheets;

pub use page::Page;
pub use page::calls::Row;
pub use sheets::{FlowSheet, HurdleSheet, Tried, put_declined};
