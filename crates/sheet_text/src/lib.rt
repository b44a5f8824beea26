//! The sheet as text.
#![tactic(auto)]

mod checked;
mod listing;
mod readings;
mod trials;

pub use listing::{SHEET_LEN, widgulp_listing, write_listing, write_text};
