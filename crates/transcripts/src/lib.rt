//! Transcripts of small plants: the contract of each function says that one obeys the law, or that none like it does.
#![tactic(auto)]

mod breaking;
mod obeying;

pub use breaking::{
    not_a_decline_that_resets, not_a_reading_while_idle, not_a_start_that_declines,
    not_a_total_that_stays, not_a_work_of_none, not_all_impossible, not_another_shortfall,
    not_for_ever, not_one_cut_twice, not_the_lows, not_untouched, tallies_made,
};
pub use obeying::{b_obeys, d_obeys, h_obeys};
