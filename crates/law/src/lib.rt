//! The law of runs: what a planner answers to any calls in any order.
#![tactic(auto)]

mod script;
mod theorems;

pub use script::{Answer, Call, Given};
pub use theorems::{
    declines_exactly, every_question_settles, law_promises, limits_same, readings_fixed,
    widening_derived, works_answered,
};
