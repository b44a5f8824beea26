//! Tests over tables: every decline in every state, work in portions, both choosers.
#![tactic(auto)]

#[cfg(test)]
mod declines;
#[cfg(test)]
mod plants;
#[cfg(test)]
mod runs;
#[cfg(test)]
mod seen;
