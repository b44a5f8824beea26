//! The chooser that takes by highest label, then earliest arrival.
use super::arrived::Arrived;

pub mod calls;

/// Takes the member of highest label, and of these the one that arrived earliest.
/// The label of a number that is no member stays, as the promise of a take says.
#[derive(Drop)]
pub struct HighestLabel {
    arrived: Arrived,
    labels: [u32; 252],
}
