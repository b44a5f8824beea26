//! The calls of the chooser that takes by highest label.
ghost use Rattle.std.specs.Prelude.{◌≡◌, ℕ, ◌<◌, ◌≤◌, [], length, slice_index};
ghost use Rattle.chooser.specs.HighestCalls.{arrivals, Cleared, holds, Put, TakenHighest};
ghost use Rattle.chooser.specs.Sets.{Empty};
ghost use Rattle.chooser.specs.Flags.{flag_below_252};

use super::HighestLabel;
use crate::Chooser;
use crate::arrived::Arrived;

// The first place of those whose junction has the highest label; 0 where there is no place.
fn best(order: &[u8], labels: &[u32]) -> usize
    requires { (k : ℕ) → k < length order.now → slice_index order.now k < length labels.now }
    ensures within { 0 < length order.now → result < length order.now }
    ensures highest { (k : ℕ) → k < length order.now → slice_index labels.now (slice_index order.now k) ≤ slice_index labels.now (slice_index order.now result) }
    ensures earliest { (k : ℕ) → k < result → slice_index labels.now (slice_index order.now k) < slice_index labels.now (slice_index order.now result) }
{
    // A loop: `max_by_key` answers the last of equals, and the first is asked for.
    let mut at = 0;
    for (i, v) in order.iter().enumerate() {
        if labels[*v as usize] > labels[order[at] as usize] {
            at = i;
        }
    }
    at
}

impl HighestLabel {
    /// Holds nothing.
    pub fn new() -> Self
        ensures empty { Empty (holds result) }
        ensures none { arrivals result ≡ [] }
    {
        HighestLabel {
            arrived: Arrived::new(),
            labels: [0; 252],
        }
    }
}

impl Chooser for HighestLabel {
    ghost has = { holds };

    ghost clears = { λ _ d. Cleared d };

    ghost puts = { Put };

    ghost takes = { TakenHighest };

    ghost below = { λ c v on. flag_below_252 c.arrived.member v c.arrived.wide on };

    fn clear(&mut self) {
        *self = HighestLabel::new();
    }

    // A member that is put again keeps its label and its place.
    fn put(&mut self, v: u8, label: u32) {
        if self.arrived.put(v) {
            self.labels[v as usize] = label;
        }
    }

    fn take(&mut self) -> Option<u8> {
        let arrived = &self.arrived;
        let at = best(arrived.order.as_slice(), &self.labels);
        self.arrived.take(at)
    }
}
