//! Choosers: sets of junction numbers below 252, from which one is taken at a time.
#![tactic(auto)]

ghost use Rattle.std.specs.Prelude.{◌≡◌, ℕ, ◌<◌, Bool, true, Option};
ghost use Rattle.chooser.specs.Sets.{Added, Empty, Taken};

mod arrived;
mod fifo;
mod highest;

pub use fifo::Fifo;
pub use highest::HighestLabel;

/// A set of junction numbers below 252, with a rule of selection. No call refuses.
///
/// `has` is membership. `clears`, `puts` and `takes` say in full what a call did: each chooser gives
/// its own, so that code over any chooser can pass on what its calls did.
pub trait Chooser {
    ghost has: { Self → ℕ → Bool };

    ghost clears: { Self → Self → Type 0 };

    ghost puts: { Self → ℕ → ℕ → Self → Type 0 };

    ghost takes: { Self → Option ℕ → Self → Type 0 };

    /// Leaves no member.
    fn clear(&mut self)
        ensures empty { Empty (has self.new) }
        ensures clears { clears self.old self.new };

    /// Adds `v`, if it is below 252 and no member yet; otherwise nothing changes.
    fn put(&mut self, v: u8, label: u32)
        ensures set { Added (has self.old) v (has self.new) }
        ensures puts { puts self.old v label self.new };

    /// Removes a member and answers it; None exactly if there is none, and then nothing changes.
    fn take(&mut self) -> Option<u8>
        ensures set { Taken (has self.old) result (has self.new) }
        ensures takes { takes self.old result self.new };

    ghost below: { (c : Self) (v : ℕ) → has c v ≡ true → v < 252 };
}

#[cfg(test)]
mod tests {
    use super::*;
    use std::process::Abort;

    fn puts<C: Chooser>(chooser: &mut C, table: &[(u8, u32)]) {
        for (v, label) in table {
            chooser.put(*v, *label);
        }
    }

    fn takes<C: Chooser>(rt: &impl Abort, chooser: &mut C, table: &[u8]) {
        for v in table {
            assert_eq!(rt; chooser.take(), Some(*v));
        }
        assert_eq!(rt; chooser.take(), None);
    }

    // A hundred rounds, so that the ring is used again; 7 is put twice in each.
    #[test]
    fn in_order_of_arrival(rt: HostRuntime) {
        let mut chooser = Fifo::new();
        for _ in 0..100 {
            puts(&mut chooser, &[(7, 1), (3, 9), (7, 9), (251, 0)]);
            takes(&rt, &mut chooser, &[7, 3, 251]);
        }
    }

    // 9 and 4 tie, and 8 keeps its label.
    #[test]
    fn highest_label_first(rt: HostRuntime) {
        let mut chooser = HighestLabel::new();
        puts(&mut chooser, &[(5, 2), (9, 7), (8, 0), (4, 7), (8, 9)]);
        takes(&rt, &mut chooser, &[9, 4, 5, 8]);
    }

    #[test]
    fn no_junction(rt: HostRuntime) {
        let mut first = Fifo::new();
        puts(&mut first, &[(252, 1), (255, 1)]);
        takes(&rt, &mut first, &[]);
        let mut second = HighestLabel::new();
        puts(&mut second, &[(252, 1), (255, 1)]);
        takes(&rt, &mut second, &[]);
    }
}
