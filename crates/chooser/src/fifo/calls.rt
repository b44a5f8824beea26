//! The chooser that takes in order of arrival.
ghost use Rattle.std.specs.Prelude.{◌≡◌, []};
ghost use Rattle.chooser.specs.FifoCalls.{arrivals, Cleared, holds, Put, TakenFirst};
ghost use Rattle.chooser.specs.Sets.{Empty};
ghost use Rattle.chooser.specs.Flags.{flag_below_252};

use super::Fifo;
use crate::Chooser;

impl Fifo {
    /// Holds nothing.
    pub fn new() -> Self
        ensures empty { Empty (holds result) }
        ensures none { arrivals result ≡ [] }
    {
        Fifo {
            member: [false; 252],
            ring: [0; 252],
            head: 0,
            count: 0,
        }
    }
}

impl Chooser for Fifo {
    ghost has = { holds };

    ghost clears = { λ _ d. Cleared d };

    ghost puts = { λ c v _ d. Put c v d };

    ghost takes = { TakenFirst };

    ghost below = { λ c v on. flag_below_252 c.member v c.wide.0 on };

    fn clear(&mut self) {
        *self = Fifo::new();
    }

    fn put(&mut self, v: u8, _label: u32) {
        let at = v as usize;
        if at < 252 && !self.member[at] {
            let end = (self.head + self.count) % 252;
            self.ring[end] = v;
            self.member[at] = true;
            self.count += 1;
        }
    }

    fn take(&mut self) -> Option<u8> {
        if self.count == 0 {
            return None;
        }
        let v = self.ring[self.head];
        self.member[v as usize] = false;
        self.head = (self.head + 1) % 252;
        self.count -= 1;
        Some(v)
    }
}
