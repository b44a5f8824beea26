//! Adding a member and taking one out.
ghost use Rattle.std.specs.Prelude.{◌≡◌, ◌<◌, ◌≤◌, [], not, ◌&&◌, MatchOption, nat_lt};
ghost use Rattle.arrayvec.specs.ArrayVec.{array_vec_len};
ghost use Rattle.chooser.specs.Arrivals.{Left, Put, holds};
ghost use Rattle.chooser.specs.Sets.{Added, Empty};

use super::Arrived;
use arrayvec::ArrayVec;

impl Arrived {
    /// Nothing has arrived.
    pub fn new() -> Self
        ensures empty { Empty (holds result) }
        ensures none { result.order.items ≡ [] }
    {
        Arrived {
            member: [false; 252],
            order: ArrayVec::new(),
        }
    }

    /// Adds `v` as the last, if it is below 252 and no member yet, and answers whether it was so.
    pub fn put(&mut self, v: u8) -> bool
        ensures told { result ≡ (nat_lt v 252 && not (holds self.old v)) }
        ensures set { Added (holds self.old) v (holds self.new) }
        ensures puts { Put self.old v self.new }
    {
        let at = v as usize;
        if at >= 252 || self.member[at] {
            return false;
        }
        self.order.push(v);
        self.member[at] = true;
        true
    }

    /// Takes out the member at a place of the order; None exactly if there is no such place, and then nothing changes.
    pub fn take(&mut self, at: usize) -> Option<u8>
        ensures { MatchOption result ((array_vec_len self.old.order ≤ at) × (self.new ≡ self.old)) (λ v. Left self.old at v self.new) }
    {
        if at >= self.order.len() {
            return None;
        }
        let v = self.order.remove(at);
        self.member[v as usize] = false;
        Some(v)
    }
}
