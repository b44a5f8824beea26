//! Going over the items of a queue.
ghost use Rattle.std.specs.Iterator.{YieldsFirst, item_count};
ghost use Rattle.ring.specs.Rest.{rest};

use super::Iter;

impl<T: Copy> Iterator for Iter<'_, '_, T> {
    type Item = T;

    ghost next_gives = { YieldsFirst rest };

    ghost remaining = { item_count rest };

    fn next(&mut self) -> Option<T> {
        let at = self.at;
        if at >= self.queue.len() {
            return None;
        }
        self.at = at + 1;
        self.queue.nth(at)
    }
}
