ghost use Rattle.std.specs.Prelude.{◌≡◌, ◌<◌, ◌≤◌, true, false, [], ◌∷◌, ◌++◌, length, is_ok, MatchOption, slice_index_or};
ghost use Rattle.ring.specs.Held.{items, room, Stands};
ghost use Rattle.ring.specs.Rest.{rest};

use super::{Iter, Queue};

/// The answer of a put where all places are held.
#[derive(Clone, Copy, PartialEq, Eq, Debug)]
pub struct Full;

impl<'a, T: Copy> Queue<'a, T> {
    /// Holds nothing.
    pub fn new(places: &'a mut [T]) -> Self
        ensures room { room result ≡ length places.old }
        ensures empty { items result ≡ [] }
    {
        Queue {
            places,
            head: 0,
            len: 0,
        }
    }

    // The place of the item number `i` from the front, or of the next one to come.
    fn place(&self, i: usize) -> usize
        ensures { i < room self.now → Stands self.now i result }
    {
        let gap = self.places.len() - self.head;
        if i < gap { self.head + i } else { i - gap }
    }

    /// Full exactly if all places are held, and then nothing changes.
    pub fn put(&mut self, item: T) -> Result<(), Full>
        ensures room { room self.new ≡ room self.old }
        ensures full { length (items self.old) ≡ room self.old → (is_ok result ≡ false) × (self.new ≡ self.old) }
        ensures kept { length (items self.old) < room self.old → (is_ok result ≡ true) × (items self.new ≡ items self.old ++ item ∷ []) }
    {
        let len = self.len;
        if len == self.places.len() {
            return Err(Full);
        }
        let at = self.place(len);
        self.places[at] = item;
        self.len = len + 1;
        Ok(())
    }

    /// The first item, which is then held no more; None exactly if no place is held, and then nothing changes.
    pub fn take(&mut self) -> Option<T>
        ensures room { room self.new ≡ room self.old }
        ensures took { MatchOption result ((items self.old ≡ []) × (self.new ≡ self.old)) (λ x. items self.old ≡ x ∷ items self.new) }
    {
        let len = self.len;
        if len == 0 {
            return None;
        }
        let head = self.head;
        let at = if head == self.places.len() { 0 } else { head };
        let item = self.places[at];
        self.head = at + 1;
        self.len = len - 1;
        Some(item)
    }

    /// How many items are held.
    pub fn len(&self) -> usize
        ensures { result ≡ length (items self.now) }
    {
        self.len
    }

    /// The held item number `i` from the front, from 0 on; None exactly if so many are not held.
    pub fn nth(&self, i: usize) -> Option<T>
        ensures { MatchOption result (length (items self.now) ≤ i) (λ x. (i < length (items self.now)) × (x ≡ slice_index_or (items self.now) i x)) }
    {
        if i >= self.len {
            return None;
        }
        let at = self.place(i);
        let places = &*self.places;
        Some(places[at])
    }

    /// The held items from the first to the last, which stay held.
    pub fn iter(&self) -> Iter<'_, 'a, T>
        ensures { rest result ≡ items self.now }
    {
        Iter { queue: self, at: 0 }
    }
}
