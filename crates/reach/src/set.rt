//! Sets of junctions in 32 bytes: junction v at byte v div 8, value 2 to the power v mod 8.
ghost use Rattle.std.specs.Prelude.{◌≡◌, ℕ, ◌+◌, ◌≤◌, true, false, ◌||◌, List, length, take, drop, replicate, ◌==◌};
ghost use Rattle.plant.specs.Held.{marked};
ghost use Rattle.reach.specs.Sets.{bits_from, member, members_below, set_bytes, size};

use plant::Marks;
use std::array;

/// A set of junction numbers below 256.
#[derive(Clone, Copy, PartialEq, Eq, Debug)]
pub struct JunctionSet {
    pub bytes: [u8; 32],
}

// The bits of the eight junctions from `v` on.
fn byte_of(marks: &Marks, v: usize) -> u8
    requires { v + 8 ≤ 256 }
    ensures { result ≡ bits_from (marked marks.now) v 8 }
{
    let mut byte = 0;
    for w in (v..v + 8).rev() {
        byte = byte * 2 + marks[w] as u8;
    }
    byte
}

impl JunctionSet {
    /// No member.
    pub fn new() -> JunctionSet
        ensures none { (v : ℕ) → member result.bytes v ≡ false }
        ensures bytes { result.bytes ≡ replicate 32 0 }
    {
        JunctionSet { bytes: [0; 32] }
    }

    /// Adds a junction; all others are members as before.
    pub fn insert(&mut self, v: u8)
        ensures { (w : ℕ) → member self.new.bytes w ≡ (w == v || member self.old.bytes w) }
    {
        self.bytes[(v / 8) as usize] |= 1 << (v % 8);
    }

    /// Whether a junction is a member.
    pub fn contains(&self, v: u8) -> bool
        ensures { result ≡ member self.now.bytes v }
    {
        (self.bytes[(v / 8) as usize] >> (v % 8)) & 1 == 1
    }

    /// The number of members.
    pub fn len(&self) -> u16
        ensures { result ≡ size (member self.now.bytes) 256 }
    {
        // a chain over `iter()` does not tell its proof that each byte is below 256
        let mut size = 0;
        for byte in self.bytes {
            size += byte.count_ones() as u16;
        }
        size
    }

    /// Writes the members to the front of `out` in rising order, answers their number, and leaves the rest of `out`.
    pub fn members(&self, out: &mut [u8; 256]) -> usize
        ensures front { take result out.new ≡ members_below (member self.now.bytes) 256 }
        ensures count { result ≡ size (member self.now.bytes) 256 }
        ensures rest { drop result out.new ≡ drop result out.old }
    {
        // Counted by hand: the buffer is the caller's, and what is behind the members stays as it was.
        let mut count = 0;
        for v in 0..=u8::MAX {
            if self.contains(v) {
                out[count] = v;
                count += 1;
            }
        }
        count
    }

    /// A mark for each junction, set for the members.
    pub fn marks(&self) -> Marks
        ensures { (v : ℕ) → marked result v ≡ member self.now.bytes v }
    {
        array::from_fn(|v| self.contains(v as u8))
    }
}

/// The junctions that are marked.
impl From<&Marks> for JunctionSet {
    ghost from_gives = { λ marks set. set.bytes ≡ set_bytes (marked marks.now) };

    fn from(marks: &Marks) -> JunctionSet
        ensures gives { result.bytes ≡ set_bytes (marked marks.now) }
        ensures members { (v : ℕ) → member result.bytes v ≡ marked marks.now v }
    {
        JunctionSet {
            bytes: array::from_fn(|i| byte_of(marks, 8 * i)),
        }
    }
}
