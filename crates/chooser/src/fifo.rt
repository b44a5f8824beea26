//! What the chooser by order of arrival holds.
ghost use Rattle.std.specs.Prelude.{◌≡◌, ℕ, ◌<◌, length};
ghost use Rattle.chooser.specs.Lists.{flag, ones, run, times};

pub mod calls;

/// Takes in order of arrival. The members lie in a ring of 252 places, `count` of them from `head` on, each once.
// A ring and no vector: the first is taken in constant time, where a vector would move all others.
#[derive(Drop)]
pub struct Fifo {
    member: [bool; 252],
    ring: [u8; 252],
    head: usize,
    count: usize,
    ghost wide: { (length member ≡ 252) × (length ring ≡ 252) },
    ghost inside: { head < 252 },
    ghost counted: { count ≡ ones member },
    ghost listed: { (v : ℕ) → times v (run ring head count) ≡ flag member v },
}
