//! Members in order of arrival, of which any may be taken out.
ghost use Rattle.std.specs.Prelude.{◌≡◌, ℕ, length};
ghost use Rattle.arrayvec.specs.ArrayVec.{array_vec_len};
ghost use Rattle.chooser.specs.Lists.{flag, ones, times};

pub mod calls;

use arrayvec::ArrayVec;

/// The members in order of arrival, each once, with a flag for each number below 252.
#[derive(Drop)]
pub struct Arrived {
    pub order: ArrayVec<u8, 252>,
    pub member: [bool; 252],
    ghost wide: { length member ≡ 252 },
    ghost counted: { array_vec_len order ≡ ones member },
    ghost listed: { (v : ℕ) → times v order.items ≡ flag member v },
}
