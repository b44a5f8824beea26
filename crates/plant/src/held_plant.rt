//! A plant that passed the tests, with its aim.
ghost use Rattle.std.specs.Prelude.{ℕ, ◌<◌, ◌≤◌, slice_index_or};
ghost use Rattle.plant.specs.Fine.{Fine, Outward};
ghost use Rattle.plant.specs.Plants.{no_line};

use super::aim::Aim;
use super::line::Line;
use super::list::MAX_LINES;

pub mod calls;

/// A copy of a list that passed the tests, with the number of junctions and the aim.
// The lines lie in a plain block: a held plant is copied, and a vector of fixed room is not.
#[derive(Clone, Copy)]
pub struct HeldPlant {
    n: u8,
    aim: Aim,
    lines: [Line; MAX_LINES],
    count: usize,
    ghost few: { count ≤ 1000 },
    ghost sized: { (2 ≤ n) × (n ≤ 250) },
    ghost fine: { (k : ℕ) → k < count → Fine n (slice_index_or lines k no_line) },
    ghost outward: { (k : ℕ) → k < count → Outward (slice_index_or lines k no_line) },
}
