//! How a plant is held, and what is read off it.
ghost use Rattle.std.specs.Prelude.{◌≡◌, ℕ, ◌<◌, ◌≤◌, [], length, take, Ok, Err, MatchResult, slice_index_or};
ghost use Rattle.plant.specs.declared.aim.Aim.TheVariants.{Greatest};
ghost use Rattle.plant.specs.Fine.{Fine};
ghost use Rattle.plant.specs.Held.{plant_of};
ghost use Rattle.plant.specs.Plants.{Plant, no_line};
ghost use Rattle.plant.specs.Tests.{tested};

use super::super::aim::Aim;
use super::super::decline::Decline;
use super::super::line::Line;
use super::super::list::{MAX_LINES, test_plant};
use super::HeldPlant;

// The list in a fixed block, blank lines after it.
fn copied(lines: &[Line]) -> [Line; MAX_LINES]
    requires { length lines.now ≤ 1000 }
    ensures { take (length lines.now) result ≡ lines.now }
{
    let mut held = [Line::default(); MAX_LINES];
    held[0..lines.len()].copy_from_slice(lines);
    held
}

impl HeldPlant {
    /// Copies a list, or declines it by the first test that fails.
    pub fn new(n: u8, lines: &[Line], aim: u8) -> Result<HeldPlant, Decline>
        ensures { MatchResult result (λ p. (tested n lines.now aim ≡ Ok p.aim) × (plant_of p ≡ record { junctions = n; lines = lines.now })) (λ d. tested n lines.now aim ≡ Err d) }
    {
        let aim = test_plant(n, lines, aim)?;
        let count = lines.len();
        Ok(HeldPlant {
            n,
            aim,
            lines: copied(lines),
            count,
        })
    }

    /// Two junctions and no line.
    pub fn blank() -> HeldPlant
        ensures plant { plant_of result ≡ record { junctions = 2; lines = [] } }
        ensures aim { result.aim ≡ Greatest }
    {
        HeldPlant {
            n: 2,
            aim: Aim::Greatest,
            lines: [Line::default(); MAX_LINES],
            count: 0,
        }
    }

    /// The number of junctions.
    pub fn junctions(&self) -> u8
        ensures value { result ≡ (plant_of self.now).junctions }
        ensures sized { (2 ≤ result) × (result ≤ 250) }
    {
        self.n
    }

    /// What is looked for.
    pub fn aim(&self) -> Aim
        ensures { result ≡ self.now.aim }
    {
        self.aim
    }

    /// The lines, each of which passed the tests.
    pub fn lines(&self) -> &[Line]
        ensures value { result.now ≡ (plant_of self.now).lines }
        ensures few { length result.now ≤ 1000 }
        ensures fine { (k : ℕ) → k < length result.now → Fine (plant_of self.now).junctions (slice_index_or result.now k no_line) }
    {
        &self.lines[0..self.count]
    }
}
