//! A pool plant: its lines, their limits, the tests of a list, and sums over lines.
#![tactic(auto)]

mod aim;
mod decline;
mod held;
mod held_plant;
mod line;
mod list;
mod sums;
mod worked;

pub use aim::Aim;
pub use decline::Decline;
pub use held::HeldLine;
pub use held_plant::HeldPlant;
pub use line::{Line, Trial};
pub use list::{
    MAX_JUNCTIONS, MAX_LIMIT, MAX_LINES, test_limits, test_list, test_plant, test_trial,
};
pub use sums::{Marks, bound, crosses, shortfall, sum_of_highs, surplus_at, total_of};
pub use worked::worked_plant;

#[cfg(test)]
mod tests {
    use super::*;
    use std::test::Fail;

    // A copy and a clone stand beside the plant that they were made of, and all three say the same.
    #[test]
    fn copied_and_cloned(rt: HostRuntime) -> Result<(), Fail> {
        let line = Line {
            from: 0,
            to: 1,
            low: 2,
            high: 5,
        };
        let held = HeldPlant::new(3, &[line], 2)?;
        let copy = held;
        for plant in [held.clone()?, copy, held] {
            assert_eq!(rt; plant.junctions(), 3);
            assert_eq!(rt; plant.aim(), Aim::Least);
            assert_eq!(rt; plant.lines(), &[line][..]);
        }
        Ok(())
    }
}
