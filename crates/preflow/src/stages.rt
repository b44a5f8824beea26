//! The ends of a stage.
ghost use Rattle.std.specs.Prelude.{◌≡◌, ◌+◌, ◌<◌, ◌≤◌, length, ◌≢◌};
ghost use Rattle.plant.specs.declared.aim.Aim.TheVariants.{Greatest, Least};
ghost use Rattle.preflow.specs.Stages.{AnyActive, Ends};
ghost use Rattle.stage.specs.Model.{active};

use plant::Aim;
use stage::Row;

/// Where a stage starts, where it is to lead, and how many junctions it has.
#[derive(Clone, Copy)]
pub struct Stage {
    pub start: u8,
    pub goal: u8,
    pub junctions: u8,
    ghost few: { junctions ≤ 252 },
    ghost inside: { (start < junctions) × (goal < junctions) },
    ghost apart: { start ≢ goal },
}

impl Stage {
    /// Stage one of a plant of `n` junctions: from the added junction n to the added junction n + 1.
    pub fn first(n: u8) -> Stage
        requires { n ≤ 250 }
        ensures { Ends n (n + 1) (n + 2) result.start result.goal result.junctions }
    {
        Stage {
            start: n,
            goal: n + 1,
            junctions: n + 2,
        }
    }

    /// Stage two: from the header to the tank for the greatest, the other way round for the least.
    pub fn second(n: u8, aim: Aim) -> Stage
        requires { (2 ≤ n) × (n ≤ 250) }
        ensures { elim aim [ Greatest ↦ Ends 0 1 n result.start result.goal result.junctions | Least ↦ Ends 1 0 n result.start result.goal result.junctions ] }
    {
        let (start, goal) = match aim {
            Aim::Greatest => (0, 1),
            Aim::Least => (1, 0),
        };
        Stage {
            start,
            goal,
            junctions: n,
        }
    }

    /// Whether a junction is active: it has excess, and is neither start nor goal.
    pub fn is_active(self, rows: &[Row], v: u8) -> bool
        requires { v < length rows.now }
        ensures { result ≡ active self.start self.goal rows.now v }
    {
        // The excess first: most junctions have none.
        if rows[v as usize].excess <= 0 {
            return false;
        }
        v != self.start && v != self.goal
    }

    // Whether any junction is active; a row is asked by its junction's number.
    pub(super) fn any_active(self, rows: &[Row]) -> bool
        requires { length rows.now ≤ 252 }
        ensures { AnyActive self.start self.goal rows.now result }
    {
        (0..rows.len() as u8).any(|v| self.is_active(rows, v))
    }
}
