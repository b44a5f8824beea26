//! What is looked for in a plant.
ghost use Rattle.std.specs.Prelude.{◌≡◌, Some};
ghost use Rattle.plant.specs.Tests.{aim_numbered, numbered};

use super::decline::Decline;

/// The greatest or the least total that the plant can carry.
#[derive(Clone, Copy, PartialEq, Eq, Debug)]
pub enum Aim {
    Greatest,
    Least,
}

/// 1 is the greatest, 2 the least, and no other number an aim.
impl TryFrom<u8> for Aim {
    type Error = Decline;

    ghost try_from_gives = { λ number r. r ≡ numbered number };

    fn try_from(number: u8) -> Result<Aim, Decline> {
        match number {
            1 => Ok(Aim::Greatest),
            2 => Ok(Aim::Least),
            _ => Err(Decline::AimNumber),
        }
    }
}

/// The number of the aim.
impl From<Aim> for u8 {
    ghost from_gives = { λ aim number. aim_numbered number ≡ Some aim };

    fn from(aim: Aim) -> u8 {
        match aim {
            Aim::Greatest => 1,
            Aim::Least => 2,
        }
    }
}
