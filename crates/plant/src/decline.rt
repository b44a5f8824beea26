//! Why a call is declined.
ghost use Rattle.std.specs.Prelude.{◌≡◌, ◌++◌, Some, codes, decimal};
ghost use Rattle.plant.specs.Numbers.{number_of};

use std::error::Error;
use std::fmt;

/// The first test that failed.
#[derive(Clone, Copy, PartialEq, Eq, Debug)]
pub enum Decline {
    /// 1: the aim is neither 1 nor 2.
    AimNumber,
    /// 2: fewer than 2 junctions, or more than 250.
    JunctionCount,
    /// 3: more than 1,000 lines.
    LineCount,
    /// 4: an end that is no junction, or two equal ends.
    LineEnds,
    /// 5: a line that ends at the header or leaves the tank.
    LineDirection,
    /// 6: low above high, or high above 1,000,000.
    LineLimits,
    /// 7: a work of none, or of more than 60,000.
    WorkNumber,
    /// 8: no line has this number.
    LineNumber,
    /// 9: the buffer is too short.
    BufferLength,
    /// 10: more than 64 trials.
    TrialCount,
    /// 11: a byte that is no command at its place.
    NoCommand,
    /// 12: the file ends inside a command or before its aim.
    FileEnds,
    /// 13: bytes after the aim.
    FileGoesOn,
    /// 21: nothing is in work.
    NothingInWork,
    /// 22: nothing is settled.
    NothingSettled,
    /// 23: the plant was found impossible, so there is no flow.
    NoFlow,
    /// 24: the plant has a flow, so there is no hurdle.
    NoHurdle,
}

/// The number of the test.
impl From<Decline> for u8 {
    ghost from_gives = { λ decline number. number ≡ number_of decline };

    fn from(decline: Decline) -> u8 {
        match decline {
            Decline::AimNumber => 1,
            Decline::JunctionCount => 2,
            Decline::LineCount => 3,
            Decline::LineEnds => 4,
            Decline::LineDirection => 5,
            Decline::LineLimits => 6,
            Decline::WorkNumber => 7,
            Decline::LineNumber => 8,
            Decline::BufferLength => 9,
            Decline::TrialCount => 10,
            Decline::NoCommand => 11,
            Decline::FileEnds => 12,
            Decline::FileGoesOn => 13,
            Decline::NothingInWork => 21,
            Decline::NothingSettled => 22,
            Decline::NoFlow => 23,
            Decline::NoHurdle => 24,
        }
    }
}

impl fmt::Display for Decline {
    ghost output = { λ d. Some (codes "DECLINED " ++ decimal (number_of d)) };

    fn fmt<W: fmt::Write>(&self, f: &mut fmt::Formatter<W>) -> fmt::Result {
        let number = u8::from(*self);
        write!(f, "DECLINED {number}")
    }
}

impl Error for Decline {}
