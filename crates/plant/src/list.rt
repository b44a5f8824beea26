//! The tests of a list of lines.
ghost use Rattle.std.specs.Prelude.{◌≡◌, Bool, length, None};
ghost use Rattle.plant.specs.Tests.{bad_direction, bad_ends, bad_limits, test_limits, test_line, test_lines, test_list, test_trial, tested, pass};

use super::aim::Aim;
use super::decline::Decline;
use super::line::{Line, Trial};

/// The most junctions of a plant.
pub const MAX_JUNCTIONS: u8 = 250;

/// The most lines of a list.
pub const MAX_LINES: usize = 1000;

/// The largest high of a line.
pub const MAX_LIMIT: u32 = 1_000_000;

// An end that is no junction, or two equal ends.
fn has_bad_ends(n: u8, line: &Line) -> bool
    ensures { result ≡ bad_ends n line.now }
{
    line.from >= n || line.to >= n || line.from == line.to
}

// Ends at the header or leaves the tank.
fn has_bad_direction(line: &Line) -> bool
    ensures { result ≡ bad_direction line.now }
{
    line.to == 0 || line.from == 1
}

// Low above high, or high too large.
fn has_bad_limits(low: u32, high: u32) -> bool
    ensures { result ≡ bad_limits low high }
{
    low > high || high > MAX_LIMIT
}

/// The test of two limits.
pub fn test_limits(low: u32, high: u32) -> Result<(), Decline>
    ensures { result ≡ pass (test_limits low high None) }
{
    if has_bad_limits(low, high) {
        return Err(Decline::LineLimits);
    }
    Ok(())
}

// The tests of one line.
fn test_line(n: u8, line: &Line) -> Result<(), Decline>
    ensures { result ≡ pass (test_line n line.now None) }
{
    if has_bad_ends(n, line) {
        return Err(Decline::LineEnds);
    }
    if has_bad_direction(line) {
        return Err(Decline::LineDirection);
    }
    test_limits(line.low, line.high)
}

// The tests of each line, in their order.
fn test_lines(n: u8, lines: &[Line]) -> Result<(), Decline>
    ensures { result ≡ pass (test_lines n lines.now None) }
{
    for line in lines {
        test_line(n, line)?;
    }
    Ok(())
}

/// The tests of a list without an aim: junctions, lines, then line by line.
pub fn test_list(n: u8, lines: &[Line]) -> Result<(), Decline>
    ensures { result ≡ pass (test_list n lines.now None) }
{
    if n < 2 || n > MAX_JUNCTIONS {
        return Err(Decline::JunctionCount);
    }
    if lines.len() > MAX_LINES {
        return Err(Decline::LineCount);
    }
    test_lines(n, lines)
}

/// The aim that the number stands for, or the first test that fails: the aim's, then the list's.
pub fn test_plant(n: u8, lines: &[Line], aim: u8) -> Result<Aim, Decline>
    ensures { result ≡ tested n lines.now aim }
{
    let aim = Aim::try_from(aim)?;
    test_list(n, lines)?;
    Ok(aim)
}

/// The tests of a trial's own numbers on a list of `count` lines.
pub fn test_trial(count: usize, trial: &Trial) -> Result<(), Decline>
    ensures { result ≡ pass (test_trial count trial.now.line trial.now.low trial.now.high) }
{
    if usize::from(trial.line) >= count {
        return Err(Decline::LineNumber);
    }
    test_limits(trial.low, trial.high)
}
