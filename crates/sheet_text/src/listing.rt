//! From the bytes of a plant file to the text of its sheet.
ghost use Rattle.std.specs.Prelude.{◌≡◌, ◌<◌, ◌≤◌, length, IfOk, MatchResult};
ghost use Rattle.plant.specs.declared.decline.Decline.TheVariants.{BufferLength};
ghost use Rattle.planner.specs.declared.machine.State.TheVariants.{SettledFlow, SettledImpossible};
ghost use Rattle.sheet_text.specs.Sheets.{Listed, ListedNumber, Shown, Texted, checked};
ghost use Rattle.sheet_text.specs.Steps.{Asks, Ready, asked};

use super::checked::read_checked;
use super::readings::{read_cut, read_flows, read_hurdle, read_total, settle};
use super::trials::Question;
use chooser::Fifo;
use planner::{Outcome, Planner, Side};
use plant::{Decline, Line, MAX_LINES, Trial};
use plantfile::MAX_TRIALS;
use ring::Queue;
use text::{FlowSheet, HurdleSheet, put_declined};

/// A buffer of this length has room for every sheet.
pub const SHEET_LEN: usize = 16_384;

// Whether a buffer has room for every sheet.
fn expect_room(out: &[u8]) -> Result<(), Decline>
    ensures { MatchResult result (λ _. 16384 ≤ length out.now) (λ d. (d ≡ BufferLength) × (length out.now < 16384)) }
{
    if out.len() < SHEET_LEN {
        return Err(Decline::BufferLength);
    }
    Ok(())
}

impl Question<'_, '_> {
    // The listing of a plant that has a flow.
    fn list_flow(&mut self, out: &mut [u8]) -> Result<usize, Decline>
        requires settled { self.old.planner.now.state ≡ SettledFlow }
        requires asks { Asks (asked self.old) self.old.planner.now }
        requires ready { Ready (asked self.old) }
        requires room { 16384 ≤ length out.old }
        ensures { Shown (asked self.old) out.old result out.new }
    {
        let n = self.heading.n as usize;
        let aim = self.heading.aim;
        let total = read_total(self.planner)?;
        let flows = read_flows(self.planner, self.lines.len() as u16)?;
        let near = read_cut(self.planner, Side::Near)?;
        let far = read_cut(self.planner, Side::Far)?;
        let tried = self.try_all()?;
        let sheet = FlowSheet {
            aim,
            total,
            flows: flows.as_slice(),
            near: &near[..n],
            far: &far[..n],
            trials: tried.as_slice(),
        };
        Ok(sheet.put(out))
    }

    // The listing of a plant that is impossible.
    fn list_hurdle(&mut self, out: &mut [u8]) -> Result<usize, Decline>
        requires settled { self.old.planner.now.state ≡ SettledImpossible }
        requires asks { Asks (asked self.old) self.old.planner.now }
        requires ready { Ready (asked self.old) }
        requires room { 16384 ≤ length out.old }
        ensures { Shown (asked self.old) out.old result out.new }
    {
        let n = self.heading.n as usize;
        let (hurdle, shortfall) = read_hurdle(self.planner)?;
        let tried = self.try_all()?;
        let sheet = HurdleSheet {
            shortfall,
            hurdle: &hurdle[..n],
            trials: tried.as_slice(),
        };
        Ok(sheet.put(out))
    }
}

/// The listing of a plant file, into the front of a buffer of at least 16,384 bytes; answers its length. A file that
/// has a fault is declined by the first, and then a buffer that is too short; a decline leaves the buffer as it was.
pub fn write_listing(file: &[u8], out: &mut [u8]) -> Result<usize, Decline>
    ensures listed { Listed (checked file.now) out.old result out.new }
    ensures short { IfOk result (λ len. (len ≤ 16384) × (16384 ≤ length out.new)) }
{
    let mut lines = [Line::default(); MAX_LINES];
    let mut places = [Trial::default(); MAX_TRIALS];
    let mut waiting = Queue::new(&mut places);
    let heading = read_checked(file, &mut lines, &mut waiting)?;
    expect_room(out)?;
    let lines = &mut lines[..heading.lines];
    let mut planner = Planner::new(Fifo::new());
    // By its number: the call takes any byte, and tests it.
    planner.start(heading.n, lines, u8::from(heading.aim))?;
    let outcome = settle(&mut planner)?;
    let mut question = Question {
        planner: &mut planner,
        heading,
        lines,
        waiting: &waiting,
    };
    match outcome {
        Outcome::Impossible => question.list_hurdle(out),
        Outcome::InWork | Outcome::Flow => question.list_flow(out),
    }
}

/// The listing of a plant file, or the line that says by which number it is declined, into the front of a buffer;
/// answers its length. Declines only a buffer of fewer than 16,384 bytes, which it leaves as it was.
pub fn write_text(file: &[u8], out: &mut [u8]) -> Result<usize, Decline>
    ensures text { Texted (checked file.now) out.old result out.new }
    ensures short { IfOk result (λ len. (len ≤ 16384) × (16384 ≤ length out.new)) }
{
    expect_room(out)?;
    // By `unwrap_or_else` the proof does not close: its contract leaves open what the closure writes.
    match write_listing(file, out) {
        Ok(len) => Ok(len),
        Err(decline) => Ok(put_declined(decline, out)),
    }
}

/// What C is answered: the listing of a file, its length or the number of the decline as a negative.
pub fn widgulp_listing(file: &[u8], out: &mut [u8]) -> i64
    ensures { ListedNumber (checked file.now) out.old result out.new }
{
    match write_listing(file, out) {
        Ok(len) => len as i64,
        Err(decline) => -i64::from(u8::from(decline)),
    }
}
