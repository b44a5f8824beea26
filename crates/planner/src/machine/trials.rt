//! Trials: the same list with other limits on one line.
ghost use Rattle.std.specs.Prelude.{◌≡◌, ◌<◌, length};
ghost use Rattle.planner.specs.Calls.{Starts, Trials};
ghost use Rattle.planner.specs.Limits.{limited};
ghost use Rattle.planner.specs.Standing.{Sound};

use super::super::answer::Outcome;
use super::Planner;
use chooser::Chooser;
use plant::{Decline, Line, Trial, test_plant, test_trial};

// Puts limits into one line of a list.
fn put_limits(lines: &mut [Line], trial: Trial)
    requires { trial.line < length lines.old }
    ensures { lines.new ≡ limited lines.old trial.line trial.low trial.high }
{
    let at = usize::from(trial.line);
    lines[at] = Line {
        low: trial.low,
        high: trial.high,
        ..lines[at]
    };
}

// A list with other limits on one line, which has its own back when the guard goes.
struct Restore<'a> {
    lines: &'a mut [Line],
    own: Trial,
}

impl Restore<'_> {
    // Starts a planner on the list as it stands.
    fn start<C: Chooser>(&self, planner: &mut Planner<C>, n: u8, aim: u8) -> Result<(), Decline>
        requires { Sound C.Chooser.has planner.old }
        ensures starts { Starts C.Chooser.has C.Chooser.clears C.Chooser.puts C.Chooser.takes n self.now.lines.now aim planner.old result planner.new }
        ensures sound { Sound C.Chooser.has planner.new }
    {
        planner.start(n, self.lines, aim)
    }
}

impl Drop for Restore<'_> {
    fn drop(self)
        requires { self.own.line < length self.lines.now }
        ensures { self.exit.0.now ≡ limited self.entry.lines.now self.entry.own.line self.entry.own.low self.entry.own.high }
    {
        let own = self.own;
        put_limits(self.lines, own);
        let Restore { lines: _, own: _ } = self;
    }
}

impl<C: Chooser> Planner<C> {
    /// Settles the question of a list with other limits on one line; the list is afterwards what it was.
    pub fn trial(
        &mut self,
        n: u8,
        lines: &mut [Line],
        aim: u8,
        trial: Trial,
    ) -> Result<Outcome, Decline>
        requires { Sound C.Chooser.has self.old }
        ensures trials { Trials C.Chooser.has C.Chooser.clears C.Chooser.puts C.Chooser.takes n lines.old aim trial.line trial.low trial.high self.old result self.new }
        ensures sound { Sound C.Chooser.has self.new }
        ensures back { lines.new ≡ lines.old }
    {
        test_plant(n, lines, aim)?;
        test_trial(lines.len(), &trial)?;
        let own = lines[usize::from(trial.line)];
        let guard = Restore {
            lines,
            own: Trial {
                line: trial.line,
                low: own.low,
                high: own.high,
            },
        };
        put_limits(guard.lines, trial);
        guard.start(self, n, aim)?;
        let (outcome, _) = self.run_from_one(u32::MAX);
        Ok(outcome)
    }
}
