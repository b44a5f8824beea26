//! Start and work.
ghost use Rattle.std.specs.Prelude.{◌≡◌};
ghost use Rattle.planner.specs.Calls.{Idles, Starts, Works, bad_work};
ghost use Rattle.planner.specs.Standing.{Sound};

use super::super::answer::{Outcome, Tally};
use super::{Planner, State};
use chooser::Chooser;
use plant::{Decline, HeldPlant, Line};
use preflow::Network;

/// The most that one work may ask for.
pub const MAX_WORK: u32 = 60_000;

// None, or too many.
fn is_bad_number(number: u32) -> bool
    ensures { result ≡ bad_work number }
{
    number == 0 || number > MAX_WORK
}

impl<C: Chooser> Planner<C> {
    /// An idle planner.
    pub fn new(chooser: C) -> Planner<C>
        ensures idle { Idles chooser result }
        ensures sound { Sound C.Chooser.has result }
    {
        Planner {
            plant: HeldPlant::blank(),
            network: Network::new(chooser),
            one: Tally::default(),
            two: Tally::default(),
            state: State::Idle,
        }
    }

    /// Copies the question and opens stage one; an earlier question is gone.
    // Three parameters and no struct: a trial borrows the list to change it, and a start only to read it.
    pub fn start(&mut self, n: u8, lines: &[Line], aim: u8) -> Result<(), Decline>
        requires { Sound C.Chooser.has self.old }
        ensures starts { Starts C.Chooser.has C.Chooser.clears C.Chooser.puts C.Chooser.takes n lines.now aim self.old result self.new }
        ensures sound { Sound C.Chooser.has self.new }
    {
        let plant = HeldPlant::new(n, lines, aim)?;
        self.plant = plant;
        self.open_stage_one();
        Ok(())
    }

    /// Makes `number` discharges unless it settles first; answers the outcome and the discharges made.
    pub fn work(&mut self, number: u32) -> Result<(Outcome, u32), Decline>
        requires { Sound C.Chooser.has self.old }
        ensures works { Works C.Chooser.has C.Chooser.clears C.Chooser.puts C.Chooser.takes number self.old result self.new }
        ensures sound { Sound C.Chooser.has self.new }
    {
        // A match and no table of steps: which stage goes on is where the planner stands.
        match self.state {
            State::StageOne | State::StageTwo if is_bad_number(number) => Err(Decline::WorkNumber),
            State::StageOne => Ok(self.run_from_one(number)),
            State::StageTwo => Ok(self.run_from_two(number)),
            State::Idle | State::SettledFlow | State::SettledImpossible => {
                Err(Decline::NothingInWork)
            }
        }
    }
}
