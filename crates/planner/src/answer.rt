//! What the planner's calls take and answer.
ghost use Rattle.std.specs.Prelude.{◌≡◌, ◌^◌, ◌<◌};
ghost use Rattle.planner.specs.Outcomes.{outcome_number};
ghost use Rattle.planner.specs.Tallies.{more};

/// How a question stands after a work or a trial.
#[derive(Clone, Copy, PartialEq, Eq, Debug)]
pub enum Outcome {
    /// 0: something is still active.
    InWork,
    /// 1: settled with a flow.
    Flow,
    /// 2: settled as impossible.
    Impossible,
}

/// The number of the outcome.
impl From<Outcome> for u8 {
    ghost from_gives = { λ outcome number. number ≡ outcome_number outcome };

    fn from(outcome: Outcome) -> u8 {
        match outcome {
            Outcome::InWork => 0,
            Outcome::Flow => 1,
            Outcome::Impossible => 2,
        }
    }
}

/// Which of the two extreme tightest cuts is read.
#[derive(Clone, Copy, PartialEq, Eq, Debug)]
pub enum Side {
    Near,
    Far,
}

/// How often a stage relabelled and discharged; nothing done yet, to begin with.
#[derive(Clone, Copy, PartialEq, Eq, Debug, Default)]
pub struct Tally {
    pub relabels: u64,
    pub discharges: u64,
}

impl Tally {
    // So many discharges and relabels more.
    pub(super) fn count(&mut self, made: u32, relabels: u32)
        requires { (self.old.discharges < 2 ^ 60) × (self.old.relabels < 2 ^ 60) }
        ensures { self.new ≡ more self.old made relabels }
    {
        self.relabels += u64::from(relabels);
        self.discharges += u64::from(made);
    }
}
