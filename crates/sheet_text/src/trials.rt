//! What a file asks, and its trials.
ghost use Rattle.std.specs.Prelude.{◌≡◌, length, None, MatchResult};
ghost use Rattle.chooser.specs.FifoCalls.{holds};
ghost use Rattle.plant.specs.Tests.{test_list, test_trial};
ghost use Rattle.planner.specs.Standing.{Sound};
ghost use Rattle.ring.specs.Held.{items};
ghost use Rattle.sheet_text.specs.Sheets.{plant_told, TriedAll, TriedOne};
ghost use Rattle.sheet_text.specs.Steps.{Ready, asked};
ghost use Rattle.text.specs.Text.{Sized, SmallTrials};

use super::readings::read_total;
use arrayvec::ArrayVec;
use chooser::Fifo;
use planner::{Outcome, Planner};
use plant::{Decline, Line, Trial};
use plantfile::{Heading, MAX_TRIALS};
use ring::Queue;
use text::Tried;

/// A file that was read, and the planner that settles what it asks.
#[derive(Drop)]
pub(super) struct Question<'q, 'w> {
    pub(super) planner: &'q mut Planner<Fifo>,
    pub(super) heading: Heading,
    pub(super) lines: &'q mut [Line],
    pub(super) waiting: &'q Queue<'w, Trial>,
}

impl<'q, 'w> Question<'q, 'w> {
    // Tries one trial.
    fn try_one(&mut self, trial: Trial) -> Result<Tried, Decline>
        requires sound { Sound holds self.old.planner.now }
        requires list { test_list self.old.heading.n self.old.lines.now None ≡ None }
        requires limits { test_trial (length self.old.lines.now) trial.line trial.low trial.high ≡ None }
        ensures sound { Sound holds self.new.planner.now }
        ensures asks { asked self.new ≡ asked self.old }
        ensures tried { MatchResult result (λ t. TriedOne self.old.heading.aim (plant_told (asked self.old)) trial t × Sized t) (λ _. ⊥) }
    {
        let total = match self.planner.trial(
            self.heading.n,
            self.lines,
            // By its number: the call takes any byte, and tests it.
            u8::from(self.heading.aim),
            trial,
        )? {
            Outcome::Flow => Some(read_total(self.planner)?),
            Outcome::InWork | Outcome::Impossible => None,
        };
        Ok(Tried {
            line: trial.line,
            total,
        })
    }

    // Tries the trials that wait, first to last.
    pub(super) fn try_all(&mut self) -> Result<ArrayVec<Tried, MAX_TRIALS>, Decline>
        requires sound { Sound holds self.old.planner.now }
        requires ready { Ready (asked self.old) }
        ensures { MatchResult result (λ ts. TriedAll self.old.heading.aim (plant_told (asked self.old)) (items self.old.waiting.now) ts.items × SmallTrials ts.items) (λ _. ⊥) }
    {
        let mut tried = ArrayVec::new();
        for trial in self.waiting.iter() {
            let one = self.try_one(trial)?;
            tried.push(one);
        }
        Ok(tried)
    }
}
