//! The two stages of a question.
ghost use Rattle.std.specs.Prelude.{◌≡◌, ◌+◌, ◌^◌, ◌<◌, ◌≤◌, true};
ghost use Rattle.preflow.specs.Networks.{state_in};
ghost use Rattle.preflow.specs.Running.{RanOut};
ghost use Rattle.preflow.specs.Stages.{Stands};
ghost use Rattle.stage.specs.First.{filled};
ghost use Rattle.stage.specs.Runs.{Tied};
ghost use Rattle.planner.specs.declared.machine.State.TheVariants.{StageOne, StageTwo};
ghost use Rattle.planner.specs.Standing.{Quiet, Sound, arcs_in, stage_in};
ghost use Rattle.planner.specs.Works.{InTwo, OpenedOne, OpenedTwo, RanCounted, Runs};

use super::super::answer::{Outcome, Tally};
use super::{Planner, State};
use chooser::Chooser;
use preflow::{Network, Stage};

// Makes at most `most` discharges in a stage, and counts them in its tally.
fn run_counted<C: Chooser>(
    network: &mut Network<C>,
    stage: Stage,
    tally: &mut Tally,
    most: u32,
) -> u32
    requires stands { Stands stage.junctions stage.start stage.goal (state_in network.old) }
    requires tied { Tied C.Chooser.has stage.start stage.goal network.old.rows.items network.old.chooser }
    requires roomy { (tally.old.discharges < 2 ^ 60) × (tally.old.relabels < 2 ^ 60) }
    ensures ran { RanCounted C.Chooser.has C.Chooser.puts C.Chooser.takes stage.junctions stage.start stage.goal network.old tally.old most result network.new tally.new }
    ensures stands { Stands stage.junctions stage.start stage.goal (state_in network.new) }
    ensures tied { Tied C.Chooser.has stage.start stage.goal network.new.rows.items network.new.chooser }
    ensures few { result ≤ most }
{
    let (made, relabels) = network.run(stage, most);
    tally.count(made, relabels);
    made
}

impl<C: Chooser> Planner<C> {
    // Opens stage one on the plant that is held.
    // It is put in place before: a plant is 12 kB, and would be moved once more where it is handed over.
    pub(super) fn open_stage_one(&mut self)
        ensures opened { OpenedOne C.Chooser.has C.Chooser.clears C.Chooser.puts C.Chooser.takes self.old.plant self.old self.new }
        ensures sound { Sound C.Chooser.has self.new }
    {
        self.network.open_first(&self.plant);
        self.network.begin(Stage::first(self.plant.junctions()));
        self.one = Tally::default();
        self.two = Tally::default();
        self.state = State::StageOne;
    }

    // Opens stage two with the flow that stage one found.
    fn open_stage_two(&mut self)
        requires sound { Sound C.Chooser.has self.old }
        requires state { self.old.state ≡ StageOne }
        requires quiet { Quiet self.old.plant.n (self.old.plant.n + 1) (stage_in self.old).rows }
        requires filled { filled self.old.plant.n (arcs_in self.old) ≡ true }
        ensures opened { OpenedTwo C.Chooser.has C.Chooser.clears C.Chooser.puts C.Chooser.takes self.old self.new }
        ensures sound { Sound C.Chooser.has self.new }
    {
        self.network.open_second(&self.plant);
        self.network
            .begin(Stage::second(self.plant.junctions(), self.plant.aim()));
        self.state = State::StageTwo;
    }

    // Runs in stage one, and goes on to stage two where it ends with a flow.
    pub(super) fn run_from_one(&mut self, most: u32) -> (Outcome, u32)
        requires sound { Sound C.Chooser.has self.old }
        requires state { self.old.state ≡ StageOne }
        ensures runs { Runs C.Chooser.has C.Chooser.clears C.Chooser.puts C.Chooser.takes self.old most result.0 result.1 self.new }
        ensures sound { Sound C.Chooser.has self.new }
    {
        let n = self.plant.junctions();
        let first = Stage::first(n);
        let made = run_counted(&mut self.network, first, &mut self.one, most);
        if self.network.any_active(first) {
            return (Outcome::InWork, made);
        }
        if !self.network.is_filled(n) {
            self.state = State::SettledImpossible;
            return (Outcome::Impossible, made);
        }
        self.open_stage_two();
        let (outcome, later) = self.run_from_two(most - made);
        (outcome, made + later)
    }

    // Runs in stage two, and settles where nothing is active.
    pub(super) fn run_from_two(&mut self, most: u32) -> (Outcome, u32)
        requires sound { Sound C.Chooser.has self.old }
        requires state { self.old.state ≡ StageTwo }
        ensures ran { InTwo C.Chooser.has C.Chooser.clears C.Chooser.puts C.Chooser.takes self.old most result.1 self.new }
        ensures runs { Runs C.Chooser.has C.Chooser.clears C.Chooser.puts C.Chooser.takes self.old most result.0 result.1 self.new }
        ensures sound { Sound C.Chooser.has self.new }
    {
        let second = Stage::second(self.plant.junctions(), self.plant.aim());
        let made = run_counted(&mut self.network, second, &mut self.two, most);
        if self.network.any_active(second) {
            return (Outcome::InWork, made);
        }
        self.state = State::SettledFlow;
        (Outcome::Flow, made)
    }
}
