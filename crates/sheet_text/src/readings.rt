//! A planner is run to the end, and read.
ghost use Rattle.std.specs.Prelude.{◌≡◌, ℕ, ◌^◌, ◌<◌, true, length, take, pos, IfOk, MatchResult};
ghost use Rattle.chooser.specs.FifoCalls.{holds};
ghost use Rattle.plant.specs.Held.{flows_of, marked};
ghost use Rattle.plant.specs.Plants as plants;
ghost use Rattle.plant.specs.Plants.{WorstHurdle, shortfall};
ghost use Rattle.planner.specs.Calls.{Settles};
ghost use Rattle.planner.specs.Cuts.{Extreme};
ghost use Rattle.planner.specs.declared.machine.State.TheVariants.{SettledFlow, SettledImpossible};
ghost use Rattle.planner.specs.Standing.{Sound, arcs_in, plant_in};
ghost use Rattle.planner.specs.Works.{in_work};
ghost use Rattle.text.specs.Text.{SmallFlows};

use arrayvec::ArrayVec;
use chooser::Fifo;
use planner::{MAX_WORK, Outcome, Planner, Side};
use plant::{Decline, MAX_LINES, Marks};
use reach::JunctionSet;

// Works until the question is settled.
pub(super) fn settle(planner: &mut Planner<Fifo>) -> Result<Outcome, Decline>
    requires { (Sound holds planner.old) × (in_work planner.old.state ≡ true) }
    ensures sound { Sound holds planner.new }
    ensures plant { planner.new.plant ≡ planner.old.plant }
    ensures settled { MatchResult result (λ o. Settles o planner.new.state) (λ _. ⊥) }
{
    loop {
        match planner.work(MAX_WORK)? {
            (Outcome::InWork, _) => {}
            (outcome, _) => return Ok(outcome),
        }
    }
}

// The total of the settled flow, which is not below zero.
pub(super) fn read_total(planner: &Planner<Fifo>) -> Result<u64, Decline>
    requires { (Sound holds planner.now) × (planner.now.state ≡ SettledFlow) }
    ensures { MatchResult result (λ x. (plants.total (plant_in planner.now) (flows_of (arcs_in planner.now)) ≡ pos x) × (x < 2 ^ 32)) (λ _. ⊥) }
{
    let total = planner.total()?;
    Ok(total.unsigned_abs())
}

// The settled flow of the lines in order.
pub(super) fn read_flows(
    planner: &Planner<Fifo>,
    lines: u16,
) -> Result<ArrayVec<u32, MAX_LINES>, Decline>
    requires { (Sound holds planner.now) × (planner.now.state ≡ SettledFlow) × (lines ≡ length (plant_in planner.now).lines) }
    ensures flows { MatchResult result (λ flows. flows.items ≡ flows_of (arcs_in planner.now)) (λ _. ⊥) }
    ensures small { IfOk result (λ flows. SmallFlows flows.items) }
{
    let mut flows = ArrayVec::new();
    // Over the numbers: `flow` is asked by a line's number.
    for line in 0..lines {
        let flow = planner.flow(line)?;
        flows.push(flow);
    }
    Ok(flows)
}

// The near or the far cut of the settled flow, as marks below the number of junctions.
pub(super) fn read_cut(planner: &Planner<Fifo>, side: Side) -> Result<Marks, Decline>
    requires { (Sound holds planner.now) × (planner.now.state ≡ SettledFlow) }
    ensures { MatchResult result (λ marks. Extreme side planner.now.plant.aim (plant_in planner.now) (marked (take planner.now.plant.n marks))) (λ _. ⊥) }
{
    let mut set = JunctionSet::new();
    planner.cut(side, &mut set.bytes)?;
    Ok(set.marks())
}

// The hurdle of the impossible plant, as marks below the number of junctions, and its shortfall.
pub(super) fn read_hurdle(planner: &Planner<Fifo>) -> Result<(Marks, u64), Decline>
    requires { (Sound holds planner.now) × (planner.now.state ≡ SettledImpossible) }
    ensures worst { MatchResult result (λ x. WorstHurdle (plant_in planner.now) (marked (take planner.now.plant.n x.0))) (λ _. ⊥) }
    ensures shortfall { MatchResult result (λ x. (x.1 ≡ shortfall (plant_in planner.now) (marked (take planner.now.plant.n x.0))) × (x.1 < 2 ^ 32)) (λ _. ⊥) }
{
    let mut set = JunctionSet::new();
    let (_, shortfall) = planner.hurdle(&mut set.bytes)?;
    Ok((set.marks(), shortfall))
}
