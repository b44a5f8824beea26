//! What a planner holds.
use super::answer::Tally;
use plant::HeldPlant;
use preflow::Network;

pub mod calls;
pub mod readings;
pub mod stages;
pub mod trials;

/// Where a planner stands.
#[derive(Clone, Copy, PartialEq, Eq, Debug)]
pub enum State {
    Idle,
    StageOne,
    StageTwo,
    SettledFlow,
    SettledImpossible,
}

/// A planner with the chooser that it was made with: its question, the network of the stage, what each stage has done,
/// and where it stands.
// That it is sound stands in the calls' contracts and not here: a ghost field is to be a proposition, and soundness holds
// the junctions taken and the states found.
#[derive(Drop)]
pub struct Planner<C> {
    plant: HeldPlant,
    network: Network<C>,
    one: Tally,
    two: Tally,
    state: State,
}
