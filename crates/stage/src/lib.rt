//! A stage of push-relabel on lists, and the laws of its runs.
#![tactic(auto)]

ghost use Rattle.stage.specs.Laws.{BeginningHolds, DischargeKeeps, ActiveGoesOn, RelabelExact, ScanStops, ExcessBounded, RunsEnd, SetTies, StartParted, GoalOutOfReach, EndIsBest, GoalGetsAll, SecondStageBest};

/// What a planner keeps of a junction: its excess and its label.
#[derive(Clone, Copy, PartialEq, Eq, Debug, Default)]
pub struct Row {
    pub excess: i64,
    pub label: u32,
}

/// Over a balanced flow the beginning gives a state that holds.
pub fn beginning_holds()
    ensures { BeginningHolds }
{}

/// A discharge of an active junction keeps what holds.
pub fn discharge_keeps()
    ensures { DischargeKeeps }
{}

/// From an active junction some residual leads on.
pub fn active_goes_on()
    ensures { ActiveGoesOn }
{}

/// A relabel comes only where no push is possible, and gives one more than the smallest label in reach.
pub fn relabel_exact()
    ensures { RelabelExact }
{}

/// Once the excess is zero the rest of a scan changes nothing and puts nothing.
pub fn scan_stops()
    ensures { ScanStops }
{}

/// No excess is beyond the sum of the highs.
pub fn excess_bounded()
    ensures { ExcessBounded }
{}

/// Relabels and discharges are few.
pub fn runs_end()
    ensures { RunsEnd }
{}

/// A chooser goes on holding just the active junctions.
pub fn set_ties()
    ensures { SetTies }
{}

/// A set with the start and without the goal is left by no residual.
pub fn start_parted()
    ensures { StartParted }
{}

/// No residual path leads from the start to the goal.
pub fn goal_out_of_reach()
    ensures { GoalOutOfReach }
{}

/// When nothing is active the flow is balanced, and none sends more from the start to the goal.
pub fn end_is_best()
    ensures { EndIsBest }
{}

/// A balanced flow brings the goal what it takes from the start.
pub fn goal_gets_all()
    ensures { GoalGetsAll }
{}

/// Between header and tank a stage that has ended gives a best flow.
pub fn second_stage_best()
    ensures { SecondStageBest }
{}
