//! One call on a planner.
ghost use Rattle.std.specs.Prelude.{◌≡◌, IfOk, OnErr};
ghost use Rattle.law.specs.declared.script.Call.TheVariants.{Crossing, Cut, Hurdle};
ghost use Rattle.planner.specs.Standing.{Sound};
ghost use Rattle.runs.specs.Played.{Played, SameCall, out_of_turn};
ghost use Rattle.runs.specs.Shows.{Lawful, Reads};

use chooser::Chooser;
use law::{Answer, Call};
use planner::{Outcome, Planner, Side, State};
use plant::Decline;
use std::alloc::{AllocError, Global};

// By which test the state declines a call, if it does.
fn out_of_turn(state: State, call: &Call) -> Option<Decline>
    ensures { result ≡ out_of_turn state call.now }
{
    match (call, state) {
        (Call::Start(_) | Call::Trial { .. } | Call::Tallies, _) => None,
        (Call::Work(_), State::StageOne | State::StageTwo) => None,
        (Call::Work(_), _) => Some(Decline::NothingInWork),
        (_, State::Idle | State::StageOne | State::StageTwo) => Some(Decline::NothingSettled),
        (Call::Hurdle { .. }, State::SettledFlow) => Some(Decline::NoHurdle),
        (Call::Hurdle { .. }, State::SettledImpossible) => None,
        (_, State::SettledImpossible) => Some(Decline::NoFlow),
        (_, State::SettledFlow) => None,
    }
}

// Reads the near or the far cut into a buffer of so many bytes.
fn read_cut<C: Chooser>(planner: &Planner<C>, side: Side, room: u16) -> Result<Answer, Decline>
    requires { Sound C.Chooser.has planner.now }
    ensures { Reads C.Chooser.has planner.now (Cut side room) result }
{
    let mut set = [0u8; 32];
    let len = set.len().min(room as usize);
    let (junctions, bound) = planner.cut(side, &mut set[..len])?;
    Ok(Answer::Cut {
        set,
        junctions,
        bound,
    })
}

// Reads the lines that cross the near or the far cut into a buffer of so many numbers.
fn read_crossing<C: Chooser>(
    planner: &Planner<C>,
    side: Side,
    room: u16,
    heap: Global,
) -> Result<Result<Answer, Decline>, AllocError>
    requires { Sound C.Chooser.has planner.now }
    ensures { IfOk result (Reads C.Chooser.has planner.now (Crossing side room)) }
{
    let mut numbers = vec![in heap; 0u16; room as usize]?;
    // A match and no `map`: the proof does not follow the vector into a closure that shortens it and gives it away.
    match planner.crossing(side, &mut numbers) {
        Ok(count) => {
            numbers.truncate(count);
            Ok(Ok(Answer::Crossing(numbers)))
        }
        Err(decline) => Ok(Err(decline)),
    }
}

// Reads the hurdle into a buffer of so many bytes.
fn read_hurdle<C: Chooser>(planner: &Planner<C>, room: u16) -> Result<Answer, Decline>
    requires { Sound C.Chooser.has planner.now }
    ensures { Reads C.Chooser.has planner.now (Hurdle room) result }
{
    let mut set = [0u8; 32];
    let len = set.len().min(room as usize);
    let (junctions, shortfall) = planner.hurdle(&mut set[..len])?;
    Ok(Answer::Hurdle {
        set,
        junctions,
        shortfall,
    })
}

/// Plays one call on a planner and tells its answer; the call is afterwards what it was. Want of memory leaves the
/// planner as it is.
pub fn play<C: Chooser>(
    planner: &mut Planner<C>,
    call: &mut Call,
    heap: Global,
) -> Result<Answer, AllocError>
    requires { Sound C.Chooser.has planner.old }
    ensures sound { Sound C.Chooser.has planner.new }
    ensures call { SameCall call.old call.new }
    ensures played { IfOk result (λ a. Played C.Chooser.has C.Chooser.clears C.Chooser.puts C.Chooser.takes planner.old call.old a planner.new) }
    ensures kept { OnErr result (planner.new ≡ planner.old) }
    ensures law { IfOk result (λ a. Lawful C.Chooser.has planner.old call.old a planner.new) }
{
    if let Some(decline) = out_of_turn(planner.state(), call) {
        return Ok(Answer::Declined(decline));
    }
    let answer = match call {
        Call::Start(given) => planner
            .start(given.n, &given.lines, given.aim)
            .map(|()| Answer::Started),
        Call::Work(number) => planner
            .work(*number)
            .map(|(outcome, made)| Answer::Worked { outcome, made }),
        Call::Trial { given, trial } => {
            let tried = planner.trial(given.n, &mut given.lines, given.aim, *trial);
            tried.map(Answer::Tried)
        }
        Call::Total => planner.total().map(Answer::Total),
        Call::Flow(line) => planner.flow(*line).map(Answer::Flow),
        Call::Cut { side, room } => read_cut(planner, *side, *room),
        Call::Crossing { side, room } => read_crossing(planner, *side, *room, heap)?,
        Call::Hurdle { room } => read_hurdle(planner, *room),
        Call::Tallies => {
            let (one, two) = planner.tallies();
            Ok(Answer::Tallies { one, two })
        }
    };
    Ok(answer.unwrap_or_else(Answer::Declined))
}
