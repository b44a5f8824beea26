//! Scripts of calls.
ghost use Rattle.std.specs.Prelude.{◌≡◌, length, IfOk, vec_len};
ghost use Rattle.law.specs.Law.{Law, beside};
ghost use Rattle.law.specs.Phases.{idle};
ghost use Rattle.law.specs.Promises.{Promise};
ghost use Rattle.runs.specs.Played.{PlaysNew, SameCalls};

use super::playing::play;
use chooser::Chooser;
use law::{Answer, Call};
use planner::Planner;
use std::alloc::{AllocError, Global};

/// Plays a script on a new planner over the chooser, and gives the answers in order; the script is afterwards what it
/// was. Only want of memory stops it.
pub fn replay<C: Chooser + Drop>(
    chooser: C,
    script: &mut [Call],
    heap: Global,
) -> Result<Vec<Answer>, AllocError>
    ensures script { SameCalls script.old script.new }
    ensures long { IfOk result (λ v. vec_len v ≡ length script.old) }
    ensures law { IfOk result (λ v. Law idle (beside script.old v.items)) }
    ensures promise { IfOk result (λ v. Promise (beside script.old v.items)) }
    ensures played { IfOk result (λ v. PlaysNew C.Chooser.has C.Chooser.clears C.Chooser.puts C.Chooser.takes chooser (beside script.old v.items)) }
{
    let mut planner = Planner::new(chooser);
    let mut answers = Vec::new(heap);
    // Over the places: a planted mistake of the tests plays the call before once more, which a loop that lends one call at
    // a time cannot say.
    for i in 0..script.len() {
        let answer = play(&mut planner, &mut script[i], heap)?;
        answers.push(answer)?;
    }
    Ok(answers)
}
