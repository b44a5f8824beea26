//! Plays one script of calls over each chooser, and prints every call with its answer.
#![tactic(auto)]

mod script;
mod words;

use chooser::{Chooser, Fifo, HighestLabel};
use runs::replay;
use script::whole_script;
use words::Words;

// Plays the script on a new planner over the chooser, and prints it from beginning to end.
fn show<C: Chooser + Drop>(rt: &HostRuntime, name: &str, chooser: C) -> anyhow::Result<()> {
    let mut script = whole_script(rt.alloc())?;
    let answers = replay(chooser, &mut script, rt.alloc())?;
    println!(rt; "with the {name} chooser")?;
    for (call, answer) in script.iter().zip(answers.iter()) {
        println!(rt; "{}", Words(call))?;
        println!(rt; "    {}", Words(answer))?;
    }
    Ok(())
}

fn main(rt: HostRuntime) -> anyhow::Result<()> {
    show(&rt, "arrival-order", Fifo::new())?;
    println!(rt; "")?;
    show(&rt, "highest-label", HighestLabel::new())
}
