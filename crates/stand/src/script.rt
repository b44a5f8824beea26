//! The script: two plants, one with a flow and one without, and every kind of call on them.
use law::{Call, Given};
use planner::Side;
use plant::{Line, Trial};
use std::alloc::{AllocError, Global};

// After the first work so many more settle the first plant over either chooser, and leave one with nothing to do.
const PORTIONS: u8 = 7;

// A line with its limits.
fn line(from: u8, to: u8, low: u32, high: u32) -> Line {
    Line {
        from,
        to,
        low,
        high,
    }
}

// Asks for the greatest total of a plant that has a flow.
fn four(heap: Global) -> Result<Given, AllocError> {
    let lines = vec![in heap;
        line(0, 2, 2, 6),
        line(2, 3, 0, 4),
        line(3, 1, 1, 5),
        line(2, 1, 0, 1),
    ]?;
    Ok(Given {
        n: 4,
        lines,
        aim: 1,
    })
}

// Asks for the greatest total of a plant that has no flow: its second line wants more than the first can bring.
fn starved(heap: Global) -> Result<Given, AllocError> {
    let lines = vec![in heap; line(0, 2, 0, 2), line(2, 1, 3, 5)]?;
    Ok(Given {
        n: 3,
        lines,
        aim: 1,
    })
}

// A reading before anything is settled, and then the first plant, worked in portions of 3.
fn add_works(script: &mut Vec<Call>, heap: Global) -> Result<(), AllocError> {
    script.extend([
        Call::Total,
        Call::Tallies,
        Call::Start(four(heap)?),
        Call::Work(3),
        Call::Work(0),
        Call::Total,
    ])?;
    script.extend((0..PORTIONS).map(|_| Call::Work(3)))
}

// Every reading of the plan that is settled.
fn add_readings(script: &mut Vec<Call>) -> Result<(), AllocError> {
    script.push(Call::Total)?;
    script.extend((0..4).map(Call::Flow))?;
    for side in [Side::Near, Side::Far] {
        script.extend([
            Call::Cut { side, room: 32 },
            Call::Crossing { side, room: 4 },
        ])?;
    }
    script.extend([Call::Hurdle { room: 32 }, Call::Tallies])
}

// Calls that are declined, and the total that still stands after them.
fn add_declined(script: &mut Vec<Call>, heap: Global) -> Result<(), AllocError> {
    script.extend([
        Call::Start(Given {
            n: 1,
            ..four(heap)?
        }),
        Call::Flow(9),
        Call::Cut {
            side: Side::Near,
            room: 31,
        },
        Call::Total,
    ])
}

// Other limits on one line of a plant, and the total that they give.
fn add_trials(script: &mut Vec<Call>, heap: Global) -> Result<(), AllocError> {
    for (line, low, high) in [(1, 0, 5), (0, 2, 7)] {
        let given = four(heap)?;
        let trial = Trial { line, low, high };
        script.extend([Call::Trial { given, trial }, Call::Total])?;
    }
    Ok(())
}

// The plant that has no flow, its hurdle, and the limit that removes it.
fn add_starved(script: &mut Vec<Call>, heap: Global) -> Result<(), AllocError> {
    script.extend([
        Call::Start(starved(heap)?),
        Call::Work(60_000),
        Call::Total,
        Call::Hurdle { room: 32 },
        Call::Trial {
            given: starved(heap)?,
            trial: Trial {
                line: 0,
                low: 0,
                high: 3,
            },
        },
        Call::Total,
        Call::Tallies,
    ])
}

/// All calls in their order.
pub fn whole_script(heap: Global) -> Result<Vec<Call>, AllocError> {
    let mut script = Vec::new(heap);
    add_works(&mut script, heap)?;
    add_readings(&mut script)?;
    add_declined(&mut script, heap)?;
    add_trials(&mut script, heap)?;
    add_starved(&mut script, heap)?;
    Ok(script)
}
