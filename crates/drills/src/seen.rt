//! What can be seen of a planner.
use chooser::Chooser;
use planner::{Planner, Side, State, Tally};
use plant::Decline;
use std::array;

/// A set read into a buffer: its size with its bound or its shortfall, or why there is none, and the buffer.
#[derive(Clone, Copy, PartialEq)]
pub struct Shape<T> {
    answer: Result<(u16, T), Decline>,
    bytes: [u8; 32],
}

impl<T> Shape<T> {
    // Lends a buffer to a reading.
    fn lend<F: FnOnce(&mut [u8]) -> Result<(u16, T), Decline>>(read: F) -> Shape<T>
        requires { F.IsAlwaysCallable read }
    {
        let mut bytes = [7u8; 32];
        let answer = read(&mut bytes);
        Shape { answer, bytes }
    }
}

/// What every chooser must give alike.
#[derive(Clone, Copy, PartialEq)]
pub struct Answers {
    state: State,
    total: Result<i64, Decline>,
    near: Shape<i64>,
    far: Shape<i64>,
    hurdle: Shape<u64>,
}

impl Answers {
    /// The answers of a planner.
    pub fn of<C: Chooser>(planner: &Planner<C>) -> Answers {
        Answers {
            state: planner.state(),
            total: planner.total(),
            near: Shape::lend(|bytes| planner.cut(Side::Near, bytes)),
            far: Shape::lend(|bytes| planner.cut(Side::Far, bytes)),
            hurdle: Shape::lend(|bytes| planner.hurdle(bytes)),
        }
    }
}

// As many flows as are looked at.
const FLOWS: usize = 32;

/// All that can be read off a planner: its answers, the flows of its first lines, and both tallies.
#[derive(Clone, Copy, PartialEq)]
pub struct Seen {
    pub answers: Answers,
    flows: [Result<u32, Decline>; FLOWS],
    tallies: (Tally, Tally),
}

impl Seen {
    /// What is seen of a planner.
    pub fn of<C: Chooser>(planner: &Planner<C>) -> Seen {
        Seen {
            answers: Answers::of(planner),
            flows: array::from_fn(|line| planner.flow(line as u16)),
            tallies: planner.tallies(),
        }
    }

    /// The discharges of both stages.
    pub fn discharges(&self) -> u64 {
        let (one, two) = self.tallies;
        one.discharges.wrapping_add(two.discharges)
    }
}
