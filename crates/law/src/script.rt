//! What may be asked of a planner, and what it answers.
use planner::{Outcome, Side, Tally};
use plant::{Decline, Line, Trial};

/// What a caller hands over, before any test.
#[derive(Drop)]
pub struct Given {
    pub n: u8,
    pub lines: Vec<Line>,
    /// 1 asks for the greatest total, 2 for the least.
    pub aim: u8,
}

/// One call; `room` is the length of the buffer that the caller lends.
#[derive(Drop)]
pub enum Call {
    /// Takes up a question.
    Start(Given),
    /// Works on it by at most so many steps.
    Work(u32),
    /// Takes up and settles what is given, with other limits on one line.
    Trial { given: Given, trial: Trial },
    /// Reads the total settled.
    Total,
    /// Reads the flow of one line.
    Flow(u16),
    /// Reads the near or the far cut.
    Cut { side: Side, room: u16 },
    /// Reads the numbers of the lines that cross that cut forward.
    Crossing { side: Side, room: u16 },
    /// Reads the hurdle of an impossible plant.
    Hurdle { room: u16 },
    /// Reads how often each stage relabelled and discharged.
    Tallies,
}

/// What a call answers.
#[derive(Drop)]
pub enum Answer {
    Started,
    /// How the question stands, after so many steps.
    Worked {
        outcome: Outcome,
        made: u32,
    },
    Tried(Outcome),
    Total(i64),
    Flow(u32),
    /// A cut with its number of junctions and its bound.
    Cut {
        set: [u8; 32],
        junctions: u16,
        bound: i64,
    },
    /// Line numbers, rising.
    Crossing(Vec<u16>),
    /// A hurdle with its number of junctions and its shortfall.
    Hurdle {
        set: [u8; 32],
        junctions: u16,
        shortfall: u64,
    },
    /// The tallies of stage one and stage two.
    Tallies {
        one: Tally,
        two: Tally,
    },
    /// The first test that fails; nothing has changed.
    Declined(Decline),
}
