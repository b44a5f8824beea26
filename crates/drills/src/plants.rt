//! The plants of the tests.
use plant::Line;
use std::array;

// A line with its limits; a constant may name a macro, and no function.
macro_rules! a_line {
    ($from:expr, $to:expr, $low:expr, $high:expr) => {
        Line {
            from: $from,
            to: $to,
            low: $low,
            high: $high,
        }
    };
}

pub(crate) use a_line;

/// What a planner is asked.
#[derive(Clone, Copy)]
pub struct Question<'a> {
    pub n: u8,
    pub lines: &'a [Line],
    pub aim: u8,
}

/// Has a flow under both aims, and works in both stages.
pub const FOUR: &[Line] = &[
    a_line!(0, 2, 2, 6),
    a_line!(2, 3, 0, 4),
    a_line!(3, 1, 1, 5),
    a_line!(2, 1, 0, 1),
];

/// The same with no low, so that stage one has nothing to do.
pub const FREE: &[Line] = &[
    a_line!(0, 2, 0, 6),
    a_line!(2, 3, 0, 4),
    a_line!(3, 1, 0, 5),
    a_line!(2, 1, 0, 1),
];

/// Asks for more at its second line than its first can bring.
pub const SHORT: &[Line] = &[a_line!(0, 2, 0, 2), a_line!(2, 1, 3, 5)];

/// A loop between two junctions, a dead end, and a line that must carry much.
pub const LOOP: &[Line] = &[
    a_line!(0, 2, 0, 9),
    a_line!(2, 3, 4, 9),
    a_line!(3, 2, 0, 5),
    a_line!(3, 4, 0, 7),
    a_line!(3, 1, 1, 2),
    a_line!(0, 1, 3, 3),
];

/// A loop that no flow enters, and two hurdles of different shortfalls.
pub const APART: &[Line] = &[
    a_line!(0, 2, 0, 1),
    a_line!(2, 1, 4, 8),
    a_line!(3, 4, 2, 2),
    a_line!(4, 3, 0, 1),
    a_line!(0, 1, 0, 1_000_000),
];

/// The plants by table, with their numbers of junctions.
pub const PLANS: &[(u8, &[Line])] = &[
    (2, &[]),
    (250, FOUR),
    (4, FOUR),
    (4, FREE),
    (3, SHORT),
    (5, LOOP),
    (5, APART),
];

/// As many lines as a drawn plant has.
pub const DRAWN: usize = 24;

/// As many junctions as a drawn plant has.
pub const DRAWN_JUNCTIONS: u8 = 9;

// The next of a row of numbers.
fn next(seed: u32) -> u32 {
    seed.wrapping_mul(1_664_525).wrapping_add(1_013_904_223)
}

// A line drawn by a seed; one in eight has a low.
fn drawn_line(seed: u32) -> Line {
    let from = ((seed >> 16) % 9) as u8;
    let to = ((seed >> 24) % 9) as u8;
    let from = if from == 1 { 0 } else { from };
    let to = if to == 0 || to == from { 1 } else { to };
    let low = if seed % 8 == 0 { 1 } else { 0 };
    Line {
        from,
        to,
        low,
        high: low + (seed >> 8) % 16,
    }
}

/// A plant drawn by a seed.
pub fn drawn(seed: u32) -> [Line; DRAWN] {
    let mut seed = seed;
    array::from_fn(|_| {
        seed = next(seed);
        drawn_line(seed)
    })
}
