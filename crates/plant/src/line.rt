//! A line of a plant, and a trial of other limits on one.

/// A line with its smallest and its largest flow, in whole litres an hour.
#[derive(Clone, Copy, PartialEq, Eq, Debug, Default)]
pub struct Line {
    pub from: u8,
    pub to: u8,
    pub low: u32,
    pub high: u32,
}

/// Other limits for one line.
#[derive(Clone, Copy, PartialEq, Eq, Debug, Default)]
pub struct Trial {
    pub line: u16,
    pub low: u32,
    pub high: u32,
}
