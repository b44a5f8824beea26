//! A line with the flow that it carries.
ghost use Rattle.std.specs.Prelude.{◌≡◌, ◌<◌, ◌≤◌, ◌≢◌};

use super::line::Line;

pub mod calls;

/// A line that is held with its flow: the flow keeps the limits, and the ends are two junctions of a stage.
#[derive(Clone, Copy, Debug)]
pub struct HeldLine {
    pub line: Line,
    pub flow: u32,
    ghost within: { (line.low ≤ flow) × (flow ≤ line.high) },
    ghost inside: { (line.from < 252) × (line.to < 252) },
    ghost apart: { line.from ≢ line.to },
}
