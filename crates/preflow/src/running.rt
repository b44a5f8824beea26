//! A run of discharges within one stage.
ghost use Rattle.std.specs.Prelude.{◌≤◌};
ghost use Rattle.preflow.specs.Running.{RanOut};
ghost use Rattle.preflow.specs.Stages.{Stands, state_of};
ghost use Rattle.stage.specs.Runs.{Tied};

use super::discharge::step;
use super::stages::Stage;
use chooser::Chooser;
use plant::HeldLine;
use stage::Row;

/// Makes discharges until there are `most`, or nothing is active; answers how many, and how many of them relabelled.
pub fn run<C: Chooser>(
    stage: Stage,
    lines: &mut [HeldLine],
    rows: &mut [Row],
    chooser: &mut C,
    most: u32,
) -> (u32, u32)
    requires stands { Stands stage.junctions stage.start stage.goal (state_of lines.old rows.old) }
    requires tied { Tied C.Chooser.has stage.start stage.goal rows.old chooser.old }
    ensures ran { RanOut C.Chooser.has C.Chooser.puts C.Chooser.takes stage.junctions stage.start stage.goal (state_of lines.old rows.old) chooser.old most result.0 result.1 (state_of lines.new rows.new) chooser.new }
    ensures few { result.0 ≤ most }
    ensures stands { Stands stage.junctions stage.start stage.goal (state_of lines.new rows.new) }
    ensures tied { Tied C.Chooser.has stage.start stage.goal rows.new chooser.new }
{
    let mut relabels = 0;
    for made in 0..most {
        let Some(relabelled) = step(stage, lines, rows, chooser) else {
            return (made, relabels);
        };
        relabels += u32::from(relabelled);
    }
    (most, relabels)
}
