//! The calls of a stage over lines, rows and a chooser of the caller's own.
ghost use Rattle.std.specs.Prelude.{◌≡◌, ◌≤◌, length, map, take};
ghost use Rattle.plant.specs.Held.{arcs, lines_of, plant_of};
ghost use Rattle.preflow.specs.Choosers.{Filled};
ghost use Rattle.preflow.specs.Running.{RanOut};
ghost use Rattle.preflow.specs.Stages.{AnyActive, Light, Stands, Stepped, state};
ghost use Rattle.stage.specs.First.{first_arcs, second_arcs, shifted};
ghost use Rattle.stage.specs.Model.{begin_puts, begun};
ghost use Rattle.stage.specs.Runs.{Tied};
ghost use Rattle.stage.specs.States.{Balanced};

use super::network::{HELD_LINES, Lines};
use super::rows::Rows;
use super::stages::Stage;
use super::{begin, discharge, opening, running};
use arrayvec::ArrayVec;
use chooser::Chooser;
use plant::{HeldLine, HeldPlant};
use stage::Row;

/// The lines of stage one: the plant's, tank to header, and one for each surplus; answers their number.
pub fn open_first(plant: &HeldPlant, held: &mut [HeldLine; HELD_LINES]) -> usize
    ensures lines { arcs (take result held.new) ≡ first_arcs (plant_of plant.now) }
    ensures number { result ≡ length (first_arcs (plant_of plant.now)) }
    ensures few { result ≤ 1251 }
    ensures light { Light (first_arcs (plant_of plant.now)) }
{
    let mut lines: Lines = ArrayVec::new();
    opening::open_first(plant, &mut lines);
    let count = lines.len();
    held[..count].copy_from_slice(lines.as_slice());
    count
}

/// The lines of stage two, with the flow that stage one found; answers their number.
pub fn open_second(plant: &HeldPlant, held: &mut [HeldLine; HELD_LINES]) -> usize
    requires { lines_of (arcs (take (length (plant_of plant.now).lines) held.old)) ≡ map shifted (plant_of plant.now).lines }
    ensures lines { arcs (take result held.new) ≡ second_arcs (plant_of plant.now).lines (arcs (take result held.old)) }
    ensures number { result ≡ length (plant_of plant.now).lines }
    ensures few { result ≤ 1000 }
    ensures light { Light (arcs (take result held.new)) }
{
    let count = plant.lines().len();
    opening::settle_lines(plant, &mut held[..count]);
    count
}

/// Begins a stage over the flow that the lines carry.
pub fn begin_stage<C: Chooser>(
    stage: Stage,
    lines: &mut [HeldLine],
    rows: &mut Rows,
    chooser: &mut C,
)
    requires balanced { Balanced stage.junctions stage.start stage.goal (arcs lines.old) }
    requires light { Light (arcs lines.old) }
    ensures state { state stage.junctions lines.new rows.new ≡ begun stage.junctions stage.start (arcs lines.old) }
    ensures puts { Filled C.Chooser.has C.Chooser.clears C.Chooser.puts chooser.old (begin_puts stage.junctions stage.start stage.goal (take stage.junctions rows.new)) chooser.new }
    ensures stands { Stands stage.junctions stage.start stage.goal (state stage.junctions lines.new rows.new) }
    ensures tied { Tied C.Chooser.has stage.start stage.goal (take stage.junctions rows.new) chooser.new }
{
    let rows = &mut rows[..stage.junctions as usize];
    rows.fill(Row::default());
    begin::begin(stage, lines, rows, chooser);
}

/// Takes a junction and discharges it; answers whether it was relabelled, or None where none is active.
pub fn step<C: Chooser>(
    stage: Stage,
    lines: &mut [HeldLine],
    rows: &mut Rows,
    chooser: &mut C,
) -> Option<bool>
    requires stands { Stands stage.junctions stage.start stage.goal (state stage.junctions lines.old rows.old) }
    requires tied { Tied C.Chooser.has stage.start stage.goal (state stage.junctions lines.old rows.old).rows chooser.old }
    ensures step { Stepped C.Chooser.has C.Chooser.puts C.Chooser.takes stage.junctions stage.start stage.goal (state stage.junctions lines.old rows.old) chooser.old result (state stage.junctions lines.new rows.new) chooser.new }
    ensures stands { Stands stage.junctions stage.start stage.goal (state stage.junctions lines.new rows.new) }
    ensures tied { Tied C.Chooser.has stage.start stage.goal (state stage.junctions lines.new rows.new).rows chooser.new }
{
    discharge::step(stage, lines, &mut rows[..stage.junctions as usize], chooser)
}

/// Makes discharges until there are `most`, or nothing is active; answers how many, and how many of them relabelled.
pub fn run_stage<C: Chooser>(
    stage: Stage,
    lines: &mut [HeldLine],
    rows: &mut Rows,
    chooser: &mut C,
    most: u32,
) -> (u32, u32)
    requires stands { Stands stage.junctions stage.start stage.goal (state stage.junctions lines.old rows.old) }
    requires tied { Tied C.Chooser.has stage.start stage.goal (state stage.junctions lines.old rows.old).rows chooser.old }
    ensures ran { RanOut C.Chooser.has C.Chooser.puts C.Chooser.takes stage.junctions stage.start stage.goal (state stage.junctions lines.old rows.old) chooser.old most result.0 result.1 (state stage.junctions lines.new rows.new) chooser.new }
    ensures few { result.0 ≤ most }
    ensures stands { Stands stage.junctions stage.start stage.goal (state stage.junctions lines.new rows.new) }
    ensures tied { Tied C.Chooser.has stage.start stage.goal (state stage.junctions lines.new rows.new).rows chooser.new }
{
    running::run(
        stage,
        lines,
        &mut rows[..stage.junctions as usize],
        chooser,
        most,
    )
}

/// Whether any junction of the stage is active.
pub fn any_active(stage: Stage, rows: &Rows) -> bool
    ensures { AnyActive stage.start stage.goal (take stage.junctions rows.now) result }
{
    stage.any_active(&rows[..stage.junctions as usize])
}
