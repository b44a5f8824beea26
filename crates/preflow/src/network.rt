//! The lines, the rows and the chooser of a stage.
ghost use Rattle.std.specs.Prelude.{◌≡◌, ◌≤◌, [], length, map, take};
ghost use Rattle.plant.specs.Held.{arcs, lines_of, plant_of};
ghost use Rattle.preflow.specs.Choosers.{Filled};
ghost use Rattle.preflow.specs.Networks.{state_in};
ghost use Rattle.preflow.specs.Running.{RanOut};
ghost use Rattle.preflow.specs.Stages.{AnyActive, Light, Stands, Stepped};
ghost use Rattle.stage.specs.First.{filled, first_arcs, second_arcs, shifted};
ghost use Rattle.stage.specs.Model.{begin_puts, begun};
ghost use Rattle.stage.specs.Runs.{Tied};
ghost use Rattle.stage.specs.States.{Balanced};

use super::rows::{StageRows, lay_blank};
use super::stages::Stage;
use super::{begin, discharge, opening, running};
use arrayvec::ArrayVec;
use chooser::Chooser;
use plant::{HeldLine, HeldPlant};

/// As many lines as a stage can have: 1,000 of the plant, and those that stage one adds.
pub const HELD_LINES: usize = 1252;

/// The lines of a stage with their flows.
pub type Lines = ArrayVec<HeldLine, HELD_LINES>;

/// What a stage works on: its lines with their flows, a row for each junction, and the chooser of active junctions.
#[derive(Drop)]
pub struct Network<C> {
    lines: Lines,
    rows: StageRows,
    chooser: C,
}

impl<C: Chooser> Network<C> {
    /// No line and no row yet.
    pub fn new(chooser: C) -> Network<C>
        ensures chooser { result.chooser ≡ chooser }
        ensures lines { result.lines.items ≡ [] }
        ensures rows { result.rows.items ≡ [] }
    {
        // Not by `with_lines`: its lines are 20 kB, which would be moved once more.
        Network {
            lines: Lines::new(),
            rows: StageRows::new(),
            chooser,
        }
    }

    /// The lines given, and no row yet.
    pub fn with_lines(lines: Lines, chooser: C) -> Network<C>
        ensures chooser { result.chooser ≡ chooser }
        ensures lines { result.lines ≡ lines }
        ensures rows { result.rows.items ≡ [] }
    {
        Network {
            lines,
            rows: ArrayVec::new(),
            chooser,
        }
    }

    /// The lines with their flows.
    pub fn lines(&self) -> &[HeldLine]
        ensures value { result.now ≡ self.now.lines.items }
        ensures few { length result.now ≤ 1252 }
    {
        self.lines.as_slice()
    }

    /// Holds the lines of stage one, with no flow.
    pub fn open_first(&mut self, plant: &HeldPlant)
        ensures lines { arcs self.new.lines.items ≡ first_arcs (plant_of plant.now) }
        ensures number { length self.new.lines.items ≡ length (first_arcs (plant_of plant.now)) }
        ensures few { length self.new.lines.items ≤ 1251 }
        ensures light { Light (arcs self.new.lines.items) }
        ensures rows { self.new.rows ≡ self.old.rows }
        ensures chooser { self.new.chooser ≡ self.old.chooser }
    {
        opening::open_first(plant, &mut self.lines);
    }

    /// Holds the lines of stage two, with the flow that stage one found.
    pub fn open_second(&mut self, plant: &HeldPlant)
        requires { lines_of (arcs (take (length (plant_of plant.now).lines) self.old.lines.items)) ≡ map shifted (plant_of plant.now).lines }
        ensures lines { arcs self.new.lines.items ≡ second_arcs (plant_of plant.now).lines (arcs self.old.lines.items) }
        ensures number { length self.new.lines.items ≡ length (plant_of plant.now).lines }
        ensures few { length self.new.lines.items ≤ 1000 }
        ensures light { Light (arcs self.new.lines.items) }
        ensures rows { self.new.rows ≡ self.old.rows }
        ensures chooser { self.new.chooser ≡ self.old.chooser }
    {
        opening::open_second(plant, &mut self.lines);
    }

    /// Begins a stage over the flow that the lines carry.
    pub fn begin(&mut self, stage: Stage)
        requires balanced { Balanced stage.junctions stage.start stage.goal (arcs self.old.lines.items) }
        requires light { Light (arcs self.old.lines.items) }
        ensures state { state_in self.new ≡ begun stage.junctions stage.start (arcs self.old.lines.items) }
        ensures puts { Filled C.Chooser.has C.Chooser.clears C.Chooser.puts self.old.chooser (begin_puts stage.junctions stage.start stage.goal self.new.rows.items) self.new.chooser }
        ensures stands { Stands stage.junctions stage.start stage.goal (state_in self.new) }
        ensures tied { Tied C.Chooser.has stage.start stage.goal self.new.rows.items self.new.chooser }
    {
        lay_blank(&mut self.rows, stage.junctions);
        begin::begin(
            stage,
            self.lines.as_mut_slice(),
            self.rows.as_mut_slice(),
            &mut self.chooser,
        );
    }

    /// Takes a junction and discharges it; answers whether it was relabelled, or None where none is active.
    pub fn step(&mut self, stage: Stage) -> Option<bool>
        requires stands { Stands stage.junctions stage.start stage.goal (state_in self.old) }
        requires tied { Tied C.Chooser.has stage.start stage.goal self.old.rows.items self.old.chooser }
        ensures step { Stepped C.Chooser.has C.Chooser.puts C.Chooser.takes stage.junctions stage.start stage.goal (state_in self.old) self.old.chooser result (state_in self.new) self.new.chooser }
        ensures stands { Stands stage.junctions stage.start stage.goal (state_in self.new) }
        ensures tied { Tied C.Chooser.has stage.start stage.goal self.new.rows.items self.new.chooser }
    {
        discharge::step(
            stage,
            self.lines.as_mut_slice(),
            self.rows.as_mut_slice(),
            &mut self.chooser,
        )
    }

    /// Makes discharges until there are `most`, or nothing is active; answers how many, and how many of them relabelled.
    pub fn run(&mut self, stage: Stage, most: u32) -> (u32, u32)
        requires stands { Stands stage.junctions stage.start stage.goal (state_in self.old) }
        requires tied { Tied C.Chooser.has stage.start stage.goal self.old.rows.items self.old.chooser }
        ensures ran { RanOut C.Chooser.has C.Chooser.puts C.Chooser.takes stage.junctions stage.start stage.goal (state_in self.old) self.old.chooser most result.0 result.1 (state_in self.new) self.new.chooser }
        ensures few { result.0 ≤ most }
        ensures stands { Stands stage.junctions stage.start stage.goal (state_in self.new) }
        ensures tied { Tied C.Chooser.has stage.start stage.goal self.new.rows.items self.new.chooser }
    {
        running::run(
            stage,
            self.lines.as_mut_slice(),
            self.rows.as_mut_slice(),
            &mut self.chooser,
            most,
        )
    }

    /// Whether any junction of the stage is active.
    pub fn any_active(&self, stage: Stage) -> bool
        ensures { AnyActive stage.start stage.goal self.now.rows.items result }
    {
        stage.any_active(self.rows.as_slice())
    }

    /// Whether every line that leaves `start` is full.
    pub fn is_filled(&self, start: u8) -> bool
        ensures { result ≡ filled start (arcs self.now.lines.items) }
    {
        opening::is_filled(start, self.lines.as_slice())
    }
}
