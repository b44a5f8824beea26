//! How a stage begins.
ghost use Rattle.std.specs.Prelude.{◌≡◌, length, replicate};
ghost use Rattle.plant.specs.Held.{arcs};
ghost use Rattle.preflow.specs.Choosers.{Filled, Puts};
ghost use Rattle.preflow.specs.Stages.{Light, Stands, state_of};
ghost use Rattle.stage.specs.Model.{begin_puts, begun, begun_arcs, begun_rows, first_rows, row0};
ghost use Rattle.stage.specs.Runs.{PutAll, Tied};
ghost use Rattle.stage.specs.States.{Balanced, SoundArc};
ghost use Rattle.std.specs.List.{AllByRecursion};

use super::push::push;
use super::rows::{relabel, send};
use super::stages::Stage;
use chooser::Chooser;
use plant::HeldLine;
use stage::Row;

// Label N at the start and 0 elsewhere; the excess of each junction is that of the flow.
fn first_rows(stage: Stage, lines: &[HeldLine], rows: &mut [Row])
    requires sound { AllByRecursion (SoundArc stage.junctions) (arcs lines.now) }
    requires light { Light (arcs lines.now) }
    requires blank { rows.old ≡ replicate stage.junctions row0 }
    ensures { rows.new ≡ first_rows stage.junctions stage.start (arcs lines.now) }
{
    relabel(rows, stage.start, u32::from(stage.junctions));
    for held in lines {
        send(rows, held.line.from, held.line.to, held.flow);
    }
}

// Pushes the whole of every residual out of the start.
fn push_all(stage: Stage, lines: &mut [HeldLine], rows: &mut [Row])
    requires balanced { Balanced stage.junctions stage.start stage.goal (arcs lines.old) }
    requires light { Light (arcs lines.old) }
    requires first { rows.old ≡ first_rows stage.junctions stage.start (arcs lines.old) }
    ensures lines { arcs lines.new ≡ begun_arcs stage.start (arcs lines.old) rows.old }
    ensures rows { rows.new ≡ begun_rows stage.start (arcs lines.old) rows.old }
{
    for held in lines.iter_mut() {
        let whole = held.residual(stage.start);
        push(held, rows, stage.start, whole);
    }
}

// Puts the active junctions in rising order.
fn put_active<C: Chooser>(stage: Stage, rows: &[Row], chooser: &mut C)
    requires { length rows.now ≡ stage.junctions }
    ensures { PutAll (Puts C.Chooser.has C.Chooser.puts) chooser.old (begin_puts stage.junctions stage.start stage.goal rows.now) chooser.new }
{
    // Over the numbers and not the rows: the chooser takes numbers.
    for v in 0..stage.junctions {
        if stage.is_active(rows, v) {
            chooser.put(v, rows[v as usize].label);
        }
    }
}

// The first rows, and then the pushes out of the start.
fn begin_rows(stage: Stage, lines: &mut [HeldLine], rows: &mut [Row])
    requires balanced { Balanced stage.junctions stage.start stage.goal (arcs lines.old) }
    requires light { Light (arcs lines.old) }
    requires blank { rows.old ≡ replicate stage.junctions row0 }
    ensures lines { arcs lines.new ≡ (begun stage.junctions stage.start (arcs lines.old)).arcs }
    ensures rows { rows.new ≡ (begun stage.junctions stage.start (arcs lines.old)).rows }
{
    first_rows(stage, lines, rows);
    push_all(stage, lines, rows);
}

/// Begins a stage over the flow that the lines carry; the rows are blank before, one for each junction.
pub fn begin<C: Chooser>(stage: Stage, lines: &mut [HeldLine], rows: &mut [Row], chooser: &mut C)
    requires balanced { Balanced stage.junctions stage.start stage.goal (arcs lines.old) }
    requires light { Light (arcs lines.old) }
    requires blank { rows.old ≡ replicate stage.junctions row0 }
    ensures state { state_of lines.new rows.new ≡ begun stage.junctions stage.start (arcs lines.old) }
    ensures puts { Filled C.Chooser.has C.Chooser.clears C.Chooser.puts chooser.old (begin_puts stage.junctions stage.start stage.goal rows.new) chooser.new }
    ensures stands { Stands stage.junctions stage.start stage.goal (state_of lines.new rows.new) }
    ensures tied { Tied C.Chooser.has stage.start stage.goal rows.new chooser.new }
{
    begin_rows(stage, lines, rows);
    chooser.clear();
    put_active(stage, rows, chooser);
}
