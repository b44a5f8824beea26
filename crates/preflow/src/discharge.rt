//! A discharge: one junction sends its excess on, and is relabelled where some is left.
ghost use Rattle.std.specs.Prelude.{◌≡◌, true, length};
ghost use Rattle.plant.specs.Held.{arc, arcs};
ghost use Rattle.preflow.specs.Choosers.{Puts};
ghost use Rattle.preflow.specs.Stages.{Stands, Stepped, state_of};
ghost use Rattle.stage.specs.Model.{active, discharge_puts, discharged_arcs, discharged_rows, lower, lowest, scan_arcs, scan_puts, scan_rows, unspent};
ghost use Rattle.stage.specs.Runs.{PutAll, Tied};
ghost use Rattle.stage.specs.States.{SoundArc};
ghost use Rattle.std.specs.List.{AllByRecursion};

use super::push::push_and_put;
use super::rows::relabel;
use super::stages::Stage;
use chooser::Chooser;
use plant::HeldLine;
use stage::Row;

// The pushes of a discharge of `v`, over its lines in rising number, until its excess is zero.
fn scan<C: Chooser>(stage: Stage, lines: &mut [HeldLine], rows: &mut [Row], chooser: &mut C, v: u8)
    requires stands { Stands stage.junctions stage.start stage.goal (state_of lines.old rows.old) }
    requires active { active stage.start stage.goal rows.old v ≡ true }
    ensures lines { arcs lines.new ≡ scan_arcs v (arcs lines.old) rows.old }
    ensures rows { rows.new ≡ scan_rows v (arcs lines.old) rows.old }
    ensures puts { PutAll (Puts C.Chooser.has C.Chooser.puts) chooser.old (scan_puts stage.start stage.goal v (arcs lines.old) rows.old) chooser.new }
{
    for held in lines.iter_mut() {
        // Most lines do not touch `v`: they are passed over before anything else is looked at.
        if held.residual(v) == 0 {
            continue;
        }
        if rows[v as usize].excess <= 0 {
            break;
        }
        push_and_put(stage, held, rows, chooser, v);
    }
}

// The smaller of `best` and the label that a residual leads to from `v` by this line.
fn lower(held: &HeldLine, rows: &[Row], v: u8, best: u32) -> u32
    requires { SoundArc (length rows.now) (arc held.now) }
    ensures { result ≡ lower v (arc held.now) rows.now best }
{
    if held.residual(v) == 0 {
        return best;
    }
    let w = held.other_end(v);
    rows[w as usize].label.min(best)
}

// The smallest of `most` and the labels that residuals lead to from `v`.
fn lowest(lines: &[HeldLine], rows: &[Row], v: u8, most: u32) -> u32
    requires { AllByRecursion (SoundArc (length rows.now)) (arcs lines.now) }
    ensures { result ≡ lowest v (arcs lines.now) rows.now most }
{
    // A loop and no fold: `lower` asks for a sound line, which a closure cannot ask of the items alone.
    let mut best = most;
    for held in lines {
        best = lower(held, rows, v, best);
    }
    best
}

/// Discharges `v`; answers whether it was relabelled.
pub fn discharge_junction<C: Chooser>(
    stage: Stage,
    lines: &mut [HeldLine],
    rows: &mut [Row],
    chooser: &mut C,
    v: u8,
) -> bool
    requires stands { Stands stage.junctions stage.start stage.goal (state_of lines.old rows.old) }
    requires active { active stage.start stage.goal rows.old v ≡ true }
    ensures lines { arcs lines.new ≡ discharged_arcs v (arcs lines.old) rows.old }
    ensures rows { rows.new ≡ discharged_rows stage.junctions v (arcs lines.old) rows.old }
    ensures answer { result ≡ unspent v (arcs lines.old) rows.old }
    ensures puts { PutAll (Puts C.Chooser.has C.Chooser.puts) chooser.old (discharge_puts stage.junctions stage.start stage.goal v (arcs lines.old) rows.old) chooser.new }
{
    scan(stage, lines, rows, chooser, v);
    if rows[v as usize].excess <= 0 {
        return false;
    }
    let label = lowest(lines, rows, v, 2 * u32::from(stage.junctions)) + 1;
    relabel(rows, v, label);
    chooser.put(v, label);
    true
}

/// Takes a junction and discharges it; answers whether it was relabelled, or None where none is active.
pub fn step<C: Chooser>(
    stage: Stage,
    lines: &mut [HeldLine],
    rows: &mut [Row],
    chooser: &mut C,
) -> Option<bool>
    requires stands { Stands stage.junctions stage.start stage.goal (state_of lines.old rows.old) }
    requires tied { Tied C.Chooser.has stage.start stage.goal rows.old chooser.old }
    ensures step { Stepped C.Chooser.has C.Chooser.puts C.Chooser.takes stage.junctions stage.start stage.goal (state_of lines.old rows.old) chooser.old result (state_of lines.new rows.new) chooser.new }
    ensures stands { Stands stage.junctions stage.start stage.goal (state_of lines.new rows.new) }
    ensures tied { Tied C.Chooser.has stage.start stage.goal rows.new chooser.new }
{
    let v = chooser.take()?;
    Some(discharge_junction(stage, lines, rows, chooser, v))
}
