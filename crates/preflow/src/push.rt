//! Pushes along one line.
ghost use borrow.Author.Differences.{up};
ghost use Rattle.std.specs.Prelude.{◌≡◌, ◌^◌, ◌<◌, ◌≤◌, min, length};
ghost use Rattle.plant.specs.Held.{arc, other, residual, shift};
ghost use Rattle.preflow.specs.Choosers.{Puts};
ghost use Rattle.preflow.specs.Stages.{Roomy, woken};
ghost use Rattle.stage.specs.Model.{amount, lab, moved, put_if, sent, wakes};
ghost use Rattle.stage.specs.Runs.{PutAll};
ghost use Rattle.stage.specs.States.{Bounded, SoundArc};

use super::rows::send;
use super::stages::Stage;
use chooser::Chooser;
use plant::HeldLine;
use stage::Row;

// The smaller of an excess and a residual.
fn smaller(excess: i64, residual: u32) -> u32
    ensures { result ≡ min (up excess) residual }
{
    excess.clamp(0, i64::from(residual)) as u32
}

// How much is due from `v` by a line: nothing but where the label of `v` is that of the other end plus 1. Most lines
// do not touch `v`, so the residual is looked at first.
fn due(held: &HeldLine, rows: &[Row], v: u8) -> u32
    requires line { SoundArc (length rows.now) (arc held.now) }
    requires junction { v < length rows.now }
    requires roomy { Roomy rows.now }
    ensures { result ≡ amount v (arc held.now) rows.now }
{
    let residual = held.residual(v);
    if residual == 0 {
        return 0;
    }
    let w = held.other_end(v);
    if rows[v as usize].label == rows[w as usize].label + 1 {
        smaller(rows[v as usize].excess, residual)
    } else {
        0
    }
}

/// Sends `given` from `v` by a line.
pub fn push(held: &mut HeldLine, rows: &mut [Row], v: u8, given: u32)
    requires line { SoundArc (length rows.old) (arc held.old) }
    requires junction { v < length rows.old }
    requires bounded { Bounded (2 ^ 40) rows.old }
    requires given { given ≤ residual v (arc held.old) }
    ensures line { arc held.new ≡ shift v given (arc held.old) }
    ensures rows { rows.new ≡ sent v (other v (arc held.old)) given rows.old }
{
    let w = held.other_end(v);
    held.shift(v, given);
    send(rows, v, w, given);
}

/// Sends what is due from `v` by a line; answers the other end where that begins to be active.
pub fn push_due(stage: Stage, held: &mut HeldLine, rows: &mut [Row], v: u8) -> Option<u8>
    requires line { SoundArc (length rows.old) (arc held.old) }
    requires junction { v < length rows.old }
    requires roomy { Roomy rows.old }
    ensures line { arc held.new ≡ shift v (amount v (arc held.old) rows.old) (arc held.old) }
    ensures rows { rows.new ≡ moved v (arc held.old) rows.old }
    ensures woken { result ≡ woken stage.start stage.goal v (arc held.old) rows.old }
{
    let given = due(held, rows, v);
    if given == 0 {
        return None;
    }
    let w = held.other_end(v);
    let was_active = stage.is_active(rows, w);
    push(held, rows, v, given);
    if !was_active && stage.is_active(rows, w) {
        Some(w)
    } else {
        None
    }
}

/// Sends what is due from `v` by a line, and puts the other end where that begins to be active.
pub fn push_and_put<C: Chooser>(
    stage: Stage,
    held: &mut HeldLine,
    rows: &mut [Row],
    chooser: &mut C,
    v: u8,
)
    requires line { SoundArc (length rows.old) (arc held.old) }
    requires junction { v < length rows.old }
    requires roomy { Roomy rows.old }
    ensures line { arc held.new ≡ shift v (amount v (arc held.old) rows.old) (arc held.old) }
    ensures rows { rows.new ≡ moved v (arc held.old) rows.old }
    ensures puts { PutAll (Puts C.Chooser.has C.Chooser.puts) chooser.old (put_if (wakes stage.start stage.goal v (arc held.old) rows.old) (other v (arc held.old)) (lab rows.old (other v (arc held.old)))) chooser.new }
{
    if let Some(w) = push_due(stage, held, rows, v) {
        chooser.put(w, rows[w as usize].label);
    }
}
