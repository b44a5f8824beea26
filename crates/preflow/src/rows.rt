//! The table of rows.
ghost use Rattle.std.specs.Prelude.{◌≡◌, ◌^◌, ◌<◌, ◌≤◌, length, replicate, pos, neg_ℤ, ◌≤ℤ◌, ◌≢◌};
ghost use Rattle.stage.specs.Model.{grown, labelled, row0, sent};
ghost use Rattle.stage.specs.States.{Bounded};

use arrayvec::ArrayVec;
use stage::Row;

/// As many rows as a stage can have junctions: 250 of the plant, and the two that stage one adds.
pub const ROWS: usize = 252;

/// One row for each junction.
pub type Rows = [Row; ROWS];

/// One row for each junction of a stage, and no more.
pub type StageRows = ArrayVec<Row, ROWS>;

// The excess of a row grows by `amount`.
fn grow(row: &mut Row, amount: i64)
    requires excess { (neg_ℤ (pos (2 ^ 50)) ≤ℤ row.old.excess) × (row.old.excess ≤ℤ pos (2 ^ 50)) }
    requires amount { (neg_ℤ (pos (2 ^ 32)) ≤ℤ amount) × (amount ≤ℤ pos (2 ^ 32)) }
    ensures { row.new ≡ grown amount row.old }
{
    row.excess += amount;
}

// A row is given a label.
fn set_label(row: &mut Row, label: u32)
    ensures { row.new ≡ record { excess = row.old.excess; label = label } }
{
    row.label = label;
}

/// Junction `v` is given a label.
pub fn relabel(rows: &mut [Row], v: u8, label: u32)
    requires { v < length rows.old }
    ensures { rows.new ≡ labelled v label rows.old }
{
    set_label(&mut rows[v as usize], label);
}

/// Excess goes from the row of `v` to the row of `w`.
pub fn send(rows: &mut [Row], v: u8, w: u8, amount: u32)
    requires from { v < length rows.old }
    requires to { w < length rows.old }
    requires apart { v ≢ w }
    requires bounded { Bounded (2 ^ 40) rows.old }
    ensures { rows.new ≡ sent v w amount rows.old }
{
    let amount = i64::from(amount);
    grow(&mut rows[v as usize], -amount);
    grow(&mut rows[w as usize], amount);
}

/// As many blank rows as there are junctions.
pub fn lay_blank(rows: &mut StageRows, junctions: u8)
    requires { junctions ≤ 252 }
    ensures { rows.new.items ≡ replicate junctions row0 }
{
    rows.clear();
    for _ in 0..junctions {
        rows.push(Row::default());
    }
}
