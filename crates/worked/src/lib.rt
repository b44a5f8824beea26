//! Worked plants as theorems, in one table.
#![tactic(auto)]

ghost use Rattle.std.specs.Prelude.{◌≡◌, length};
ghost use Rattle.std.specs.List.{AllByRecursion};
ghost use Rattle.worked.specs.Checks.{ChecksTell};
ghost use Rattle.worked.specs.Rows.{Right, TotalAt};
ghost use Rattle.worked.specs.Table.{table};

/// The best total of each row of the table, or none if its plant is impossible.
pub const TOTALS: [Option<i64>; 10] = [
    Some(0),
    Some(0),
    Some(9),
    Some(4),
    Some(0),
    Some(0),
    Some(3),
    Some(5),
    Some(2),
    None,
];

/// A row that passes the computed test is right.
pub fn checks_tell()
    ensures { ChecksTell }
{}

/// Every row of the table is right: its best total, its near and far cut or its worst hurdle, and its trials. Answers the number of rows.
pub fn worked_plants() -> usize
    ensures { AllByRecursion Right table × (result ≡ length table) }
{
    TOTALS.len()
}

/// The best total of a row of the table; none if its plant is impossible or there is no such row.
pub fn worked_total(row: usize) -> Option<i64>
    ensures { TotalAt table row result }
{
    TOTALS.get(row).copied().flatten()
}
