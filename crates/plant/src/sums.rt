//! Sums over the lines of a plant.
ghost use Rattle.std.specs.Prelude.{◌≡◌, ◌==◌, ◌^◌, ◌<◌, ◌≤◌, cond, length, ℤ, pos, neg_ℤ, ◌≤ℤ◌, sum_by};
ghost use Rattle.std.specs.Fn.{FnReturnsAt};
ghost use Rattle.plant.specs.Held.{arc, arcs, flows_of, lines_of, marked};
ghost use Rattle.plant.specs.Plants.{backward, bound_over, every, forward, high_of, leads_out, list_total, shortfall_over, summed, surplus};
ghost use Rattle.plant.specs.Shares.{added, at_header, at_junction, Small, share, Tells};

use super::aim::Aim;
use super::held::HeldLine;
use super::line::Line;

/// A set of junctions, a mark for each number that a byte can hold.
pub type Marks = [bool; 256];

// Adds up what each item of a list gives.
fn sum_of<T, F: Fn(&T) -> i64>(items: &[T], gives: F) -> i64
    requires few { length items.now ≤ 65536 }
    requires callable { F.IsAlwaysCallable gives }
    requires small { (x : T) (z : ℤ) → FnReturnsAt F.Fn gives x z → Small z }
    ensures { (g : T → ℤ) → Tells (FnReturnsAt F.Fn gives) g → result ≡ added g items.now }
{
    let mut sum: i64 = 0;
    for item in items {
        sum += gives(item);
    }
    sum
}

/// Whether the line leads out of the set.
pub fn crosses(line: &Line, set: &Marks) -> bool
    ensures { result ≡ leads_out (marked set.now) line.now }
{
    set[line.from as usize] && !set[line.to as usize]
}

// The limits that count of a line that leads out and of one that leads in.
fn counted_limits(aim: Aim, line: &Line) -> (u32, u32)
    ensures { result ≡ (forward aim line.now, backward aim line.now) }
{
    match aim {
        Aim::Greatest => (line.high, line.low),
        Aim::Least => (line.low, line.high),
    }
}

// What the line adds to the bound of the set.
fn bound_share(aim: Aim, line: &Line, set: &Marks) -> i64
    ensures value { result ≡ share aim (marked set.now) line.now }
    ensures small { Small result }
{
    let (forward, backward) = counted_limits(aim, line);
    match (set[line.from as usize], set[line.to as usize]) {
        (true, false) => i64::from(forward),
        (false, true) => -i64::from(backward),
        _ => 0,
    }
}

/// The bound of a set: under the greatest the highs that lead out less the lows that lead in, under the least the
/// lows that lead out less the highs that lead in.
pub fn bound(aim: Aim, lines: &[Line], set: &Marks) -> i64
    requires { length lines.now ≤ 1000 }
    ensures { result ≡ bound_over aim lines.now (marked set.now) }
{
    sum_of(lines, |line| bound_share(aim, line, set))
}

/// The shortfall of a set: by how much the lows that lead in exceed the highs that lead out.
pub fn shortfall(lines: &[Line], set: &Marks) -> u64
    requires { length lines.now ≤ 1000 }
    ensures { result ≡ shortfall_over lines.now (marked set.now) }
{
    bound(Aim::Greatest, lines, set).min(0).unsigned_abs()
}

// What the line brings to a junction and what it takes from it, where it carries `amount`.
fn brought_and_taken(line: &Line, v: u8, amount: u32) -> (i64, i64)
    ensures brought { result.0 ≡ pos (cond (line.now.to == v) amount 0) }
    ensures taken { result.1 ≡ pos (cond (line.now.from == v) amount 0) }
{
    let at_end = |end| if end == v { i64::from(amount) } else { 0 };
    (at_end(line.to), at_end(line.from))
}

// What the line adds to the surplus of a junction.
fn surplus_share(line: &Line, v: u8) -> i64
    ensures value { result ≡ at_junction v line.now }
    ensures small { Small result }
{
    let (brought, taken) = brought_and_taken(line, v, line.low);
    brought - taken
}

/// The lows that lead into a junction less the lows that lead out.
pub fn surplus_at(lines: &[Line], v: u8) -> i64
    requires { length lines.now ≤ 1000 }
    ensures { result ≡ surplus lines.now v }
{
    sum_of(lines, |line| surplus_share(line, v))
}

// What the line adds to the total.
fn total_share(held: &HeldLine) -> i64
    ensures value { result ≡ at_header (arc held.now) }
    ensures small { Small result }
{
    let (brought, taken) = brought_and_taken(&held.line, 0, held.flow);
    taken - brought
}

/// The total of the flow: what leaves the header less what enters it.
pub fn total_of(lines: &[HeldLine]) -> i64
    requires { length lines.now ≤ 65536 }
    ensures { result ≡ list_total (lines_of (arcs lines.now)) (flows_of (arcs lines.now)) }
{
    sum_of(lines, total_share)
}

/// The sum of all highs.
pub fn sum_of_highs(lines: &[Line]) -> u64
    requires { length lines.now ≤ 1000 }
    ensures { result ≡ summed every high_of lines.now }
{
    lines.iter().map(|line| u64::from(line.high)).sum()
}
