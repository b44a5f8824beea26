//! The lines of each stage.
ghost use borrow.Author.Differences.{down, up};
ghost use Rattle.std.specs.Prelude.{◌≡◌, ℕ, ◌+◌, ◌-◌, ◌^◌, ◌<◌, ◌≤◌, ◌++◌, map, length, take, ◌≢◌, slice_index_or};
ghost use Rattle.plant.specs.Fine.{Fine};
ghost use Rattle.plant.specs.Held.{arc, arcs, lines_of, plant_of};
ghost use Rattle.plant.specs.Plants.{no_line};
ghost use Rattle.preflow.specs.Networks.{arc_if, line_for};
ghost use Rattle.preflow.specs.Stages.{Light};
ghost use Rattle.stage.specs.First.{added_line, empty_arc, filled, first_arcs, second_arcs, shifted, surplus_lines};

use super::network::Lines;
use plant::{HeldLine, HeldPlant, Line, sum_of_highs, surplus_at};

// A plant's line in stage one: low 0, and what lies between low and high; no flow yet.
fn shifted(line: Line) -> HeldLine
    requires { Fine 250 line }
    ensures { arc result ≡ empty_arc (shifted line) }
{
    let line = Line {
        low: 0,
        high: line.high - line.low,
        ..line
    };
    HeldLine { line, flow: 0 }
}

// The plant's lines in stage one, after those that are held.
fn push_shifted(plant: &HeldPlant, held: &mut Lines)
    requires { length held.old.items ≤ 252 }
    ensures { arcs held.new.items ≡ arcs held.old.items ++ map empty_arc (map shifted (plant_of plant.now).lines) }
{
    for line in plant.lines() {
        held.push(shifted(*line));
    }
}

// An added line with no flow.
fn added(from: u8, to: u8, high: u32) -> HeldLine
    requires ends { (from < 252) × (to < 252) }
    requires apart { from ≢ to }
    ensures { arc result ≡ empty_arc (added_line from to high) }
{
    let line = Line {
        from,
        to,
        low: 0,
        high,
    };
    HeldLine { line, flow: 0 }
}

// The line that stage one adds for a junction: from n for a surplus above zero, to n + 1 for one below zero.
fn surplus_line(n: u8, v: u8, surplus: i64) -> Option<HeldLine>
    requires junction { (v < n) × (n ≤ 250) }
    requires surplus { (up surplus < 2 ^ 32) × (down surplus < 2 ^ 32) }
    ensures { arc_if result ≡ map empty_arc (line_for n v surplus) }
{
    let high = surplus.unsigned_abs() as u32;
    if surplus > 0 {
        Some(added(n, v, high))
    } else if surplus < 0 {
        Some(added(v, n + 1, high))
    } else {
        None
    }
}

// The lines of the junctions' surpluses, after those that are held.
fn push_surpluses(plant: &HeldPlant, held: &mut Lines)
    requires { length held.old.items ≤ 1001 }
    ensures lines { arcs held.new.items ≡ arcs held.old.items ++ map empty_arc (surplus_lines plant.now.n (plant_of plant.now).lines plant.now.n) }
    ensures few { length held.new.items ≤ length held.old.items + plant.now.n }
{
    let n = plant.junctions();
    // Over the numbers: the junctions of a plant are nothing else.
    for v in 0..n {
        if let Some(line) = surplus_line(n, v, surplus_at(plant.lines(), v)) {
            held.push(line);
        }
    }
}

/// The lines of stage one: the plant's, tank to header, and one for each surplus.
pub fn open_first(plant: &HeldPlant, held: &mut Lines)
    ensures lines { arcs held.new.items ≡ first_arcs (plant_of plant.now) }
    ensures number { length held.new.items ≡ length (first_arcs (plant_of plant.now)) }
    ensures few { length held.new.items ≤ 1251 }
    ensures light { Light (arcs held.new.items) }
{
    held.clear();
    push_shifted(plant, held);
    held.push(added(1, 0, sum_of_highs(plant.lines()) as u32));
    push_surpluses(plant, held);
}

// A plant's line in stage two, with the flow that stage one found above its low.
fn settled(line: Line, found: u32) -> HeldLine
    requires { (Fine 250 line) × (found ≤ line.high - line.low) }
    ensures { arc result ≡ record { line = line; flow = line.low + found } }
{
    HeldLine {
        line,
        flow: line.low + found,
    }
}

/// The plant's lines in stage two.
pub fn settle_lines(plant: &HeldPlant, held: &mut [HeldLine])
    requires { lines_of (arcs held.old) ≡ map shifted (plant_of plant.now).lines }
    ensures { arcs held.new ≡ second_arcs (plant_of plant.now).lines (arcs held.old) }
{
    for (k, line) in plant.lines().iter().enumerate() {
        held[k] = settled(*line, held[k].flow);
    }
}

/// The lines of stage two, with the flow that stage one found.
pub fn open_second(plant: &HeldPlant, held: &mut Lines)
    requires { lines_of (arcs (take (length (plant_of plant.now).lines) held.old.items)) ≡ map shifted (plant_of plant.now).lines }
    ensures lines { arcs held.new.items ≡ second_arcs (plant_of plant.now).lines (arcs held.old.items) }
    ensures number { length held.new.items ≡ length (plant_of plant.now).lines }
    ensures few { length held.new.items ≤ 1000 }
    ensures light { Light (arcs held.new.items) }
{
    held.truncate(plant.lines().len());
    settle_lines(plant, held.as_mut_slice());
}

/// Whether every line that leaves `start` is full.
pub fn is_filled(start: u8, lines: &[HeldLine]) -> bool
    ensures { result ≡ filled start (arcs lines.now) }
{
    lines.iter().all(|held| held.line.from != start || held.flow >= held.line.high)
}
