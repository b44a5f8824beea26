//! What can be read off a settled planner.
ghost use Rattle.std.specs.Prelude.{◌≡◌, ℕ, ◌≤◌, length, take, None};
ghost use Rattle.plant.specs.Held.{arcs, marked};
ghost use Rattle.plant.specs.Plants.{crossing};
ghost use Rattle.plant.specs.Tests.{pass};
ghost use Rattle.planner.specs.Cuts.{CutSet, HurdleSet};
ghost use Rattle.planner.specs.Readings.{CrossingRead, CrossingSeen, CutRead, CutSeen, CutShown, Facts, HurdleRead, HurdleSeen, HurdleShown, PutSet, flow_answer, tallies_answer, test_flow, test_hurdle, total_answer};
ghost use Rattle.planner.specs.Standing.{Sound, WithinLimits};
ghost use Rattle.planner.specs.Views.{view};
ghost use Rattle.reach.specs.Marking.{Marks as JustMarks};

use super::super::answer::{Side, Tally};
use super::{Planner, State};
use arrayvec::ArrayVec;
use chooser::Chooser;
use plant::{Aim, Decline, HeldLine, Line, MAX_LINES, Marks, bound, crosses, shortfall, total_of};
use reach::{Adjacency, Graph, JunctionSet, Reversed, mark_reached, select};

// Marks of the junctions below `n` that the graph reaches from `from`; the marks from `n` on say nothing.
fn reached<G: Graph>(graph: &G, n: u8, from: u8) -> Marks
    ensures { JustMarks (G.edge graph.now) n from result }
{
    let mut marks = [false; 256];
    let mut places = [0u8; 256];
    let _ = mark_reached(graph, n, from, &mut marks, &mut places);
    marks
}

// The near or the far cut: under the least every residual is read reversed.
fn cut_marks(side: Side, aim: Aim, n: u8, lines: &[HeldLine]) -> Marks
    ensures { CutSet side aim n (arcs lines.now) (marked result) }
{
    let graph = Adjacency::residuals(lines);
    let back = Reversed { graph: &graph };
    match (side, aim) {
        (Side::Near, Aim::Greatest) => select(n, &reached(&graph, n, 0), |marked| marked),
        (Side::Near, Aim::Least) => select(n, &reached(&back, n, 0), |marked| marked),
        (Side::Far, Aim::Greatest) => select(n, &reached(&back, n, 1), |marked| !marked),
        (Side::Far, Aim::Least) => select(n, &reached(&graph, n, 1), |marked| !marked),
    }
}

// What residuals reach from the added junction n, without the added junctions.
fn hurdle_marks(n: u8, lines: &[HeldLine]) -> Marks
    requires { n ≤ 250 }
    ensures { HurdleSet n (arcs lines.now) (marked result) }
{
    let graph = Adjacency::residuals(lines);
    select(n, &reached(&graph, n + 2, n), |marked| marked)
}

// The numbers of the lines that lead out of the set, rising.
fn crossing_lines(lines: &[Line], set: &Marks) -> ArrayVec<u16, MAX_LINES>
    requires { length lines.now ≤ 1000 }
    ensures { result.items ≡ crossing (marked set.now) 0 lines.now }
{
    let mut numbers = ArrayVec::new();
    for (k, line) in lines.iter().enumerate() {
        if crosses(line, set) {
            numbers.push(k as u16);
        }
    }
    numbers
}

// A set into the first 32 bytes of a buffer.
fn put_set(set: &JunctionSet, out: &mut [u8]) -> Result<(), Decline>
    ensures { PutSet set.now.bytes (record { before = out.old; answer = result; after = out.new }) }
{
    if out.len() < 32 {
        return Err(Decline::BufferLength);
    }
    out[0..32].copy_from_slice(&set.bytes);
    Ok(())
}

// Whether a flow may be read.
fn expect_flow(state: State) -> Result<(), Decline>
    ensures { result ≡ pass (test_flow state) }
{
    match state {
        State::Idle | State::StageOne | State::StageTwo => Err(Decline::NothingSettled),
        State::SettledImpossible => Err(Decline::NoFlow),
        State::SettledFlow => Ok(()),
    }
}

// Whether a hurdle may be read.
fn expect_hurdle(state: State) -> Result<(), Decline>
    ensures { result ≡ pass (test_hurdle state) }
{
    match state {
        State::Idle | State::StageOne | State::StageTwo => Err(Decline::NothingSettled),
        State::SettledFlow => Err(Decline::NoHurdle),
        State::SettledImpossible => Ok(()),
    }
}

impl<C: Chooser> Planner<C> {
    /// Where the planner stands.
    pub fn state(&self) -> State
        ensures { result ≡ self.now.state }
    {
        self.state
    }

    // The near or the far cut of the flow.
    fn cut_of(&self, side: Side) -> Marks
        ensures residuals { CutSet side (view self.now).aim (view self.now).plant.junctions (view self.now).arcs (marked result) }
        ensures shown { Sound C.Chooser.has self.now → test_flow self.now.state ≡ None → CutShown (view self.now) side (marked result) }
    {
        let n = self.plant.junctions();
        let lines = self.network.lines();
        cut_marks(side, self.plant.aim(), n, lines)
    }

    // What the added junction reaches.
    fn hurdle_of(&self) -> Marks
        ensures residuals { HurdleSet (view self.now).plant.junctions (view self.now).arcs (marked result) }
        ensures shown { Sound C.Chooser.has self.now → test_hurdle self.now.state ≡ None → HurdleShown (view self.now) (marked result) }
    {
        hurdle_marks(self.plant.junctions(), self.network.lines())
    }

    /// The total of the flow.
    pub fn total(&self) -> Result<i64, Decline>
        ensures answer { result ≡ total_answer (view self.now) }
        ensures facts { Sound C.Chooser.has self.now → Facts (view self.now).state (view self.now) }
    {
        expect_flow(self.state)?;
        Ok(total_of(self.network.lines()))
    }

    /// The flow of one line.
    pub fn flow(&self, line: u16) -> Result<u32, Decline>
        ensures answer { result ≡ flow_answer (view self.now) line }
        ensures facts { Sound C.Chooser.has self.now → Facts (view self.now).state (view self.now) }
    {
        expect_flow(self.state)?;
        match self.network.lines().get(line as usize) {
            Some(held) => Ok(held.flow),
            None => Err(Decline::LineNumber),
        }
    }

    /// The near or the far cut into the first 32 bytes of `out`; answers its number of junctions and its bound.
    pub fn cut(&self, side: Side, out: &mut [u8]) -> Result<(u16, i64), Decline>
        ensures read { CutRead (view self.now) side (record { before = out.old; answer = result; after = out.new }) }
        ensures seen { Sound C.Chooser.has self.now → CutSeen (view self.now) side (record { before = out.old; answer = result; after = out.new }) }
    {
        expect_flow(self.state)?;
        let marks = self.cut_of(side);
        let set = JunctionSet::from(&marks);
        put_set(&set, out)?;
        Ok((
            set.len(),
            bound(self.plant.aim(), self.plant.lines(), &marks),
        ))
    }

    /// The numbers of the lines that cross the near or the far cut forward, rising, into the front of `out`; answers
    /// how many.
    pub fn crossing(&self, side: Side, out: &mut [u16]) -> Result<usize, Decline>
        ensures read { CrossingRead (view self.now) side (record { before = out.old; answer = result; after = out.new }) }
        ensures seen { Sound C.Chooser.has self.now → CrossingSeen (view self.now) side (record { before = out.old; answer = result; after = out.new }) }
    {
        expect_flow(self.state)?;
        let marks = self.cut_of(side);
        let numbers = crossing_lines(self.plant.lines(), &marks);
        let count = numbers.len();
        if out.len() < count {
            return Err(Decline::BufferLength);
        }
        out[..count].copy_from_slice(numbers.as_slice());
        Ok(count)
    }

    /// The hurdle into the first 32 bytes of `out`; answers its number of junctions and its shortfall.
    pub fn hurdle(&self, out: &mut [u8]) -> Result<(u16, u64), Decline>
        ensures read { HurdleRead (view self.now) (record { before = out.old; answer = result; after = out.new }) }
        ensures seen { Sound C.Chooser.has self.now → HurdleSeen (view self.now) (record { before = out.old; answer = result; after = out.new }) }
        ensures facts { Sound C.Chooser.has self.now → Facts (view self.now).state (view self.now) }
    {
        expect_hurdle(self.state)?;
        let marks = self.hurdle_of();
        let set = JunctionSet::from(&marks);
        put_set(&set, out)?;
        Ok((set.len(), shortfall(self.plant.lines(), &marks)))
    }

    /// The tallies of stage one and stage two since the last accepted start or trial.
    pub fn tallies(&self) -> (Tally, Tally)
        ensures answer { result ≡ tallies_answer (view self.now) }
        ensures limits { Sound C.Chooser.has self.now → WithinLimits (view self.now).plant result.0 result.1 }
    {
        (self.one, self.two)
    }
}
