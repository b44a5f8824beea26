//! A graph as a table, prepared once.
ghost use Rattle.std.specs.Prelude.{◌≡◌, ℕ, Bool, true, false, ◌&&◌, ◌||◌, List, ◌==◌};
ghost use Rattle.plant.specs.Held.{arc, arcs};
ghost use Rattle.reach.specs.Drawn.{drawn, opens, residual_edge, tabled};

use super::graph::Graph;
use plant::{HeldLine, Line, Marks};

/// For each junction a row of marks, one for each junction that it leads straight to.
#[derive(Drop)]
pub struct Adjacency {
    rows: [Marks; 256],
}

impl Adjacency {
    /// No junction leads to another.
    pub fn new() -> Adjacency
        ensures { (v w : ℕ) → tabled result.rows v w ≡ false }
    {
        Adjacency {
            rows: [[false; 256]; 256],
        }
    }

    /// From now on `v` leads straight to `w`; all other edges stay.
    pub fn join(&mut self, v: u8, w: u8)
        ensures { (x y : ℕ) → tabled self.new.rows x y ≡ ((v == x && w == y) || tabled self.old.rows x y) }
    {
        let row = &mut self.rows[v as usize];
        row[w as usize] = true;
    }

    /// The lines of a list as drawn.
    pub fn drawn(lines: &[Line]) -> Adjacency
        ensures { (v w : ℕ) → tabled result.rows v w ≡ drawn lines.now v w }
    {
        let mut graph = Adjacency::new();
        for line in lines {
            graph.join(line.from, line.to);
        }
        graph
    }

    // The residuals of one line, in either direction.
    fn join_residuals(&mut self, held: &HeldLine)
        ensures { (v w : ℕ) → tabled self.new.rows v w ≡ (opens (arc held.now) v w || tabled self.old.rows v w) }
    {
        let Line {
            from,
            to,
            low: _,
            high: _,
        } = held.line;
        if held.residual(from) > 0 {
            self.join(from, to);
        }
        if held.residual(to) > 0 {
            self.join(to, from);
        }
    }

    /// The residuals of held lines.
    pub fn residuals(lines: &[HeldLine]) -> Adjacency
        ensures { (v w : ℕ) → tabled result.rows v w ≡ residual_edge (arcs lines.now) v w }
    {
        let mut graph = Adjacency::new();
        for held in lines {
            graph.join_residuals(held);
        }
        graph
    }
}

impl Graph for Adjacency {
    ghost edge = { λ s v w. tabled s.rows v w };

    fn leads(&self, v: u8, w: u8) -> bool {
        self.rows[v as usize][w as usize]
    }
}
