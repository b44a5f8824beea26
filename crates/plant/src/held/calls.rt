//! What a held line leaves open, and how its flow changes.
ghost use Rattle.std.specs.Prelude.{◌≡◌, ◌≤◌};
ghost use Rattle.plant.specs.Held.{arc, other, residual, shift};

use super::super::line::Line;
use super::HeldLine;

/// Fills a place that holds no line yet: from the header to the tank, where nothing can go.
impl Default for HeldLine {
    ghost is_default = { λ h. arc h ≡ record { line = record { from = 0; to = 1; low = 0; high = 0 }; flow = 0 } };

    fn default() -> HeldLine {
        let line = Line {
            to: 1,
            ..Line::default()
        };
        HeldLine { line, flow: 0 }
    }
}

impl HeldLine {
    /// How much more can go from `v` by this line: up to its high if it leaves `v`, back to its low if it ends there.
    pub fn residual(&self, v: u8) -> u32
        ensures { result ≡ residual v (arc self.now) }
    {
        if self.line.from == v {
            self.line.high - self.flow
        } else if self.line.to == v {
            self.flow - self.line.low
        } else {
            0
        }
    }

    /// The end that is not `v`.
    pub fn other_end(&self, v: u8) -> u8
        ensures { result ≡ other v (arc self.now) }
    {
        if self.line.from == v {
            self.line.to
        } else {
            self.line.from
        }
    }

    /// Sends `amount` from `v` by this line.
    pub fn shift(&mut self, v: u8, amount: u32)
        requires { amount ≤ residual v (arc self.old) }
        ensures { arc self.new ≡ shift v amount (arc self.old) }
    {
        let line = self.line;
        if line.from == v {
            self.flow += amount;
        } else {
            self.flow -= amount;
        }
    }
}
