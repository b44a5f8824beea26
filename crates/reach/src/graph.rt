//! Graphs over junctions.
ghost use Rattle.std.specs.Prelude.{◌≡◌, ℕ, Bool};

/// Tells whether one junction leads straight to another.
pub trait Graph {
    ghost edge: { Self → ℕ → ℕ → Bool };

    /// Whether `v` leads straight to `w`.
    fn leads(&self, v: u8, w: u8) -> bool
        ensures { result ≡ edge self.now v w };
}

/// Any graph read backward.
#[derive(Drop)]
pub struct Reversed<'a, G> {
    pub graph: &'a G,
}

impl<G: Graph> Graph for Reversed<'_, G> {
    ghost edge = { λ s v w. G.edge s.graph.now w v };

    fn leads(&self, v: u8, w: u8) -> bool {
        self.graph.leads(w, v)
    }
}
