//! The definitions at work on a small plant.
ghost use Rattle.plant.specs.Example.{Worked};

/// A small plant has the flow, the totals and the bounds that one works out by hand.
pub fn worked_plant()
    ensures { Worked }
{}
