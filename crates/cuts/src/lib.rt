//! What is known of cuts, best flows and hurdles: the contract of each function is a theorem.
#![tactic(auto)]

ghost use Rattle.cuts.specs.Theorems.{WeakDuality, Equality, BestExactly, NearSmallest, FarLargest, NearFar, NearSame, FarSame, AnyBest, Between, StrongDuality, BestExists, WideningKeeps, Widening, NoCircuit, HurdleTotal, NoFlow, HurdleTotalExactly, HurdleExactly, WorstExists, WorstSame};
ghost use Rattle.cuts.specs.Examples.{Small, Blocked};

/// A feasible flow's total is never better than a cut's bound.
pub fn weak_duality()
    ensures { WeakDuality }
{}

/// A feasible flow's total equals a cut's bound exactly if each line that crosses the cut stands at the limit counted.
pub fn equality()
    ensures { Equality }
{}

/// A feasible flow is best exactly if residuals do not lead from the header to the tank.
pub fn best_exactly()
    ensures { BestExactly }
{}

/// What residuals of a best flow reach from the header is the near cut, and its bound is the total.
pub fn near_smallest()
    ensures { NearSmallest }
{}

/// All from which residuals of a best flow do not reach the tank is the far cut, and its bound is the total.
pub fn far_largest()
    ensures { FarLargest }
{}

/// Where there is a feasible flow there are a near and a far cut.
pub fn near_far()
    ensures { NearFar }
{}

/// There is only one near cut.
pub fn near_same()
    ensures { NearSame }
{}

/// There is only one far cut.
pub fn far_same()
    ensures { FarSame }
{}

/// What residuals reach from the header, and from where they do not reach the tank, is the same for every best flow.
pub fn any_best()
    ensures { AnyBest }
{}

/// Every tightest cut lies between near and far.
pub fn between()
    ensures { Between }
{}

/// Where there is a feasible flow there is a best one, with a cut whose bound is its total.
pub fn strong_duality()
    ensures { StrongDuality }
{}

/// A plant has a best flow exactly if it has a feasible one.
pub fn best_exists()
    ensures { BestExists }
{}

/// A wider limit leaves every feasible flow feasible.
pub fn widening_keeps()
    ensures { WideningKeeps }
{}

/// A wider limit leaves the best total as it is exactly if its line does not lead from the near cut to beyond the far.
pub fn widening()
    ensures { Widening }
{}

/// A set with both header and tank or neither, whose lows leading in exceed its highs leading out, excludes every feasible flow.
pub fn no_circuit()
    ensures { NoCircuit }
{}

/// Under a hurdle every feasible flow has a total below zero.
pub fn hurdle_total()
    ensures { HurdleTotal }
{}

/// Where no line ends at the header, a hurdle excludes every feasible flow.
pub fn no_flow()
    ensures { NoFlow }
{}

/// Every feasible flow has a total below zero exactly if there is a hurdle.
pub fn hurdle_total_exactly()
    ensures { HurdleTotalExactly }
{}

/// Where no line ends at the header, no flow is feasible exactly if there is a hurdle.
pub fn hurdle_exactly()
    ensures { HurdleExactly }
{}

/// Where no flow is feasible there is a smallest hurdle of largest shortfall.
pub fn worst_exists()
    ensures { WorstExists }
{}

/// There is only one smallest hurdle of largest shortfall.
pub fn worst_same()
    ensures { WorstSame }
{}

/// A plant of four junctions with a line that leads backward over its near cut, worked out for both aims.
pub fn small_plant()
    ensures { Small }
{}

/// A plant of three junctions that has a hurdle and no feasible flow.
pub fn blocked_plant()
    ensures { Blocked }
{}
