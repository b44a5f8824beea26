//! How the end of stage one over a plant is read: the contract of each function is a theorem.
#![tactic(auto)]

ghost use Rattle.first.specs.Theorems.{FirstBegins, FirstCount, FirstFeasible, SecondBegins, FirstBlocked, FirstExactly};

/// Over a sound plant the empty flow of stage one is balanced, so that the stage may begin.
pub fn first_begins()
    ensures { FirstBegins }
{}

/// Stage one has a line for each line of the plant, one back, and one for each uneven junction, and no high is beyond the sum of the plant's.
pub fn first_count()
    ensures { FirstCount }
{}

/// A balanced flow of stage one gives numbers within the plant's limits, and where every line from the start is full they are feasible.
pub fn first_feasible()
    ensures { FirstFeasible }
{}

/// There stage two may begin, either way.
pub fn second_begins()
    ensures { SecondBegins }
{}

/// Where stage one has ended and a line from the start is not full, no flow is feasible if no line ends at the header, and what residuals reach from the start is the smallest hurdle of largest shortfall.
pub fn first_blocked()
    ensures { FirstBlocked }
{}

/// Where no line ends at the header, stage one ends with every line from the start full exactly if a flow is feasible.
pub fn first_exactly()
    ensures { FirstExactly }
{}
