//! Transcripts that obey the law.
ghost use Rattle.transcripts.specs.Obeying.{BObeys, DObeys, HObeys};

/// Plant D: readings, calls declined, and a trial that leaves the total.
pub fn d_obeys()
    ensures { DObeys }
{}

/// Plant H: impossible, and a trial that makes it possible.
pub fn h_obeys()
    ensures { HObeys }
{}

/// Plant B under the least, and a trial with a smaller low.
pub fn b_obeys()
    ensures { BObeys }
{}
