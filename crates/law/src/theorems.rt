//! What follows from the law: the contract of each function is a theorem.
ghost use Rattle.law.specs.Promises.{DeclinesExactly, EverySettled, LawPromises, LimitsSame, ReadingsFixed, WideningDerived, WorksAnswered};

/// Every transcript that obeys the law keeps the promise, which speaks of calls and answers alone.
pub fn law_promises()
    ensures { LawPromises }
{}

/// A call declines by a test exactly if that is the first one that fails, and then changes nothing.
pub fn declines_exactly()
    ensures { DeclinesExactly }
{}

/// A question has a flow or a hurdle, one total, one near and one far cut: of what is read only the flow is open.
pub fn readings_fixed()
    ensures { ReadingsFixed }
{}

/// The widening rule follows from how both questions are settled.
pub fn widening_derived()
    ensures { WideningDerived }
{}

/// After any lawful run each accepted work has an answer that the law allows.
pub fn works_answered()
    ensures { WorksAnswered }
{}

/// Each question that passes the tests has a settlement that the law allows.
pub fn every_question_settles()
    ensures { EverySettled }
{}

/// The limits of the law are those that the planner keeps.
pub fn limits_same()
    ensures { LimitsSame }
{}
