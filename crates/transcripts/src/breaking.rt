//! Transcripts that do not obey the law.
ghost use Rattle.transcripts.specs.Breaking.{NotADeclineThatResets, NotAReadingWhileIdle, NotAStartThatDeclines, NotATotalThatStays, NotAWorkOfNone, NotAllImpossible, NotAnotherShortfall, NotForEver, NotOneCutTwice, NotTheLows, NotUntouched, TalliesMade};

/// The near cut shown as the far one.
pub fn not_one_cut_twice()
    ensures { NotOneCutTwice }
{}

/// The lows shown as the flow.
pub fn not_the_lows()
    ensures { NotTheLows }
{}

/// A possible plant settled as impossible.
pub fn not_all_impossible()
    ensures { NotAllImpossible }
{}

/// A start declined that passes the tests.
pub fn not_a_start_that_declines()
    ensures { NotAStartThatDeclines }
{}

/// A reading accepted with nothing settled.
pub fn not_a_reading_while_idle()
    ensures { NotAReadingWhileIdle }
{}

/// A total kept that widening must change.
pub fn not_a_total_that_stays()
    ensures { NotATotalThatStays }
{}

/// A work of no discharges accepted.
pub fn not_a_work_of_none()
    ensures { NotAWorkOfNone }
{}

/// Works enough for both stages, and still in work.
pub fn not_for_ever()
    ensures { NotForEver }
{}

/// Still in work, with fewer discharges made than asked for.
pub fn not_untouched()
    ensures { NotUntouched }
{}

/// A declined start that forgets the question before it.
pub fn not_a_decline_that_resets()
    ensures { NotADeclineThatResets }
{}

/// Of plant H no other shortfall is told.
pub fn not_another_shortfall()
    ensures { NotAnotherShortfall }
{}

/// The tallies read after a work add up to what it made.
pub fn tallies_made()
    ensures { TalliesMade }
{}
