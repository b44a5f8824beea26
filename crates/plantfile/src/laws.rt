//! What reader and writer say of each other.
ghost use Rattle.plantfile.specs.Round.{ReadsBack, WritesAgain, WritesInOrder, WrittenReadsBack};

/// A content whose numbers fit their bytes, with at most 64 trials, reads back from its bytes as it was.
pub fn reads_back()
    ensures { ReadsBack }
{}

/// Whatever the writer writes reads back as it was.
pub fn written_reads_back()
    ensures { WrittenReadsBack }
{}

/// A file in the writer's order is what is written of what it reads as.
pub fn writes_again()
    ensures { WritesAgain }
{}

/// The writer keeps its order.
pub fn writes_in_order()
    ensures { WritesInOrder }
{}
