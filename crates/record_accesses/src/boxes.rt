//! What holds of the boxes of reads. The law is a function with nothing to do, whose contract is the law.
ghost use Rattle.record_accesses.specs.Marks.{MarksOverlappedReads, MarksOverlappedReadsOfRuns};

/// In every record in which each process reads its own copies while it has no write open, columns mark the box of an open read
/// as overlapped exactly if a write overlaps the read by the safe rule (Lamport 1986a). The record of every list of events is
/// such a record.
pub fn boxes_show_overlapped_reads()
    ensures records { MarksOverlappedReads }
    ensures runs { MarksOverlappedReadsOfRuns }
{}
