//! The laws of rows over any accesses. Each law is a function with an empty body, whose contract is the law.
ghost use Rattle.reader_copies.specs.Laws.{WriteBegins, WriteMayGoOn, WriteGoesOn, WriteCarries, WriteEnds, WriteCutBetweenBits, SettlingBegins, SettlingGoesOn, SettlingEnds, ReadKeepsWrites, DropKeepsWrites, DropsKeepWrites, ReadCallKeepsWrites, KeepsWritten, KeepsPartlyWritten, KeepsPartlySettled, WriteKeepsReads, NextOfWrite, NextOfSettling, WriteCount, HasItsOwnCalls};

/// A write begins over written values. Each of its accesses may be made in its turn, and brings it one
/// further. Past the last copy it continues with the next bit, and past the last bit all copies of all bits
/// have the new values.
pub fn writes_reach_all_copies()
    ensures begins { WriteBegins }
    ensures may_go_on { WriteMayGoOn }
    ensures goes_on { WriteGoesOn }
    ensures carries { WriteCarries }
    ensures ends { WriteEnds }
    ensures cut_between_bits { WriteCutBetweenBits }
{}

/// A write that was cut is settled from its first copy on. Each access may be made in its turn, and brings the
/// settling one further. Past the last copy the torn bit has the settled value on all copies, the bits
/// below it are the new ones, and those above it the old ones.
pub fn settling_reaches_all_copies()
    ensures begins { SettlingBegins }
    ensures goes_on { SettlingGoesOn }
    ensures ends { SettlingEnds }
{}

/// Reads, also dropped ones, change no value and no write. So they leave written values, writes and
/// settlings as they are.
pub fn reads_change_no_value()
    ensures read { ReadKeepsWrites }
    ensures dropped { DropKeepsWrites }
    ensures all_dropped { DropsKeepWrites }
    ensures read_call { ReadCallKeepsWrites }
    ensures written { KeepsWritten }
    ensures partly_written { KeepsPartlyWritten }
    ensures partly_settled { KeepsPartlySettled }
{}

/// Writes and settlings begin and end no read.
pub fn writes_change_no_read()
    ensures { WriteKeepsReads }
{}

/// The accesses of a write are a fixed list: the copies ascending, of each begin and end. So are those of a
/// settling, with a single access where the copy's write was open.
pub fn writes_go_in_order()
    ensures next { NextOfWrite }
    ensures next_settling { NextOfSettling }
    ensures count { WriteCount }
{}

/// After any calls on a row, each copy is what its own calls alone make of it. So the safe rule holds
/// of each copy.
pub fn each_copy_by_itself()
    ensures { HasItsOwnCalls }
{}
