//! The laws of registers over any accesses. Each law is a function with an empty body, whose contract is
//! the law.
ghost use Rattle.safe_number.specs.Laws.{WriteBegins, WriteMayGoOn, WriteGoesOn, WriteEnds, WriteIsCut, WriteOverInterval, SettlingBegins, SettlingIsNew, TornBitIsInside, SettlingMayGoOn, SettlingGoesOn, SettledValueStays, SettlingEnds, CutWriteIsSettled, WholeWrite, WriteCount, NextOfWrite, RestOfNewWrite, RestOfDoneWrite, WholeRead, NextOfRead};
ghost use Rattle.safe_number.specs.Laws.{ReadBegins, ReadGoesOn, ReadIsApart, UndisturbedBegins, UndisturbedGoesOn, UndisturbedIsApart, UndisturbedOverInterval, WrittenOverInterval, PresetIsWritten};
ghost use Rattle.safe_number.specs.Laws.{NumberOfItsBits, BitsOfTheirNumber, NumberFits, BitOfBytes, BitsOfBytes, NumberOfBytes, BytesOfBits};

/// A write of a register begins over written bits. Each of its accesses may be made in its turn, and brings
/// it one further. Once it is done, all copies of all bits have the value's.
pub fn writes_give_the_number()
    ensures begins { WriteBegins }
    ensures may_go_on { WriteMayGoOn }
    ensures goes_on { WriteGoesOn }
    ensures over_interval { WriteOverInterval }
    ensures ends { WriteEnds }
{}

/// A write that is cut leaves the value's bits below and the old bits above. Between them is the torn bit, if
/// there is one. Its settling gives it the bit that is handed in first.
pub fn cut_writes_are_settled()
    ensures cut { WriteIsCut }
    ensures begins { SettlingBegins }
    ensures is_new { SettlingIsNew }
    ensures inside { TornBitIsInside }
    ensures may_go_on { SettlingMayGoOn }
    ensures goes_on { SettlingGoesOn }
    ensures value_stays { SettledValueStays }
    ensures ends { SettlingEnds }
    ensures settled { CutWriteIsSettled }
{}

/// A whole write with `n` readers makes exactly its `2 * n * width` accesses, and a whole read its `2 * width`.
/// Bits ascend, and so do the copies of each written bit; each copy has its begin and its end. So any finished
/// read gives some number of that width.
pub fn accesses_go_in_order()
    ensures whole_write { WholeWrite }
    ensures count { WriteCount }
    ensures next_of_write { NextOfWrite }
    ensures rest_of_new_write { RestOfNewWrite }
    ensures rest_of_done_write { RestOfDoneWrite }
    ensures whole_read { WholeRead }
    ensures next_of_read { NextOfRead }
{}

/// A read continues by its own accesses, in their turn. Changes of the other readers' copies leave it
/// as it is.
pub fn reads_take_turns()
    ensures begins { ReadBegins }
    ensures goes_on { ReadGoesOn }
    ensures apart { ReadIsApart }
{}

/// A read of a register whose bits are written and stay so gives them, whatever the flicks.
pub fn undisturbed_reads_give_the_number()
    ensures begins { UndisturbedBegins }
    ensures goes_on { UndisturbedGoesOn }
    ensures apart { UndisturbedIsApart }
    ensures over_interval { UndisturbedOverInterval }
    ensures written { WrittenOverInterval }
{}

/// A register that is preset has the value's bits on all copies.
pub fn presets_give_the_number()
    ensures { PresetIsWritten }
{}

/// Numbers, their bits and their bytes agree.
pub fn numbers_are_their_bits()
    ensures number { NumberOfItsBits }
    ensures bits { BitsOfTheirNumber }
    ensures fits { NumberFits }
    ensures bit_of_bytes { BitOfBytes }
    ensures bits_of_bytes { BitsOfBytes }
    ensures number_of_bytes { NumberOfBytes }
    ensures bytes_of_bits { BytesOfBits }
{}
