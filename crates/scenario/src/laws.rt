//! Laws of scenario files of any length.
ghost use Rattle.scenario.specs.LineNumbers.{LinesHaveTheirNumbers, PrintedLinesAreNumbered};
ghost use Rattle.scenario.specs.Reads.{CutTextsHaveTheFault, GoodTextsAreReadToTheEnd, ReadTextsSayTheSame};

/// A text of 532,481 bytes or more has a fault, and its first 532,481 bytes have the same one. An input is read up to its
/// end or to this number of bytes, so the bytes that are read have the result of the whole input. If they have no fault,
/// the input was read to its end.
pub fn cut_texts_have_the_fault_of_the_whole()
    ensures same_fault { CutTextsHaveTheFault }
    ensures same_meaning { ReadTextsSayTheSame }
    ensures read_to_end { GoodTextsAreReadToTheEnd }
{}

/// Each line of a script has the number of the file's line with its words. If a scenario is printed, its lines are numbered one
/// after the other, after the version, the four headings and the opening pairs.
pub fn lines_have_their_numbers()
    ensures read { LinesHaveTheirNumbers }
    ensures printed { PrintedLinesAreNumbered }
{}
