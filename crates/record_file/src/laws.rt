//! Laws of the spelling of every entry. Each law is a function with an empty body, whose contract is the law.
ghost use Rattle.record_file.specs.ReadAgain.{EntriesAreSpelledInOneWay, PrintedEntriesAreReadAgain};

/// The words that are printed for an entry are read as that entry.
pub fn printed_entries_are_read_again()
    ensures { PrintedEntriesAreReadAgain }
{}

/// Each entry has one spelling: words are read as an entry exactly if they are those that are printed for it.
pub fn entries_are_spelled_in_one_way()
    ensures { EntriesAreSpelledInOneWay }
{}
