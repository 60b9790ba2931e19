//! The first words of the files that are read without a fault. Each law is a function that does nothing, and whose contract is
//! the law.
ghost use Rattle.command_line.specs.FirstWords.{RecordsAreRecognized, ScenariosHaveAnotherWord, TracesAreRecognized};

/// A record has the first word `record`, unless half a megabyte of skipped lines precedes it: then its first word is not
/// looked at.
pub fn records_are_recognized()
    ensures { RecordsAreRecognized }
{}

/// A trace has the first word `trace`, unless half a megabyte of skipped lines precedes it.
pub fn traces_are_recognized()
    ensures { TracesAreRecognized }
{}

/// A scenario has neither of the two words.
pub fn scenarios_have_another_first_word()
    ensures { ScenariosHaveAnotherWord }
{}
