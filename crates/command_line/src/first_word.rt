//! The first words that distinguish kinds of files.
ghost use Rattle.std.specs.Prelude.{◌≡◌};
ghost use Rattle.command_line.specs.FirstWords.{word_meant};

use files::{FaultKind, FromLines};
use std::alloc::Global;

/// The first word of the first line that is not skipped.
#[derive(Clone, Copy, PartialEq, Eq)]
pub enum FirstWord {
    /// The word `record`: the file is a record.
    Record,
    /// The word `trace`: the file is a trace.
    Trace,
    /// Another word, or no word at all.
    Other,
}

impl FirstWord {
    /// Returns which of them a word is.
    fn of(word: &[u8]) -> FirstWord
        ensures { result ≡ word_meant word.now }
    {
        if word == b"record".as_slice() {
            FirstWord::Record
        } else if word == b"trace".as_slice() {
            FirstWord::Trace
        } else {
            FirstWord::Other
        }
    }
}

impl FromLines for FirstWord {
    ghost use Rattle.command_line.specs.FirstWords.{first_line};

    ghost grammar = { first_line };

    fn first(_alloc: Global, word: &[u8], _words: &[&[u8]]) -> Result<FirstWord, FaultKind> {
        Ok(FirstWord::of(word))
    }

    fn later(&mut self, _word: &[u8], _words: &[&[u8]]) -> Result<(), FaultKind> {
        Ok(())
    }
}
