//! The kinds of files, and their first lines.
use record_file::forms::RECORD;
use scenario::forms::{BITS, SCENARIO};
use std::alloc::AllocError;
use trace_file::forms::TRACE;

/// A kind of file.
#[derive(Clone, Copy)]
pub enum FileKind {
    /// The calls and steps of processes.
    Scenario,
    /// The calls on one safe bit.
    Bits,
    /// The entries of a run.
    Record,
    /// The entries of a run of any lock.
    Trace,
}

impl FileKind {
    /// Returns the first word of its first line.
    pub(crate) fn word(self) -> &'static str {
        match self {
            FileKind::Scenario => SCENARIO,
            FileKind::Bits => BITS,
            FileKind::Record => RECORD,
            FileKind::Trace => TRACE,
        }
    }

    /// Returns the name of such a file.
    fn name(self) -> &'static str {
        match self {
            FileKind::Scenario => "a scenario",
            FileKind::Bits => "a bits file",
            FileKind::Record => "a record",
            FileKind::Trace => "a trace",
        }
    }

    /// Returns its newest version.
    fn newest(self) -> u8 {
        match self {
            FileKind::Bits | FileKind::Trace => 1,
            FileKind::Scenario | FileKind::Record => 2,
        }
    }

    /// Adds its first lines.
    pub(crate) fn add_first_lines(self, text: &mut String) -> Result<(), AllocError> {
        let word = self.word();
        write!(text, "{word} 1")?;
        if self.newest() == 2 {
            write!(text, " or {word} 2")?;
        }
        Ok(())
    }

    /// Adds the first lines of all files that a command reads which reads such a file whatever its first word is. `judge` reads
    /// records and traces, and takes a file for a record unless its first word is `trace`.
    pub(crate) fn add_all_first_lines(self, text: &mut String) -> Result<(), AllocError> {
        match self {
            FileKind::Record => text.push_str("record 1, record 2 or trace 1"),
            _ => self.add_first_lines(text),
        }
    }

    /// Returns whether its first line may have this version.
    pub(crate) fn has_version(self, version: &[u8]) -> bool {
        match version {
            [b'1'] => true,
            [b'2'] => self.newest() == 2,
            _ => false,
        }
    }
}

/// Returns the name of a file that begins with this word.
pub(crate) fn name_of_file(first: &[u8]) -> Option<&'static str> {
    for kind in [
        FileKind::Scenario,
        FileKind::Bits,
        FileKind::Record,
        FileKind::Trace,
    ] {
        if first == kind.word().as_bytes() {
            return Some(kind.name());
        }
    }
    None
}
