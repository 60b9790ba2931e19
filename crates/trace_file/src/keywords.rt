//! The key words of trace files, in tables that the grammar reads.
ghost use Rattle.std.specs.Prelude.{◌≡◌};
ghost use Rattle.trace_file.specs.Keywords.{mark_word_of, memory_of, move_word_of};
ghost use Rattle.trace.specs.{begins_with_digit as digit_first};
ghost use Rattle.trace_file.specs.TraceFiles.{kind_of};

use files::meaning_of;
use trace::{LockMark, TraceMemory};

/// The kind of a line, by its first word.
#[derive(Clone, Copy)]
pub enum TraceLineKind {
    /// The first line of a file.
    Trace,
    /// The number of processes.
    Processes,
    /// The memory.
    Memory,
    /// A register that has a cell for each process.
    Register,
    /// A register that has one cell for all processes.
    Shared,
    /// An entry, which begins with a digit.
    Entry,
}

/// The first word of a move.
#[derive(Clone, Copy)]
pub enum MoveWord {
    Write,
    End,
    Read,
    Value,
    Set,
    Get,
    Swap,
    Add,
    Cas,
}

/// The first words of lines that are not entries, with the kinds of these lines.
pub const LINE_KINDS: [(&str, TraceLineKind); 5] = [
    ("processes", TraceLineKind::Processes),
    ("memory", TraceLineKind::Memory),
    ("register", TraceLineKind::Register),
    ("shared", TraceLineKind::Shared),
    ("trace", TraceLineKind::Trace),
];

/// The words of the memories.
pub const MEMORIES: [(&str, TraceMemory); 3] = [
    ("safe", TraceMemory::Safe),
    ("regular", TraceMemory::Regular),
    ("atomic", TraceMemory::Atomic),
];

/// The first words of moves.
pub const MOVE_WORDS: [(&str, MoveWord); 9] = [
    ("write", MoveWord::Write),
    ("end", MoveWord::End),
    ("read", MoveWord::Read),
    ("value", MoveWord::Value),
    ("set", MoveWord::Set),
    ("get", MoveWord::Get),
    ("swap", MoveWord::Swap),
    ("add", MoveWord::Add),
    ("cas", MoveWord::Cas),
];

/// The words of marks.
pub const LOCK_MARKS: [(&str, LockMark); 5] = [
    ("call", LockMark::Call),
    ("wait", LockMark::Wait),
    ("enter", LockMark::Enter),
    ("leave", LockMark::Leave),
    ("answer", LockMark::Answer),
];

impl TraceLineKind {
    /// Returns the kind of a line by its first word.
    pub fn of(word: &[u8]) -> Option<TraceLineKind>
        ensures { result ≡ kind_of word.now }
    {
        if begins_with_digit(word) {
            return Some(TraceLineKind::Entry);
        }
        meaning_of(&LINE_KINDS, word)
    }
}

impl MoveWord {
    /// Returns the move that begins with a word.
    pub fn of(word: &[u8]) -> Option<MoveWord>
        ensures { result ≡ move_word_of word.now }
    {
        meaning_of(&MOVE_WORDS, word)
    }
}

/// Returns the memory that a word names.
pub fn memory(word: &[u8]) -> Option<TraceMemory>
    ensures { result ≡ memory_of word.now }
{
    meaning_of(&MEMORIES, word)
}

/// Returns the mark that a word names.
pub fn lock_mark(word: &[u8]) -> Option<LockMark>
    ensures { result ≡ mark_word_of word.now }
{
    meaning_of(&LOCK_MARKS, word)
}

fn begins_with_digit(word: &[u8]) -> bool
    ensures { result ≡ digit_first word.now }
{
    match word {
        [] => false,
        [first, ..] => first.is_ascii_digit(),
    }
}
