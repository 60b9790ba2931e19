//! A verdict as a picture shows it.
ghost use Rattle.std.specs.Prelude.{◌≡◌, ◌++◌, IfOk, string_bytes};
ghost use Rattle.std.specs.Fmt.{decimal};
ghost use Rattle.shown_verdict.specs.Verdicts.{naming};

use std::alloc::{AllocError, Global};

/// What a line of a verdict names.
#[derive(Clone, Copy, PartialEq, Eq)]
pub enum PointerKind {
    /// A process waits.
    Waits,
    /// A process is inside.
    Inside,
    /// The doorway of the process of the bad entry has begun.
    Doorway,
    /// An access of that process is open.
    Open,
    /// A write of that process was interrupted as the process failed.
    Torn,
}

/// The stage or the access of a process since an entry, which a line of a verdict names.
#[derive(Clone, Copy)]
pub struct Pointer {
    pub kind: PointerKind,
    pub process: u8,
    /// The number of the entry, from 0.
    pub since: u64,
}

/// The first entry that breaks a law.
#[derive(Clone, Copy)]
pub struct FirstBadEntry {
    /// The number of the entry, from 0.
    pub entry: u64,
    pub process: u8,
}

/// A line of a verdict.
#[derive(Drop)]
pub struct VerdictLine {
    /// The line, as the text of the picture has it.
    pub title: Vec<u8>,
    /// The words that are shown.
    pub words: Vec<u8>,
    /// What the line names, if it names anything.
    pub points: Option<Pointer>,
}

/// A verdict.
#[derive(Drop)]
pub struct ShownVerdict {
    /// The line of the page's list that makes its lines.
    pub source: u64,
    /// The bad entry, if there is one.
    pub bad: Option<FirstBadEntry>,
    /// What is wrong, in a sentence, or no byte.
    pub sentence: Vec<u8>,
    pub lines: Vec<VerdictLine>,
}

impl PointerKind {
    /// Returns the words beside what is named, before the number of the entry.
    fn words(self) -> &'static str
        ensures { result.now ≡ naming self }
    {
        match self {
            PointerKind::Waits => "waits since ",
            PointerKind::Inside => "inside since ",
            PointerKind::Doorway => "doorway counts from ",
            PointerKind::Open => "open since ",
            PointerKind::Torn => "torn since ",
        }
    }
}

impl Pointer {
    /// Returns the words beside what is named.
    ///
    /// # Errors
    ///
    /// Returns [`AllocError`] if memory is lacking.
    pub fn words(&self, alloc: Global) -> Result<String, AllocError>
        ensures { IfOk result
            (λ text. string_bytes text ≡ naming self.now.kind ++ decimal self.now.since) }
    {
        let words = self.kind.words();
        let since = self.since;
        format!(in alloc; "{words}{since}")
    }
}
