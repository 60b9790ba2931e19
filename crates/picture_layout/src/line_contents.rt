//! A line of the text of a run, a record or a trace, as a value.
ghost use Rattle.std.specs.Prelude.{◌≡◌, IfOk, option_copied};
ghost use Rattle.run_lines.specs.{line_text};
ghost use Rattle.picture_layout.specs.LockLines.{lock_ended_text, lock_marked_text};
ghost use Rattle.picture_layout.specs.Reported.{change_reported, event_reported, mark_reported, place_reported, process_reported, reports_lock_mark, reports_refusal, text_of};

use crate::lock_lines::{drawn_like, ended_line, marked_line};
use model::{Mark, Refusal};
use run_lines::ReplayLine;
use std::alloc::{AllocError, Global};
use trace::LockMark;

/// The change of the store by a command.
#[derive(Drop)]
pub struct TakenChange {
    /// The pair that it changed or added, as `NAME=VALUE`.
    pub pair: String,
    /// The store after it: its pairs, with single spaces between them.
    pub store: Vec<u8>,
}

/// The content of a line.
#[derive(Drop)]
pub enum LineContent {
    /// An event of the process has this mark. If the mark takes a command that changed the store, `change` is that change.
    Marked {
        process: u8,
        mark: Mark,
        change: Option<TakenChange>,
    },
    /// An event of the process was refused.
    Refused {
        process: u8,
        refusal: Refusal,
    },
    /// The process has made all the steps of a `go`.
    Tired(u8),
    /// The newest store: the words after `show`.
    Shown(String),
    /// The run has ended, with these numbers.
    Ended {
        events: u64,
        taken: u64,
        refused: u64,
    },
    /// An entry of a trace has this mark of the process.
    LockMarked {
        process: u8,
        mark: LockMark,
    },
    /// The trace has ended, with this number of entries.
    LockEnded {
        entries: u64,
    },
}

/// A line of the text of a run, a record or a trace.
#[derive(Drop)]
pub struct RunLine {
    /// The number of the line of the printed scenario that made it, from 1.
    pub source: u64,
    /// The number of events that were accepted before it, which is that of its event if it is a mark.
    pub at: u64,
    pub line_content: LineContent,
}

impl RunLine {
    /// Returns its process, if it has one.
    pub fn process(&self) -> Option<u8>
        ensures { result ≡ process_reported self.now.line_content }
    {
        match &self.line_content {
            LineContent::Marked { process, .. } => Some(*process),
            LineContent::Refused { process, .. } => Some(*process),
            LineContent::Tired(process) => Some(*process),
            LineContent::LockMarked { process, .. } => Some(*process),
            LineContent::Shown(_) | LineContent::Ended { .. } | LineContent::LockEnded { .. } =>
                None,
        }
    }

    /// Returns the number of its event, if it is a mark.
    pub fn event(&self) -> Option<u64>
        ensures { result ≡ event_reported self.now }
    {
        match &self.line_content {
            LineContent::Marked { .. } | LineContent::LockMarked { .. } => Some(self.at),
            _ => None,
        }
    }

    /// Returns its mark. A mark of a trace gives the mark of a record that it looks like.
    pub fn mark(&self) -> Option<Mark>
        ensures { result ≡ mark_reported self.now.line_content }
    {
        match &self.line_content {
            LineContent::Marked { mark, .. } => Some(*mark),
            LineContent::LockMarked { mark, .. } => Some(drawn_like(*mark)),
            _ => None,
        }
    }

    /// Returns what its command changed.
    pub fn change(&self) -> Option<&TakenChange>
        ensures { option_copied result ≡ change_reported self.now.line_content }
    {
        match &self.line_content {
            LineContent::Marked { change, .. } => change.as_ref(),
            _ => None,
        }
    }

    /// Returns its position in the history, if it has one.
    pub fn place(&self) -> Option<u64>
        ensures { result ≡ place_reported self.now.line_content }
    {
        match &self.line_content {
            LineContent::Marked {
                mark: Mark::Taken(place, _),
                ..
            } => Some(*place),
            _ => None,
        }
    }

    /// Returns whether it is a refusal.
    pub fn is_refusal(&self) -> bool
        ensures { result ≡ reports_refusal self.now.line_content }
    {
        matches!(&self.line_content, LineContent::Refused { .. })
    }

    /// Returns whether it is a mark of a trace.
    pub fn is_lock_mark(&self) -> bool
        ensures { result ≡ reports_lock_mark self.now.line_content }
    {
        matches!(&self.line_content, LineContent::LockMarked { .. })
    }

    /// Returns the line, without its end.
    ///
    /// # Errors
    ///
    /// Returns [`AllocError`] if an allocation fails.
    pub fn text(&self, alloc: Global) -> Result<Vec<u8>, AllocError>
        ensures { IfOk result (λ text. text.items ≡ text_of self.now) }
    {
        match &self.line_content {
            LineContent::Marked { process, mark, .. } => {
                let line = ReplayLine::Marked {
                    event: self.at,
                    process: *process,
                    mark,
                };
                printed(alloc, &line)
            }
            LineContent::Refused { process, refusal } => {
                let line = ReplayLine::Refused {
                    process: *process,
                    refusal,
                };
                printed(alloc, &line)
            }
            LineContent::Tired(process) => printed(alloc, &ReplayLine::Tired(*process)),
            LineContent::Shown(words) => printed(alloc, &ReplayLine::Shown(words.as_str())),
            LineContent::Ended {
                events,
                taken,
                refused,
            } => {
                let line = ReplayLine::Ended {
                    events: *events,
                    taken: *taken,
                    refused: *refused,
                };
                printed(alloc, &line)
            }
            LineContent::LockMarked { process, mark } => marked_line(
                alloc, self.at, *process, *mark,
            ),
            LineContent::LockEnded { entries } => ended_line(alloc, *entries),
        }
    }
}

/// Returns the line as `replay` prints it.
fn printed(alloc: Global, line: &ReplayLine) -> Result<Vec<u8>, AllocError>
    ensures { IfOk result (λ text. text.items ≡ line_text line.now) }
{
    Ok(line.to_string(alloc)?.into_bytes())
}
