//! The lines that `replay` prints.
ghost use Rattle.run_lines.specs.Lines.{line_text};

use model::{Mark, Refusal};
use std::fmt;

/// A line of a run, as `replay` prints it. It is printed without its end.
#[derive(Clone, Copy)]
pub enum ReplayLine<'a> {
    /// The event with this number has this mark.
    Marked {
        event: u64,
        process: u8,
        mark: &'a Mark,
    },
    /// An event of the process was refused.
    Refused {
        process: u8,
        refusal: &'a Refusal,
    },
    /// The process has made all the steps of a `go`.
    Tired(u8),
    /// The newest store in these words.
    Shown(&'a str),
    /// The run has ended, with these numbers.
    Ended {
        events: u64,
        taken: u64,
        refused: u64,
    },
}

impl fmt::Display for ReplayLine<'_> {
    ghost use Rattle.std.specs.Prelude.{Some};

    ghost output = { λ line. Some (line_text line) };

    fn fmt<W: fmt::Write>(&self, f: &mut fmt::Formatter<W>) -> fmt::Result {
        match self {
            ReplayLine::Marked {
                event,
                process,
                mark,
            } => write!(f, "{event} {process} {mark}"),
            ReplayLine::Refused { process, refusal } => {
                write!(f, "- {process} refused {refusal}")
            }
            ReplayLine::Tired(process) => write!(f, "- {process} turns"),
            ReplayLine::Shown(words) => write!(f, "show {words}"),
            ReplayLine::Ended {
                events,
                taken,
                refused,
            } => write!(f, "end events {events} taken {taken} refused {refused}"),
        }
    }
}
