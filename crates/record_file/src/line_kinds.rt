//! The kinds of lines of a record file.
ghost use Rattle.std.specs.Prelude.{◌≡◌};
ghost use Rattle.record_file.specs.RecordFiles.{begins_with_digit as digit_first, kind_in as those_of_records, kind_of};

use crate::forms::RECORD;
use scenario::keywords::{Heading, Opener};

/// The kind of a line, which its first word gives.
#[derive(Clone, Copy)]
pub enum LineKind {
    Record,
    Heading(Heading),
    Open,
    Entry,
}

impl LineKind {
    /// Returns the kind of a line by its first word: an entry begins with a digit.
    pub fn of(word: &[u8]) -> Option<LineKind>
        ensures { result ≡ kind_of word.now }
    {
        if begins_with_digit(word) {
            return Some(LineKind::Entry);
        }
        if word == RECORD.as_bytes() {
            return Some(LineKind::Record);
        }
        kind_in(Opener::of(word))
    }
}

fn begins_with_digit(word: &[u8]) -> bool
    ensures { result ≡ digit_first word.now }
{
    match word {
        [] => false,
        [first, ..] => first.is_ascii_digit(),
    }
}

/// Returns the kind of a line that scenario files have too, if record files have it.
fn kind_in(opener: Option<Opener>) -> Option<LineKind>
    ensures { result ≡ those_of_records opener }
{
    match opener {
        Some(Opener::Heading(heading)) => Some(LineKind::Heading(heading)),
        Some(Opener::Open) => Some(LineKind::Open),
        Some(Opener::Bakery | Opener::Line(_)) | None => None,
    }
}
