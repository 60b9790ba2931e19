//! The entries that a picture shows.
ghost use Rattle.std.specs.Prelude.{◌≡◌, nat_lt};
ghost use Rattle.picture.specs.Windows.{all_entries, is_up_to, said_before, shows_end, shows_entry, shows_said};

use picture_layout::{LineContent, RunLine};

/// The entries that a picture shows: from one number to another, both included.
#[derive(Clone, Copy, PartialEq, Eq)]
pub struct Window {
    /// The number of the first entry.
    pub from: u64,
    /// The number of the last entry, or `None` if no entry is too late.
    pub to: Option<u64>,
}

impl Window {
    /// Returns the window of all entries.
    pub fn all() -> Window
        ensures { result ≡ all_entries }
    {
        Window { from: 0, to: None }
    }

    /// Returns whether an entry is in the window.
    pub fn shows_entry(&self, entry: u64) -> bool
        ensures { result ≡ shows_entry self.now entry }
    {
        self.from <= entry && self.reaches(entry)
    }

    /// Returns whether a picture shows its end after `at` entries.
    pub fn shows_end(&self, at: u64) -> bool
        ensures { result ≡ shows_end self.now at }
    {
        self.reaches(at.saturating_sub(1))
    }

    /// Returns whether an entry is not after the window.
    fn reaches(&self, entry: u64) -> bool
        ensures { result ≡ is_up_to entry self.now.to }
    {
        match self.to {
            Some(to) => entry <= to,
            None => true,
        }
    }

    /// Returns whether a picture shows a line.
    pub(crate) fn shows_line(&self, line: &RunLine) -> bool
        ensures { result ≡ shows_said self.now line.now.at line.now.line_content }
    {
        match &line.line_content {
            LineContent::Marked { .. } | LineContent::LockMarked { .. } => self.shows_entry(
                line.at,
            ),
            LineContent::Ended { .. } | LineContent::LockEnded { .. } => self.shows_end(line.at),
            _ => self.from <= line.at && self.shows_end(line.at),
        }
    }

    /// Returns whether the window comes after a line. It never comes after an end.
    pub(crate) fn is_after(&self, line: &RunLine) -> bool
        ensures { result ≡ said_before self.now line.now.at line.now.line_content }
    {
        match &line.line_content {
            LineContent::Ended { .. } | LineContent::LockEnded { .. } => false,
            _ => self.is_after_entry(line.at),
        }
    }

    /// Returns whether the window comes after an entry.
    pub(crate) fn is_after_entry(&self, entry: u64) -> bool
        ensures { result ≡ nat_lt entry self.now.from }
    {
        entry < self.from
    }
}
