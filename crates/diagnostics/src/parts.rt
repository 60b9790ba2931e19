//! Parts of a line, each of which should have a form.
use crate::expected::add_form;
use crate::forms::{FormItem, LineForm, word_at};
use crate::lines::{Span, SplitLine};
use record_file::is_sign;
use std::alloc::AllocError;

/// The position of a fault in a line, if it is found.
pub(crate) type FoundPosition = Result<Option<Span>, AllocError>;

/// Returns a position, and adds what was expected there.
pub(crate) fn found(place: Span, expected: &str, what: &mut String) -> FoundPosition {
    found_by(place, what.push_str(expected))
}

/// Returns a position after what was expected there was added.
pub(crate) fn found_by(place: Span, added: Result<(), AllocError>) -> FoundPosition {
    added?;
    Ok(Some(place))
}

/// Words of a line that follow one another, and the form that they should have.
#[derive(Clone, Copy)]
pub(crate) struct LinePart<'l, 'w> {
    pub line: &'l SplitLine<'w>,
    /// The number of words before them.
    pub at: usize,
    pub words: &'l [&'w [u8]],
    pub form: &'l LineForm,
}

impl<'l, 'w> LinePart<'l, 'w> {
    /// Returns the position of the word with this number.
    pub fn word(&self, place: usize) -> Span {
        self.line.word(self.at.saturating_add(place))
    }

    /// Returns the word of the bit, if this is an access of a record.
    pub fn bit(&self) -> Option<&'w [u8]> {
        match self.form.items.get(1) {
            Some(FormItem::Bit) => self.words.get(1).copied(),
            _ => None,
        }
    }

    /// Returns the word of the cell, if this is an access of a trace.
    pub fn cell(&self) -> Option<&'w [u8]> {
        match self.form.items.get(1) {
            Some(FormItem::Cell) => self.words.get(1).copied(),
            _ => None,
        }
    }

    /// Returns the position of the words that are too many, or the column where one is missing.
    pub fn wrong_number(&self, what: &mut String) -> FoundPosition {
        let (has, wants) = (self.words.len(), self.form.items.len());
        if has == wants {
            return Ok(None);
        }
        let last = self.at.saturating_add(has).saturating_sub(1);
        let place = if has < wants {
            self.line.behind(last)
        } else {
            Span {
                from: self.word(wants).from,
                to: self.line.word(last).to,
            }
        };
        found_by(place, add_form(self.form, what))
    }
}

/// A fault that is looked for in the parts of an entry.
pub(crate) trait EntryFault {
    /// Looks for the fault in the words `at..end` of an entry, which follow `marks` signs.
    fn in_entry_part(
        &self,
        line: &SplitLine<'_>,
        at: usize,
        end: usize,
        marks: usize,
        what: &mut String,
    ) -> FoundPosition;

    /// Looks for the fault in an entry, and returns its position in the first part between signs that has it.
    fn in_entry(&self, line: &SplitLine<'_>, what: &mut String) -> FoundPosition {
        let words = line.words.as_slice();
        let (mut at, mut marks) = (0_usize, 0_usize);
        for place in 0..=words.len() {
            if place < words.len() && !is_sign(word_at(words, place)) {
                continue;
            }
            if let Some(span) = self.in_entry_part(line, at, place, marks, what)? {
                return Ok(Some(span));
            }
            marks = marks.saturating_add(1);
            at = place.saturating_add(1);
        }
        Ok(None)
    }
}
