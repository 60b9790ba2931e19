//! The words of a line, and their positions.
use std::alloc::{AllocError, Global};

/// The greatest number of bytes of a line that are shown.
const MOST_SHOWN: usize = 64;

/// The number of bytes shown before a word that ends after the first `MOST_SHOWN` bytes.
const SHOWN_BEFORE: usize = 16;

/// The greatest number of bytes of a line that are read.
const MOST_SEEN: usize = 129;

/// Some bytes of a line.
#[derive(Clone, Copy)]
pub(crate) struct Span {
    /// The number of bytes before them.
    pub from: usize,
    /// The number of bytes before their end.
    pub to: usize,
}

impl Span {
    /// Returns these bytes of a line.
    pub fn of(self, line: &[u8]) -> &[u8] {
        line.get(self.from..self.to).unwrap_or(&[])
    }
}

/// A line, and the positions of its words.
#[derive(Drop)]
pub(crate) struct SplitLine<'a> {
    bytes: &'a [u8],
    spans: Vec<Span>,
    pub words: Vec<&'a [u8]>,
}

impl<'a> SplitLine<'a> {
    /// Creates a line of these bytes.
    ///
    /// # Errors
    ///
    /// Returns [`AllocError`] if an allocation fails.
    pub fn new(alloc: Global, bytes: &'a [u8]) -> Result<SplitLine<'a>, AllocError> {
        let mut line = SplitLine {
            bytes,
            spans: Vec::new(alloc),
            words: Vec::new(alloc),
        };
        line.find_words()?;
        Ok(line)
    }

    /// Finds the words of the line.
    fn find_words(&mut self) -> Result<(), AllocError> {
        add_spans(self.bytes, &mut self.spans)?;
        for span in &self.spans {
            self.words.push(span.of(self.bytes))?;
        }
        Ok(())
    }

    /// Returns the number of bytes of the line.
    pub fn len(&self) -> usize {
        self.bytes.len()
    }

    /// Returns the position of a word, or the first column if the line has no such word.
    pub fn word(&self, number: usize) -> Span {
        match self.spans.get(number) {
            Some(span) => *span,
            None => Span { from: 0, to: 1 },
        }
    }

    /// Returns the position of a word and all words after it.
    pub fn from(&self, number: usize) -> Span {
        let last = self.word(self.spans.len().saturating_sub(1));
        Span {
            from: self.word(number).from,
            to: last.to,
        }
    }

    /// Returns the column after a word and one blank, where the next word is missing.
    pub fn behind(&self, number: usize) -> Span {
        let from = self.word(number).to.saturating_add(1);
        Span {
            from,
            to: from.saturating_add(1),
        }
    }

    /// Returns the position of a part of a word between dots, or one column if the part is empty.
    pub fn part(&self, number: usize, part: usize) -> Span {
        let word = self.word(number);
        match dotted_part(word.of(self.bytes), part) {
            Some(span) => Span {
                from: word.from.saturating_add(span.from),
                to: word
                    .from
                    .saturating_add(span.to.max(span.from.saturating_add(1))),
            },
            None => word,
        }
    }

    /// Adds the part of the line around some of its bytes, and carets below these bytes.
    ///
    /// # Errors
    ///
    /// Returns [`AllocError`] if an allocation fails. The text may then end early.
    pub fn show(&self, span: Span, text: &mut String) -> Result<(), AllocError> {
        let begin = if span.to > MOST_SHOWN {
            span.from.saturating_sub(SHOWN_BEFORE)
        } else {
            0
        };
        let end = begin.saturating_add(MOST_SHOWN);
        text.push_str("  ")?;
        for byte in self
            .bytes
            .get(begin..end.min(MOST_SEEN).min(self.len()))
            .unwrap_or(&[])
        {
            text.push(shown(*byte))?;
        }
        text.push_str("\n  ")?;
        for at in begin..span.to.min(end) {
            text.push(if at < span.from { ' ' } else { '^' })?;
        }
        text.push_str("\n")
    }
}

/// Adds the positions of the words of a line.
fn add_spans(line: &[u8], spans: &mut Vec<Span>) -> Result<(), AllocError> {
    let mut from = 0;
    for (at, byte) in line.iter().enumerate() {
        if *byte == b' ' || *byte == b'\t' {
            add_span(from, at, spans)?;
            from = at.saturating_add(1);
        }
    }
    add_span(from, line.len(), spans)
}

/// Adds the position of a word, unless it has no bytes.
fn add_span(from: usize, to: usize, spans: &mut Vec<Span>) -> Result<(), AllocError> {
    if from < to {
        spans.push(Span { from, to })?;
    }
    Ok(())
}

/// Returns the position of a part between the dots of a word, counted from the word's first byte, if the word has this part.
pub(crate) fn dotted_part(word: &[u8], number: usize) -> Option<Span> {
    let mut before: usize = 0;
    let mut from = 0;
    for (at, byte) in word.iter().enumerate() {
        if *byte == b'.' {
            if before == number {
                return Some(Span { from, to: at });
            }
            before = before.saturating_add(1);
            from = at.saturating_add(1);
        }
    }
    let to = word.len();
    if before == number {
        Some(Span { from, to })
    } else {
        None
    }
}

/// Returns the character that a terminal shows for a byte.
fn shown(byte: u8) -> char {
    match byte {
        b'\t' => ' ',
        b' '..=b'~' => char::from(byte),
        _ => '?',
    }
}
