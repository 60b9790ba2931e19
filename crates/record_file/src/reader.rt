//! The reader of the lines of a record file.
ghost use Rattle.std.specs.Prelude.{◌≡◌, MatchOption, None, Ok, Some};
ghost use Rattle.plain_store.specs.{checked};
ghost use Rattle.files.specs.{Makes, Takes, texts};
ghost use Rattle.record_file.specs.RecordFiles.{entry_read, first_read, head_read, line_said, pair_read};

use crate::entries::read_entry;
use crate::forms::RECORD;
use crate::line_kinds::LineKind;
use files::{FaultKind, FromLines};
use model::Entry;
use plain_store::{NestedTypes, Setup};
use scenario::Reader;
use scenario::keywords::Heading;
use std::alloc::Global;
use std::marker::Model;

/// The progress of reading a record file: its headings and opening pairs so far, whether an entry has ended them, and the
/// entry of the last line. The caller takes this entry before the next line is read.
#[derive(Drop)]
pub struct RecordReader {
    alloc: Global,
    head: Reader,
    ended: bool,
    entry: Option<Entry>,
}

impl Model for RecordReader {
    ghost use Rattle.record_file.specs.RecordFiles.{Progress};

    ghost Value = { Progress };

    ghost view = { λ r. record { head = r.head; ended = r.ended; entry = r.entry } };
}

impl FromLines for RecordReader {
    ghost use Rattle.record_file.specs.RecordFiles.{record_grammar};

    ghost grammar = { record_grammar };

    fn first(alloc: Global, word: &[u8], words: &[&[u8]]) -> Result<RecordReader, FaultKind> {
        RecordReader::new(alloc, word, words)
    }

    fn later(&mut self, word: &[u8], words: &[&[u8]]) -> Result<(), FaultKind> {
        let _nested: NestedTypes = None;
        match LineKind::of(word) {
            None => Err(FaultKind::Unknown),
            Some(kind) => self.line(kind, word, words),
        }
    }
}

impl RecordReader {
    /// Returns the setup so far.
    pub fn setup(&self) -> &Setup
        ensures value { result.now ≡ self.now.head.setup }
        ensures good { checked result.now ≡ Ok tt }
    {
        self.head.setup()
    }

    /// Returns the entry of the last line, if it is one.
    pub fn last_entry(&self) -> Option<&Entry>
        ensures { MatchOption result (self.now.entry ≡ None) (λ e. self.now.entry ≡ Some e.now) }
    {
        self.entry.as_ref()
    }

    /// Drops the entry of the last line.
    pub fn forget_entry(&mut self)
        ensures { self.new ≡ record self.old { entry = None } }
    {
        let _nested: NestedTypes = None;
        self.entry = None;
    }

    /// Reads the first line: `record 1` or `record 2`.
    #[tactic(auto, unfolding(crate::specs::RecordFiles::first_read))]
    fn new(alloc: Global, word: &[u8], words: &[&[u8]]) -> Result<RecordReader, FaultKind>
        ensures { Makes result (first_read word.now (texts words.now)) }
    {
        if word != RECORD.as_bytes() || words.len() != 1 {
            return Err(FaultKind::NotFirst);
        }
        let head = Reader::at_version(alloc, words[0])?;
        Ok(RecordReader {
            alloc,
            head,
            ended: false,
            entry: None,
        })
    }

    /// Reads a later line, by its kind.
    fn line(&mut self, kind: LineKind, word: &[u8], words: &[&[u8]]) -> Result<(), FaultKind>
        ensures { Takes result (line_said kind word.now (texts words.now) self.old) self.new }
    {
        let _nested: NestedTypes = None;
        match kind {
            LineKind::Record => Err(FaultKind::NotFirst),
            LineKind::Heading(heading) => self.heading(heading, words),
            LineKind::Open => self.open(words),
            LineKind::Entry => self.entry(word, words),
        }
    }

    /// Reads a heading, which comes before all entries.
    #[tactic(auto, unfolding(crate::specs::RecordFiles::head_read))]
    fn heading(&mut self, heading: Heading, words: &[&[u8]]) -> Result<(), FaultKind>
        ensures { Takes result (head_read heading (texts words.now) self.old) self.new }
    {
        let _nested: NestedTypes = None;
        if self.ended {
            return Err(FaultKind::NotFirst);
        }
        self.head.heading(heading, words)
    }

    /// Reads an opening pair, which comes before all entries.
    #[tactic(auto, unfolding(crate::specs::RecordFiles::pair_read))]
    fn open(&mut self, words: &[&[u8]]) -> Result<(), FaultKind>
        ensures { Takes result (pair_read (texts words.now) self.old) self.new }
    {
        let _nested: NestedTypes = None;
        if self.head.setup().version != 2 {
            return Err(FaultKind::Unknown);
        }
        if self.ended {
            return Err(FaultKind::NotFirst);
        }
        self.head.open(words)
    }

    /// Reads an entry, after which no heading and no opening pair may follow.
    fn entry(&mut self, word: &[u8], words: &[&[u8]]) -> Result<(), FaultKind>
        ensures { Takes result (entry_read word.now (texts words.now) self.old) self.new }
    {
        let _nested: NestedTypes = None;
        let entry = read_entry(self.alloc, word, words)?;
        self.ended = true;
        self.entry = Some(entry);
        Ok(())
    }
}
