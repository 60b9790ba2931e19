//! What is shown of an entry, in words.
ghost use Rattle.std.specs.Prelude.{◌≡◌, ◌++◌, [], codes, cond, IfOk, OnOk, option_map};
ghost use Rattle.picture_layout.specs.{given_access, given_change};
ghost use Rattle.record_file.specs.scenario.{bit_word};
ghost use Rattle.record_file.specs.{copy_word};
ghost use Rattle.record_accesses.specs.Accesses.{shown_by, shown_change, shown_dropped, shown_made, with_words_if};
ghost use Rattle.record_accesses.specs.Words.{unlike, words_of};

use crate::monitored::{BitChange, DroppedRead, Monitored, MonitoredBitAccess};
use crate::moves::kind;
use model::{Access, Move};
use picture_layout::{AccessKind, AccessStep, ShownAccess, WaveChange};
use std::alloc::{AllocError, Global};

impl Monitored {
    /// Returns what is shown, with its words and its cell if a picture shows its entry.
    ///
    /// # Errors
    ///
    /// Returns [`AllocError`] if memory runs out.
    pub fn shown(&self, alloc: Global, shows: bool) -> Result<ShownAccess, AllocError>
        ensures { IfOk result (λ access. given_access access ≡ shown_by shows self.now) }
    {
        match self {
            Monitored::Made(access) => access.shown(alloc, shows),
            Monitored::Dropped(read) => read.shown(alloc, shows),
        }
    }
}

impl DroppedRead {
    /// Returns the end of the read, which has no words.
    fn shown(&self, alloc: Global, shows: bool) -> Result<ShownAccess, AllocError>
        ensures { IfOk result
            (λ access. given_access access ≡ with_words_if shows (shown_dropped self.now)) }
    {
        Ok(ShownAccess {
            event: self.event,
            process: self.process,
            kind: AccessKind::Read,
            step: AccessStep::End,
            begin: self.read.entry,
            words: Vec::new(alloc),
            cell: cell_if(alloc, shows, &self.read.access)?,
            overlaps: [false; 16],
            change: None,
        })
    }
}

impl MonitoredBitAccess {
    /// Returns the access, with its words and its cell if a picture shows its entry.
    fn shown(&self, alloc: Global, shows: bool) -> Result<ShownAccess, AllocError>
        ensures { IfOk result
            (λ access. given_access access ≡ with_words_if shows (shown_made self.now)) }
    {
        Ok(ShownAccess {
            event: self.event,
            process: self.process,
            kind: kind(self.access.how),
            step: self.step,
            begin: self.begin,
            words: words_if(alloc, shows, self.written, self.access.how)?,
            cell: cell_if(alloc, shows, &self.access)?,
            overlaps: self.overlaps,
            change: self.shown_change(alloc)?,
        })
    }

    /// Returns the change of the wave with its words, if there is one.
    fn shown_change(&self, alloc: Global) -> Result<Option<WaveChange>, AllocError>
        ensures { IfOk result (λ change. option_map given_change change
            ≡ option_map (shown_change (copy_word self.now.access)) self.now.change) }
    {
        match self.change {
            Some(change) => {
                let name = cell_name(alloc, &self.access)?;
                Ok(Some(change.shown(alloc, name)?))
            }
            None => Ok(None),
        }
    }
}

impl BitChange {
    /// Returns the change of the wave of this name, with its words.
    fn shown(&self, alloc: Global, name: Vec<u8>) -> Result<WaveChange, AllocError>
        ensures { IfOk result (λ change. given_change change ≡ shown_change name.items self.now) }
    {
        Ok(WaveChange {
            row: self.row,
            name,
            old: digit(alloc, self.old)?,
            value: digit(alloc, self.value)?,
            was_open: self.was_open,
            is_open: self.is_open,
        })
    }
}

/// Returns the words of a move, if a picture shows its entry, and otherwise none.
fn words_if(alloc: Global, shows: bool, written: bool, how: Move) -> Result<Vec<u8>, AllocError>
    ensures { IfOk result (λ text. text.items ≡ cond shows (words_of written how) []) }
{
    if shows {
        words(alloc, written, how)
    } else {
        Ok(Vec::new(alloc))
    }
}

/// Returns the name of the bit of an access, if a picture shows its entry, and otherwise no byte.
fn cell_if(alloc: Global, shows: bool, access: &Access) -> Result<Vec<u8>, AllocError>
    ensures { IfOk result (λ text. text.items ≡ cond shows (copy_word access.now) []) }
{
    if shows {
        cell_name(alloc, access)
    } else {
        Ok(Vec::new(alloc))
    }
}

/// Returns the words of a move on a bit for which this value was last written or settled.
fn words(alloc: Global, written: bool, how: Move) -> Result<Vec<u8>, AllocError>
    ensures { IfOk result (λ text. text.items ≡ words_of written how) }
{
    match how {
        Move::BeginWrite(value) => with_digit(alloc, b"write ", value),
        Move::EndWrite => Ok(Vec::new(alloc)),
        Move::BeginRead => word(alloc, b"read"),
        Move::EndRead(value) => value_words(alloc, written, value),
        Move::Settle(value) => with_digit(alloc, b"settle ", value),
    }
}

/// Returns the words of a read's end: its value, and the value last written, if that is another one.
fn value_words(alloc: Global, written: bool, value: bool) -> Result<Vec<u8>, AllocError>
    ensures { IfOk result (λ text. text.items ≡ words_of written (Move.EndRead value)) }
{
    let mut text = with_digit(alloc, b"\xE2\x86\x92 ", value)?;
    if value != written {
        text.extend_from_slice(b" \xE2\x89\xA0 ")?;
        push_digit(written, &mut text)?;
    }
    Ok(text)
}

/// Returns a word and a value after it.
fn with_digit(alloc: Global, before: &[u8], value: bool) -> Result<Vec<u8>, AllocError>
    ensures { IfOk result (λ text. text.items ≡ before.now ++ bit_word value) }
{
    let mut text = word(alloc, before)?;
    push_digit(value, &mut text)?;
    Ok(text)
}

/// Returns a word.
fn word(alloc: Global, bytes: &[u8]) -> Result<Vec<u8>, AllocError>
    ensures { IfOk result (λ text. text.items ≡ bytes.now) }
{
    let mut text = Vec::new(alloc);
    text.extend_from_slice(bytes)?;
    Ok(text)
}

/// Returns a value as a digit.
fn digit(alloc: Global, value: bool) -> Result<Vec<u8>, AllocError>
    ensures { IfOk result (λ text. text.items ≡ bit_word value) }
{
    let mut text = Vec::new(alloc);
    push_digit(value, &mut text)?;
    Ok(text)
}

/// Appends a value as a digit.
fn push_digit(value: bool, text: &mut Vec<u8>) -> Result<(), AllocError>
    ensures { OnOk result (text.new.items ≡ text.old.items ++ bit_word value) }
{
    match value {
        true => text.extend_from_slice(b"1"),
        false => text.extend_from_slice(b"0"),
    }
}

/// Returns the name of the bit of an access, as a record file spells it.
fn cell_name(alloc: Global, access: &Access) -> Result<Vec<u8>, AllocError>
    ensures { IfOk result (λ text. text.items ≡ copy_word access.now) }
{
    let Access {
        owner,
        bit,
        reader,
        ..
    } = *access;
    let field = access.field.word();
    let text = format!(in alloc; "{owner}.{field}.{bit}.{reader}")?;
    Ok(text.into_bytes())
}
