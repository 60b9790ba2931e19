//! Reads a line of a trace. Nearly all lines are entries without a fault, so these take a short path: their words are read one
//! after the other, and no list of words is made.
ghost use Rattle.std.specs.Prelude.{◌≡◌, ◌∷◌, ◌<◌, [], ◌≤◌, length, IfSome, MatchOption, false};
ghost use Rattle.std.specs.List.{after_first, before_first, position};
ghost use Rattle.files.specs.{Takes, is_blank as blank, words_of, words_read};
ghost use Rattle.trace_file.specs.Lines.{AreMarks, IsAccess, IsEntry, IsGiven, IsMove, IsValue};
ghost use Rattle.trace_file.specs.Reading.{is_sign as sign};
ghost use Rattle.trace_file.specs.TraceFiles.{trace_grammar};

use crate::cells::cell;
use crate::keywords::{MoveWord, lock_mark};
use crate::marks::{MOST_MARKS, is_sign};
use crate::numbers::{process, value};
use crate::reader::TraceReader;
use files::{FaultKind, read_any_line};
use smallvec::SmallVec;
use std::alloc::Global;
use trace::{CellAccess, CellMove, LockMark, TraceEntry, TraceRegister};

/// Reads one more line of any length. An entry without a fault allocates no memory.
///
/// # Errors
///
/// Returns the first fault of the line in the order of faults, or `Memory`. The caller then stops reading.
pub fn read_trace_line(
    alloc: Global,
    line: &[u8],
    read: &mut Option<TraceReader>,
) -> Result<(), FaultKind>
    ensures { Takes result (words_read trace_grammar (words_of line.now) read.old) read.new }
{
    if let Some(reader) = read {
        if reader.take_entry(line) {
            return Ok(());
        }
    }
    read_any_line(alloc, line, read)
}

/// Returns the entry of a line, if the line is an entry without a fault. It allocates no memory.
pub(crate) fn entry_in(
    alloc: Global,
    registers: &[TraceRegister],
    line: &[u8],
) -> Option<TraceEntry>
    requires { length registers.now ≤ 64 }
    ensures { IfSome result (λ entry. IsEntry registers.now (words_of line.now) entry) }
{
    let (first, behind) = next_word(line)?;
    let Ok(process) = process(first) else {
        return None;
    };
    let (second, later) = next_word(behind)?;
    if is_sign(second) {
        let marks = marks_in(alloc, behind)?;
        return Some(TraceEntry {
            process,
            access: None,
            marks,
        });
    }
    let (access, signed) = access_in(registers, second, later)?;
    let marks = marks_in(alloc, signed)?;
    Some(TraceEntry {
        process,
        access: Some(access),
        marks,
    })
}

/// Returns the access that begins with the word of a cell and these bytes, and the bytes after it.
#[inline(always)]
fn access_in<'l>(
    registers: &[TraceRegister],
    place: &[u8],
    line: &'l [u8],
) -> Option<(CellAccess, &'l [u8])>
    requires bounded { length registers.now ≤ 64 }
    requires unsigned { sign place.now ≡ false }
    ensures { IfSome result
        (λ read. IsAccess registers.now (place.now ∷ words_of line.now) read.0 read.1.now) }
{
    let Ok(cell) = cell(registers, place) else {
        return None;
    };
    let (word, behind) = next_word(line)?;
    let name = MoveWord::of(word)?;
    let (how, behind) = move_in(name, behind)?;
    Some((CellAccess { cell, how }, behind))
}

/// Returns the move of this key word whose operands a line begins with, and the bytes after them.
#[inline(always)]
fn move_in(name: MoveWord, line: &[u8]) -> Option<(CellMove, &[u8])>
    ensures { IfSome result (λ read. IsMove name (words_of line.now) read.0 read.1.now) }
{
    match name {
        MoveWord::End => Some((CellMove::End, line)),
        MoveWord::Read => Some((CellMove::Read, line)),
        MoveWord::Write => {
            let (value, behind) = value_in(line)?;
            Some((CellMove::Write(value), behind))
        }
        MoveWord::Value => {
            let (value, behind) = value_in(line)?;
            Some((CellMove::Value(value), behind))
        }
        MoveWord::Set => {
            let (value, behind) = value_in(line)?;
            Some((CellMove::Set(value), behind))
        }
        MoveWord::Get => {
            let (value, behind) = value_in(line)?;
            Some((CellMove::Get(value), behind))
        }
        MoveWord::Swap => {
            let (new, behind) = value_in(line)?;
            let (gives, behind) = given_in(behind)?;
            Some((CellMove::Swap { new, gives }, behind))
        }
        MoveWord::Add => {
            let (addend, behind) = value_in(line)?;
            let (gives, behind) = given_in(behind)?;
            Some((CellMove::Add { addend, gives }, behind))
        }
        MoveWord::Cas => {
            let (expected, behind) = value_in(line)?;
            let (new, behind) = value_in(behind)?;
            let (gives, behind) = given_in(behind)?;
            Some((
                CellMove::Cas {
                    expected,
                    new,
                    gives,
                },
                behind,
            ))
        }
    }
}

/// Returns the value with which a line begins, and the bytes after it.
#[inline(always)]
fn value_in(line: &[u8]) -> Option<(u32, &[u8])>
    ensures { IfSome result (λ read. IsValue (words_of line.now) read.0 read.1.now) }
{
    let (word, behind) = next_word(line)?;
    match value(word) {
        Ok(value) => Some((value, behind)),
        Err(_) => None,
    }
}

/// Returns the value after the word `gives` with which a line begins, and the bytes after it.
fn given_in(line: &[u8]) -> Option<(u32, &[u8])>
    ensures { IfSome result (λ read. IsGiven (words_of line.now) read.0 read.1.now) }
{
    let (word, behind) = next_word(line)?;
    if word != b"gives".as_slice() {
        return None;
    }
    value_in(behind)
}

/// Returns the marks of a line that has only marks, each after its sign.
fn marks_in(alloc: Global, line: &[u8]) -> Option<SmallVec<LockMark, 4>>
    ensures { IfSome result (λ marks. AreMarks (words_of line.now) marks.items) }
{
    let mut marks: SmallVec<LockMark, 4> = SmallVec::new(alloc);
    let mut rest = line;
    'marks: while let Some((sign, behind)) = next_word(rest) {
        let (name, behind) = next_word(behind)?;
        let mark = lock_mark(name)?;
        if !is_sign(sign) || marks.len() >= MOST_MARKS {
            return None;
        }
        marks.push_reserved(mark);
        rest = behind;
    }
    Some(marks)
}

/// Returns the first word of a line and the bytes after it, if the line has a word.
#[inline(always)]
pub(crate) fn next_word(line: &[u8]) -> Option<(&[u8], &[u8])>
    ensures value { MatchOption result (words_of line.now ≡ [])
        (λ read. words_of line.now ≡ read.0.now ∷ words_of read.1.now) }
    ensures shorter { IfSome result (λ read. length read.1.now < length line.now) }
{
    let mut rest = line;
    'words: while !rest.is_empty() {
        let (word, behind) = cut_at_blank(rest);
        if !word.is_empty() {
            return Some((word, behind));
        }
        rest = behind;
    }
    None
}

/// Returns the bytes before the first blank, and those after it.
#[inline(always)]
#[tactic(auto, using(files::proofs::FoundWords::place_or_all, std::proofs::lemmas::List::drop_min, std::proofs::lemmas::List::take_rest))]
fn cut_at_blank(line: &[u8]) -> (&[u8], &[u8])
    ensures before { result.0.now ≡ before_first blank line.now }
    ensures behind { result.1.now ≡ after_first blank line.now }
{
    let at = offset_of_blank(line).unwrap_or(line.len());
    (&line[..at], &line[(at + 1).min(line.len())..])
}

/// Returns the number of bytes before the first blank, if there is one.
#[inline(always)]
fn offset_of_blank(line: &[u8]) -> Option<usize>
    ensures place { result ≡ position blank line.now }
    ensures within { IfSome result (λ at. at < length line.now) }
{
    line.iter().position(|b| is_blank(*b))
}

#[inline(always)]
fn is_blank(b: u8) -> bool
    ensures { result ≡ blank b }
{
    b <= b' ' && (b == b' ' || b == b'\t')
}
