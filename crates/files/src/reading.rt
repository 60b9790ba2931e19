//! Reading a file of lines, by any grammar.
ghost use Rattle.std.specs.Prelude.{◌≡◌, ◌≤◌, [], ◌∷◌, ◌++◌, if◌then◌else◌, length, OnErr, OnOk};
ghost use Rattle.files.specs.Files.{Grammar, file_of, line_read, words_read, statement_read, one_more};
ghost use Rattle.files.specs.Limits.{is_said as said, said_numbers};
ghost use Rattle.files.specs.Reads.{Makes, MakesFile, Takes};
ghost use Rattle.files.specs.Words.{lines, texts, words_of};

use crate::faults::{FaultKind, LineFault};
use crate::words::add_words;
use bstr::ByteSlice;
use smallvec::SmallVec;
use std::alloc::{AllocError, Global};

/// The most lines of a file, skipped ones among them.
const MOST_LINES: u64 = 4096;

/// The most bytes of a line, without its end.
pub(crate) const MOST_BYTES: usize = 128;

/// The most lines that a file has after its headings.
const MOST_KEPT: usize = 4000;

/// A value that is read line by line, by a grammar of its own. A line is its first word and the words after it.
pub trait FromLines: Sized + Drop {
    ghost grammar: { Grammar Self };

    /// Reads the first line that is not skipped.
    ///
    /// # Errors
    ///
    /// Returns the fault that the grammar gives, or [`FaultKind::Memory`] if memory runs out.
    fn first(alloc: Global, word: &[u8], words: &[&[u8]]) -> Result<Self, FaultKind>
        ensures { Makes result (grammar.first word.now (texts words.now)) };

    /// Reads a later line. After an `Err` no more is read.
    ///
    /// # Errors
    ///
    /// Returns the fault that the grammar gives, or [`FaultKind::Memory`] if memory runs out.
    fn later(&mut self, word: &[u8], words: &[&[u8]]) -> Result<(), FaultKind>
        ensures { Takes result (grammar.later word.now (texts words.now) self.old) self.new };
}

/// Reads a whole file, and adds the number of each line that is not skipped. Lines are counted from 1, skipped ones too.
///
/// # Errors
///
/// Returns the first fault of the first line that has one. A fault of kind `Memory` may name any line. Afterwards `numbers` may
/// hold the numbers of some lines.
#[tactic(auto, using(crate::proofs::Ends::lines_agree, crate::proofs::Numbers::numbers_more))]
pub fn read_file<T: FromLines>(
    alloc: Global,
    text: &[u8],
    numbers: &mut Vec<u16>,
) -> Result<T, LineFault>
    ensures said { MakesFile result (file_of T.grammar text.now) }
    ensures numbers { OnOk result
        (numbers.new.items ≡ numbers.old.items ++ said_numbers 1 (lines text.now)) }
{
    let mut read = None;
    let mut number = 0;
    for line in text.lines() {
        number += 1;
        if let Err(kind) = read_line(alloc, number, line, &mut read, numbers) {
            return Err(LineFault { line: number, kind });
        }
    }
    read.ok_or(LineFault {
        line: number + 1,
        kind: FaultKind::NotFirst,
    })
}

/// Reads one line after the lines before it, and adds its number unless it is skipped.
fn read_line<T: FromLines>(
    alloc: Global,
    number: u64,
    line: &[u8],
    read: &mut Option<T>,
    numbers: &mut Vec<u16>,
) -> Result<(), FaultKind>
    ensures read { Takes result (line_read T.grammar number line.now read.old) read.new }
    ensures numbers { OnOk result
        (numbers.new.items ≡ numbers.old.items ++ said_numbers number (line.now ∷ [])) }
{
    // (one condition: the proof answers this one, and that of the mutant in must-fail/)
    let is_beyond = (number > MOST_LINES) | (line.len() > MOST_BYTES);
    if is_beyond {
        return Err(FaultKind::TooLong);
    }
    let mut words = SmallVec::new(alloc);
    add_words(line, &mut words)?;
    add_number(words.as_slice(), number, numbers)?;
    read_words(alloc, words.as_slice(), read)
}

/// Adds the number of a line of these words, unless it is skipped.
fn add_number(words: &[&[u8]], number: u64, numbers: &mut Vec<u16>) -> Result<(), AllocError>
    requires { number ≤ 4096 }
    ensures { OnOk result (numbers.new.items
        ≡ numbers.old.items ++ (if said (texts words.now) then number ∷ [] else [])) }
{
    if is_said(words) {
        numbers.push(number as u16)?;
    }
    Ok(())
}

/// Returns whether reading does not skip a line of these words.
fn is_said(words: &[&[u8]]) -> bool
    ensures { result ≡ said (texts words.now) }
{
    let Some((first, _)) = words.split_first() else {
        return false;
    };
    first.first() != Some(&b'#')
}

/// Reads one line after the lines before it, of any length and any number. It is for a caller that has limits of
/// its own.
///
/// # Errors
///
/// Returns the fault that the grammar gives, or [`FaultKind::Memory`] if memory runs out.
pub fn read_any_line<T: FromLines>(
    alloc: Global,
    line: &[u8],
    read: &mut Option<T>,
) -> Result<(), FaultKind>
    ensures { Takes result (words_read T.grammar (words_of line.now) read.old) read.new }
{
    let mut words = SmallVec::new(alloc);
    add_words(line, &mut words)?;
    read_words(alloc, words.as_slice(), read)
}

fn read_words<T: FromLines>(
    alloc: Global,
    words: &[&[u8]],
    read: &mut Option<T>,
) -> Result<(), FaultKind>
    ensures { Takes result (words_read T.grammar (texts words.now) read.old) read.new }
{
    let Some((first, rest)) = words.split_first() else {
        return Ok(());
    };
    if first.first() == Some(&b'#') {
        return Ok(());
    }
    read_statement(alloc, first, rest, read)
}

/// Reads a line that is not skipped.
fn read_statement<T: FromLines>(
    alloc: Global,
    first: &[u8],
    rest: &[&[u8]],
    read: &mut Option<T>,
) -> Result<(), FaultKind>
    ensures { Takes result (statement_read T.grammar first.now (texts rest.now) read.old) read.new }
{
    match read {
        None => {
            *read = Some(T::first(alloc, first, rest)?);
            Ok(())
        }
        Some(read) => read.later(first, rest),
    }
}

/// Keeps one more line after the headings.
/// A file has at most 4,000 such lines.
///
/// # Errors
///
/// Returns [`FaultKind::TooLong`] if there are 4,000 lines already, or [`FaultKind::Memory`] if memory runs out. The
/// lines are then unchanged.
pub fn keep_line<T: Drop>(lines: &mut Vec<T>, line: T) -> Result<(), FaultKind>
    ensures value { Takes result (one_more lines.old.items line) lines.new.items }
    ensures lines { OnOk result (lines.new.items ≡ lines.old.items ++ line ∷ []) }
    ensures err { OnErr result (lines.new.items ≡ lines.old.items) }
    ensures bounded { length lines.old.items ≤ 4000 → length lines.new.items ≤ 4000 }
{
    if lines.len() >= MOST_KEPT {
        return Err(FaultKind::TooLong);
    }
    match lines.push(line) {
        Ok(()) => Ok(()),
        Err(_) => Err(FaultKind::Memory),
    }
}
