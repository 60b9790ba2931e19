//! Reads the marks of an entry.
ghost use Rattle.std.specs.Prelude.{◌≡◌, ◌∷◌, ◌+◌, ◌<◌, ◌≤◌, IfOk, IfSome, length};
ghost use Rattle.std.specs.List.{position};
ghost use Rattle.files.specs.{texts};
ghost use Rattle.trace_file.specs.Reading.{is_sign as sign, mark_of, marks_behind, parts_behind, parts_of, with_mark as one_more};

use crate::faults::both;
use crate::keywords::lock_mark;
use files::FaultKind;
use smallvec::SmallVec;
use std::alloc::Global;
use std::marker::Model;
use trace::LockMark;

/// The most marks of an entry.
pub const MOST_MARKS: usize = 4;

/// The marks that were read so far, which are stored in place. Contracts see them as a list.
#[derive(Drop)]
pub(crate) struct LockMarks {
    pub read: SmallVec<LockMark, 4>,
}

impl Model for LockMarks {
    ghost use Rattle.std.specs.Prelude.{List, ◌≤◌};
    ghost use Rattle.trace.specs.{LockMark};

    ghost Value = { List LockMark };

    ghost view = { λ m. m.read.items };

    ghost invariant = { λ m. 4 ≤ m.read.capacity };
}

/// Returns the marks after the first sign, if there is a sign.
///
/// # Errors
///
/// Returns the first fault in the order of faults.
pub(crate) fn marks(alloc: Global, signed: Option<&[&[u8]]>) -> Result<LockMarks, FaultKind>
    ensures { result ≡ marks_behind signed.entry }
{
    let mut marks = Ok(LockMarks {
        read: SmallVec::new(alloc),
    });
    let mut number = 0;
    let mut remaining = signed;
    'marks: while let Some(words) = remaining {
        let (part, behind) = up_to_sign(words);
        marks = with_mark(number, marks, mark(part));
        number += 1;
        remaining = behind;
    }
    marks
}

/// Returns the mark in the words after a sign.
fn mark(words: &[&[u8]]) -> Result<LockMark, FaultKind>
    ensures { result ≡ mark_of (texts words.now) }
{
    let [name, behind @ ..] = words else {
        return Err(FaultKind::Words);
    };
    let Some(mark) = lock_mark(name) else {
        return Err(FaultKind::Unknown);
    };
    if behind.is_empty() {
        Ok(mark)
    } else {
        Err(FaultKind::Words)
    }
}

/// Adds a mark to those before it, which are `number` marks.
fn with_mark(
    number: usize,
    before: Result<LockMarks, FaultKind>,
    mark: Result<LockMark, FaultKind>,
) -> Result<LockMarks, FaultKind>
    requires { IfOk before (λ marks. length marks ≤ number) }
    ensures value { result ≡ one_more number before mark }
    ensures bounded { IfOk result (λ marks. length marks ≤ number + 1) }
{
    let few = if number < MOST_MARKS {
        Ok(())
    } else {
        Err(FaultKind::Words)
    };
    let ((mut marks, mark), ()) = both(both(before, mark), few)?;
    marks.read.push_reserved(mark);
    Ok(marks)
}

/// Returns the words before the first sign, and the words after it, if there is a sign.
#[tactic(auto, using(crate::proofs::Cuts::words_cut, crate::proofs::Cuts::words_uncut))]
pub fn up_to_sign<'a, 'w>(words: &'a [&'w [u8]]) -> (&'a [&'w [u8]], Option<&'a [&'w [u8]]>)
    ensures split { parts_of (texts words.now) ≡ texts result.0.now ∷ parts_behind result.1 }
    ensures shorter { IfSome result.1 (λ behind. length behind.now < length words.now) }
{
    match offset_of_sign(words) {
        None => (words, None),
        Some(at) => (&words[..at], Some(&words[at + 1..])),
    }
}

/// Returns the number of words before the first sign, if there is one.
fn offset_of_sign(words: &[&[u8]]) -> Option<usize>
    ensures place { result ≡ position (λ w. sign w.now) words.now }
    ensures within { IfSome result (λ at. at < length words.now) }
{
    words.iter().position(|word| is_sign(word))
}

/// Returns whether a word is the sign before a mark.
pub fn is_sign(word: &[u8]) -> bool
    ensures { result ≡ sign word.now }
{
    word == b":".as_slice()
}
