//! Reading an entry by its words.
ghost use Rattle.std.specs.Prelude.{◌≡◌, ◌∷◌, [], ◌+◌, ◌<◌, ◌≤◌, Ok, IfOk, IfSome, length};
ghost use Rattle.std.specs.List.{position};
ghost use Rattle.files.specs.{texts};
ghost use Rattle.record_file.specs.Reading.{entry_of, entry_with, is_sign as sign, marks_behind, parts_behind, parts_of, with_mark as one_more};

use crate::accesses::access;
use crate::faults::both;
use crate::marks::mark;
use files::FaultKind;
use model::{Access, Act, Entry, Mark};
use plain_store::NestedTypes;
use scenario::operands::process;
use smallvec::SmallVec;
use std::alloc::Global;
use std::marker::Model;

/// The most marks of an entry.
const MOST_MARKS: usize = 3;

/// The marks that were read so far, stored in place. Contracts see their list.
#[derive(Drop)]
struct MarkList {
    read: SmallVec<Mark, 3>,
}

impl Model for MarkList {
    ghost use Rattle.std.specs.Prelude.{List, ◌≤◌};
    ghost use Rattle.model.specs.{Mark};

    ghost Value = { List Mark };

    ghost view = { λ m. m.read.items };

    ghost invariant = { λ m. 3 ≤ m.read.capacity };
}

/// Returns the entry that a line specifies, by its first word and the words after it. Each entry that is spelled rightly
/// is accepted, even if no run makes it. The function allocates nothing.
///
/// # Errors
///
/// Returns the fault of the line that comes first in the order of faults.
pub fn read_entry(alloc: Global, first: &[u8], words: &[&[u8]]) -> Result<Entry, FaultKind>
    ensures { result ≡ entry_of first.now (texts words.now) }
{
    let _nested: NestedTypes = None;
    let (place, signed) = up_to_sign(words);
    let (process, access) = (process(first), access(place));
    if signed.is_some() {
        return marked_entry(alloc, process, access, signed);
    }
    let (process, access) = both(process, access)?;
    Ok(Entry {
        process,
        act: Act {
            access,
            marks: SmallVec::new(alloc),
        },
    })
}

/// Returns an entry with the marks after the first sign. Most entries have none, and their room for marks is not moved
/// through here.
fn marked_entry(
    alloc: Global,
    process: Result<u8, FaultKind>,
    access: Result<Option<Access>, FaultKind>,
    signed: Option<&[&[u8]]>,
) -> Result<Entry, FaultKind>
    ensures { result ≡ entry_with process access (marks_behind signed.entry) }
{
    let _nested: NestedTypes = None;
    let ((process, access), marks) = both(both(process, access), marks(alloc, signed))?;
    Ok(Entry {
        process,
        act: Act {
            access,
            marks: marks.read,
        },
    })
}

/// Reads the marks after the first sign, if there is one.
fn marks(alloc: Global, signed: Option<&[&[u8]]>) -> Result<MarkList, FaultKind>
    ensures { result ≡ marks_behind signed.entry }
{
    let mut marks = Ok(MarkList {
        read: SmallVec::new(alloc),
    });
    let mut number = 0;
    let mut remaining = signed;
    'marks: while let Some(words) = remaining {
        let (part, behind) = up_to_sign(words);
        marks = with_mark(number, marks, mark(part));
        number += 1;
        remaining = behind;
    }
    marks
}

/// Adds one more mark after `number` others. A line has at most three marks.
fn with_mark(
    number: usize,
    before: Result<MarkList, FaultKind>,
    mark: Result<Mark, FaultKind>,
) -> Result<MarkList, FaultKind>
    requires { IfOk before (λ marks. length marks ≤ number) }
    ensures value { result ≡ one_more number before mark }
    ensures bounded { IfOk result (λ marks. length marks ≤ number + 1) }
{
    let _nested: NestedTypes = None;
    let few = if number < MOST_MARKS {
        Ok(())
    } else {
        Err(FaultKind::Words)
    };
    let ((mut marks, mark), ()) = both(both(before, mark), few)?;
    marks.read.push_reserved(mark);
    Ok(marks)
}

/// Returns the words before the first sign, and the words after it, if there is a sign.
#[tactic(auto, using(crate::proofs::Cuts::words_cut, crate::proofs::Cuts::words_uncut))]
fn up_to_sign<'a, 'w>(words: &'a [&'w [u8]]) -> (&'a [&'w [u8]], Option<&'a [&'w [u8]]>)
    ensures split { parts_of (texts words.now) ≡ texts result.0.now ∷ parts_behind result.1 }
    ensures shorter { IfSome result.1 (λ behind. length behind.now < length words.now) }
{
    match offset_of_sign(words) {
        None => (words, None),
        Some(at) => (&words[..at], Some(&words[at + 1..])),
    }
}

/// Returns the number of words before the first sign, if there is one.
fn offset_of_sign(words: &[&[u8]]) -> Option<usize>
    ensures place { result ≡ position (λ w. sign w.now) words.now }
    ensures within { IfSome result (λ at. at < length words.now) }
{
    words.iter().position(|word| is_sign(word))
}

/// Returns whether a word is the sign before a mark.
pub fn is_sign(word: &[u8]) -> bool
    ensures { result ≡ sign word.now }
{
    word == b":".as_slice()
}
