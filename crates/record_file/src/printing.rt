//! Printing a record: its head, and then each entry as a line.
ghost use Rattle.std.specs.Prelude.{◌≡◌, ◌++◌, flat_map, IfOk, OnOk, true};
ghost use Rattle.std.specs.String.{string_bytes};
ghost use Rattle.scenario.specs.{printed_line};
ghost use Rattle.record_file.specs.Printing.{behind_spaces, entry_line, front_text, head_words, marks_text, signed_words};
ghost use Rattle.record_file.specs.Given.{is_entry};
ghost use Rattle.record_file.specs.ReadAgain.{GivesBeginning, PrintedRecordsAreReadAgain};

use crate::sound::sound_entry;
use crate::steps::StepLine;
use itoa::Buffer;
use model::{Access, Entry, Mark};
use plain_store::{NestedTypes, Setup};
use scenario::printing::{print_opening, setup_lines};
use std::alloc::{AllocError, Global};

/// Returns the lines before the entries: the version, all four headings, and the opening pairs. Together with the lines of
/// any entries after them, each of which fits its line, they are read as that setup and those entries. The text that is
/// printed for any setup and entries that fit is read as these.
pub fn print_setup(alloc: Global, setup: &Setup) -> Result<Vec<u8>, AllocError>
    ensures lines { IfOk result (λ b. b.items ≡ flat_map printed_line (head_words setup.now)) }
    ensures read_again { GivesBeginning result setup.now }
    ensures law { PrintedRecordsAreReadAgain }
{
    setup.opening.pairs_are_sound();
    let mut text = setup_lines(alloc, "record", setup)?;
    print_opening(alloc, &setup.opening, &mut text)?;
    Ok(text.into_bytes())
}

/// Writes the line of an entry, with its end, after the text. A text that is kept from one entry to the next, and
/// cleared, soon has room for each line.
///
/// # Errors
///
/// Returns [`AllocError`] if memory runs out. The text may then end with a part of the line.
#[tactic(auto, using(crate::proofs::Printed::entry_is))]
pub fn print_entry(alloc: Global, entry: &Entry, text: &mut Vec<u8>) -> Result<(), AllocError>
    ensures line { OnOk result (text.new.items ≡ text.old.items ++ entry_line entry.now) }
    ensures sound { is_entry entry.now ≡ true }
{
    sound_entry(entry);
    push_words(entry.process, &entry.act.access, text)?;
    push_marks(alloc, &entry.act.marks, text)?;
    text.extend_from_slice(b"\n")
}

/// Writes the words of a process and of its access, if there is one.
#[tactic(auto, using(crate::proofs::Printed::no_access_is))]
fn push_words(process: u8, access: &Option<Access>, text: &mut Vec<u8>) -> Result<(), AllocError>
    ensures { OnOk result (text.new.items ≡ text.old.items ++ front_text process access.now) }
{
    let Some(access) = access else {
        return text.extend_from_slice(Buffer::new().format(process).as_bytes());
    };
    let mut line = StepLine::new();
    line.print_words(process, *access);
    text.extend_from_slice(line.as_bytes())
}

/// Writes the marks, each after its sign.
fn push_marks(alloc: Global, marks: &[Mark], line: &mut Vec<u8>) -> Result<(), AllocError>
    ensures { OnOk result (line.new.items ≡ line.old.items ++ marks_text marks.now) }
{
    let _nested: NestedTypes = None;
    for mark in marks {
        let text = mark_text(alloc, mark)?;
        line.extend_from_slice(text.as_bytes())?;
    }
    Ok(())
}

#[tactic(auto, using(crate::proofs::Printed::signed_is))]
fn mark_text(alloc: Global, mark: &Mark) -> Result<String, AllocError>
    ensures { IfOk result (λ text. string_bytes text ≡ behind_spaces (signed_words mark.now)) }
{
    let _nested: NestedTypes = None;
    format!(in alloc; " : {mark}")
}
