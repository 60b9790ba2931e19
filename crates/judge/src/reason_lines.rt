//! The lines of reasons that all judges have.
ghost use Rattle.std.specs.Prelude.{◌≡◌, ◌++◌, IfOk, OnOk};
ghost use Rattle.std.specs.String.{string_bytes};
ghost use Rattle.auditor.specs.safe_monitor.{entry_by};
ghost use Rattle.judge.specs.ReasonLines.{bad_lines, named_entry, number_line, stage_line, word_line};

use model::{Access, Act, Entry, Mark, Stage};
use plain_store::NestedTypes;
use record_file::print_entry;
use smallvec::SmallVec;
use std::alloc::{AllocError, Global};

/// Returns the entry of a process with this access and these marks.
///
/// # Errors
///
/// Returns [`AllocError`] if memory runs out, which it does not for up to three marks.
pub fn entry_of_parts(
    alloc: Global,
    process: u8,
    access: &Option<Access>,
    marks: &[Mark],
) -> Result<Entry, AllocError>
    ensures { IfOk result (λ entry. entry ≡ entry_by process access.now marks.now) }
{
    let _nested: NestedTypes = None;
    Ok(Entry {
        process,
        act: Act {
            access: *access,
            marks: SmallVec::from_slice(alloc, marks)?,
        },
    })
}

/// Writes the line of a word and a number.
///
/// # Errors
///
/// Returns [`AllocError`] if memory runs out.
pub fn push_number(
    alloc: Global,
    word: &str,
    number: u64,
    text: &mut Vec<u8>,
) -> Result<(), AllocError>
    ensures { OnOk result (text.new.items ≡ text.old.items ++ number_line word.now number) }
{
    let line = number_text(alloc, word, number)?;
    text.extend_from_slice(line.as_bytes())
}

fn number_text(alloc: Global, word: &str, number: u64) -> Result<String, AllocError>
    ensures { IfOk result (λ line. string_bytes line ≡ number_line word.now number) }
{
    format!(in alloc; "{word} {number}\n")
}

/// Writes the line of two words.
///
/// # Errors
///
/// Returns [`AllocError`] if memory runs out.
pub fn push_word(
    alloc: Global,
    name: &str,
    word: &str,
    text: &mut Vec<u8>,
) -> Result<(), AllocError>
    ensures { OnOk result (text.new.items ≡ text.old.items ++ word_line name.now word.now) }
{
    let line = word_text(alloc, name, word)?;
    text.extend_from_slice(line.as_bytes())
}

fn word_text(alloc: Global, name: &str, word: &str) -> Result<String, AllocError>
    ensures { IfOk result (λ line. string_bytes line ≡ word_line name.now word.now) }
{
    format!(in alloc; "{name} {word}\n")
}

/// Writes the line of a word and an entry.
///
/// # Errors
///
/// Returns [`AllocError`] if memory runs out.
#[tactic(auto, using(crate::proofs::Texts::three))]
pub fn push_entry(
    alloc: Global,
    name: &str,
    entry: &Entry,
    text: &mut Vec<u8>,
) -> Result<(), AllocError>
    ensures { OnOk result (text.new.items ≡ text.old.items ++ named_entry name.now entry.now) }
{
    let _nested: NestedTypes = None;
    text.extend_from_slice(name.as_bytes())?;
    text.extend_from_slice(b" ")?;
    print_entry(alloc, entry, text)
}

/// Writes the number of the line of a bad entry, and that entry.
///
/// # Errors
///
/// Returns [`AllocError`] if memory runs out.
#[tactic(auto, using(crate::proofs::Texts::two))]
pub fn push_bad(
    alloc: Global,
    number: u64,
    entry: &Entry,
    text: &mut Vec<u8>,
) -> Result<(), AllocError>
    ensures { OnOk result (text.new.items ≡ text.old.items ++ bad_lines number entry.now) }
{
    let _nested: NestedTypes = None;
    push_number(alloc, "line", number, text)?;
    push_entry(alloc, "is", entry, text)
}

/// Writes the stage of its process, if that exists.
///
/// # Errors
///
/// Returns [`AllocError`] if memory runs out.
#[tactic(auto, using(crate::proofs::Texts::none))]
pub fn push_stage(alloc: Global, stage: Option<Stage>, text: &mut Vec<u8>) -> Result<(), AllocError>
    ensures { OnOk result (text.new.items ≡ text.old.items ++ stage_line stage) }
{
    match stage {
        None => Ok(()),
        Some(stage) => push_word(alloc, "stage", stage.word(), text),
    }
}
