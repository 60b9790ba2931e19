//! The sentence of a verdict.
ghost use Rattle.std.specs.Prelude.{◌≡◌, ◌++◌, IfOk, OnOk};
ghost use Rattle.shown_verdict.specs.Lines.{report_lines};
ghost use Rattle.shown_verdict.specs.Sentences.{broken_by, deed_of, entered_before as before_words, entered_beside as beside_words, good_sentence, law_broken as broken_words, other_process as other_named, process_words, sentence_of as words_of};

use crate::lines::{behind_space, process_of, text_behind};
use std::alloc::{AllocError, Global};

/// Returns the sentence of a report.
pub(crate) fn sentence_of(alloc: Global, report: &[u8]) -> Result<Vec<u8>, AllocError>
    ensures { IfOk result (λ sentence. sentence.items ≡ words_of (report_lines report.now)) }
{
    let Some(bad) = text_behind(b"bad ", report) else {
        return all_kept(alloc, text_behind(b"good ", report).is_some());
    };
    match text_behind(b"is ", report) {
        Some(is) => law_broken(
            alloc,
            behind_space(bad),
            process_of(is),
            other_process(report),
        ),
        None => Ok(Vec::new(alloc)),
    }
}

/// Returns the sentence of a good verdict, and no byte without a verdict.
fn all_kept(alloc: Global, is_good: bool) -> Result<Vec<u8>, AllocError>
    ensures { IfOk result (λ words. words.items ≡ good_sentence is_good) }
{
    let mut words = Vec::new(alloc);
    if is_good {
        words.extend_from_slice(b"each entry keeps all laws")?;
    }
    Ok(words)
}

/// Returns the process that is inside, or the first one that waits, if a line names it.
fn other_process(report: &[u8]) -> Option<u8>
    ensures { result ≡ other_named (report_lines report.now) }
{
    let inside = text_behind(b"inside ", report);
    let other = inside.or(text_behind(b"waits ", report));
    match other {
        Some(rest) => Some(process_of(rest)),
        None => None,
    }
}

/// Returns the sentence that a process breaks this law.
fn law_broken(
    alloc: Global,
    law: &[u8],
    process: u8,
    other: Option<u8>,
) -> Result<Vec<u8>, AllocError>
    ensures { IfOk result (λ words. words.items ≡ broken_words law.now process other) }
{
    let Some(other) = other else {
        return broken(alloc, law, process);
    };
    if law == b"together".as_slice() {
        entered_beside(alloc, process, other)
    } else if law == b"overtaken".as_slice() {
        entered_before(alloc, process, other)
    } else {
        broken(alloc, law, process)
    }
}

/// Returns the sentence that a process enters while another is inside.
fn entered_beside(alloc: Global, process: u8, other: u8) -> Result<Vec<u8>, AllocError>
    ensures { IfOk result (λ words. words.items ≡ beside_words process other) }
{
    let words = format!(in alloc; "process {process} enters while process {other} is inside")?;
    Ok(words.into_bytes())
}

/// Returns the sentence that a process enters before another that is ahead of it.
fn entered_before(alloc: Global, process: u8, other: u8) -> Result<Vec<u8>, AllocError>
    ensures { IfOk result (λ words. words.items ≡ before_words process other) }
{
    let words = format!(in alloc;
        "process {process} enters although process {other} had finished its doorway first"
    )?;
    Ok(words.into_bytes())
}

/// Returns the sentence that a process breaks a law, without another process.
fn broken(alloc: Global, law: &[u8], process: u8) -> Result<Vec<u8>, AllocError>
    ensures { IfOk result (λ words. words.items ≡ broken_by law.now process) }
{
    let mut words = front(alloc, process)?;
    add_deed(law, &mut words)?;
    Ok(words)
}

/// Returns how such a sentence begins.
fn front(alloc: Global, process: u8) -> Result<Vec<u8>, AllocError>
    ensures { IfOk result (λ words. words.items ≡ process_words process) }
{
    let words = format!(in alloc; "process {process}")?;
    Ok(words.into_bytes())
}

/// Adds what the process does that breaks this law.
fn add_deed(law: &[u8], words: &mut Vec<u8>) -> Result<(), AllocError>
    ensures { OnOk result (words.new.items ≡ words.old.items ++ deed_of law.now) }
{
    if law == b"safe".as_slice() {
        words.extend_from_slice(b" reads a value that a safe bit may not give")
    } else if law == b"memory".as_slice() {
        words.extend_from_slice(b" reads a value that its memory may not give")
    } else if law == b"access".as_slice() {
        words.extend_from_slice(b" makes an access that the rules refuse")
    } else if law == b"marks".as_slice() {
        words.extend_from_slice(b" has a mark that the rules refuse")
    } else if law == b"history".as_slice() {
        words.extend_from_slice(b" takes its command at a wrong position or with a wrong reply")
    } else {
        words.extend_from_slice(b" breaks the law ")?;
        words.extend_from_slice(law)
    }
}
