//! The lines of what comes next of a process, and the line of the newest entry.
ghost use Rattle.std.specs.Prelude.{◌≡◌, ◌+◌, ◌++◌, codes, drop, IfOk, OnOk};
ghost use Rattle.judge.specs.record_file.{entry_line};
ghost use Rattle.run_state.specs.Processes.{behind_process, lines_of_two, next_line, words_added};

use crate::called::push_head;
use judge::print_entry;
use model::Entry;
use std::alloc::{AllocError, Global};

/// Writes what a step of a process adds with either flick: these entries.
pub(crate) fn push_next(
    alloc: Global,
    process: u8,
    first: &Option<Entry>,
    second: &Option<Entry>,
    text: &mut Vec<u8>,
) -> Result<(), AllocError>
    ensures { OnOk result (text.new.items ≡ text.old.items
        ++ lines_of_two process (words_added first.now) (words_added second.now)) }
{
    let words = words_added(alloc, first)?;
    let others = words_added(alloc, second)?;
    push_lines_of_two(alloc, process, words.as_slice(), others.as_slice(), text)
}

/// Writes a line of what comes next with either flick, or one line if both have the same words.
fn push_lines_of_two(
    alloc: Global,
    process: u8,
    words: &[u8],
    others: &[u8],
    text: &mut Vec<u8>,
) -> Result<(), AllocError>
    ensures { OnOk result (text.new.items ≡ text.old.items
        ++ lines_of_two process words.now others.now) }
{
    push_next_line(alloc, process, words, text)?;
    if words == others {
        return Ok(());
    }
    push_next_line(alloc, process, others, text)
}

/// Writes a line of what comes next.
fn push_next_line(
    alloc: Global,
    process: u8,
    words: &[u8],
    text: &mut Vec<u8>,
) -> Result<(), AllocError>
    ensures { OnOk result (text.new.items ≡ text.old.items ++ next_line process words.now) }
{
    push_head(alloc, process, "next ", text)?;
    text.extend_from_slice(words)
}

/// Returns what `record` writes of an entry after its process, if there is one.
fn words_added(alloc: Global, entry: &Option<Entry>) -> Result<Vec<u8>, AllocError>
    ensures { IfOk result (λ words. words.items ≡ words_added entry.now) }
{
    match entry {
        None => Ok(Vec::new(alloc)),
        Some(entry) => behind_process(alloc, entry),
    }
}

/// Returns what `record` writes of an entry after its process.
fn behind_process(alloc: Global, entry: &Entry) -> Result<Vec<u8>, AllocError>
    ensures { IfOk result (λ words. words.items ≡ behind_process entry.now) }
{
    let process = entry.process;
    let digits = format!(in alloc; "{process}")?;
    let mut line = Vec::new(alloc);
    print_entry(alloc, entry, &mut line)?;
    behind(line.as_slice(), digits.len()).to_vec(alloc)
}

/// Returns the part of a line after its first `bytes` bytes and one more.
#[tactic(auto, using(std::proofs::lemmas::List::take_rest, std::proofs::lemmas::List::drop_all))]
fn behind(line: &[u8], bytes: usize) -> &[u8]
    ensures { result.now ≡ drop (bytes + 1) line.now }
{
    if line.len() <= bytes {
        return &[];
    }
    &line[bytes + 1..]
}

/// Writes the line of the newest entry.
pub(crate) fn push_newest(
    alloc: Global,
    entry: &Entry,
    text: &mut Vec<u8>,
) -> Result<(), AllocError>
    ensures { OnOk result (text.new.items ≡ text.old.items ++ (codes "last "
        ++ entry_line entry.now)) }
{
    text.extend_from_slice(b"last ")?;
    print_entry(alloc, entry, text)
}
