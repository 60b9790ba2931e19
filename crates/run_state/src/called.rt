//! The lines of the call of a process.
ghost use Rattle.std.specs.Prelude.{◌≡◌, ◌++◌, IfOk, OnOk, Some, codes, option_map};
ghost use Rattle.std.specs.Fmt.{decimal};
ghost use Rattle.std.specs.String.{string_bytes};
ghost use Rattle.plain_store.specs.{reply_text};
ghost use Rattle.run_state.specs.Lines.{at_words, call_lines, call_words, line_if, open_lines, process_line, span_words, taken_words};

use calls::Called;
use model::Taken;
use plain_store::{NestedTypes, Reply};
use std::alloc::{AllocError, Global};

/// Writes the start of a line of a process.
pub(crate) fn push_head(
    alloc: Global,
    process: u8,
    words: &str,
    text: &mut Vec<u8>,
) -> Result<(), AllocError>
    ensures { OnOk result (text.new.items ≡ text.old.items
        ++ (codes "process " ++ (decimal process ++ (codes " " ++ words.now)))) }
{
    let head = format!(in alloc; "process {process} {words}")?;
    text.extend_from_slice(head.as_bytes())
}

/// Writes a line of a process.
pub(crate) fn push_line(
    alloc: Global,
    process: u8,
    words: &str,
    text: &mut Vec<u8>,
) -> Result<(), AllocError>
    ensures { OnOk result (text.new.items ≡ text.old.items ++ process_line process words.now) }
{
    push_head(alloc, process, words, text)?;
    text.extend_from_slice(b"\n")
}

/// Writes a line of a process, and drops its words here, so that the caller has none to drop.
pub(crate) fn push_words(
    alloc: Global,
    process: u8,
    words: String,
    text: &mut Vec<u8>,
) -> Result<(), AllocError>
    ensures { OnOk result (text.new.items ≡ text.old.items
        ++ process_line process (string_bytes words)) }
{
    push_line(alloc, process, &words, text)
}

/// Writes a line of a process that ends with this value.
pub(crate) fn push_value_line(
    alloc: Global,
    process: u8,
    words: &str,
    value: &[u8],
    text: &mut Vec<u8>,
) -> Result<(), AllocError>
    ensures { OnOk result (text.new.items ≡ text.old.items ++ process_line process (words.now
        ++ value.now)) }
{
    push_head(alloc, process, words, text)?;
    text.extend_from_slice(value)?;
    text.extend_from_slice(b"\n")
}

/// Writes a line of a process, if there are words for it.
pub(crate) fn push_line_if(
    alloc: Global,
    process: u8,
    words: Option<String>,
    text: &mut Vec<u8>,
) -> Result<(), AllocError>
    ensures { OnOk result (text.new.items ≡ text.old.items
        ++ line_if process (option_map string_bytes words)) }
{
    match words {
        None => Ok(()),
        Some(words) => push_words(alloc, process, words, text),
    }
}

/// Writes the lines of the call of a process, if it has one.
pub(crate) fn push_open(
    alloc: Global,
    process: u8,
    history: &[Taken],
    call: &Option<Called>,
    text: &mut Vec<u8>,
) -> Result<(), AllocError>
    ensures { OnOk result (text.new.items ≡ text.old.items
        ++ open_lines process history.now call.now) }
{
    match call {
        None => Ok(()),
        Some(called) => push_call(alloc, process, history, called, text),
    }
}

/// Writes the lines of a call of a process.
fn push_call(
    alloc: Global,
    process: u8,
    history: &[Taken],
    called: &Called,
    text: &mut Vec<u8>,
) -> Result<(), AllocError>
    ensures { OnOk result (text.new.items ≡ text.old.items
        ++ call_lines process history.now called.now) }
{
    let marks = &called.marks;
    let words = call_words(alloc, called)?;
    push_words(alloc, process, words, text)?;
    push_span(
        alloc,
        process,
        "doorway",
        called.accesses.doorway,
        marks.door_end,
        text,
    )?;
    push_span(
        alloc,
        process,
        "inside",
        marks.entered,
        marks.remaining,
        text,
    )?;
    let taken = taken_words(alloc, history, marks.place, marks.taken)?;
    push_line_if(alloc, process, taken, text)?;
    let withdrew = withdrew_words(alloc, marks.withdrew)?;
    push_line_if(alloc, process, withdrew, text)
}

/// Returns which call it is, its command, and the event with which it began.
fn call_words(alloc: Global, called: &Called) -> Result<String, AllocError>
    ensures { IfOk result (λ words. string_bytes words ≡ call_words called.now) }
{
    let _nested: NestedTypes = None;
    let call = called.call;
    let command = called.command;
    let at = called.called;
    format!(in alloc; "call {call} {command} at {at}")
}

/// Writes from which event to which one `what` lasts, if it has begun.
fn push_span(
    alloc: Global,
    process: u8,
    what: &str,
    from: Option<u64>,
    to: Option<u64>,
    text: &mut Vec<u8>,
) -> Result<(), AllocError>
    ensures { OnOk result (text.new.items ≡ text.old.items
        ++ line_if process (span_words what.now from to)) }
{
    let Some(from) = from else {
        return Ok(());
    };
    let words = since_words(alloc, what, from, to)?;
    push_words(alloc, process, words, text)
}

/// Returns the words of a span that has begun.
fn since_words(alloc: Global, what: &str, from: u64, to: Option<u64>) -> Result<String, AllocError>
    ensures { IfOk result (λ words. Some (string_bytes words)
        ≡ span_words what.now (Some from) to) }
{
    match to {
        None => format!(in alloc; "{what} from {from}"),
        Some(to) => format!(in alloc; "{what} from {from} to {to}"),
    }
}

/// Returns with which event a call was withdrawn, if it was.
fn withdrew_words(alloc: Global, at: Option<u64>) -> Result<Option<String>, AllocError>
    ensures { IfOk result (λ words. option_map string_bytes words
        ≡ at_words (codes "withdrew") at) }
{
    match at {
        None => Ok(None),
        Some(at) => Ok(Some(format!(in alloc; "withdrew at {at}")?)),
    }
}

/// Returns the position of a command in the history, its reply and the event with which it took effect, if it did.
fn taken_words(
    alloc: Global,
    history: &[Taken],
    place: Option<u64>,
    at: Option<u64>,
) -> Result<Option<String>, AllocError>
    ensures { IfOk result (λ words. option_map string_bytes words
        ≡ taken_words history.now place at) }
{
    let Some(place) = place else {
        return Ok(None);
    };
    let Some(at) = at else {
        return Ok(None);
    };
    match history.get(place as usize) {
        None => Ok(None),
        Some(taken) => Ok(Some(taking_words(alloc, place, taken.reply, at)?)),
    }
}

/// Returns the words of a command that took effect.
fn taking_words(alloc: Global, place: u64, reply: Reply, at: u64) -> Result<String, AllocError>
    ensures { IfOk result (λ words. string_bytes words ≡ codes "taken " ++ (decimal place
        ++ (codes " " ++ (reply_text reply ++ (codes " at " ++ decimal at))))) }
{
    format!(in alloc; "taken {place} {reply} at {at}")
}
