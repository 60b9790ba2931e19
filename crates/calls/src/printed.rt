//! Calls as lines of comma-separated values.
ghost use Rattle.std.specs.Prelude.{◌≡◌, ◌++◌, ◌∷◌, ◌||◌, cond, codes, flat_map, IfOk, OnOk};
ghost use Rattle.std.specs.List.{list_any};
ghost use Rattle.std.specs.String.{string_bytes};
ghost use Rattle.std.specs.Fmt.{decimal};
ghost use Rattle.plain_store.specs.{answer_text, command_text};
ghost use Rattle.calls.specs.Lines.{answer_field, call_head, call_line, doubled, field, is_special as special, line_of, number_field, numbers as numbers_of, number_text, waited as waited_by};

use crate::called::Called;
use plain_store::{Answer, Command, NestedTypes};
use std::alloc::{AllocError, Global};
use std::fmt;

/// The first line of a table.
pub const HEADER: &str =
    "process,call,command,called,doorway,door_end,entered,taken,place,left,answered,failed,withdrew,reads,writes,overlapped,waited,waited_for,answer\n";

/// Appends the line of a call; `newest` is the number of the newest event.
///
/// # Errors
///
/// Fails only if an allocation fails.
pub fn print_call(
    alloc: Global,
    called: &Called,
    newest: u64,
    line: &mut Vec<u8>,
) -> Result<(), AllocError>
    ensures { OnOk result (line.new.items ≡ line.old.items ++ call_line newest called.now) }
{
    let _nested: NestedTypes = None;
    push_head(alloc, line, called)?;
    push_numbers(alloc, line, &numbers(called, newest))?;
    push_answer(alloc, line, &called.marks.answer)?;
    Ok(line.push(b'\n')?)
}

/// Appends the process, the number and the command of a call.
fn push_head(alloc: Global, line: &mut Vec<u8>, called: &Called) -> Result<(), AllocError>
    ensures { OnOk result (line.new.items ≡ line.old.items ++ call_head called.now) }
{
    let _nested: NestedTypes = None;
    push_text(line, head(alloc, called.process, called.call)?)?;
    push_shown(line, command_shown(alloc, &called.command)?)
}

/// Returns the process and the number of a call, each followed by a comma.
fn head(alloc: Global, process: u8, call: u64) -> Result<String, AllocError>
    ensures { IfOk result
        (λ text. string_bytes text
        ≡ decimal process ++ (codes "," ++ (decimal call ++ codes ","))) }
{
    format!(in alloc; "{process},{call},")
}

/// Returns a command as text.
fn command_shown(alloc: Global, command: &Command) -> Result<String, AllocError>
    ensures { IfOk result (λ text. string_bytes text ≡ command_text command.now) }
{
    format!(in alloc; "{command}")
}

/// Returns an answer as text.
fn answer_shown(alloc: Global, answer: &Answer) -> Result<String, AllocError>
    ensures { IfOk result (λ text. string_bytes text ≡ answer_text answer.now) }
{
    format!(in alloc; "{answer}")
}

/// Returns the numbers of a call that follow its command and precede its answer.
fn numbers(called: &Called, newest: u64) -> [Option<u64>; 15]
    ensures { result ≡ numbers_of newest called.now }
{
    let Called {
        accesses,
        marks,
        ..
    } = called;
    [
        Some(called.called),
        accesses.doorway,
        marks.door_end,
        marks.entered,
        marks.taken,
        marks.place,
        marks.remaining,
        marks.answered,
        marks.failed,
        marks.withdrew,
        Some(accesses.reads),
        Some(accesses.writes),
        Some(accesses.overlapped),
        waited(marks.door_end, marks.wait_end, newest),
        number_of(accesses.waited_for),
    ]
}

/// Returns a process as a number.
fn number_of(process: Option<u8>) -> Option<u64>
    ensures { result ≡ process }
{
    match process {
        None => None,
        Some(process) => Some(u64::from(process)),
    }
}

/// Returns the number of events after the `wait` of a call, up to the one that ended its waiting, or up to the newest.
pub fn waited(door_end: Option<u64>, wait_end: Option<u64>, newest: u64) -> Option<u64>
    ensures { result ≡ waited_by newest door_end wait_end }
{
    let wait = door_end?;
    let end = match wait_end {
        None => newest,
        Some(end) => end,
    };
    Some(end.saturating_sub(wait))
}

/// Appends numbers, each after a comma.
///
/// # Errors
///
/// Fails only if an allocation fails.
pub fn push_numbers(
    alloc: Global,
    line: &mut Vec<u8>,
    numbers: &[Option<u64>],
) -> Result<(), AllocError>
    ensures { OnOk result (line.new.items ≡ line.old.items ++ flat_map number_field numbers.now) }
{
    for number in numbers {
        push_number(alloc, line, *number)?;
    }
    Ok(())
}

/// Appends a comma, and a number if there is one.
fn push_number(alloc: Global, line: &mut Vec<u8>, number: Option<u64>) -> Result<(), AllocError>
    ensures { OnOk result (line.new.items ≡ line.old.items ++ number_field number) }
{
    line.push(b',')?;
    match number {
        None => Ok(()),
        Some(number) => push_text(line, number.to_string(alloc)?),
    }
}

/// Appends a text, and drops it here, so that the caller has none to drop.
fn push_text(line: &mut Vec<u8>, text: String) -> Result<(), AllocError>
    ensures { OnOk result (line.new.items ≡ line.old.items ++ string_bytes text) }
{
    line.extend_from_slice(text.as_bytes())
}

/// Appends a comma, and an answer as a field if there is one.
fn push_answer(alloc: Global, line: &mut Vec<u8>, answer: &Option<Answer>) -> Result<(), AllocError>
    ensures { OnOk result (line.new.items ≡ line.old.items ++ 44 ∷ answer_field answer.now) }
{
    line.push(b',')?;
    match answer {
        None => Ok(()),
        Some(answer) => push_shown(line, answer_shown(alloc, answer)?),
    }
}

/// Appends a text as a field, and drops it here.
fn push_shown(line: &mut Vec<u8>, text: String) -> Result<(), AllocError>
    ensures { OnOk result (line.new.items ≡ line.old.items ++ field (string_bytes text)) }
{
    push_field(line, text.as_bytes())
}

/// Appends a text as a field. If it contains a comma or a quote, it is enclosed in quotes, and its own quotes are doubled.
fn push_field(line: &mut Vec<u8>, text: &[u8]) -> Result<(), AllocError>
    ensures { OnOk result (line.new.items ≡ line.old.items ++ field text.now) }
{
    if !has_special(text) {
        return line.extend_from_slice(text);
    }
    line.push(b'"')?;
    push_doubled(line, text)?;
    Ok(line.push(b'"')?)
}

/// Returns whether a text contains a comma or a quote.
fn has_special(text: &[u8]) -> bool
    ensures { result ≡ list_any special text.now }
{
    text.iter().any(|byte| *byte == b',' || *byte == b'"')
}

/// Appends a text with its quotes doubled.
fn push_doubled(line: &mut Vec<u8>, text: &[u8]) -> Result<(), AllocError>
    ensures { OnOk result (line.new.items ≡ line.old.items ++ flat_map doubled text.now) }
{
    for byte in text {
        push_byte(line, *byte)?;
    }
    Ok(())
}

/// Appends a byte, twice if it is a quote.
#[tactic(auto, using(std::proofs::lemmas::Bool::Decides::nat_tests))]
fn push_byte(line: &mut Vec<u8>, byte: u8) -> Result<(), AllocError>
    ensures { OnOk result (line.new.items ≡ line.old.items ++ doubled byte) }
{
    if byte == b'"' {
        line.push(byte)?;
    }
    Ok(line.push(byte)?)
}
