//! The short path for most lines of a trace: a process of one digit and an access with at most one value, one space between
//! words, and no mark.
ghost use Rattle.std.specs.Prelude.{◌≡◌, ◌≤◌, ◌++◌, codes, length, IfSome};
ghost use Rattle.files.specs.{words_of};
ghost use Rattle.trace_file.specs.Lines.{IsEntry, IsWholeMove, access_alone};

use crate::cells::cell;
use crate::lines::next_word;
use crate::marks::is_sign;
use crate::numbers::value;
use trace::{CellAccess, CellMove, TraceRegister};

/// Returns the process and the access of a line of this form. `None` states nothing about the line.
#[inline(always)]
pub(crate) fn short_entry(registers: &[TraceRegister], line: &[u8]) -> Option<(u8, CellAccess)>
    requires { length registers.now ≤ 64 }
    ensures { IfSome result (λ read.
        IsEntry registers.now (words_of line.now) (access_alone read.0 read.1)) }
{
    let [first, b' ', behind @ ..] = line else {
        return None;
    };
    if !first.is_ascii_digit() {
        return None;
    }
    let (place, text) = next_word(behind)?;
    if is_sign(place) {
        return None;
    }
    let Ok(cell) = cell(registers, place) else {
        return None;
    };
    let how = short_move(text)?;
    Some((*first - b'0', CellAccess { cell, how }))
}

/// Returns the move that the rest of a line is, if it has at most one value.
#[inline(always)]
fn short_move(text: &[u8]) -> Option<CellMove>
    ensures { IfSome result (λ how. IsWholeMove (words_of text.now) how) }
{
    if let Some(word) = after_get(text) {
        return match value(word) {
            Ok(value) => Some(CellMove::Get(value)),
            Err(_) => None,
        };
    }
    if let Some(word) = after_set(text) {
        return match value(word) {
            Ok(value) => Some(CellMove::Set(value)),
            Err(_) => None,
        };
    }
    if let Some(word) = after_value(text) {
        return match value(word) {
            Ok(value) => Some(CellMove::Value(value)),
            Err(_) => None,
        };
    }
    if let Some(word) = after_write(text) {
        return match value(word) {
            Ok(value) => Some(CellMove::Write(value)),
            Err(_) => None,
        };
    }
    lone_move(text)
}

/// Returns the move that the rest of a line is, if it has no value.
#[inline(always)]
fn lone_move(text: &[u8]) -> Option<CellMove>
    ensures { IfSome result (λ how. IsWholeMove (words_of text.now) how) }
{
    match text {
        [b'r', b'e', b'a', b'd'] => Some(CellMove::Read),
        [b'e', b'n', b'd'] => Some(CellMove::End),
        _ => None,
    }
}

/// Returns the bytes after `get` and a space, if a text begins with these.
#[inline(always)]
fn after_get(text: &[u8]) -> Option<&[u8]>
    ensures { IfSome result (λ word. text.now ≡ codes "get " ++ word.now) }
{
    match text {
        [b'g', b'e', b't', b' ', word @ ..] => Some(word),
        _ => None,
    }
}

/// Returns the bytes after `set` and a space, if a text begins with these.
#[inline(always)]
fn after_set(text: &[u8]) -> Option<&[u8]>
    ensures { IfSome result (λ word. text.now ≡ codes "set " ++ word.now) }
{
    match text {
        [b's', b'e', b't', b' ', word @ ..] => Some(word),
        _ => None,
    }
}

/// Returns the bytes after `value` and a space, if a text begins with these.
#[inline(always)]
fn after_value(text: &[u8]) -> Option<&[u8]>
    ensures { IfSome result (λ word. text.now ≡ codes "value " ++ word.now) }
{
    match text {
        [b'v', b'a', b'l', b'u', b'e', b' ', word @ ..] => Some(word),
        _ => None,
    }
}

/// Returns the bytes after `write` and a space, if a text begins with these.
#[inline(always)]
fn after_write(text: &[u8]) -> Option<&[u8]>
    ensures { IfSome result (λ word. text.now ≡ codes "write " ++ word.now) }
{
    match text {
        [b'w', b'r', b'i', b't', b'e', b' ', word @ ..] => Some(word),
        _ => None,
    }
}
