//! The name and the index in the word of a cell, and the names of registers.
use crate::lines::Span;
use std::alloc::{AllocError, Global};
use trace::TraceRegister;

/// Returns the name in the word of a cell, which ends at the first bracket, and its position. An empty name has one column.
pub(crate) fn name_in(word: Span, bytes: &[u8]) -> (Span, &[u8]) {
    let length = before_bracket(bytes);
    let span = Span {
        from: word.from,
        to: word.from.saturating_add(length.max(1)),
    };
    (span, bytes.get(..length).unwrap_or(&[]))
}

/// Returns the position of the index between the brackets of a cell. An empty index has one column.
pub(crate) fn index_in(word: Span, bytes: &[u8]) -> Span {
    let from = word
        .from
        .saturating_add(before_bracket(bytes))
        .saturating_add(1);
    Span {
        from,
        to: word.to.saturating_sub(1).max(from.saturating_add(1)),
    }
}

/// Returns the number of bytes before the first bracket.
fn before_bracket(bytes: &[u8]) -> usize {
    match bytes.iter().position(|byte| *byte == b'[') {
        Some(at) => at,
        None => bytes.len(),
    }
}

/// Returns the register with this name.
pub(crate) fn register_named<'r>(
    registers: &'r [TraceRegister],
    name: &[u8],
) -> Option<&'r TraceRegister> {
    for register in registers {
        if register.name.bytes() == name {
            return Some(register);
        }
    }
    None
}

/// Returns the names of registers.
pub(crate) fn register_names<'r>(
    alloc: Global,
    registers: &'r [TraceRegister],
) -> Result<Vec<&'r str>, AllocError> {
    let mut names = Vec::new(alloc);
    for register in registers {
        names.push(register.name.as_str())?;
    }
    Ok(names)
}
