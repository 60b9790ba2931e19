//! Reads the word of a cell.
ghost use Rattle.std.specs.Prelude.{◌≡◌, ◌≤◌, length, true, false, MatchOption};
ghost use Rattle.std.specs.Str.{bytes_eq};
ghost use Rattle.trace_file.specs.Reading.{cell_from, index_in, index_of, indexed, is_cell_of};

use crate::numbers::process;
use files::FaultKind;
use trace::{Cell, TraceRegister};

/// Returns the cell that a word names: `NAME` of a shared register, `NAME[...]` of another one.
///
/// # Errors
///
/// Returns `Unknown` if it names none of these registers, and `Number` if its index is not a number of 8 bits.
pub fn cell(registers: &[TraceRegister], word: &[u8]) -> Result<Cell, FaultKind>
    requires { length registers.now ≤ 64 }
    ensures { result ≡ cell_from 0 registers.now word.now }
{
    let mut number = 0;
    for register in registers {
        if let Some(index) = index(register, word) {
            return Ok(Cell {
                register: number,
                index: index?,
            });
        }
        number += 1;
    }
    Err(FaultKind::Unknown)
}

/// Returns the index of the cell of a register that a word names, if it names one.
fn index(register: &TraceRegister, word: &[u8]) -> Option<Result<Option<u8>, FaultKind>>
    ensures { MatchOption result (is_cell_of word.now register.now ≡ false)
        (λ index. (is_cell_of word.now register.now ≡ true)
        × (index ≡ index_of register.now word.now)) }
{
    let name = register.name.bytes();
    if register.is_shared {
        return if word == name { Some(Ok(None)) } else { None };
    }
    match between_brackets(name, word) {
        None => None,
        Some(index) => Some(process(index).map(Some)),
    }
}

/// Returns the bytes between the brackets, if a word is `NAME[...]`.
#[tactic(auto, using(crate::proofs::CellWords::is_cell, crate::proofs::CellWords::too_short))]
fn between_brackets<'w>(name: &[u8], word: &'w [u8]) -> Option<&'w [u8]>
    ensures { MatchOption result
        (bytes_eq word.now (indexed name.now (index_in name.now word.now)) ≡ false)
        (λ index. (bytes_eq word.now (indexed name.now (index_in name.now word.now)) ≡ true)
        × (index.now ≡ index_in name.now word.now)) }
{
    let at = name.len();
    if word.len() < at + 2 {
        return None;
    }
    let end = word.len() - 1;
    if word[at] != b'[' || word[end] != b']' || &word[..at] != name {
        return None;
    }
    Some(&word[at + 1..end])
}
