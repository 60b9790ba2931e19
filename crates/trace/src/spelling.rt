//! How entries are spelled.
ghost use Rattle.std.specs.Prelude.{◌≡◌, ◌++◌, IfOk, OnOk, codes, length};
ghost use Rattle.std.specs.Fmt.{decimal};
ghost use Rattle.std.specs.String.{string_bytes};
ghost use Rattle.trace.specs.Entries.{trace_entry};
ghost use Rattle.trace.specs.Shown.{access_if, access_text, cell_text, lock_mark_text, marks_text, move_text, register_name, trace_entry_line};

use crate::accesses::{Cell, CellAccess, CellMove};
use crate::marks::LockMark;
use crate::setups::TraceRegister;
use std::alloc::{AllocError, Global};

/// Writes an entry on a line, with single spaces, as a trace file of these registers has it.
///
/// # Errors
///
/// Returns [`AllocError`] if memory runs out. A part of the line may then be written.
#[tactic(auto, using(crate::proofs::Texts::four))]
pub fn print_trace_entry(
    alloc: Global,
    registers: &[TraceRegister],
    process: u8,
    access: &Option<CellAccess>,
    marks: &[LockMark],
    text: &mut Vec<u8>,
) -> Result<(), AllocError>
    ensures { OnOk result
        (text.new.items
        ≡ text.old.items
        ++ trace_entry_line registers.now (trace_entry process access.now marks.now)) }
{
    push_process(alloc, process, text)?;
    push_access(alloc, registers, access, text)?;
    push_marks(alloc, marks, text)?;
    text.extend_from_slice(b"\n")
}

fn push_process(alloc: Global, process: u8, text: &mut Vec<u8>) -> Result<(), AllocError>
    ensures { OnOk result (text.new.items ≡ text.old.items ++ decimal process) }
{
    let number = format!(in alloc; "{process}")?;
    text.extend_from_slice(number.as_bytes())
}

#[tactic(auto, using(crate::proofs::Texts::none, crate::proofs::Texts::four))]
fn push_access(
    alloc: Global,
    registers: &[TraceRegister],
    access: &Option<CellAccess>,
    text: &mut Vec<u8>,
) -> Result<(), AllocError>
    ensures { OnOk result (text.new.items ≡ text.old.items ++ access_if registers.now access.now) }
{
    let Some(access) = access else {
        return Ok(());
    };
    text.extend_from_slice(b" ")?;
    push_cell(alloc, registers, access.cell, text)?;
    text.extend_from_slice(b" ")?;
    push_move(alloc, access.how, text)
}

/// Writes a cell.
#[tactic(auto, using(crate::proofs::Texts::two))]
fn push_cell(
    alloc: Global,
    registers: &[TraceRegister],
    cell: Cell,
    text: &mut Vec<u8>,
) -> Result<(), AllocError>
    ensures { OnOk result (text.new.items ≡ text.old.items ++ cell_text registers.now cell) }
{
    push_name(registers, cell.register, text)?;
    match cell.index {
        None => Ok(()),
        Some(index) => push_index(alloc, index, text),
    }
}

/// Writes the name of a register.
#[tactic(auto, using(crate::proofs::Texts::none))]
fn push_name(
    registers: &[TraceRegister],
    register: u8,
    text: &mut Vec<u8>,
) -> Result<(), AllocError>
    ensures { OnOk result
        (text.new.items ≡ text.old.items ++ register_name registers.now register) }
{
    match registers.get(usize::from(register)) {
        None => Ok(()),
        Some(register) => text.extend_from_slice(register.name.bytes()),
    }
}

fn push_index(alloc: Global, index: u8, text: &mut Vec<u8>) -> Result<(), AllocError>
    ensures { OnOk result
        (text.new.items ≡ text.old.items ++ (codes "[" ++ (decimal index ++ codes "]"))) }
{
    let word = format!(in alloc; "[{index}]")?;
    text.extend_from_slice(word.as_bytes())
}

fn push_move(alloc: Global, how: CellMove, text: &mut Vec<u8>) -> Result<(), AllocError>
    ensures { OnOk result (text.new.items ≡ text.old.items ++ move_text how) }
{
    let words = format!(in alloc; "{how}")?;
    text.extend_from_slice(words.as_bytes())
}

/// Writes marks, each after its sign.
fn push_marks(alloc: Global, marks: &[LockMark], text: &mut Vec<u8>) -> Result<(), AllocError>
    ensures { OnOk result (text.new.items ≡ text.old.items ++ marks_text marks.now) }
{
    'marks: for mark in marks {
        push_mark(alloc, *mark, text)?;
    }
    Ok(())
}

fn push_mark(alloc: Global, mark: LockMark, text: &mut Vec<u8>) -> Result<(), AllocError>
    ensures { OnOk result
        (text.new.items ≡ text.old.items ++ (codes " : " ++ lock_mark_text mark)) }
{
    let word = format!(in alloc; " : {mark}")?;
    text.extend_from_slice(word.as_bytes())
}
