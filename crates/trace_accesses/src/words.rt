//! An access of a trace, in words.
ghost use Rattle.std.specs.Prelude.{◌≡◌, ◌++◌, codes, IfOk, OnOk, Some, option_map};
ghost use Rattle.std.specs.Fmt.{decimal};
ghost use Rattle.picture_layout.specs.{given_access, given_change};
ghost use Rattle.trace.specs.{cell_text, register_name as name_of_register};
ghost use Rattle.trace_accesses.specs.Accesses.{shown_as, shown_change};
ghost use Rattle.trace_accesses.specs.Words.{begin_words, unlike, value_words, words_of};

use crate::monitored::{MonitoredAccess, RowChange};
use crate::moves::{kind, step};
use picture_layout::{ShownAccess, WaveChange};
use std::alloc::{AllocError, Global};
use std::fmt;
use trace::{Cell, CellMove, TraceRegister};

/// The words of a move before the value that it read.
#[derive(Clone, Copy)]
struct BeginWords {
    how: CellMove,
}

impl fmt::Display for BeginWords {
    ghost use Rattle.std.specs.Prelude.{Some};
    ghost use Rattle.trace_accesses.specs.Words.{begin_words};

    ghost output = { λ words. Some (begin_words words.how) };

    fn fmt<W: fmt::Write>(&self, f: &mut fmt::Formatter<W>) -> fmt::Result {
        match self.how {
            CellMove::Write(value) => write!(f, "write {value}"),
            CellMove::End => Ok(()),
            CellMove::Read => f.write_str("read"),
            CellMove::Value(_) => Ok(()),
            CellMove::Set(value) => write!(f, "set {value}"),
            CellMove::Get(_) => f.write_str("get "),
            CellMove::Swap { new, gives: _ } => write!(f, "swap {new} "),
            CellMove::Add { addend, gives: _ } => write!(f, "add {addend} "),
            CellMove::Cas {
                expected,
                new,
                gives: _,
            } => write!(f, "cas {expected} {new} "),
        }
    }
}

impl MonitoredAccess {
    /// Returns the access with its words.
    ///
    /// # Errors
    ///
    /// Returns [`AllocError`] if memory runs out.
    pub fn shown(
        &self,
        alloc: Global,
        registers: &[TraceRegister],
    ) -> Result<ShownAccess, AllocError>
        ensures { IfOk result (λ access.
            given_access access ≡ shown_as registers.now self.now) }
    {
        Ok(ShownAccess {
            event: self.event,
            process: self.process,
            kind: kind(self.access.how),
            step: step(self.access.how),
            begin: self.begin,
            words: words(alloc, self.stored, self.access.how)?,
            cell: cell_name(alloc, registers, self.access.cell)?,
            overlaps: self.overlaps,
            change: self.shown_change(alloc, registers)?,
        })
    }

    /// Returns the change of the wave with its words, if there is one.
    fn shown_change(
        &self,
        alloc: Global,
        registers: &[TraceRegister],
    ) -> Result<Option<WaveChange>, AllocError>
        ensures { IfOk result (λ change. option_map given_change change
            ≡ option_map (shown_change (cell_text registers.now self.now.access.cell))
            self.now.change) }
    {
        match self.change {
            Some(change) => {
                let name = cell_name(alloc, registers, self.access.cell)?;
                Ok(Some(change.shown(alloc, name)?))
            }
            None => Ok(None),
        }
    }
}

impl RowChange {
    /// Returns the change of the wave of this name, with its words.
    fn shown(&self, alloc: Global, name: Vec<u8>) -> Result<WaveChange, AllocError>
        ensures { IfOk result (λ change. given_change change ≡ shown_change name.items self.now) }
    {
        Ok(WaveChange {
            row: self.row,
            name,
            old: number(alloc, self.old)?,
            value: number(alloc, self.value)?,
            was_open: self.was_open,
            is_open: self.is_open,
        })
    }
}

/// Returns the words of a move on a cell that stored this value before it.
fn words(alloc: Global, stored: u32, how: CellMove) -> Result<Vec<u8>, AllocError>
    ensures { IfOk result (λ text. text.items ≡ words_of stored how) }
{
    let mut text = first_words(alloc, how)?;
    push_value_if(alloc, stored, how.value_read(), &mut text)?;
    Ok(text)
}

/// Returns the words of a move before the value that it read.
fn first_words(alloc: Global, how: CellMove) -> Result<Vec<u8>, AllocError>
    ensures { IfOk result (λ text. text.items ≡ begin_words how) }
{
    let words = BeginWords { how };
    let text = format!(in alloc; "{words}")?;
    Ok(text.into_bytes())
}

/// Appends the value that was read, if one was.
#[tactic(auto, using(trace::proofs::Texts::none))]
fn push_value_if(
    alloc: Global,
    stored: u32,
    value: Option<u32>,
    text: &mut Vec<u8>,
) -> Result<(), AllocError>
    ensures { OnOk result (text.new.items ≡ text.old.items ++ value_words stored value) }
{
    match value {
        Some(value) => push_value(alloc, stored, value, text),
        None => Ok(()),
    }
}

/// Appends an arrow, the value that was read, and the value last written if that is another one.
#[tactic(auto, using(trace::proofs::Texts::three))]
fn push_value(alloc: Global, stored: u32, value: u32, text: &mut Vec<u8>) -> Result<(), AllocError>
    ensures { OnOk result (text.new.items ≡ text.old.items ++ value_words stored (Some value)) }
{
    text.extend_from_slice(b"\xE2\x86\x92 ")?;
    push_number(alloc, value, text)?;
    push_unlike(alloc, stored, value, text)
}

/// Appends the value last written, if another one was read.
#[tactic(auto, using(trace::proofs::Texts::none, trace::proofs::Texts::two))]
fn push_unlike(alloc: Global, stored: u32, value: u32, text: &mut Vec<u8>) -> Result<(), AllocError>
    ensures { OnOk result (text.new.items ≡ text.old.items ++ unlike stored value) }
{
    if value == stored {
        return Ok(());
    }
    text.extend_from_slice(b" \xE2\x89\xA0 ")?;
    push_number(alloc, stored, text)
}

fn push_number(alloc: Global, value: u32, text: &mut Vec<u8>) -> Result<(), AllocError>
    ensures { OnOk result (text.new.items ≡ text.old.items ++ decimal value) }
{
    let digits = format!(in alloc; "{value}")?;
    text.extend_from_slice(digits.as_bytes())
}

/// Returns a value in digits.
fn number(alloc: Global, value: u32) -> Result<Vec<u8>, AllocError>
    ensures { IfOk result (λ text. text.items ≡ decimal value) }
{
    let digits = format!(in alloc; "{value}")?;
    Ok(digits.into_bytes())
}

/// Returns the name of a cell, as a trace file of these registers has it.
#[tactic(auto, using(trace::proofs::Texts::none))]
fn cell_name(alloc: Global, registers: &[TraceRegister], cell: Cell) -> Result<Vec<u8>, AllocError>
    ensures { IfOk result (λ text. text.items ≡ cell_text registers.now cell) }
{
    let mut text = register_name(alloc, registers, cell.register)?;
    if let Some(index) = cell.index {
        push_index(alloc, index, &mut text)?;
    }
    Ok(text)
}

/// Returns the name of a register.
fn register_name(
    alloc: Global,
    registers: &[TraceRegister],
    register: u8,
) -> Result<Vec<u8>, AllocError>
    ensures { IfOk result (λ text. text.items ≡ name_of_register registers.now register) }
{
    let mut text = Vec::new(alloc);
    if let Some(register) = registers.get(usize::from(register)) {
        text.extend_from_slice(register.name.bytes())?;
    }
    Ok(text)
}

/// Appends the index of a cell.
fn push_index(alloc: Global, index: u8, text: &mut Vec<u8>) -> Result<(), AllocError>
    ensures { OnOk result (text.new.items
        ≡ text.old.items ++ (codes "[" ++ (decimal index ++ codes "]"))) }
{
    let word = format!(in alloc; "[{index}]")?;
    text.extend_from_slice(word.as_bytes())
}
