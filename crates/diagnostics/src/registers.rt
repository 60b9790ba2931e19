//! The part of a register that a setup refuses.
ghost use Rattle.std.specs.Prelude.{◌≡◌};
ghost use Rattle.std.specs.Option.{is_none};
ghost use Rattle.trace_file.specs.TraceFiles.{has_name as named, may_declare};
ghost use Rattle.diagnostics.specs.Registers.{refused_part as refused_part_of};

use crate::forms::word_at;
use scenario::operands::{number, process};
use trace::{CellName, TraceMemory, TraceRegister, TraceSetup};
use trace_file::keywords::TraceLineKind;
use trace_file::most_bits;

/// The most registers of a trace.
const MOST_REGISTERS: usize = 64;

/// A part of a register's line.
#[derive(Clone, Copy)]
pub(crate) enum RegisterPart {
    /// Only atomic memory has shared registers.
    Sharing,
    /// The trace has as many registers as it may have.
    Count,
    /// A register has this name.
    Name,
    /// The width is 0, or above the greatest width in this memory.
    Width,
    /// The opening value exceeds the greatest value of its width, which is this one.
    Opens(u64),
}

/// Returns the first part of a register that a setup refuses, if there is one.
pub(crate) fn refused_part(setup: &TraceSetup, register: &TraceRegister) -> Option<RegisterPart>
    ensures part { result ≡ refused_part_of setup.now register.now }
    ensures refuses { is_none result ≡ may_declare setup.now register.now }
{
    if register.is_shared && setup.memory != TraceMemory::Atomic {
        return Some(RegisterPart::Sharing);
    }
    if setup.registers.len() >= MOST_REGISTERS {
        return Some(RegisterPart::Count);
    }
    if has_name(setup.registers.as_slice(), &register.name) {
        return Some(RegisterPart::Name);
    }
    if register.width < 1 || register.width > most_bits(setup.memory) {
        return Some(RegisterPart::Width);
    }
    let values = 1_u64 << register.width;
    if u64::from(register.opens) >= values {
        return Some(RegisterPart::Opens(values - 1));
    }
    None
}

/// Returns whether one of these registers has this name.
fn has_name(registers: &[TraceRegister], name: &CellName) -> bool
    ensures { result ≡ named registers.now name.now }
{
    registers
        .iter()
        .any(|other| other.name.bytes() == name.bytes())
}

/// Returns the register that the words of a line declare, if they have the form of one.
pub(crate) fn register_of(words: &[&[u8]]) -> Option<TraceRegister> {
    let is_shared = match TraceLineKind::of(word_at(words, 0))? {
        TraceLineKind::Register => false,
        TraceLineKind::Shared => true,
        _ => return None,
    };
    let opens = if words.len() < 5 {
        0
    } else {
        number(word_at(words, 4), 4_294_967_295).ok()?
    };
    Some(TraceRegister {
        name: CellName::new(word_at(words, 1)).ok()?,
        width: process(word_at(words, 2)).ok()?,
        opens: opens as u32,
        is_shared,
    })
}
