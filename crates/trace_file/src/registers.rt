//! Declares registers.
ghost use Rattle.std.specs.Prelude.{◌≡◌, ◌≤◌, ◌^◌, nat_lt};
ghost use Rattle.files.specs.{texts};
ghost use Rattle.trace.specs.{is_register as good_register, most_bits as most_bits_in};
ghost use Rattle.trace_file.specs.TraceFiles.{cell_name_of, has_name as named, may_declare as can_declare, opening_of};

use crate::numbers::value;
use files::FaultKind;
use trace::{CellName, TraceMemory, TraceRegister, TraceSetup};

/// The most registers of a trace.
const MOST_REGISTERS: usize = 64;

/// Returns a word as the name of a register.
///
/// # Errors
///
/// Returns `BadName` if the word is not a name.
pub fn cell_name(word: &[u8]) -> Result<CellName, FaultKind>
    ensures { result ≡ cell_name_of word.now }
{
    match CellName::new(word) {
        Ok(name) => Ok(name),
        Err(_) => Err(FaultKind::BadName),
    }
}

/// Returns the opening value of a register by the words after the first.
///
/// # Errors
///
/// Returns `Number` if it is not a number of 32 bits.
pub fn opening(words: &[&[u8]]) -> Result<u32, FaultKind>
    ensures { result ≡ opening_of (texts words.now) }
{
    if words.len() == 4 {
        value(words[3])
    } else {
        Ok(0)
    }
}

/// Returns whether a setup allows this register as the next one.
pub fn may_declare(setup: &TraceSetup, register: &TraceRegister) -> bool
    ensures { result ≡ can_declare setup.now register.now }
{
    setup.registers.len() < MOST_REGISTERS
        && is_register(setup.memory, register)
        && !has_name(setup.registers.as_slice(), &register.name)
}

/// Returns whether a register is in range in this memory.
fn is_register(memory: TraceMemory, register: &TraceRegister) -> bool
    ensures { result ≡ good_register memory register.now }
{
    register.width > 0
        && register.width <= most_bits(memory)
        && fits_width(register.opens, register.width)
        && (!register.is_shared || memory == TraceMemory::Atomic)
}

/// Returns the greatest width of a register in a memory.
pub fn most_bits(memory: TraceMemory) -> u8
    ensures { result ≡ most_bits_in memory }
{
    match memory {
        TraceMemory::Safe | TraceMemory::Atomic => 32,
        TraceMemory::Regular => 8,
    }
}

/// Returns whether a value has at most `width` bits.
fn fits_width(value: u32, width: u8) -> bool
    requires { width ≤ 32 }
    ensures { result ≡ nat_lt value (2 ^ width) }
{
    u64::from(value) < 1 << width
}

/// Returns whether one of these registers has this name.
fn has_name(registers: &[TraceRegister], name: &CellName) -> bool
    ensures { result ≡ named registers.now name.now }
{
    registers
        .iter()
        .any(|other| other.name.bytes() == name.bytes())
}
