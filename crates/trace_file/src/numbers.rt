//! Numbers in entries, most of which have one digit.
ghost use Rattle.std.specs.Prelude.{◌≡◌};
ghost use Rattle.scenario.specs.{number_at};
ghost use Rattle.trace_file.specs.Reading.{value_of};

use files::FaultKind;
use scenario::operands;

/// Returns the process or the index that a word writes, a number of 8 bits.
///
/// # Errors
///
/// Returns `Number` if the word writes no such number.
#[inline(always)]
#[tactic(auto, using(crate::proofs::Digits::one_digit))]
pub fn process(word: &[u8]) -> Result<u8, FaultKind>
    ensures { result ≡ number_at 255 word.now }
{
    match word {
        [digit] if digit.is_ascii_digit() => Ok(*digit - b'0'),
        _ => operands::process(word),
    }
}

/// Returns the value that a word writes, a number of 32 bits.
///
/// # Errors
///
/// Returns `Number` if the word writes no such number.
#[inline(always)]
#[tactic(auto, using(crate::proofs::Digits::one_digit))]
pub fn value(word: &[u8]) -> Result<u32, FaultKind>
    ensures { result ≡ value_of word.now }
{
    match word {
        [digit] if digit.is_ascii_digit() => Ok(u32::from(*digit - b'0')),
        _ => Ok(operands::number(word, 4_294_967_295)? as u32),
    }
}
