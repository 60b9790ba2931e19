//! Numbers, names and values as words.
ghost use Rattle.std.specs.Prelude.{◌≡◌, ◌≤◌, IfOk};
ghost use Rattle.scenario.specs.Operands.{number_at, name_at, value_at, integer_at};

use crate::numbers;
use files::FaultKind;
use plain_store::{Name, Text, Value};

/// Reads a number up to `most`.
///
/// # Errors
///
/// Returns [`FaultKind::Number`] if the word is not such a number.
pub fn number(word: &[u8], most: u64) -> Result<u64, FaultKind>
    ensures { result ≡ number_at most word.now }
{
    numbers::number(word, most).ok_or(FaultKind::Number)
}

/// Reads the number of a process: 0 to 255.
///
/// # Errors
///
/// Returns [`FaultKind::Number`] if the word is not such a number.
pub fn process(word: &[u8]) -> Result<u8, FaultKind>
    ensures { result ≡ number_at 255 word.now }
{
    Ok(number(word, 255)? as u8)
}

/// Reads a number of steps or turns: 0 to 100,000.
///
/// # Errors
///
/// Returns [`FaultKind::Number`] if the word is not such a number.
pub fn count(word: &[u8]) -> Result<u32, FaultKind>
    ensures value { result ≡ number_at 100000 word.now }
    ensures most { IfOk result (λ n. n ≤ 100000) }
{
    Ok(number(word, 100_000)? as u32)
}

/// Reads a number of 64 bits with a sign.
///
/// # Errors
///
/// Returns [`FaultKind::Number`] if the word is not such a number.
pub fn integer(word: &[u8]) -> Result<i64, FaultKind>
    ensures { result ≡ integer_at word.now }
{
    numbers::integer(word).ok_or(FaultKind::Number)
}

/// Reads a name.
///
/// # Errors
///
/// Returns [`FaultKind::BadName`] if the word is not a name.
pub fn name(word: &[u8]) -> Result<Name, FaultKind>
    ensures { result ≡ name_at word.now }
{
    match Name::new(word) {
        Ok(name) => Ok(name),
        Err(_) => Err(FaultKind::BadName),
    }
}

/// Reads a value: `c:` and a number with a sign, or `t:` and a text.
///
/// # Errors
///
/// Returns [`FaultKind::BadValue`] if the word is not a value.
pub fn value(word: &[u8]) -> Result<Value, FaultKind>
    ensures { result ≡ value_at word.now }
{
    match word {
        [b'c', b':', digits @ ..] => match numbers::integer(digits) {
            Some(count) => Ok(Value::Count(count)),
            None => Err(FaultKind::BadValue),
        },
        [b't', b':', bytes @ ..] => match Text::new(bytes) {
            Ok(text) => Ok(Value::Text(text)),
            Err(_) => Err(FaultKind::BadValue),
        },
        _ => Err(FaultKind::BadValue),
    }
}
