//! Reads a move by its words.
ghost use Rattle.std.specs.Prelude.{◌≡◌};
ghost use Rattle.files.specs.{texts};
ghost use Rattle.trace_file.specs.Reading.{cas_values as values_of_cas, key_at, move_of, named_move_of, no_value as value_of_none, one_value as value_of_one, two_values as values_of_two};

use crate::keywords::MoveWord;
use crate::numbers::value;
use files::FaultKind;
use trace::CellMove;

/// Returns the move in these words.
///
/// # Errors
///
/// Returns the first fault in the order of faults.
pub fn cell_move(words: &[&[u8]]) -> Result<CellMove, FaultKind>
    ensures { result ≡ move_of (texts words.now) }
{
    let [name, operands @ ..] = words else {
        return Err(FaultKind::Words);
    };
    match MoveWord::of(name) {
        None => Err(FaultKind::Unknown),
        Some(name) => named_move(name, operands),
    }
}

/// Returns the move of this key word by the words after it.
fn named_move(name: MoveWord, words: &[&[u8]]) -> Result<CellMove, FaultKind>
    ensures { result ≡ named_move_of name (texts words.now) }
{
    match name {
        MoveWord::Write => one_value(words).map(CellMove::Write),
        MoveWord::End => no_value(CellMove::End, words),
        MoveWord::Read => no_value(CellMove::Read, words),
        MoveWord::Value => one_value(words).map(CellMove::Value),
        MoveWord::Set => one_value(words).map(CellMove::Set),
        MoveWord::Get => one_value(words).map(CellMove::Get),
        MoveWord::Swap => {
            let (new, gives) = two_values(words)?;
            Ok(CellMove::Swap { new, gives })
        }
        MoveWord::Add => {
            let (addend, gives) = two_values(words)?;
            Ok(CellMove::Add { addend, gives })
        }
        MoveWord::Cas => {
            let (expected, new, gives) = cas_values(words)?;
            Ok(CellMove::Cas {
                expected,
                new,
                gives,
            })
        }
    }
}

/// Returns a move that is its key word alone.
fn no_value(how: CellMove, words: &[&[u8]]) -> Result<CellMove, FaultKind>
    ensures { result ≡ value_of_none how (texts words.now) }
{
    if words.is_empty() {
        Ok(how)
    } else {
        Err(FaultKind::Words)
    }
}

/// Returns the one value after a key word.
fn one_value(words: &[&[u8]]) -> Result<u32, FaultKind>
    ensures { result ≡ value_of_one (texts words.now) }
{
    if words.len() != 1 {
        return Err(FaultKind::Words);
    }
    value(words[0])
}

/// Returns the values of `K gives OLD`.
#[tactic(auto, unfolding(crate::specs::Reading::two_values))]
fn two_values(words: &[&[u8]]) -> Result<(u32, u32), FaultKind>
    ensures { result ≡ values_of_two (texts words.now) }
{
    check_key(1, "gives", words)?;
    if words.len() != 3 {
        return Err(FaultKind::Words);
    }
    let new = value(words[0])?;
    let old = value(words[2])?;
    Ok((new, old))
}

/// Returns the values of `EXPECTED NEW gives OLD`.
#[tactic(auto, unfolding(crate::specs::Reading::cas_values))]
fn cas_values(words: &[&[u8]]) -> Result<(u32, u32, u32), FaultKind>
    ensures { result ≡ values_of_cas (texts words.now) }
{
    check_key(2, "gives", words)?;
    if words.len() != 4 {
        return Err(FaultKind::Words);
    }
    let expected = value(words[0])?;
    let new = value(words[1])?;
    let old = value(words[3])?;
    Ok((expected, new, old))
}

/// Checks that the word at this position, if there is one, is this key word.
///
/// # Errors
///
/// Returns `Unknown` if it is another word.
pub fn check_key(place: usize, key: &str, words: &[&[u8]]) -> Result<(), FaultKind>
    ensures { result ≡ key_at place key.now (texts words.now) }
{
    match words.get(place) {
        Some(word) if *word != key.as_bytes() => Err(FaultKind::Unknown),
        _ => Ok(()),
    }
}
