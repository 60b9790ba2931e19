//! Reading an access: a copy of a bit, and a move on it.
ghost use Rattle.std.specs.Prelude.{◌≡◌, ◌∷◌, [], ◌==◌, length, ◌<◌, IfSome};
ghost use Rattle.std.specs.Option.{option_map_or};
ghost use Rattle.std.specs.List.{position};
ghost use Rattle.files.specs.{texts};
ghost use Rattle.record_file.specs.Reading.{AreFourParts, access_of, copy_of, dotted, lone_move_of, move_of};

use crate::keywords::field as field_named;
use files::FaultKind;
use model::{Access, Field};
use safe_bit::Move;
use scenario::bit_files::{BitWord, one_bit};
use scenario::operands::{number, process};

/// Reads the words of an access: a copy of a bit, and a move. Without words there is no access.
///
/// # Errors
///
/// Returns the fault of the words that comes first in the order of faults.
#[tactic(auto, unfolding(crate::specs::Reading::access_of))]
pub fn access(words: &[&[u8]]) -> Result<Option<Access>, FaultKind>
    ensures { result ≡ access_of (texts words.now) }
{
    let [copy, behind @ ..] = words else {
        return Ok(None);
    };
    let Some(parts) = dotted_parts(copy) else {
        return Err(FaultKind::Unknown);
    };
    let Some(field) = field_named(parts.1) else {
        return Err(FaultKind::Unknown);
    };
    let [name, operands @ ..] = behind else {
        return Err(FaultKind::Words);
    };
    let Some(name) = BitWord::of(name) else {
        return Err(FaultKind::Unknown);
    };
    let how = move_named(name, operands)?;
    access_to(parts, field, how).map(Some)
}

/// The parts of the word of a copy: its owner, its field, its bit and its reader.
type CopyParts<'w> = (&'w [u8], &'w [u8], &'w [u8], &'w [u8]);

/// Returns an access to a copy of a bit of this field, by the parts of its word.
#[tactic(auto, unfolding(crate::specs::Reading::copy_of))]
fn access_to(parts: CopyParts<'_>, field: Field, how: Move) -> Result<Access, FaultKind>
    ensures { result
        ≡ copy_of
        (parts.entry.0.now ∷ parts.entry.1.now ∷ parts.entry.2.now ∷ parts.entry.3.now ∷ []) field
        how }
{
    Ok(Access {
        owner: process(parts.0)?,
        field,
        bit: number(parts.2, 65_535)? as u16,
        reader: process(parts.3)?,
        how,
    })
}

/// Returns the parts of a word between its dots, if there are four.
fn dotted_parts(word: &[u8]) -> Option<CopyParts<'_>>
    ensures { AreFourParts result word.now }
{
    let (first, behind) = up_to_dot(word);
    let (second, behind) = up_to_dot(behind?);
    let (third, behind) = up_to_dot(behind?);
    let (fourth, behind) = up_to_dot(behind?);
    if behind.is_some() {
        return None;
    }
    Some((first, second, third, fourth))
}

/// Returns the bytes before the first dot, and the bytes after it, if there is a dot.
#[tactic(auto, using(crate::proofs::Cuts::bytes_cut, crate::proofs::Cuts::bytes_uncut, crate::proofs::Dots::some_part))]
fn up_to_dot(word: &[u8]) -> (&[u8], Option<&[u8]>)
    ensures split { dotted word.now ≡ result.0.now ∷ option_map_or (λ r. dotted r.now) result.1 [] }
    ensures more { IfSome result.1 (λ rest. 0 < length (dotted rest.now)) }
{
    match offset_of_dot(word) {
        None => (word, None),
        Some(at) => (&word[..at], Some(&word[at + 1..])),
    }
}

/// Returns the number of bytes before the first dot, if there is one.
fn offset_of_dot(word: &[u8]) -> Option<usize>
    ensures place { result ≡ position (λ b. b == 46) word.now }
    ensures within { IfSome result (λ at. at < length word.now) }
{
    word.iter().position(|byte| *byte == b'.')
}

/// Returns the move that words specify, by its first word and the words after it.
fn move_named(name: BitWord, words: &[&[u8]]) -> Result<Move, FaultKind>
    ensures { result ≡ move_of name (texts words.now) }
{
    match name {
        BitWord::Write => one_bit(words).map(Move::BeginWrite),
        BitWord::End => alone(Move::EndWrite, words),
        BitWord::Read => alone(Move::BeginRead, words),
        BitWord::Value => one_bit(words).map(Move::EndRead),
        BitWord::Settle => one_bit(words).map(Move::Settle),
        BitWord::Bits | BitWord::Drop => Err(FaultKind::Unknown),
    }
}

/// Reads a move that consists of its first word alone.
fn alone(how: Move, words: &[&[u8]]) -> Result<Move, FaultKind>
    ensures { result ≡ lone_move_of how (texts words.now) }
{
    if words.is_empty() {
        Ok(how)
    } else {
        Err(FaultKind::Words)
    }
}
