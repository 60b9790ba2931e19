//! The words of a line.
ghost use Rattle.std.specs.Prelude.{◌≡◌, ◌<◌, ◌++◌, IfSome, OnOk, length};
ghost use Rattle.std.specs.List.{after_first, before_first, position};
ghost use Rattle.files.specs.Words.{texts, words_of, is_blank as blank};

use smallvec::SmallVec;
use std::alloc::AllocError;

/// Room for the words of a line. Up to 8 of them lie in place: few lines have more, and room for all that a line may
/// have would be cleared for each of them.
pub type Words<'a> = SmallVec<&'a [u8], 8>;

/// Adds the words of a line, which spaces and tabs separate. They are not returned, because their room would be moved.
///
/// # Errors
///
/// Returns [`AllocError`] if memory runs out. Some of the words may then have been added.
pub fn add_words<'a>(line: &'a [u8], words: &mut Words<'a>) -> Result<(), AllocError>
    ensures { OnOk result (texts words.new.items ≡ texts words.old.items ++ words_of line.now) }
{
    let mut rest = line;
    'words: while !rest.is_empty() {
        let (word, behind) = cut_at_blank(rest);
        if !word.is_empty() {
            words.push(word)?;
        }
        rest = behind;
    }
    Ok(())
}

/// Returns the bytes before the first blank, and the bytes after it.
#[tactic(auto, using(crate::proofs::FoundWords::place_or_all, std::proofs::lemmas::List::drop_min, std::proofs::lemmas::List::take_rest))]
fn cut_at_blank(line: &[u8]) -> (&[u8], &[u8])
    ensures before { result.0.now ≡ before_first blank line.now }
    ensures behind { result.1.now ≡ after_first blank line.now }
{
    let at = offset_of_blank(line).unwrap_or(line.len());
    (&line[..at], &line[(at + 1).min(line.len())..])
}

/// Returns the number of bytes before the first blank, if there is one.
fn offset_of_blank(line: &[u8]) -> Option<usize>
    ensures place { result ≡ position blank line.now }
    ensures within { IfSome result (λ at. at < length line.now) }
{
    line.iter().position(|b| is_blank(*b))
}

fn is_blank(b: u8) -> bool
    ensures { result ≡ blank b }
{
    b <= b' ' && (b == b' ' || b == b'\t')
}
