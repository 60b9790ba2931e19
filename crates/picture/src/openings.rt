//! The words with which the history of a picture begins: the store at its left edge.
ghost use Rattle.std.specs.Prelude.{◌≡◌, IfOk};
ghost use Rattle.picture.specs.Bandings.{opening_length, opens_with};

use picture_layout::cut;
use std::alloc::{AllocError, Global};

/// Returns the words with which the history begins.
pub(crate) fn opening_words(alloc: Global, opening: &[u8]) -> Result<Vec<u8>, AllocError>
    ensures { IfOk result (λ words. words.items ≡ opens_with opening.now) }
{
    if opening.is_empty() {
        return Ok(Vec::new(alloc));
    }
    let mut words = Vec::new(alloc);
    words.extend_from_slice(b"opens with ")?;
    words.extend_from_slice(opening)?;
    cut(alloc, words.as_slice())
}

/// Returns the number of characters of these words.
pub(crate) fn characters(opening: &[u8]) -> usize
    ensures { result ≡ opening_length opening.now }
{
    if opening.is_empty() {
        return 0;
    }
    opening.len().min(33) + 11
}
