//! The opening words of a board: each shows the opening value of its bit.
ghost use Rattle.std.specs.Prelude.{◌≡◌, ◌*◌, ◌<◌, Ok, IfOk, vec_len};
ghost use Rattle.plain_store.specs.{checked, opening_store};
ghost use Rattle.store_image.specs.{image_of};
ghost use Rattle.board.specs.Words.{AreOpening, opening_word, row_bits, words_in};

use crate::words::{copy_of, row_bits, words_in};
use model::{Field, bit_of};
use plain_store::{Setup, opened};
use std::alloc::{AllocError, Global};
use store_image::Image;

/// Returns the opening word. `image` is the first image of process 0, which owns the first `own` words.
fn opening_word(setup: &Setup, image: &[u8], own: usize, word: usize) -> u64
    requires good { checked setup.now ≡ Ok tt }
    requires image { image.now ≡ image_of (opening_store setup.now) }
    requires own { own ≡ setup.now.processes * row_bits setup.now }
    requires word { word < words_in setup.now }
    ensures { result ≡ opening_word setup.now word }
{
    // The words of process 0 come first, and no other word is initially 1.
    if own <= word {
        return 0;
    }
    let copy = copy_of(setup, word);
    if copy.register.owner != 0 {
        return 0;
    }
    match copy.register.field {
        Field::Image0 => u64::from(bit_of(image, copy.bit)),
        _ => 0,
    }
}

/// Creates the words of a setup, each at its bit's opening value.
pub(crate) fn opening_words(alloc: Global, setup: &Setup) -> Result<Vec<u64>, AllocError>
    requires { checked setup.now ≡ Ok tt }
    ensures length { IfOk result (λ words. vec_len words ≡ words_in setup.now) }
    ensures words { IfOk result (λ words. AreOpening setup.now words.items) }
{
    let image = opened(Image::empty(setup.slots, setup.callers()), setup)?;
    let count = words_in(setup);
    let own = usize::from(setup.processes) * row_bits(setup);
    let mut words = Vec::with_capacity(alloc, count)?;
    for word in 0..count {
        words.push_reserved(opening_word(setup, image.bytes(), own, word));
    }
    Ok(words)
}
