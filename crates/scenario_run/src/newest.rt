//! The newest store of a run, in words.
ghost use Rattle.std.specs.Prelude.{◌≡◌, IfOk};
ghost use Rattle.std.specs.String.{string_bytes};
ghost use Rattle.scenario_run.specs.Texts.{newest_words as words_of};

use plain_store::store_words;
use std::alloc::{AllocError, Global};
use world::Image;

/// Returns the newest store in words, or `busy` if a process is inside.
///
/// # Errors
///
/// Returns [`AllocError`] if there is no memory for the words.
pub fn newest_words(alloc: Global, store: &Option<Image>) -> Result<String, AllocError>
    ensures { IfOk result (λ words. string_bytes words ≡ words_of store.now) }
{
    match store {
        None => String::from_str(alloc, "busy"),
        Some(store) => store_words(alloc, store),
    }
}
