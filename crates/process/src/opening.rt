//! The initial memory.
ghost use Rattle.std.specs.Prelude.{◌≡◌, IfOk, Ok};
ghost use Rattle.plain_store.specs.{checked, opening_store};
ghost use Rattle.process.specs.Memories.{cells_opening, memory_with};

use plain_store::{Setup, opened, pad};
use registers::{BitMemory, words_of};
use std::alloc::{AllocError, Global};
use store_image::Image;

/// Creates the initial registers of all processes: the first image of process 0 holds the opening store, and all other
/// bits are 0.
///
/// # Errors
///
/// Returns [`AllocError`] if an allocation fails; there is no other error.
pub fn open_memory(alloc: Global, setup: &Setup) -> Result<BitMemory, AllocError>
    requires { checked setup.now ≡ Ok tt }
    ensures { IfOk result (λ memory. memory ≡ memory_with (cells_opening setup.now) setup.now) }
{
    let image = opening_image(setup)?;
    let bytes: [u8; 216] = pad(image.bytes());
    BitMemory::new(alloc, setup, &words_of(&bytes))
}

/// Returns the image of the opening store.
fn opening_image(setup: &Setup) -> Result<Image, AllocError>
    requires { checked setup.now ≡ Ok tt }
    ensures { IfOk result (λ image. image ≡ opening_store setup.now) }
{
    opened(Image::empty(setup.slots, setup.callers()), setup)
}
