//! The store whose image was read.
ghost use Rattle.std.specs.Prelude.{◌≡◌, ◌*◌, ◌<◌, ◌≤◌, ℕ, Bool, List, Ok, false, length, slice_index_or};
ghost use Rattle.plain_store.specs.{callers_of, checked};
ghost use Rattle.model.specs.{bytes_of_bits, image_bytes};
ghost use Rattle.model.specs.safe_number.{bit_in};
ghost use Rattle.store_image.specs.{store_in};

use model::{bytes_go_by_their_bits, image_bytes};
use plain_store::Setup;
use store_image::Image;

/// Returns the store whose image was read, bit by bit, as these bytes. Only the first bytes are those of the image. If
/// they are not an image, it returns the empty store.
pub(crate) fn image_read(setup: &Setup, bytes: &[u8; 216]) -> Image
    requires good { checked setup.now ≡ Ok tt }
    ensures store { (bits : List Bool) → length bits ≡ 8 * image_bytes setup.now →
        ((k : ℕ) → k < length bits → bit_in bytes.now k ≡ slice_index_or bits k false) →
        result
        ≡ store_in setup.now.slots (callers_of setup.now)
        (bytes_of_bits (image_bytes setup.now) bits) }
    ensures slots { result.slots ≡ setup.now.slots }
    ensures numbers { length result.numbers ≡ callers_of setup.now }
{
    bytes_go_by_their_bits();
    Image::read_or_empty(setup, &bytes[..usize::from(image_bytes(setup))])
}
