ghost use Rattle.std.specs.Prelude.{◌≡◌, ◌≤◌, IfOk, Ok, length};
ghost use Rattle.plain_store.specs.{checked};
ghost use Rattle.model.specs.{lists_of};
ghost use Rattle.call_check.specs.Weighing.{AreShort, IsWeighed};

use crate::notes::CallNotes;
use crate::verdicts::Weighed;
use model::Placed;
use plain_store::Setup;
use std::alloc::{AllocError, Global};
use store_image::Image;

/// Weighs the ports' lists of finished calls against the image at the end. Returns whether they belong to one history of
/// the sequential store, with this image after it, and otherwise the first call that does not fit. List p is that of
/// process p. The only error is allocation failure.
pub fn weigh(
    alloc: Global,
    setup: &Setup,
    lists: &[Vec<Placed>],
    image: &Image,
) -> Result<Weighed, AllocError>
    requires good { checked setup.now ≡ Ok tt }
    requires few_lists { setup.now.version ≡ 2 → length lists.now ≤ setup.now.processes }
    requires few_calls { setup.now.version ≡ 2 → AreShort (lists_of lists.now) }
    ensures { IfOk result (λ weighed. IsWeighed setup.now (lists_of lists.now) image.now weighed) }
{
    let followed = CallNotes::follow(alloc, setup, lists)?;
    let mut before = 0;
    for (port, list) in lists.iter().enumerate() {
        if let Some(index) = followed.first_bad(before, list) {
            return Ok(Weighed::Bad(port, index));
        }
        before += list.len();
    }
    if followed.end_with(image) {
        Ok(Weighed::Good)
    } else {
        Ok(Weighed::BadEnd)
    }
}
