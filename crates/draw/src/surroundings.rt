//! The markup before and after the bands of one picture, and after those of a page.
ghost use Rattle.std.specs.Prelude.{◌≡◌, ◌-◌, ◌^◌, ◌<◌, IfOk, OnOk};
ghost use Rattle.picture.specs.{picture_back, picture_front, picture_names};
ghost use Rattle.draw.specs.PictureForm.{EndsPage, IsAround};
ghost use Rattle.scenario.specs.files.{FailsAsWriting};

use crate::writing::write_markup;
use picture::{Markup, Reads, Subject, page_end, picture_end, picture_head};
use record_accesses::plain_store::Setup;
use scenario::{Fault, Sink};
use std::alloc::{AllocError, Global};

/// Returns the markup before and after the bands of one picture of a run or a record; `height` is the sum of their heights.
///
/// # Errors
///
/// Returns [`AllocError`] if memory is lacking.
pub fn around_picture(
    alloc: Global,
    subject: Subject,
    setup: &Setup,
    height: u64,
    reads: Reads,
) -> Result<(Markup, Markup), AllocError>
    ensures front { IfOk result
        (λ around. around.0 ≡ picture_front subject setup.now height reads) }
    ensures back { IfOk result (λ around. around.1 ≡ picture_back height reads) }
    ensures elements { IfOk result (λ around. IsAround picture_names around.0 around.1) }
{
    let head = picture_head(alloc, subject, setup, height, reads)?;
    let end = picture_end(alloc, height, reads)?;
    Ok((head, end))
}

/// Writes the markup after the bands of a page: a slider, which shows the store before the window at first.
///
/// # Errors
///
/// Returns [`Fault::Write`] if a call of the sink fails, and [`Fault::Memory`] if memory is lacking.
pub fn write_page_end<W: Sink>(alloc: Global, opening: &[u8], output: &mut W) -> Result<(), Fault>
    requires { W.failures output.old < 2 ^ 64 - 1 }
    ensures ends { OnOk result (EndsPage opening.now (W.taken output.old) (W.taken output.new)) }
    ensures fails { FailsAsWriting W.failures result output.old output.new }
{
    let end = page_end(alloc, opening)?;
    write_markup(&end, output)
}
