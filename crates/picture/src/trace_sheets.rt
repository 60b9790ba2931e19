//! The parts of a page or a picture of a trace around the bands.
ghost use Rattle.std.specs.Prelude.{◌≡◌, [], IfOk, Some};
ghost use Rattle.markup.specs.{lines_in, opens_in};
ghost use Rattle.picture.specs.Pages.{page_names, picture_names};
ghost use Rattle.picture.specs.Sheets.{trace_page_back, trace_page_front, trace_picture_back, trace_picture_front};

use crate::reads::Reads;
use crate::sheets::{add_page_end, add_page_front, add_picture_front, end_picture};
use crate::subjects::Subject;
use markup::Markup;
use std::alloc::{AllocError, Global};

/// Returns what the page of a trace has before its bands, whose body is open then. `printed` are the lines that it lists,
/// and `reads` chooses the legend.
///
/// # Errors
///
/// Returns [`AllocError`] if memory is lacking.
pub fn trace_page_head(
    alloc: Global,
    processes: u8,
    heading: &[u8],
    printed: &[u8],
    reads: Reads,
) -> Result<Markup, AllocError>
    ensures draws { IfOk result
        (λ markup. markup ≡ trace_page_front processes heading.now printed.now reads) }
    ensures lines { IfOk result (λ markup. lines_in markup ≡ []) }
    ensures elements { IfOk result (λ markup. opens_in markup (Some []) ≡ Some page_names) }
{
    let mut markup = Markup::new(alloc);
    add_page_front(
        Subject::Trace,
        processes,
        heading,
        printed,
        reads,
        &mut markup,
    )?;
    Ok(markup)
}

/// Returns what the page of a trace has after its bands.
///
/// # Errors
///
/// Returns [`AllocError`] if memory is lacking.
pub fn trace_page_end(alloc: Global) -> Result<Markup, AllocError>
    ensures draws { IfOk result (λ markup. markup ≡ trace_page_back) }
    ensures lines { IfOk result (λ markup. lines_in markup ≡ []) }
    ensures elements { IfOk result (λ markup. opens_in markup (Some page_names) ≡ Some []) }
{
    let mut markup = Markup::new(alloc);
    add_page_end(Subject::Trace, b"", &mut markup)?;
    Ok(markup)
}

/// Returns what one picture of a trace has before its bands, whose heights come to `bands`. Its height depends on the
/// legend that `reads` chooses.
///
/// # Errors
///
/// Returns [`AllocError`] if memory is lacking.
pub fn trace_picture_head(
    alloc: Global,
    heading: &[u8],
    bands: u64,
    reads: Reads,
) -> Result<Markup, AllocError>
    ensures draws { IfOk result (λ markup. markup ≡ trace_picture_front heading.now bands reads) }
    ensures lines { IfOk result (λ markup. lines_in markup ≡ []) }
    ensures elements { IfOk result (λ markup. opens_in markup (Some []) ≡ Some picture_names) }
{
    let mut markup = Markup::new(alloc);
    add_picture_front(Subject::Trace, heading, bands, reads, &mut markup)?;
    Ok(markup)
}

/// Returns what one picture of a trace has after its bands, whose heights come to `bands`: the legend that `reads` chooses.
///
/// # Errors
///
/// Returns [`AllocError`] if memory is lacking.
pub fn trace_picture_end(alloc: Global, bands: u64, reads: Reads) -> Result<Markup, AllocError>
    ensures draws { IfOk result (λ markup. markup ≡ trace_picture_back bands reads) }
    ensures lines { IfOk result (λ markup. lines_in markup ≡ []) }
    ensures elements { IfOk result (λ markup. opens_in markup (Some picture_names) ≡ Some []) }
{
    end_picture(alloc, Subject::Trace, bands, reads)
}
