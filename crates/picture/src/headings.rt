//! The heading of a page or a picture of a run or a record.
ghost use Rattle.std.specs.Prelude.{◌≡◌, IfOk};
ghost use Rattle.std.specs.String.{string_bytes};
ghost use Rattle.picture.specs.Sheets.{counted_of, heading_of, plural_of, setup_words};

use crate::subjects::Subject;
use model::Setup;
use std::alloc::{AllocError, Global};

/// Returns the ending of the word *process* for this number.
fn plural(processes: u8) -> &'static str
    ensures { result.now ≡ plural_of processes }
{
    if processes == 1 { "" } else { "es" }
}

/// Returns how a heading begins: what the picture is of, and its number of processes.
#[tactic(auto, using(crate::proofs::Sheetings::counted_is))]
fn counted(alloc: Global, subject: Subject, processes: u8) -> Result<String, AllocError>
    ensures { IfOk result (λ text. string_bytes text ≡ counted_of subject processes) }
{
    let kind = subject.word();
    let many = plural(processes);
    format!(in alloc; "{kind} of {processes} process{many}")
}

/// Returns how it ends: the first word of the file, and the numbers of the setup.
fn numbers(alloc: Global, subject: Subject, setup: &Setup) -> Result<String, AllocError>
    ensures { IfOk result (λ text. string_bytes text ≡ setup_words subject setup.now) }
{
    let Setup {
        version,
        ticket_bits,
        stamp_bits,
        slots,
        ..
    } = *setup;
    let file = subject.file_word();
    format!(in alloc;
        " ({file} {version}, tickets {ticket_bits}, stamps {stamp_bits}, slots {slots})"
    )
}

/// Returns the heading of a page or a picture.
pub(crate) fn heading(alloc: Global, subject: Subject, setup: &Setup) -> Result<Vec<u8>, AllocError>
    ensures { IfOk result (λ heading. heading.items ≡ heading_of subject setup.now) }
{
    let numbers = numbers(alloc, subject, setup)?;
    let mut heading = counted(alloc, subject, setup.processes)?.into_bytes();
    heading.extend_from_slice(numbers.as_bytes())?;
    Ok(heading)
}
