//! Reads an entry by its words.
ghost use Rattle.std.specs.Prelude.{◌≡◌, ◌≤◌, length};
ghost use Rattle.files.specs.{texts};
ghost use Rattle.trace_file.specs.Reading.{access_of, entry_of, entry_with, marks_behind};

use crate::cells::cell;
use crate::faults::both;
use crate::marks::{marks, up_to_sign};
use crate::moves::cell_move;
use crate::numbers::process;
use files::FaultKind;
use smallvec::SmallVec;
use std::alloc::Global;
use trace::{CellAccess, TraceEntry, TraceRegister};

/// Returns the entry of a line, by the first word and the other words. It allocates no memory.
///
/// # Errors
///
/// Returns the first fault in the order of faults.
#[tactic(auto, using(crate::proofs::LineWords::some_words))]
pub fn read_entry(
    alloc: Global,
    registers: &[TraceRegister],
    first: &[u8],
    words: &[&[u8]],
) -> Result<TraceEntry, FaultKind>
    requires { length registers.now ≤ 64 }
    ensures { result ≡ entry_of registers.now first.now (texts words.now) }
{
    if words.is_empty() {
        return Err(FaultKind::Words);
    }
    let (place, signed) = up_to_sign(words);
    let process = process(first);
    let access = access(registers, place);
    let marks = marks(alloc, signed);
    let ((process, access), marks) = both(both(process, access), marks)?;
    Ok(TraceEntry {
        process,
        access,
        marks: marks.read,
    })
}

/// Returns the access in the words before the marks, if there are such words.
///
/// # Errors
///
/// Returns the first fault in the order of faults.
fn access(registers: &[TraceRegister], words: &[&[u8]]) -> Result<Option<CellAccess>, FaultKind>
    requires { length registers.now ≤ 64 }
    ensures { result ≡ access_of registers.now (texts words.now) }
{
    let [place, how @ ..] = words else {
        return Ok(None);
    };
    let (cell, how) = both(cell(registers, place), cell_move(how))?;
    Ok(Some(CellAccess { cell, how }))
}
