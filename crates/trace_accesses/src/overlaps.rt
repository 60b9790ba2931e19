//! Where an access began, and which open accesses it overlaps.
ghost use Rattle.std.specs.Prelude.{◌≡◌, ◌<◌, length};
ghost use Rattle.trace_accesses.specs.Accesses.{begin_of, first_overlaps, overlaps_of, overlaps_with as is_overlap};
ghost use Rattle.trace_accesses.specs.Keeping.{kept_begin as begin_of_kept, kept_overlaps as is_kept_overlap};
ghost use Rattle.trace_memory.specs.Keeping.{OfMade};

use trace::{CellAccess, CellMove};
use trace_memory::{CellMemory, OpenAccess, same_cell};

/// The most processes.
const MOST_PROCESSES: usize = 16;

/// Returns the number of the entry with which an access began that may end with this move of a process. The entry of the move
/// has this number.
pub(crate) fn begin(memory: &CellMemory, process: u8, number: u64, how: CellMove) -> u64
    requires { process < 16 }
    ensures { OfMade memory.now (λ past.
        number ≡ length past → result ≡ begin_of past process how) }
{
    if how.ends() {
        let opened = memory.opened(process);
        kept_begin(number, &opened)
    } else {
        number
    }
}

/// Returns the number of the entry with which an open access began, or this number if none is open.
fn kept_begin(number: u64, opened: &Option<OpenAccess>) -> u64
    ensures { result ≡ begin_of_kept number opened.now }
{
    match opened {
        Some(kept) => kept.entry,
        None => number,
    }
}

/// Returns the processes whose open accesses an access of a process overlaps. An access that ends overlaps none.
pub(crate) fn overlaps(
    memory: &CellMemory,
    process: u8,
    access: &CellAccess,
) -> [bool; MOST_PROCESSES]
    ensures { OfMade memory.now (λ past. result ≡ overlaps_of past process access.now) }
{
    if access.how.ends() {
        [false; MOST_PROCESSES]
    } else {
        open_overlaps(memory, process, access)
    }
}

/// Returns the processes whose open accesses an access of a process overlaps, which begins.
fn open_overlaps(memory: &CellMemory, process: u8, access: &CellAccess) -> [bool; MOST_PROCESSES]
    ensures { OfMade memory.now (λ past. result ≡ first_overlaps past process access.now 16) }
{
    let mut overlaps = [false; MOST_PROCESSES];
    for other in 0..16 {
        overlaps[usize::from(other)] = overlaps_with(memory, process, access, other);
    }
    overlaps
}

/// Returns whether an access of a process overlaps the one that another process has open.
fn overlaps_with(memory: &CellMemory, process: u8, access: &CellAccess, other: u8) -> bool
    requires { other < 16 }
    ensures { OfMade memory.now (λ past. result ≡ is_overlap past process access.now other) }
{
    let opened = memory.opened(other);
    other != process && kept_overlaps(access, &opened)
}

/// Returns whether an access overlaps an open one: the two are of one cell, and one of them writes.
fn kept_overlaps(access: &CellAccess, opened: &Option<OpenAccess>) -> bool
    ensures { result ≡ is_kept_overlap access.now opened.now }
{
    match opened {
        Some(kept) => {
            same_cell(kept.cell, access.cell) && (access.how.writes() || kept.allowed.is_none())
        }
        None => false,
    }
}
