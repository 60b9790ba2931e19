//! Which open accesses an access overlaps as it begins.
ghost use Rattle.std.specs.Prelude.{◌≡◌};
ghost use Rattle.record_accesses.specs.Keeping.{HasOpened};
ghost use Rattle.record_accesses.specs.Overlaps.{first_overlaps, is_writer, overlaps_by};
ghost use Rattle.record_accesses.specs.Bits.{writer_of};
ghost use Rattle.model.specs.{Past};

use crate::opened::{OpenAccesses, OpenBitAccess, is_read_of};
use model::{Access, Move};

/// Returns the processes whose open accesses an access overlaps, where `writer` is the process whose write of its bit is open.
pub(crate) fn overlaps(opened: &OpenAccesses, access: &Access, writer: Option<u8>) -> [bool; 16]
    ensures { (past : Past) → HasOpened opened.now past → writer ≡ writer_of access.now past →
        result ≡ first_overlaps past access.now 16 }
{
    let mut overlaps = [false; 16];
    for process in 0..16 {
        let current = opened.get(process);
        overlaps[usize::from(process)] = overlaps_with(access, writer, process, &current);
    }
    overlaps
}

/// Returns whether an access overlaps one that a process has open, where `writer` is the process whose write of its bit is
/// open.
fn overlaps_with(
    access: &Access,
    writer: Option<u8>,
    process: u8,
    current: &Option<OpenBitAccess>,
) -> bool
    ensures { result ≡ overlaps_by access.now.how access.now writer process current.now }
{
    match access.how {
        Move::BeginWrite(_) => is_writer(writer, process) || is_read_of(current, access),
        Move::BeginRead => is_writer(writer, process),
        Move::EndWrite | Move::EndRead(_) | Move::Settle(_) => false,
    }
}

/// Returns whether a process is the one whose write is open.
fn is_writer(writer: Option<u8>, process: u8) -> bool
    ensures { result ≡ is_writer writer process }
{
    match writer {
        Some(writer) => writer == process,
        None => false,
    }
}
