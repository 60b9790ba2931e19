//! The access of an entry, in numbers.
ghost use Rattle.std.specs.Prelude.{◌≡◌, is_some};
ghost use Rattle.record_accesses.specs.Accesses.{begin_of, step_of};
ghost use Rattle.record_accesses.specs.Waves.{change_in_row, change_of};

use crate::bits::BitState;
use crate::limits::has_row;
use crate::opened::{OpenBitAccess, is_write_of};
use model::{Access, Move};
use picture_layout::{AccessStep, WaveCount};

/// A change of the wave of a bit, in numbers.
#[derive(Clone, Copy)]
pub struct BitChange {
    /// The row of the wave, from 0.
    pub row: u16,
    /// The value last written or settled before the entry.
    pub old: bool,
    /// The value last written or settled after the entry.
    pub value: bool,
    /// Whether a write of the bit was open before the entry.
    pub was_open: bool,
    /// Whether a write of the bit is open after the entry.
    pub is_open: bool,
}

/// The access of an entry, in numbers.
#[derive(Clone, Copy)]
pub struct MonitoredBitAccess {
    /// The number of the entry.
    pub event: u64,
    pub process: u8,
    pub access: Access,
    /// The part of the access that the entry makes.
    pub step: AccessStep,
    /// The number of the entry with which the access began.
    pub begin: u64,
    /// The value that was last written to the bit, or settled, before the entry.
    pub written: bool,
    /// The processes whose open accesses it overlaps.
    pub overlaps: [bool; 16],
    /// The change of the bit's wave, if it changes and is shown.
    pub change: Option<BitChange>,
}

/// A read that a process drops as it fails or withdraws.
#[derive(Clone, Copy)]
pub struct DroppedRead {
    /// The number of the entry.
    pub event: u64,
    pub process: u8,
    /// The read.
    pub read: OpenBitAccess,
}

/// What is shown of an entry.
#[derive(Clone, Copy)]
pub enum Monitored {
    /// Its access.
    Made(MonitoredBitAccess),
    /// The end of the read that it drops.
    Dropped(DroppedRead),
}

/// Returns the part of its access that a move makes, where its process has this access open.
pub(crate) fn step(current: &Option<OpenBitAccess>, access: &Access) -> AccessStep
    ensures { result ≡ step_of current.now access.now }
{
    match access.how {
        Move::BeginWrite(_) | Move::BeginRead => AccessStep::Begin,
        Move::EndWrite | Move::EndRead(_) => AccessStep::End,
        Move::Settle(_) => {
            if is_write_of(current, access) {
                AccessStep::End
            } else {
                AccessStep::Whole
            }
        }
    }
}

/// Returns the number of the entry with which an access began, of which the entry with this number makes a step.
pub(crate) fn begin(step: AccessStep, current: &Option<OpenBitAccess>, number: u64) -> u64
    ensures { result ≡ begin_of step current.now number }
{
    match step {
        AccessStep::End => entry_of(current, number),
        AccessStep::Begin | AccessStep::Whole => number,
    }
}

/// Returns the number of the entry with which an open access began, or this number if none is open.
fn entry_of(current: &Option<OpenBitAccess>, number: u64) -> u64
    ensures { result ≡ begin_of AccessStep.End current.now number }
{
    match current {
        Some(kept) => kept.entry,
        None => number,
    }
}

/// Returns the change of a wave by a move, whose bit may have a row and was in these states before and after the move.
pub(crate) fn change(
    count: WaveCount,
    row: Option<usize>,
    how: Move,
    before: &BitState,
    after: &BitState,
) -> Option<BitChange>
    ensures { result ≡ change_of count row how before.now.written after.now.written
        (is_some before.now.writer) (is_some after.now.writer) }
{
    if !how.is_of_write() {
        return None;
    }
    match row {
        Some(row) => change_in(count, row, before, after),
        None => None,
    }
}

/// Returns the change of the wave in a row, if that is shown.
fn change_in(count: WaveCount, row: usize, before: &BitState, after: &BitState) -> Option<BitChange>
    ensures { result ≡ change_in_row count before.now.written after.now.written
        (is_some before.now.writer) (is_some after.now.writer) row }
{
    if !has_row(count, row) {
        return None;
    }
    Some(BitChange {
        row: row as u16,
        old: before.written,
        value: after.written,
        was_open: before.writer.is_some(),
        is_open: after.writer.is_some(),
    })
}
