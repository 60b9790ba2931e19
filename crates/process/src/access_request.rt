//! The register access of a part.
ghost use Rattle.std.specs.Prelude.{◌≡◌, ◌+◌, ◌<◌, not, take};
ghost use Rattle.model.specs.{AsksImage, greatest, image_field, newest_stamp, read_at, stamp_field, version_of};
ghost use Rattle.process.specs.CallParts.{IsAsked};
ghost use Rattle.process.specs.ValuesRead.{HasRoom, IsCall, IsChange, KeepsPart, call_of, part_at, versions_seen};

use crate::numbers::{greatest, place_of};
use crate::part::{ProcessCall, ProgramPoint};
use crate::values_read::ValuesRead;
use model::Field;

/// The register access of a part of a call.
#[derive(Clone, Copy)]
pub enum AccessRequest {
    /// No access is left.
    Nothing,
    /// The part reads this register.
    Reads { owner: u8, field: Field },
    /// The part writes this number to a register of its own process.
    Writes(Field, u32),
    /// The part writes the image of the store after the command to a register of its own process.
    WritesImage(Field),
}

/// Returns the field of the stamp that a commit bit chooses.
#[inline]
pub(crate) fn stamp_field(commit: bool) -> Field
    ensures { result ≡ stamp_field commit }
{
    if commit { Field::Stamp1 } else { Field::Stamp0 }
}

/// Returns the field of the image that a commit bit chooses.
#[inline]
pub(crate) fn image_field(commit: bool) -> Field
    ensures { result ≡ image_field commit }
{
    if commit { Field::Image1 } else { Field::Image0 }
}

/// Returns the register of the newest image.
pub(crate) fn newest_image(call: &ProcessCall, seen: &ValuesRead) -> (u8, Field)
    requires call { IsCall (call_of call.now) }
    requires room { HasRoom seen.now }
    ensures register { read_at (call_of call.now)
        (AsksImage (versions_seen call.now.setup.processes seen.now)) ≡ result }
    ensures in_range { result.0 < call.now.setup.processes }
{
    let stamps = &seen.numbers[..usize::from(call.setup.processes)];
    let newest = place_of(greatest(stamps), stamps);
    (newest as u8, image_field(seen.commits[newest]))
}

/// Returns the commit bit of the version that is written.
pub(crate) fn other_commit(call: &ProcessCall, seen: &ValuesRead) -> bool
    requires call { IsCall (call_of call.now) }
    requires room { HasRoom seen.now }
    ensures { result
        ≡ not (version_of (versions_seen call.now.setup.processes seen.now) call.now.process) }
{
    !seen.commits[usize::from(call.process)]
}

/// Returns the greatest stamp that was read.
pub(crate) fn newest_stamp(call: &ProcessCall, seen: &ValuesRead) -> u32
    requires call { IsCall (call_of call.now) }
    requires room { HasRoom seen.now }
    ensures newest { result ≡ newest_stamp (versions_seen call.now.setup.processes seen.now) }
    ensures greatest { result ≡ greatest (take call.now.setup.processes seen.now.numbers) }
{
    greatest(&seen.numbers[..usize::from(call.setup.processes)])
}

/// Returns the stamp of the version that is written.
fn next_stamp(call: &ProcessCall, seen: &ValuesRead) -> u32
    requires call { IsCall (call_of call.now) }
    requires room { HasRoom seen.now }
    requires change { IsChange call.now.setup seen.now }
    ensures { result ≡ newest_stamp (versions_seen call.now.setup.processes seen.now) + 1 }
{
    newest_stamp(call, seen) + 1
}

/// Returns the register access of a part.
pub(crate) fn asks_at(call: &ProcessCall, seen: &ValuesRead, part: &ProgramPoint) -> AccessRequest
    requires { KeepsPart (call_of call.now) seen.now part.now }
    ensures { IsAsked (call_of call.now) (part_at (call_of call.now) seen.now part.now) result }
{
    match *part {
        ProgramPoint::Raises => AccessRequest::Writes(Field::Choosing, 1),
        ProgramPoint::Asks { owner } | ProgramPoint::AwaitsTicket { owner, .. } => {
            AccessRequest::Reads {
                owner,
                field: Field::Ticket,
            }
        }
        ProgramPoint::TakesTicket(ticket) => AccessRequest::Writes(Field::Ticket, ticket),
        ProgramPoint::Lowers(_) | ProgramPoint::Refuses(_) => AccessRequest::Writes(
            Field::Choosing,
            0,
        ),
        ProgramPoint::AwaitsChoosing { owner, .. } => AccessRequest::Reads {
            owner,
            field: Field::Choosing,
        },
        ProgramPoint::AsksCommit { of } => AccessRequest::Reads {
            owner: of,
            field: Field::Commit,
        },
        ProgramPoint::AsksStamp { of, commit } => AccessRequest::Reads {
            owner: of,
            field: stamp_field(commit),
        },
        ProgramPoint::AsksImage => {
            let (owner, field) = newest_image(call, seen);
            AccessRequest::Reads { owner, field }
        }
        ProgramPoint::WritesImage => AccessRequest::WritesImage(image_field(other_commit(
            call, seen,
        ))),
        ProgramPoint::WritesStamp => {
            AccessRequest::Writes(
                stamp_field(other_commit(call, seen)),
                next_stamp(call, seen),
            )
        }
        ProgramPoint::WritesCommit => {
            AccessRequest::Writes(Field::Commit, u32::from(other_commit(call, seen)))
        }
        ProgramPoint::Clears(_) => AccessRequest::Writes(Field::Ticket, 0),
        ProgramPoint::Over => AccessRequest::Nothing,
    }
}
