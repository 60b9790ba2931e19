//! The part after a register access.
ghost use Rattle.std.specs.Prelude.{◌≡◌, ◌<◌, ◌≤◌, ◌+◌, ◌-◌, ◌==◌, ◌||◌, ◌++◌, ◌∷◌, [], Bool, List, false, length};
ghost use Rattle.plain_store.specs.{callers_of};
ghost use Rattle.model.specs.{greatest, is_below, max_of, part_after, to_b, to_c, to_d, to_e, to_g};
ghost use Rattle.model.specs.safe_number.{number_of_bits};
ghost use Rattle.process.specs.CallParts.{IsOutcome, reads_image};
ghost use Rattle.process.specs.Others.{others_below};
ghost use Rattle.process.specs.ValuesRead.{Fit, HasRoom, Holds, IsCall, KeepsPart, all_from, call_of, others_of, part_at, tickets_seen, versions_seen, waits_from};
ghost use Rattle.process.specs.declared.values_read.ValuesRead.{ValuesRead};

use crate::numbers::{greatest, most_of, place_of};
use crate::others::{first_other, other_numbered, others_below};
use crate::part::{ProcessCall, ProgramPoint};
use crate::store::{applied, is_change};
use crate::values_read::ValuesRead;
use plain_store::Answer;
use store_image::Image;

/// Returns the part after the last ticket was read: the new ticket is one more than the greatest, if it fits.
fn choose(call: &ProcessCall, tickets: &[u32]) -> ProgramPoint
    requires call { IsCall (call_of call.now) }
    requires all { length tickets.now + 1 ≡ call.now.setup.processes }
    requires fits { greatest tickets.now ≤ max_of call.now.setup.ticket_bits }
    ensures part { (seen : ValuesRead) →
        part_at (call_of call.now) seen result ≡ to_c (call_of call.now) tickets.now }
    ensures holds { (seen : ValuesRead) → Holds (call_of call.now) seen result }
{
    let most = greatest(tickets);
    if most == most_of(call.setup.ticket_bits) {
        ProgramPoint::Refuses(other_numbered(call, place_of(most, tickets)))
    } else {
        ProgramPoint::TakesTicket(most + 1)
    }
}

/// Returns the part that reads the ticket of the first of the others from `first` on, or the choice if there is none.
fn ask_from(call: &ProcessCall, seen: &ValuesRead, first: u8) -> ProgramPoint
    requires call { IsCall (call_of call.now) }
    requires room { HasRoom seen.now }
    requires first { first ≤ call.now.setup.processes }
    requires fits { Fit (others_below call.now.process first) call.now.setup.ticket_bits seen.now }
    ensures part { part_at (call_of call.now) seen.now result
        ≡ to_b (call_of call.now) (others_of (call_of call.now) first)
        (tickets_seen call.now.process first seen.now) }
    ensures holds { Holds (call_of call.now) seen.now result }
{
    match first_other(call, first) {
        Some(owner) => ProgramPoint::Asks { owner },
        None => choose(call, &seen.numbers[..usize::from(call.setup.processes) - 1]),
    }
}

/// Stores the ticket of another process, and returns the next part.
fn after_ticket(call: &ProcessCall, seen: &mut ValuesRead, owner: u8, number: u32) -> ProgramPoint
    requires keeps { KeepsPart (call_of call.now) seen.old (ProgramPoint.Asks owner) }
    requires fits { number ≤ max_of call.now.setup.ticket_bits }
    ensures part { part_at (call_of call.now) seen.new result
        ≡ to_b (call_of call.now) (others_of (call_of call.now) (owner + 1))
        (tickets_seen call.now.process owner seen.old ++ number ∷ []) }
    ensures keeps { KeepsPart (call_of call.now) seen.new result }
{
    seen.numbers[others_below(call, owner)] = number;
    ask_from(call, seen, owner + 1)
}

/// Returns the part that reads the version of this process if it exists, and otherwise the image.
pub(crate) fn version_from(call: &ProcessCall, first: u8) -> ProgramPoint
    requires first { first ≤ call.now.setup.processes }
    ensures part { (seen : ValuesRead) →
        part_at (call_of call.now) seen result
        ≡ to_e (all_from (call_of call.now) first) (versions_seen first seen) }
    ensures holds { (seen : ValuesRead) → Fit first call.now.setup.stamp_bits seen →
        Holds (call_of call.now) seen result }
{
    if first == call.setup.processes {
        ProgramPoint::AsksImage
    } else {
        ProgramPoint::AsksCommit { of: first }
    }
}

/// Returns the wait for the first of the others from `first` on; if there is none, the process is inside.
fn await_from(call: &ProcessCall, ticket: u32, first: u8) -> ProgramPoint
    requires call { IsCall (call_of call.now) }
    requires first { first ≤ call.now.setup.processes }
    ensures part { (seen : ValuesRead) →
        part_at (call_of call.now) seen result
        ≡ to_d (call_of call.now) ticket (waits_from (call_of call.now) first) }
    ensures holds { (seen : ValuesRead) → Holds (call_of call.now) seen result }
{
    match first_other(call, first) {
        Some(owner) => ProgramPoint::AwaitsChoosing { ticket, owner },
        None => version_from(call, 0),
    }
}

/// Stores the commit bit and the stamp of a process, and returns the next part.
fn after_stamp(
    call: &ProcessCall,
    seen: &mut ValuesRead,
    of: u8,
    commit: bool,
    number: u32,
) -> ProgramPoint
    requires keeps { KeepsPart (call_of call.now) seen.old (ProgramPoint.AsksStamp of commit) }
    requires fits { number ≤ max_of call.now.setup.stamp_bits }
    ensures part { part_at (call_of call.now) seen.new result
        ≡ to_e (all_from (call_of call.now) (of + 1))
        (versions_seen of seen.old ++ (commit, number) ∷ []) }
    ensures keeps { KeepsPart (call_of call.now) seen.new result }
{
    let place = usize::from(of);
    seen.commits[place] = commit;
    seen.numbers[place] = number;
    version_from(call, of + 1)
}

/// Returns the part after the newest store was read. A command that changes nothing is taken. A change is written if its
/// stamp fits.
pub(crate) fn after_image(call: &ProcessCall, seen: &ValuesRead) -> ProgramPoint
    requires call { IsCall (call_of call.now) }
    requires room { HasRoom seen.now }
    requires fits { Fit call.now.setup.processes call.now.setup.stamp_bits seen.now }
    requires slots { seen.now.store.slots ≡ call.now.setup.slots }
    requires numbers { length seen.now.store.numbers ≡ callers_of call.now.setup }
    ensures part { part_at (call_of call.now) seen.now result
        ≡ to_g (call_of call.now) (versions_seen call.now.setup.processes seen.now) seen.now.store }
    ensures holds { Holds (call_of call.now) seen.now result }
{
    if !is_change(call, &seen.store) {
        return ProgramPoint::Clears(Answer::Reply(applied(call, &seen.store).1));
    }
    let stamps = &seen.numbers[..usize::from(call.setup.processes)];
    if greatest(stamps) == most_of(call.setup.stamp_bits) {
        ProgramPoint::Clears(Answer::StampsFull)
    } else {
        ProgramPoint::WritesImage
    }
}

/// Returns whether a ticket that was read lets this process pass.
fn lets_by(call: &ProcessCall, ticket: u32, owner: u8, number: u32) -> bool
    ensures { result ≡ ((number == 0) || is_below ticket call.now.process number owner) }
{
    number == 0 || ticket < number || ticket == number && call.process < owner
}

/// Returns the part after a read of a wait returned this number: the same wait, or the part that follows it.
fn after_wait(call: &ProcessCall, ticket: u32, owner: u8, number: u32) -> ProgramPoint
    requires call { IsCall (call_of call.now) }
    requires owner { owner < call.now.setup.processes }
    ensures part { (seen : ValuesRead) (bits : List Bool) → number_of_bits bits ≡ number →
        part_at (call_of call.now) seen result
        ≡ part_after (call_of call.now)
        (part_at (call_of call.now) seen (ProgramPoint.AwaitsTicket ticket owner)) bits }
    ensures holds { (seen : ValuesRead) → Holds (call_of call.now) seen result }
{
    if lets_by(call, ticket, owner, number) {
        await_from(call, ticket, owner + 1)
    } else {
        ProgramPoint::AwaitsTicket { ticket, owner }
    }
}

/// Returns the part after a register access other than a read of the image; a read returned `number`.
pub(crate) fn part_after(
    call: &ProcessCall,
    seen: &mut ValuesRead,
    part: &ProgramPoint,
    number: u32,
) -> ProgramPoint
    requires keeps { KeepsPart (call_of call.now) seen.old part.now }
    requires small { reads_image (part_at (call_of call.now) seen.old part.now) ≡ false }
    requires number { (bits : List Bool)
        × IsOutcome (call_of call.now) (part_at (call_of call.now) seen.old part.now) bits number }
    ensures part { (bits : List Bool) →
        IsOutcome (call_of call.now) (part_at (call_of call.now) seen.old part.now) bits number →
        part_at (call_of call.now) seen.new result
        ≡ part_after (call_of call.now) (part_at (call_of call.now) seen.old part.now) bits }
    ensures keeps { KeepsPart (call_of call.now) seen.new result }
{
    match *part {
        ProgramPoint::Raises => ask_from(call, seen, 0),
        ProgramPoint::Asks { owner } => after_ticket(call, seen, owner, number),
        ProgramPoint::TakesTicket(ticket) => ProgramPoint::Lowers(ticket),
        ProgramPoint::Lowers(ticket) => await_from(call, ticket, 0),
        ProgramPoint::AwaitsChoosing { ticket, owner } if number == 0 => {
            ProgramPoint::AwaitsTicket { ticket, owner }
        }
        ProgramPoint::AwaitsChoosing { ticket, owner } => ProgramPoint::AwaitsChoosing {
            ticket,
            owner,
        },
        ProgramPoint::AwaitsTicket { ticket, owner } => after_wait(call, ticket, owner, number),
        ProgramPoint::AsksCommit { of } => ProgramPoint::AsksStamp {
            of,
            commit: number == 1,
        },
        ProgramPoint::AsksStamp { of, commit } => after_stamp(call, seen, of, commit, number),
        ProgramPoint::WritesImage => ProgramPoint::WritesStamp,
        ProgramPoint::WritesStamp => ProgramPoint::WritesCommit,
        ProgramPoint::WritesCommit => {
            ProgramPoint::Clears(Answer::Reply(applied(call, &seen.store).1))
        }
        ProgramPoint::Refuses(_) | ProgramPoint::Clears(_) | ProgramPoint::Over =>
            ProgramPoint::Over,
        ProgramPoint::AsksImage => unreachable!(),
    }
}
