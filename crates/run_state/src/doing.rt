//! How far a process is: its ticket, the process for which it waits, what it reads or writes, what its unit settles, and
//! which access is open.
ghost use Rattle.std.specs.Prelude.{◌≡◌, IfOk, option_map};
ghost use Rattle.std.specs.String.{string_bytes};
ghost use Rattle.judge.specs.record_file.scenario.{bit_word};
ghost use Rattle.run_state.specs.Copies.{is_image};
ghost use Rattle.run_state.specs.Doing.{access_in, awaited, chosen_words, cut_access, cut_open, doorway_ticket, failed_words, is_cut_open, open_by, opened_words, progress_words, read_word, reads_words, settles_words, so_far, ticket_at, ticket_words, torn_words, waiting_ticket, waits_at, waits_by, writes_words, written_word};

use crate::kept::FinishedRead;
use calls::world::{AccessProgress, CopyState, KnownTicket, Settling};
use calls::{Called, holds_up};
use model::{Access, Entry, Field, Move, Stage};
use plain_store::NestedTypes;
use std::alloc::{AllocError, Global};

/// Returns when a process failed, while its unit settles.
pub(crate) fn failed_words(
    alloc: Global,
    stage: Stage,
    at: u64,
) -> Result<Option<String>, AllocError>
    ensures { IfOk result (λ words. option_map string_bytes words ≡ failed_words stage at) }
{
    match stage {
        Stage::Settling => Ok(Some(format!(in alloc; "failed at {at}")?)),
        _ => Ok(None),
    }
}

/// Returns the ticket of a process at a stage of its call; `known` is what its doorway has fixed of it.
pub(crate) fn ticket_at(
    alloc: Global,
    stage: Stage,
    known: &Option<KnownTicket>,
    called: &Called,
) -> Result<Option<String>, AllocError>
    ensures { IfOk result (λ words. option_map string_bytes words
        ≡ ticket_at stage known.now called.now) }
{
    match stage {
        Stage::Doorway => doorway_ticket(alloc, known),
        Stage::Waiting | Stage::Inside => waiting_ticket(alloc, called.marks.ticket),
        _ => Ok(None),
    }
}

/// Returns the ticket of a process in its doorway, as far as it is known.
fn doorway_ticket(alloc: Global, known: &Option<KnownTicket>) -> Result<Option<String>, AllocError>
    ensures { IfOk result (λ words. option_map string_bytes words ≡ doorway_ticket known.now) }
{
    match known {
        None => Ok(None),
        Some(KnownTicket::Above(ticket)) => Ok(Some(format!(in alloc; "ticket above {ticket}")?)),
        Some(KnownTicket::Is(ticket)) => Ok(Some(ticket_words(alloc, *ticket)?)),
    }
}

/// Returns `ticket T` for a waiting process, or `None` if it has no ticket.
fn waiting_ticket(alloc: Global, ticket: Option<u32>) -> Result<Option<String>, AllocError>
    ensures { IfOk result (λ words. option_map string_bytes words ≡ waiting_ticket ticket) }
{
    match ticket {
        None => Ok(None),
        Some(ticket) => Ok(Some(ticket_words(alloc, ticket)?)),
    }
}

/// Returns the words of a ticket.
fn ticket_words(alloc: Global, ticket: u32) -> Result<String, AllocError>
    ensures { IfOk result (λ words. string_bytes words ≡ ticket_words ticket) }
{
    format!(in alloc; "ticket {ticket}")
}

/// Returns for which process a process waits at a stage of its call; `read` is the number that it has read last.
pub(crate) fn waits_at(
    alloc: Global,
    process: u8,
    stage: Stage,
    read: Option<FinishedRead>,
    called: &Called,
) -> Result<Option<String>, AllocError>
    ensures { IfOk result (λ words. option_map string_bytes words
        ≡ waits_at process stage read called.now) }
{
    let _nested: NestedTypes = None;
    match stage {
        Stage::Waiting => waits_by(alloc, process, called.marks.ticket, read),
        _ => Ok(None),
    }
}

/// Returns for which process it waits with this ticket, by the number that it has read last.
fn waits_by(
    alloc: Global,
    process: u8,
    ticket: Option<u32>,
    newest: Option<FinishedRead>,
) -> Result<Option<String>, AllocError>
    ensures { IfOk result (λ words. option_map string_bytes words
        ≡ waits_by process ticket newest) }
{
    let Some(ticket) = ticket else {
        return Ok(None);
    };
    let Some(read) = newest else {
        return Ok(None);
    };
    let owner = read.access.owner;
    let field = read.access.field;
    let number = read.number();
    if !holds_up(process, ticket, owner, field, number) {
        return Ok(None);
    }
    let what = awaited(alloc, field, number)?;
    Ok(Some(format!(in alloc; "waits for {owner}{what}")?))
}

/// Returns the register of another process for which it waits.
fn awaited(alloc: Global, field: Field, number: u64) -> Result<String, AllocError>
    ensures { IfOk result (λ words. string_bytes words ≡ awaited field number) }
{
    match field {
        Field::Ticket => format!(in alloc; " ticket {number}"),
        _ => String::from_str(alloc, " choosing"),
    }
}

/// Returns the name of a register, and how many of its accesses are made, of how many.
fn progress_words(
    alloc: Global,
    owner: u8,
    field: Field,
    progress: AccessProgress,
) -> Result<String, AllocError>
    ensures { IfOk result (λ words. string_bytes words ≡ progress_words owner field progress) }
{
    let field = field.word();
    let made = progress.made;
    let all = progress.all;
    format!(in alloc; "{owner}.{field} {made} of {all}")
}

/// Returns the words before the value that a process writes.
pub(crate) fn writes_words(
    alloc: Global,
    access: &Access,
    progress: AccessProgress,
) -> Result<String, AllocError>
    ensures { IfOk result (λ words. string_bytes words ≡ writes_words access.now progress) }
{
    let progress = progress_words(alloc, access.owner, access.field, progress)?;
    format!(in alloc; "writes {progress} value ")
}

/// Returns what a process reads, how far it is, and the number so far.
pub(crate) fn reads_words(
    alloc: Global,
    access: &Access,
    progress: AccessProgress,
    number: u32,
) -> Result<String, AllocError>
    ensures { IfOk result (λ words. string_bytes words ≡ reads_words access.now progress number) }
{
    let progress = progress_words(alloc, access.owner, access.field, progress)?;
    let number = so_far(alloc, access, number)?;
    format!(in alloc; "reads {progress}{number}")
}

/// Returns the bits of a number that were read so far; those of an image are omitted.
fn so_far(alloc: Global, access: &Access, number: u32) -> Result<String, AllocError>
    ensures { IfOk result (λ words. string_bytes words ≡ so_far access.now number) }
{
    if is_image(access.field) || access.bit == 0 {
        return Ok(String::new(alloc));
    }
    format!(in alloc; " so far {number}")
}

/// Returns whether a register is an image.
fn is_image(field: Field) -> bool
    ensures { result ≡ is_image field }
{
    matches!(field, Field::Image0 | Field::Image1)
}

/// Returns the last access of the write that a failure of a process has cut.
fn cut_access(process: u8, torn: &Settling) -> Access
    ensures { result ≡ cut_access process torn.now }
{
    Access {
        owner: process,
        field: torn.field,
        bit: torn.bit,
        reader: torn.cut / 2,
        how: Move::BeginWrite(torn.written),
    }
}

/// Returns whether the write of a copy was begun and has not ended.
fn is_cut_open(torn: &Settling) -> bool
    ensures { result ≡ is_cut_open torn.now }
{
    torn.cut % 2 == 1
}

/// Returns what a unit settles, how far it is, and the value that it has chosen.
pub(crate) fn settles_words(
    alloc: Global,
    process: u8,
    torn: &Settling,
    progress: AccessProgress,
) -> Result<String, AllocError>
    ensures { IfOk result (λ words. string_bytes words ≡ settles_words process torn.now progress) }
{
    let progress = progress_words(alloc, process, torn.field, progress)?;
    let chosen = chosen_words(alloc, torn.value)?;
    format!(in alloc; "settles {progress}{chosen}")
}

/// Returns the value that a unit has chosen, if it has chosen one.
fn chosen_words(alloc: Global, chosen: Option<bool>) -> Result<String, AllocError>
    ensures { IfOk result (λ words. string_bytes words ≡ chosen_words chosen) }
{
    let Some(chosen) = chosen else {
        return Ok(String::new(alloc));
    };
    let value = bit_word(chosen);
    format!(in alloc; " value {value}")
}

/// Returns the torn bit, and the value that was being written.
pub(crate) fn torn_words(alloc: Global, process: u8, torn: &Settling) -> Result<String, AllocError>
    ensures { IfOk result (λ words. string_bytes words ≡ torn_words process torn.now) }
{
    let field = torn.field.word();
    let bit = torn.bit;
    let value = bit_word(torn.written);
    format!(in alloc; "torn {process}.{field}.{bit} write {value}")
}

/// Returns the digit of a bit.
fn bit_word(value: bool) -> &'static str
    ensures { result.now ≡ bit_word value }
{
    if value { "1" } else { "0" }
}

/// Returns which access of a process is open, where `next` comes next, its copy is as `seen`, and `torn` is being settled.
pub(crate) fn opened_words(
    alloc: Global,
    process: u8,
    next: &Access,
    seen: CopyState,
    torn: &Option<Settling>,
) -> Result<Option<String>, AllocError>
    ensures { IfOk result (λ words. option_map string_bytes words
        ≡ open_by process next.now next.now.how seen torn.now) }
{
    match next.how {
        Move::EndWrite => Ok(Some(open_access(alloc, next, written_word(seen.value))?)),
        Move::EndRead(_) => Ok(Some(open_access(alloc, next, read_word(seen.touched))?)),
        Move::BeginWrite(_) | Move::BeginRead | Move::Settle(_) => cut_open(alloc, process, torn),
    }
}

/// Returns the write that a failure has cut, if it is open and no access of the settling is made.
fn cut_open(
    alloc: Global,
    process: u8,
    torn: &Option<Settling>,
) -> Result<Option<String>, AllocError>
    ensures { IfOk result (λ words. option_map string_bytes words ≡ cut_open process torn.now) }
{
    let Some(torn) = torn else {
        return Ok(None);
    };
    if torn.copy == 0 && !torn.begun && is_cut_open(torn) {
        let access = cut_access(process, torn);
        return Ok(Some(open_access(alloc, &access, written_word(torn.written))?));
    }
    Ok(None)
}

/// Returns the words of an open access.
fn open_access(alloc: Global, access: &Access, how: &str) -> Result<String, AllocError>
    ensures { IfOk result (λ words. string_bytes words ≡ opened_words access.now how.now) }
{
    let owner = access.owner;
    let field = access.field.word();
    let bit = access.bit;
    let reader = access.reader;
    format!(in alloc; "open {owner}.{field}.{bit}.{reader}{how}")
}

/// Returns the words of an open write.
fn written_word(value: bool) -> &'static str
    ensures { result.now ≡ written_word value }
{
    if value { " write 1" } else { " write 0" }
}

/// Returns the words of an open read.
fn read_word(overlapped: bool) -> &'static str
    ensures { result.now ≡ read_word overlapped }
{
    if overlapped {
        " read overlapped"
    } else {
        " read"
    }
}

/// Returns the access of an entry, if there is one.
pub(crate) fn access_in(entry: &Option<Entry>) -> Option<Access>
    ensures { result ≡ access_in entry.now }
{
    let _nested: NestedTypes = None;
    match entry {
        None => None,
        Some(entry) => entry.act.access,
    }
}
