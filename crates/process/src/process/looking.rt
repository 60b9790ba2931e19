//! Functions that read the state of a process and leave it unchanged.
ghost use Rattle.std.specs.Prelude.{◌≡◌, ◌<◌, ◌≤◌, Bool, None, Option, Some, cond, length, true};
ghost use Rattle.plain_store.specs.declared.Reply.{Reply as Replied};
ghost use Rattle.model.specs.{read_at, width};
ghost use Rattle.registers.specs.{IsAtPart, is_writing, place_at, register_bytes};
ghost use Rattle.process.specs.Looks.{bytes_written, number_at, number_read, reads_number, settling_in, settling_of, ticket_known};
ghost use Rattle.process.specs.RegisterProgress.{last_access, progress};
ghost use Rattle.process.specs.Working.{settling_at};

use super::Process;
use crate::access_request::AccessRequest;
use crate::activity::Activity;
use crate::call_part::CallPart;
use crate::looks::{AccessProgress, KnownTicket, Settling};
use model::{Access, Move, bit_of};
use registers::{Cursor, RegisterAccessKind};

impl Process {
    /// Returns the number that it has read so far of the register that it reads; 0 if it reads no register or an image.
    pub fn number_read(&self) -> u32
        ensures { result ≡ number_read self.now.doing }
    {
        match self.work {
            Activity::Runs => number_at(&self.called, &self.cursor),
            _ => 0,
        }
    }

    /// Returns the known facts about its ticket, from the raising of its choosing bit to the end of its doorway.
    pub fn ticket_known(&self) -> Option<KnownTicket>
        ensures { result ≡ ticket_known self.now.setup self.now.doing }
    {
        match self.work {
            Activity::Runs => self.called.ticket_known(),
            _ => None,
        }
    }

    /// Returns the bytes of what it, or its memory unit, is writing to a register, with zeros after its bits; `None` while
    /// it writes none, or settles a bit.
    pub fn writing(&self) -> Option<[u8; 216]>
        ensures { result ≡ bytes_written self.now.setup self.now.process self.now.doing }
    {
        match self.work {
            Activity::Rests | Activity::Lies | Activity::Settles { .. } => None,
            _ => bytes_written(&self.cursor),
        }
    }

    /// Returns the progress of its register access, or of its memory unit's: the number of accesses made, and their total.
    /// The result is `None` if neither makes one.
    pub fn progress(&self) -> Option<AccessProgress>
        ensures { result ≡ progress self.now.setup self.now.process self.now.doing }
    {
        if !self.goes() {
            return None;
        }
        Some(AccessProgress {
            made: self.cursor.accesses_made(),
            all: self.cursor.accesses_in_all(),
        })
    }

    /// Returns the access that its call made last within the present register access; `None` if it has made none of it,
    /// and if no call runs.
    pub fn last_access(&self) -> Option<Access>
        ensures { result ≡ last_access self.now.setup self.now.process self.now.doing }
    {
        match self.work {
            Activity::Runs => self.cursor.last_access(),
            _ => None,
        }
    }

    /// Returns the bit that its memory unit settles, if it settles one.
    pub fn settling(&self) -> Option<Settling>
        ensures { result ≡ settling_of self.now.doing }
    {
        match self.work {
            Activity::Settles { .. } => settling_at(&self.cursor),
            _ => None,
        }
    }
}

/// Returns the number read so far at a part; 0 if the part does not read a number.
fn number_at(called: &CallPart, cursor: &Cursor) -> u32
    requires { IsAtPart called.now.call called.now.part cursor.now }
    ensures { result ≡ number_at (place_at called.now.part cursor.now) }
{
    if reads_number(called) {
        cursor.number()
    } else {
        0
    }
}

/// Returns whether a part reads a register that holds a number.
fn reads_number(called: &CallPart) -> bool
    ensures reads { result ≡ reads_number called.now.part }
    ensures narrow { result ≡ true →
        width called.now.call.setup (read_at called.now.call called.now.part).1 ≤ 32 }
{
    match called.asks() {
        AccessRequest::Reads { .. } => !called.reads_image(),
        _ => false,
    }
}

/// Returns the bytes of what a cursor writes, if it writes.
fn bytes_written(cursor: &Cursor) -> Option<[u8; 216]>
    ensures { result
        ≡ cond (is_writing cursor.now.run) (Some (register_bytes cursor.now.bits)) None }
{
    match cursor.run() {
        RegisterAccessKind::Writes => Some(cursor.register_bytes()),
        _ => None,
    }
}

/// Returns the bit that a cursor settles.
fn settling_at(cursor: &Cursor) -> Option<Settling>
    requires going { cursor.now.bit < cursor.now.width }
    requires inside { cursor.now.bit < length cursor.now.bits }
    requires reader { cursor.now.reader ≡ 0 }
    ensures { (inside : Bool) (taken : Option Replied) →
        result ≡ settling_in (settling_at cursor.now.run inside taken cursor.now) }
{
    let RegisterAccessKind::Settles { cut, value } = cursor.run() else {
        return None;
    };
    let next = cursor.next(false);
    Some(Settling {
        field: next.field,
        bit: next.bit,
        written: bit_of(&cursor.bytes(), next.bit),
        cut,
        copy: next.reader,
        begun: matches!(next.how, Move::EndWrite),
        value,
    })
}
