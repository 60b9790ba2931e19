//! The lines of a process that runs, or whose memory unit settles.
ghost use Rattle.std.specs.Prelude.{◌≡◌, ◌++◌, Bool, List, OnOk, false, length};
ghost use Rattle.model.specs.{Past, entry_of, width};
ghost use Rattle.model.specs.declared.Event.TheVariants.{Step};
ghost use Rattle.calls.specs.world.laws.{doing};
ghost use Rattle.calls.specs.world.process.registers.{register_bytes};
ghost use Rattle.calls.specs.world.process.{number_read, settling_of};
ghost use Rattle.run_state.specs.Copies.{shown};
ghost use Rattle.run_state.specs.Doing.{ComesNext, busy_lines, doing_lines, doing_with, settling_lines, ticket_lines, writes_words};
ghost use Rattle.run_state.specs.Keeping.{call_kept};
ghost use Rattle.run_state.specs.Knowing.{AreGiven, AreOf};
ghost use Rattle.run_state.specs.Lines.{process_line};
ghost use Rattle.run_state.specs.Processes.{running_lines};

use crate::called::{push_line, push_line_if, push_open, push_value_line, push_words};
use crate::doing::{
    access_in, failed_words, opened_words, reads_words, settles_words, ticket_at, torn_words,
    waits_at, writes_words,
};
use crate::kept::ProcessSummary;
use crate::next_lines::push_next;
use crate::register_text::{bit_at, shown};
use calls::world::laws::writes_leave_their_bits;
use calls::world::{AccessProgress, Core, KnownTicket, Settling};
use model::{Access, Entry, Stage, Taken};
use plain_store::{NestedTypes, Setup};
use std::alloc::{AllocError, Global};

/// Writes the lines of one process that runs, or whose memory unit settles.
#[derive(Clone, Copy)]
pub(crate) struct ProcessLines<'a> {
    pub alloc: Global,
    pub setup: &'a Setup,
    pub core: &'a Core,
    pub history: &'a [Taken],
    pub process: u8,
    pub stage: Stage,
    pub kept: &'a ProcessSummary,
}

impl ProcessLines<'_> {
    /// Writes all lines: its stage, its call, what it does, and what its next step adds.
    pub fn push(&self, text: &mut Vec<u8>) -> Result<(), AllocError>
        requires { AreGiven self.now }
        ensures { OnOk result ((past : Past) → AreOf self.now past → text.new.items ≡ text.old.items
            ++ running_lines self.now.setup.now past self.now.process self.now.stage) }
    {
        let call = self.kept.open_call();
        push_line(self.alloc, self.process, self.stage.word(), text)?;
        push_open(self.alloc, self.process, self.history, &call, text)?;
        let first = self.next_entry(false);
        self.push_doing(&first, text)?;
        let second = self.next_entry(true);
        push_next(self.alloc, self.process, &first, &second, text)
    }

    /// Returns the entry that its next step would add by this flick.
    fn next_entry(&self, flick: bool) -> Option<Entry>
        requires { AreGiven self.now }
        ensures { (past : Past) → AreOf self.now past
            → result ≡ entry_of self.now.setup.now past (Step self.now.process flick) }
    {
        let taken = self.history.len() as u64;
        self.core.next_entry(self.alloc, self.process, flick, taken)
    }

    /// Writes how far the process is, where `next` is its next entry.
    fn push_doing(&self, next: &Option<Entry>, text: &mut Vec<u8>) -> Result<(), AllocError>
        requires { AreGiven self.now }
        ensures { OnOk result ((past : Past) → AreOf self.now past
            → next.now ≡ entry_of self.now.setup.now past (Step self.now.process false)
            → text.new.items ≡ text.old.items
            ++ doing_lines self.now.setup.now past self.now.process self.now.stage) }
    {
        match access_in(next) {
            None => Ok(()),
            Some(next) => self.push_access(&next, text),
        }
    }

    /// Writes how far the process is, where `next` is its next access.
    fn push_access(&self, next: &Access, text: &mut Vec<u8>) -> Result<(), AllocError>
        requires { AreGiven self.now }
        ensures { OnOk result ((past : Past) → AreOf self.now past
            → ComesNext self.now.setup.now past self.now.process next.now
            → text.new.items ≡ text.old.items
            ++ doing_with self.now.setup.now past self.now.process self.now.stage
            (call_kept self.now.kept.now) self.now.kept.now
            (doing self.now.setup.now self.now.process past) next.now) }
    {
        let place = self.core.process(self.process);
        let settling = place.settling();
        let failed = failed_words(self.alloc, self.stage, self.kept.failed)?;
        push_line_if(self.alloc, self.process, failed, text)?;
        self.push_ticket(&place.ticket_known(), text)?;
        self.push_busy(next, text)?;
        let seen = bit_at(self.core, self.setup, next);
        let opened = opened_words(self.alloc, self.process, next, seen, &settling)?;
        push_line_if(self.alloc, self.process, opened, text)
    }

    /// Writes its ticket, and for which process it waits.
    fn push_ticket(&self, known: &Option<KnownTicket>, text: &mut Vec<u8>) -> Result<(), AllocError>
        ensures { OnOk result (text.new.items ≡ text.old.items ++ ticket_lines self.now.process
            self.now.stage known.now self.now.kept.now.read (call_kept self.now.kept.now)) }
    {
        let _nested: NestedTypes = None;
        let Some(called) = self.kept.open_call() else {
            return Ok(());
        };
        let ticket = ticket_at(self.alloc, self.stage, known, &called)?;
        push_line_if(self.alloc, self.process, ticket, text)?;
        let waits = waits_at(
            self.alloc,
            self.process,
            self.stage,
            self.kept.read,
            &called,
        )?;
        push_line_if(self.alloc, self.process, waits, text)
    }

    /// Writes what it reads, writes or settles, where `next` is its next access.
    fn push_busy(&self, next: &Access, text: &mut Vec<u8>) -> Result<(), AllocError>
        requires { AreGiven self.now }
        ensures { OnOk result ((past : Past) → AreOf self.now past
            → ComesNext self.now.setup.now past self.now.process next.now
            → text.new.items ≡ text.old.items
            ++ busy_lines self.now.setup.now past self.now.process next.now
            (number_read (doing self.now.setup.now self.now.process past))
            (settling_of (doing self.now.setup.now self.now.process past))) }
    {
        writes_leave_their_bits();
        let place = self.core.process(self.process);
        let Some(progress) = place.progress() else {
            return Ok(());
        };
        if let Some(torn) = place.settling() {
            return self.push_settling(&torn, progress, text);
        }
        if let Some(bytes) = place.writing() {
            return self.push_writing(next, progress, &bytes, text);
        }
        let words = reads_words(self.alloc, next, progress, place.number_read())?;
        push_words(self.alloc, self.process, words, text)
    }

    /// Writes which bit its memory unit settles.
    fn push_settling(
        &self,
        torn: &Settling,
        progress: AccessProgress,
        text: &mut Vec<u8>,
    ) -> Result<(), AllocError>
        ensures { OnOk result (text.new.items ≡ text.old.items
            ++ settling_lines self.now.process torn.now progress) }
    {
        let settles = settles_words(self.alloc, self.process, torn, progress)?;
        push_words(self.alloc, self.process, settles, text)?;
        let words = torn_words(self.alloc, self.process, torn)?;
        push_words(self.alloc, self.process, words, text)
    }

    /// Writes what it writes to a register, where `next` is its next access and `bytes` are those of the value.
    fn push_writing(
        &self,
        next: &Access,
        progress: AccessProgress,
        bytes: &[u8; 216],
        text: &mut Vec<u8>,
    ) -> Result<(), AllocError>
        requires { AreGiven self.now }
        ensures { OnOk result
            ((bits : List Bool) → length bits ≡ width self.now.setup.now next.now.field →
            bytes.now ≡ register_bytes bits →
            text.new.items
            ≡ text.old.items
            ++ process_line self.now.process
            (writes_words next.now progress ++ shown self.now.setup.now next.now.field bits)) }
    {
        let words = writes_words(self.alloc, next, progress)?;
        let value = shown(self.alloc, self.setup, next.field, bytes)?;
        push_value_line(self.alloc, self.process, &words, value.as_slice(), text)
    }
}
