//! The one-thread store that goes along with the marks of a run or of a record, and the last call of each process.
ghost use Rattle.std.specs.Prelude.{◌≡◌, ◌∷◌, ◌<◌, ℕ, [], List, Ok, IfOk, OnOk, option_map, set, slice_get};
ghost use Rattle.model.specs.plain_store.{checked};
ghost use Rattle.model.specs.plain_store.declared.setups.Setup.{Setup as Given};
ghost use Rattle.model.specs.declared.marks.Mark.{Mark as Noted};
ghost use Rattle.picture.specs.picture_layout.{places_marked};
ghost use Rattle.draw.specs.StoreChanges.{changed};
ghost use Rattle.draw.specs.TakenStores.{IsAfterMarks, after_call, change_by_call, change_of, next_number as number_after};

use crate::store_changes;
use model::Mark;
use picture::TakenChange;
use record_accesses::plain_store::{Caller, Command, NestedTypes, PlainStore, Setup, opened};
use std::alloc::{AllocError, Global};

/// A call of a process: its command, and its number.
#[derive(Clone, Copy)]
pub(crate) struct LastCall {
    pub command: Command,
    pub number: u16,
}

/// The one-thread store, to which each command is applied where a mark takes it.
#[derive(Drop)]
pub struct TakenStore {
    alloc: Global,
    version: u8,
    pub(crate) store: PlainStore,
    calls: Vec<LastCall>,
    /// The number of commands taken, or 2^64 - 1 if there were more.
    taken: u64,
}

impl TakenStore {
    /// Returns the opening store of a setup, before the first mark.
    ///
    /// # Errors
    ///
    /// Returns [`AllocError`] if memory is lacking.
    pub fn new(alloc: Global, setup: &Setup) -> Result<TakenStore, AllocError>
        requires { checked setup.now ≡ Ok tt }
        ensures { IfOk result (IsAfterMarks setup.now []) }
    {
        let _nested: NestedTypes = None;
        let mut calls = Vec::new(alloc);
        for _process in 0..setup.processes {
            calls.push(LastCall {
                command: Command::Ask,
                number: 0,
            })?;
        }
        Ok(TakenStore {
            alloc,
            version: setup.version,
            store: opened(PlainStore::new(alloc, setup.slots, setup.callers()), setup)?,
            calls,
            taken: 0,
        })
    }

    /// Returns the number of commands taken, or 2^64 - 1 if there were more.
    pub fn taken(&self) -> u64
        ensures { result ≡ self.now.taken }
    {
        self.taken
    }

    /// Goes on by the next mark, which is one of `process`, and returns what its command changes, if it takes one that
    /// changes something.
    ///
    /// # Errors
    ///
    /// Returns [`AllocError`] if memory is lacking.
    pub(crate) fn mark(
        &mut self,
        process: u8,
        mark: &Mark,
    ) -> Result<Option<TakenChange>, AllocError>
        ensures change { IfOk result
            (λ change. (s : Given) (before : List (ℕ × Noted)) → IsAfterMarks s before self.old →
            option_map changed change ≡ change_of s before process mark.now) }
        ensures after { OnOk result
            ((s : Given) (before : List (ℕ × Noted)) → IsAfterMarks s before self.old →
            IsAfterMarks s ((process, mark.now) ∷ before) self.new) }
    {
        let _nested: NestedTypes = None;
        self.taken = taken_with(self.taken, mark);
        let Some(call) = self.call_of(process) else {
            return Ok(None);
        };
        match mark {
            Mark::Called(command) => {
                self.begin(process, call.number, command);
                Ok(None)
            }
            Mark::Taken(..) => self.apply(process, &call),
            _ => Ok(None),
        }
    }

    /// Returns the last call of a process, or `None` if the process does not exist.
    fn call_of(&self, process: u8) -> Option<LastCall>
        ensures { result ≡ slice_get self.now.calls.items process }
    {
        self.calls.get(usize::from(process)).copied()
    }

    /// Keeps that a process calls, after a call with this number.
    fn begin(&mut self, process: u8, number: u16, command: &Command)
        ensures version { self.new.version ≡ self.old.version }
        ensures store { self.new.store ≡ self.old.store }
        ensures taken { self.new.taken ≡ self.old.taken }
        ensures calls { (s : Given) → s.version ≡ self.old.version →
            self.new.calls.items ≡ set self.old.calls.items process
            (record { command = command.now; number = number_after s number }) }
    {
        let _nested: NestedTypes = None;
        let number = next_number(self.version, number);
        if let Some(call) = self.calls.get_mut(usize::from(process)) {
            *call = LastCall {
                command: *command,
                number,
            };
        }
    }

    /// Applies the command of a process, and returns what it changed, if it changed something.
    fn apply(&mut self, process: u8, call: &LastCall) -> Result<Option<TakenChange>, AllocError>
        ensures change { IfOk result (λ change.
            option_map changed change ≡ change_by_call process call.now self.old.store) }
        ensures store { OnOk result (self.new.store ≡ after_call process call.now self.old.store) }
        ensures version { self.new.version ≡ self.old.version }
        ensures calls { self.new.calls ≡ self.old.calls }
        ensures taken { self.new.taken ≡ self.old.taken }
    {
        let caller = Caller {
            process,
            number: call.number,
        };
        store_changes::apply(self.alloc, &mut self.store, &call.command, caller)
    }
}

/// Returns the number of the call after one with this number.
fn next_number(version: u8, number: u16) -> u16
    ensures { (s : Given) → s.version ≡ version → result ≡ number_after s number }
{
    if version == 2 {
        number.saturating_add(1)
    } else {
        0
    }
}

/// Returns how many commands were taken with one mark more.
fn taken_with(taken: u64, mark: &Mark) -> u64
    ensures { result ≡ places_marked taken mark.now }
{
    let _nested: NestedTypes = None;
    match mark {
        Mark::Taken(..) => taken.saturating_add(1),
        _ => taken,
    }
}
