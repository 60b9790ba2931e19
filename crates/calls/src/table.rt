ghost use Rattle.std.specs.Prelude.{◌≡◌, ◌+◌, ◌-◌, ◌^◌, ◌<◌, ◌≤◌, ◌∷◌, [], IfOk, Ok, Some, None, cond, is_some, slice_get};
ghost use Rattle.plain_store.specs.{checked};
ghost use Rattle.model.specs.{Entry as Noted, Past, called_in as command_in, calls_in, own};
ghost use Rattle.model.specs.declared.access.Access.{Access as AccessMade};
ghost use Rattle.calls.specs.declared.call_state.CallState.{CallState as Tracked};
ghost use Rattle.calls.specs.Passing.{HasNotFailed, Passes};
ghost use Rattle.calls.specs.Observing.{ComesInTurn, GoesBy, GoesOn, HasObserved, ended_call, open_call};
ghost use Rattle.calls.specs.Recorded.{HasListed, Lists, call_kept, entry_with, open_recorded};

use crate::accesses::{reads_among, writes_among};
use crate::call_state::{CallState, called_in};
use crate::called::{Accesses, Called, EntryFacts, Marked};
use model::{Access, Mark, Move};
use plain_store::{NestedTypes, Setup};
use std::alloc::{AllocError, Global};
use std::marker::Model;

/// The calls of a run, whose entries it observes one by one, or many at once. It stores only the last call of each process, so
/// its memory does not grow with the run.
#[derive(Drop)]
pub struct CallTable {
    setup: Setup,
    call_states: Vec<CallState>,
    entries: u64,
}

impl Model for CallTable {
    ghost use Rattle.calls.specs.declared.call_state.CallState.{CallState as Tracked};
    ghost use Rattle.calls.specs.Observing.{IsTable, TableState};

    ghost Value = { TableState };

    ghost view = { λ t. record { setup = t.setup; call_states = t.call_states.items; entries = t.entries } };

    ghost invariant = { λ t. IsTable (record { setup = t.setup; call_states = t.call_states.items; entries = t.entries }) };
}

impl CallTable {
    /// Creates a table before the first entry.
    ///
    /// # Errors
    ///
    /// Fails only if an allocation fails. Observing entries does not allocate.
    pub fn new(alloc: Global, setup: &Setup) -> Result<CallTable, AllocError>
        requires { checked setup.now ≡ Ok tt }
        ensures setup { IfOk result (λ table. table.setup ≡ setup.now) }
        ensures observed { IfOk result (λ table. HasObserved table []) }
    {
        let _nested: NestedTypes = None;
        let _calls: Option<(Accesses, Called, Marked)> = None;
        let mut call_states = Vec::new(alloc);
        for process in 0..setup.processes {
            call_states.push(CallState::at_rest(process))?;
        }
        Ok(CallTable {
            setup: *setup,
            call_states,
            entries: 0,
        })
    }

    /// Observes one more entry of a run, and returns the call that ends with it, if one does. It is inlined, so that no call is
    /// looked for if the caller's entry has no mark.
    #[inline(always)]
    pub fn observe(
        &mut self,
        process: u8,
        known: &EntryFacts,
        access: &Option<Access>,
        marks: &[Mark],
    ) -> Option<Called>
        requires { self.old.entries < 2 ^ 64 - 1 }
        ensures setup { self.new.setup ≡ self.old.setup }
        ensures count { self.new.entries ≡ self.old.entries + 1 }
        ensures ended { (past : Past) (e : Noted) → e.process ≡ process → e.access ≡ access.now →
            e.marks ≡ marks.now → HasObserved self.old past →
            ComesInTurn self.old.setup past e known.now →
            result ≡ ended_call self.old.setup past e }
        ensures observed { (past : Past) (e : Noted) → e.process ≡ process → e.access ≡ access.now →
            e.marks ≡ marks.now → HasObserved self.old past →
            ComesInTurn self.old.setup past e known.now → HasObserved self.new (e ∷ past) }
    {
        self.go_on(process, known, access, marks)
    }

    /// Observes `steps` unmarked entries of `process` within one register access. The last makes the move `newest`;
    /// `overlapped` of them end an overlapped read. The process has not failed in its call.
    #[inline(always)]
    pub fn pass(&mut self, process: u8, steps: u32, newest: Move, overlapped: u32)
        requires nonzero { 0 < steps }
        requires room { self.old.entries + steps < 2 ^ 64 }
        ensures setup { self.new.setup ≡ self.old.setup }
        ensures count { self.new.entries ≡ self.old.entries + steps }
        ensures observed { (past after : Past) (access : AccessMade) → access.how ≡ newest →
            Passes self.old.setup process steps access overlapped past after →
            process < self.old.setup.processes → HasNotFailed process past →
            HasObserved self.old past → HasObserved self.new after }
    {
        // This test comes first: where the caller's move is known, the compiler keeps only one of the two calls.
        if newest.is_of_read() {
            self.pass_on(process, steps, reads_among(steps, newest), 0, overlapped);
        } else {
            self.pass_on(process, steps, 0, writes_among(steps, newest), overlapped);
        }
    }

    /// Adds `steps` such entries to the state of their process: `reads` of them begin a read, and `writes` a write.
    #[inline(always)]
    fn pass_on(&mut self, process: u8, steps: u32, reads: u64, writes: u64, overlapped: u32)
        requires { self.old.entries + steps < 2 ^ 64 }
        ensures setup { self.new.setup ≡ self.old.setup }
        ensures count { self.new.entries ≡ self.old.entries + steps }
        ensures passed { (before : Tracked) → slice_get self.old.call_states process ≡ Some before →
            GoesBy self.old process reads writes overlapped before self.new.call_states }
    {
        let _nested: NestedTypes = None;
        let number = self.entries;
        self.entries += u64::from(steps);
        let place = usize::from(process);
        if place >= self.call_states.len() {
            return;
        }
        self.call_states[place].pass(number, reads, writes, overlapped);
    }

    /// Adds one more entry to the state of its process, and returns the call that ends with it, if one does.
    #[inline(always)]
    fn go_on(
        &mut self,
        process: u8,
        known: &EntryFacts,
        access: &Option<Access>,
        marks: &[Mark],
    ) -> Option<Called>
        requires { self.old.entries < 2 ^ 64 - 1 }
        ensures setup { self.new.setup ≡ self.old.setup }
        ensures count { self.new.entries ≡ self.old.entries + 1 }
        ensures step { (before : Tracked) → slice_get self.old.call_states process ≡ Some before →
            GoesOn self.old process known.now access.now marks.now before result
            self.new.call_states }
        ensures stray { self.old.setup.processes ≤ process →
            (result ≡ None) × (self.new.call_states ≡ self.old.call_states) }
    {
        let _nested: NestedTypes = None;
        let number = self.entries;
        self.entries += 1;
        let place = usize::from(process);
        if place >= self.call_states.len() {
            return None;
        }
        self.call_states[place].observe(&self.setup, number, known, access, marks)
    }

    /// Returns the number of entries.
    pub fn entries(&self) -> u64
        ensures { result ≡ self.now.entries }
    {
        self.entries
    }

    /// Returns the number of the newest entry, or 0 if there is none.
    pub fn newest(&self) -> u64
        ensures { result ≡ self.now.entries - 1 }
    {
        self.entries.saturating_sub(1)
    }

    /// Returns the number of calls that a process has made.
    pub fn calls(&self, process: u8) -> u64
        requires { process < self.now.setup.processes }
        ensures { (past : Past) → HasObserved self.now past → result ≡ calls_in (own process past) }
    {
        self.call_states[usize::from(process)].last.call
    }

    /// Returns the call of a process, if it has not ended.
    pub fn open_call(&self, process: u8) -> Option<Called>
        requires { process < self.now.setup.processes }
        ensures { (past : Past) → HasObserved self.now past →
            result ≡ open_call self.now.setup process past }
    {
        let call_state = &self.call_states[usize::from(process)];
        if call_state.calling {
            Some(call_state.last)
        } else {
            None
        }
    }
}

impl CallTable {
    /// Adds an entry of a record, of any lock, good or bad. `overlapped` is whether it ends a read that a write overlapped.
    /// Returns the call that ends with it, if one does: an open call also ends when its process calls again. An entry of a
    /// process that does not exist is counted, and nothing else.
    #[inline(always)]
    pub(crate) fn list(
        &mut self,
        process: u8,
        overlapped: bool,
        access: &Option<Access>,
        marks: &[Mark],
    ) -> Option<Called>
        requires { self.old.entries < 2 ^ 64 - 1 }
        ensures setup { self.new.setup ≡ self.old.setup }
        ensures count { self.new.entries ≡ self.old.entries + 1 }
        ensures lists { Lists self.old self.new overlapped
            (entry_with process access.now marks.now) result }
    {
        let replaced = self.replaced(process, marks);
        let known = EntryFacts {
            overlapped,
            read: None,
        };
        let ended = self.go_on(process, &known, access, marks);
        if replaced.is_some() { replaced } else { ended }
    }

    /// Returns the number of processes.
    pub(crate) fn processes(&self) -> u8
        ensures { result ≡ self.now.setup.processes }
    {
        self.setup.processes
    }

    /// Returns the open call of a process that exists.
    pub(crate) fn open_listed(&self, process: u8) -> Option<Called>
        requires { process < self.now.setup.processes }
        ensures { (past : Past) → HasListed self.now past →
            result ≡ open_recorded self.now.setup process past }
    {
        self.call_kept(process)
    }

    /// Returns the open call of a process, if these marks begin another one.
    #[inline(always)]
    fn replaced(&self, process: u8, marks: &[Mark]) -> Option<Called>
        ensures call { result ≡ cond (is_some (command_in marks.now))
            (call_kept (slice_get self.now.call_states process)) None }
        ensures stray { self.now.setup.processes ≤ process → result ≡ None }
    {
        if called_in(marks).is_none() {
            return None;
        }
        self.call_kept(process)
    }

    /// Returns the open call of a process.
    fn call_kept(&self, process: u8) -> Option<Called>
        ensures call { result ≡ call_kept (slice_get self.now.call_states process) }
        ensures stray { self.now.setup.processes ≤ process → result ≡ None }
    {
        let call_state = self.call_states.get(usize::from(process))?;
        if call_state.calling {
            Some(call_state.last)
        } else {
            None
        }
    }
}
