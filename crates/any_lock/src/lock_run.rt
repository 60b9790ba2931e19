//! The state that a judge stores of the entries so far, except for bits: the state of each process, the sequential store,
//! and the numbers of commands and of entries.
ghost use Rattle.std.specs.Prelude.{◌≡◌, ℕ, ◌+◌, ◌-◌, ◌^◌, ◌<◌, cond, [], IfOk, Ok, Some, option_map, slice_get};
ghost use Rattle.std.specs.List.{list_any};
ghost use Rattle.plain_store.specs.{checked};
ghost use Rattle.safe_monitor.specs.{entry_by};
ghost use Rattle.lock_stages.specs.{AreSince, ahead_since as wait_ahead, other_ahead as lowest_ahead, other_inside as lowest_inside};
ghost use Rattle.any_lock.specs.Keeping.{IsOfAccess, Knows, KnowsOn, KnowsOnAt, OfEntry, OfPast, ViewAfter, TakesInto, made_at, is_taken, with_view};
ghost use Rattle.any_lock.specs.Laws.{right_reply};
ghost use Rattle.any_lock.specs.Refusals.{has_nothing, is_crowded, refusal_of_access, refusal_of_marks, must_be_alone as is_alone};
ghost use Rattle.any_lock.specs.ProcessViews.{passage_in, process_view as process_view_of};

use crate::mark_rules::must_be_alone;
use crate::process_views::ProcessView;
use crate::refusals::{AccessRefusal, MarkRefusal};
use lock_stages::{MOST_PROCESSES, ahead_since, other_ahead, other_inside};
use model::{Access, Mark};
use plain_store::{Caller, NestedTypes, Reply, Setup, Store, opened};
use std::alloc::{AllocError, Global};
use std::marker::Model;
use store_image::Image;

#[derive(Drop)]
pub(crate) struct LockRun {
    setup: Setup,
    process_views: Vec<ProcessView>,
    store: Image,
    taken: u64,
    entries: u64,
}

impl Model for LockRun {
    ghost use Rattle.any_lock.specs.Keeping.{IsLockRun, LockRunState};

    ghost Value = { LockRunState };

    ghost view = { λ k. record { setup = k.setup; process_views = k.process_views.items; store = k.store; taken = k.taken; entries = k.entries } };

    ghost invariant = { λ k. IsLockRun (record { setup = k.setup; process_views = k.process_views.items; store = k.store; taken = k.taken; entries = k.entries }) };
}

impl LockRun {
    /// Creates the state without entries.
    ///
    /// # Errors
    ///
    /// Returns [`AllocError`] if an allocation fails.
    pub fn new(alloc: Global, setup: &Setup) -> Result<LockRun, AllocError>
        requires { checked setup.now ≡ Ok tt }
        ensures setup { IfOk result (λ k. k.setup ≡ setup.now) }
        ensures knows { IfOk result (λ k. Knows k []) }
    {
        let _nested: NestedTypes = None;
        let store = opened(Image::empty(setup.slots, setup.callers()), setup)?;
        Ok(LockRun {
            setup: *setup,
            process_views: vec![in alloc; ProcessView::at_rest(); usize::from(setup.processes)]?,
            store,
            taken: 0,
            entries: 0,
        })
    }

    /// Returns the number of processes.
    pub fn processes(&self) -> u8
        ensures { result ≡ self.now.setup.processes }
    {
        self.setup.processes
    }

    /// Returns the number of entries.
    pub fn entries(&self) -> u64
        ensures { result ≡ self.now.entries }
    {
        self.entries
    }

    /// Returns the state of a process, if the process exists.
    pub fn process_view(&self, process: u8) -> Option<&ProcessView>
        ensures { option_map (λ k. k.now) result ≡ slice_get self.now.process_views process }
    {
        self.process_views.get(usize::from(process))
    }

    /// Returns the state of a process that exists.
    pub fn view_of(&self, process: u8) -> ProcessView
        requires { process < self.now.setup.processes }
        ensures { OfPast self.now (λ s past. result ≡ process_view_of s process past) }
    {
        self.process_views[usize::from(process)]
    }

    /// Returns why the access of an entry is refused, if it is.
    pub fn refusal_of_access(&self, process: u8, access: &Option<Access>) -> Option<AccessRefusal>
        ensures { IsOfAccess result refusal_of_access self.now process access.now }
    {
        if process >= self.setup.processes {
            return Some(AccessRefusal::NoProcess);
        }
        let Some(access) = access else {
            return None;
        };
        let Some(process_view) = self.process_view(process) else {
            return Some(AccessRefusal::NoProcess);
        };
        process_view.refuses_access(&self.setup, process, access)
    }

    /// Returns the state of the process of an entry after it.
    ///
    /// # Errors
    ///
    /// Returns the [`MarkRefusal`] of the entry's marks, if they are refused.
    pub fn marked(
        &self,
        process: u8,
        access: &Option<Access>,
        marks: &[Mark],
    ) -> Result<ProcessView, MarkRefusal>
        requires { process < self.now.setup.processes }
        ensures { ViewAfter refusal_of_marks result self.now process access.now marks.now }
    {
        let _nested: NestedTypes = None;
        if has_nothing(access, marks) {
            return Err(MarkRefusal::Nothing);
        }
        if is_crowded(access, marks) {
            return Err(MarkRefusal::NotAlone);
        }
        let mut process_view = self.accessed(process, access);
        match process_view.mark_all(&self.setup, self.entries, marks) {
            Ok(()) => Ok(process_view),
            Err(refusal) => Err(refusal),
        }
    }

    /// Returns the state of the process of an entry after its access.
    fn accessed(&self, process: u8, access: &Option<Access>) -> ProcessView
        requires { process < self.now.setup.processes }
        ensures { OfPast self.now (λ _ past. result ≡ made_at self.now process access.now past) }
    {
        let mut process_view = self.process_views[usize::from(process)];
        if let Some(access) = access {
            process_view.make(self.entries, *access);
        }
        process_view
    }

    /// Returns the lowest other process that is inside.
    pub fn other_inside(&self, process: u8) -> Option<u8>
        ensures { OfPast self.now
            (λ s past. result ≡ lowest_inside (passage_in past) s.processes process) }
    {
        other_inside(&self.process_views, self.processes(), process)
    }

    /// Returns the lowest process that is ahead of this one.
    pub fn other_ahead(&self, process: u8) -> Option<u8>
        requires { process < self.now.setup.processes }
        ensures { OfPast self.now
            (λ s past. result ≡ lowest_ahead (passage_in past) s.processes process) }
    {
        other_ahead(&self.process_views, self.processes(), process)
    }

    /// Returns of each process that is ahead of this one the entry with which it began to wait.
    pub fn ahead_since(&self, process: u8) -> [Option<u64>; MOST_PROCESSES]
        requires { process < self.now.setup.processes }
        ensures { OfPast self.now
            (λ s past. AreSince result (wait_ahead (passage_in past) s.processes process)) }
    {
        ahead_since(&self.process_views, self.processes(), process)
    }

    /// Returns the right position and reply of a command that a process takes now.
    pub fn right_taking(&self, process: u8) -> (u64, Reply)
        requires { process < self.now.setup.processes }
        ensures place { result.0 ≡ self.now.taken }
        ensures reply { OfPast self.now (λ s past. result.1 ≡ right_reply s past process) }
    {
        let _nested: NestedTypes = None;
        let process_view = &self.process_views[usize::from(process)];
        let mut store = self.store;
        let caller = Caller {
            process,
            number: process_view.number,
        };
        let reply = store.apply(&process_view.command, caller).unwrap();
        (self.taken, reply)
    }

    /// Adds an entry with this access of a process, which breaks no law and has no mark.
    #[inline]
    pub fn make(&mut self, process: u8, access: Access)
        requires process { process < self.old.setup.processes }
        requires bounded { self.old.entries < 2 ^ 64 - 1 }
        ensures setup { self.new.setup ≡ self.old.setup }
        ensures entries { self.new.entries ≡ self.old.entries + 1 }
        ensures knows { OfEntry self.old process (Some access) [] (KnowsOn self.new) }
    {
        let entry = self.entries;
        self.process_views[usize::from(process)].make(entry, access);
        self.entries += 1;
    }

    /// Adds an entry with these marks, which breaks no law and after which its process is in this state.
    pub fn go_on(&mut self, process: u8, process_view: &ProcessView, marks: &[Mark])
        requires process { process < self.old.setup.processes }
        requires bounded { self.old.entries < 2 ^ 64 - 1 }
        ensures setup { self.new.setup ≡ self.old.setup }
        ensures entries { self.new.entries ≡ self.old.entries + 1 }
        ensures knows { KnowsOnAt self.old process marks.now process_view.now self.new }
    {
        self.count();
        self.take(process, takes(marks));
        self.set_view(process, process_view);
    }

    /// Counts one more entry.
    fn count(&mut self)
        requires { self.old.entries < 2 ^ 64 - 1 }
        ensures same { self.new ≡ record self.old { entries = self.old.entries + 1 } }
        ensures bounded { self.new.taken < self.new.entries }
    {
        self.entries += 1;
    }

    /// Takes the command of a process, if `takes` is true.
    fn take(&mut self, process: u8, takes: bool)
        requires process { process < self.old.setup.processes }
        requires bounded { self.old.taken < self.old.entries }
        ensures setup { self.new.setup ≡ self.old.setup }
        ensures process_views { self.new.process_views ≡ self.old.process_views }
        ensures entries { self.new.entries ≡ self.old.entries }
        ensures taken { self.new.taken ≡ cond takes (self.old.taken + 1) self.old.taken }
        ensures store { TakesInto self.old process takes self.new.store }
    {
        let _nested: NestedTypes = None;
        if !takes {
            return;
        }
        let process_view = &self.process_views[usize::from(process)];
        let caller = Caller {
            process,
            number: process_view.number,
        };
        let _reply = self.store.apply(&process_view.command, caller);
        self.taken += 1;
    }

    /// Sets the state of a process.
    fn set_view(&mut self, process: u8, process_view: &ProcessView)
        requires { process < self.old.setup.processes }
        ensures { self.new ≡ with_view process process_view.now self.old }
    {
        self.process_views[usize::from(process)] = *process_view;
    }
}

/// Returns whether an entry has neither an access nor a mark.
fn has_nothing(access: &Option<Access>, marks: &[Mark]) -> bool
    ensures { (p : ℕ) → result ≡ has_nothing (entry_by p access.now marks.now) }
{
    access.is_none() && marks.len() == 0
}

/// Returns whether an entry has a mark that must be alone, and something else too.
fn is_crowded(access: &Option<Access>, marks: &[Mark]) -> bool
    ensures { (p : ℕ) → result ≡ is_crowded (entry_by p access.now marks.now) }
{
    any_must_be_alone(marks) && !(access.is_none() && marks.len() == 1)
}

/// Returns whether one of the marks must be alone.
fn any_must_be_alone(marks: &[Mark]) -> bool
    ensures { result ≡ list_any is_alone marks.now }
{
    marks.iter().any(must_be_alone)
}

/// Returns whether a command is taken with these marks.
pub(crate) fn takes(marks: &[Mark]) -> bool
    ensures { result ≡ list_any is_taken marks.now }
{
    marks.iter().any(|mark| matches!(mark, Mark::Taken(..)))
}
