//! The state of a run.
ghost use Rattle.std.specs.Prelude.{◌≡◌, ◌+◌, ◌-◌, ◌^◌, ◌<◌, ◌++◌, ◌∷◌, [], IfOk, List, Ok, OnOk, Some, flat_map, is_some, ℕ};
ghost use Rattle.plain_store.specs.{checked};
ghost use Rattle.model.specs.{Entry as Noted, Past, processes};
ghost use Rattle.run_state.specs.Keeping.{Passes, ReportsNumber, kept as kept_of};
ghost use Rattle.run_state.specs.Processes.{count_line, newest_line, process_lines, rest_line};
ghost use Rattle.run_state.specs.ObservedRuns.{HasObserved, HasObservedWorld, state_lines};

use crate::called::{push_line, push_words};
use crate::kept::ProcessSummary;
use crate::next_lines::push_newest;
use crate::process_lines::ProcessLines;
use crate::register_lines::push_registers;
use crate::stores::push_history;
use calls::world::Core;
use calls::{Accesses, CallState, Called, Marked};
use model::{Access, Entry, Mark, Stage, Taken};
use plain_store::{NestedTypes, Setup};
use std::alloc::{AllocError, Global};
use std::marker::Model;

/// The state of a run that its core does not have: for each process its last call, when it failed, and the number that it has
/// read last.
/// Its memory does not grow with the run.
#[derive(Drop)]
pub struct ObservedRun {
    setup: Setup,
    kept: Vec<ProcessSummary>,
    entries: u64,
}

impl Model for ObservedRun {
    ghost use Rattle.run_state.specs.ObservedRuns.{IsSnapshot, SnapshotState};

    ghost Value = { SnapshotState };

    ghost view = { λ t. record { setup = t.setup; kept = t.kept.items; entries = t.entries } };

    ghost invariant = { λ t. IsSnapshot (record { setup = t.setup; kept = t.kept.items; entries = t.entries }) };
}

impl ObservedRun {
    /// Creates the state before the first entry.
    ///
    /// # Errors
    ///
    /// Fails only if an allocation fails. Observing entries does not allocate.
    pub fn new(alloc: Global, setup: &Setup) -> Result<ObservedRun, AllocError>
        requires { checked setup.now ≡ Ok tt }
        ensures setup { IfOk result (λ observed_run. observed_run.setup ≡ setup.now) }
        ensures observed { IfOk result (λ observed_run. HasObserved observed_run []) }
        ensures entries { IfOk result (λ observed_run. observed_run.entries ≡ 0) }
    {
        let _nested: NestedTypes = None;
        let _calls: Option<(Accesses, Called, CallState, Marked)> = None;
        let mut kept = Vec::new(alloc);
        for process in 0..setup.processes {
            kept.push(ProcessSummary::nothing(process))?;
        }
        Ok(ObservedRun {
            setup: *setup,
            kept,
            entries: 0,
        })
    }

    /// Observes one more entry, which has marks; `steps` is whether it has an access.
    pub fn observe(&mut self, process: u8, steps: bool, marks: &[Mark])
        requires { self.old.entries < 2 ^ 64 - 1 }
        ensures setup { self.new.setup ≡ self.old.setup }
        ensures count { self.new.entries ≡ self.old.entries + 1 }
        ensures observed { (past : Past) (e : Noted) → e.process ≡ process →
            is_some e.access ≡ steps → e.marks ≡ marks.now → (marks.now ≡ [] → ⊥) →
            process < self.old.setup.processes → HasObserved self.old past →
            HasObserved self.new (e ∷ past) }
    {
        let _nested: NestedTypes = None;
        let number = self.entries;
        self.entries += 1;
        let place = usize::from(process);
        if place >= self.kept.len() {
            return;
        }
        self.kept[place].mark(number, steps, marks);
    }

    /// Observes one more entry, which has no mark. If it ends the read of a number, `read` is what was read of it before.
    #[inline]
    pub fn step(&mut self, process: u8, access: &Access, read: u32)
        requires { self.old.entries < 2 ^ 64 - 1 }
        ensures setup { self.new.setup ≡ self.old.setup }
        ensures count { self.new.entries ≡ self.old.entries + 1 }
        ensures observed { (past : Past) (e : Noted) → e.process ≡ process →
            e.access ≡ Some access.now → e.marks ≡ [] →
            ReportsNumber self.old.setup past process access.now read →
            process < self.old.setup.processes → HasObserved self.old past →
            HasObserved self.new (e ∷ past) }
    {
        let _nested: NestedTypes = None;
        let number = self.entries;
        self.entries += 1;
        let place = usize::from(process);
        if place >= self.kept.len() {
            return;
        }
        self.kept[place].step(&self.setup, number, access, read);
    }

    /// Observes `steps` more entries of one process within a register access, which change nothing that is kept.
    #[inline(always)]
    pub fn pass(&mut self, steps: u32)
        requires { self.old.entries + steps < 2 ^ 64 }
        ensures setup { self.new.setup ≡ self.old.setup }
        ensures count { self.new.entries ≡ self.old.entries + steps }
        ensures observed { (p : ℕ) (past after : Past) → Passes self.old.setup p steps past after
            → HasObserved self.old past → HasObserved self.new after }
    {
        self.entries += u64::from(steps);
    }

    /// Returns how many entries there were.
    pub fn entries(&self) -> u64
        ensures { result ≡ self.now.entries }
    {
        self.entries
    }

    /// Returns what is kept of a process.
    fn kept(&self, process: u8) -> ProcessSummary
        requires { process < self.now.setup.processes }
        ensures { (past : Past) → HasObserved self.now past →
            result ≡ kept_of self.now.setup process past }
    {
        self.kept[usize::from(process)]
    }

    /// Appends the line of how many entries there were.
    pub fn print_count(&self, alloc: Global, text: &mut Vec<u8>) -> Result<(), AllocError>
        ensures { OnOk result (text.new.items ≡ text.old.items ++ count_line self.now.entries) }
    {
        let entries = self.entries;
        let line = format!(in alloc; "events {entries}\n")?;
        text.extend_from_slice(line.as_bytes())
    }

    /// Appends the line of the newest entry.
    pub fn print_newest(alloc: Global, entry: &Entry, text: &mut Vec<u8>) -> Result<(), AllocError>
        ensures { OnOk result ((past : Past) → text.new.items ≡ text.old.items
            ++ newest_line (entry.now ∷ past)) }
    {
        push_newest(alloc, entry, text)
    }

    /// Appends the lines of processes, of registers and of the history; `core` and `history` are those of the run.
    pub fn print(
        &self,
        alloc: Global,
        core: &Core,
        history: &[Taken],
        text: &mut Vec<u8>,
    ) -> Result<(), AllocError>
        requires { core.now.setup ≡ self.now.setup }
        ensures lines { OnOk result
            ((past : Past) → HasObservedWorld self.now core.now history.now past →
            text.new.items ≡ text.old.items ++ state_lines self.now.setup past) }
    {
        self.push_processes(alloc, core, history, text)?;
        push_registers(alloc, &self.setup, core, text)?;
        push_history(alloc, &self.setup, history, text)
    }

    /// Writes the lines of each process.
    fn push_processes(
        &self,
        alloc: Global,
        core: &Core,
        history: &[Taken],
        text: &mut Vec<u8>,
    ) -> Result<(), AllocError>
        requires { core.now.setup ≡ self.now.setup }
        ensures { OnOk result ((past : Past) → HasObservedWorld self.now core.now history.now past
            → text.new.items ≡ text.old.items
            ++ flat_map (process_lines self.now.setup past) (processes self.now.setup)) }
    {
        for process in 0..self.setup.processes {
            self.push_process(alloc, core, history, process, text)?;
        }
        Ok(())
    }

    /// Writes the lines of a process.
    fn push_process(
        &self,
        alloc: Global,
        core: &Core,
        history: &[Taken],
        process: u8,
        text: &mut Vec<u8>,
    ) -> Result<(), AllocError>
        requires core { core.now.setup ≡ self.now.setup }
        requires process { process < self.now.setup.processes }
        ensures { OnOk result ((past : Past) → HasObservedWorld self.now core.now history.now past
            → text.new.items ≡ text.old.items ++ process_lines self.now.setup past process) }
    {
        let Some(stage) = core.stage(process) else {
            return Ok(());
        };
        let kept = self.kept(process);
        if stage.is_at_rest() {
            return push_rest(alloc, process, stage, kept.call_state.last.call, text);
        }
        let lines = ProcessLines {
            alloc,
            setup: &self.setup,
            core,
            history,
            process,
            stage,
            kept: &kept,
        };
        lines.push(text)
    }
}

/// Writes the line of a process that is idle or down and has made `calls` calls.
fn push_rest(
    alloc: Global,
    process: u8,
    stage: Stage,
    calls: u64,
    text: &mut Vec<u8>,
) -> Result<(), AllocError>
    ensures { OnOk result (text.new.items ≡ text.old.items ++ rest_line process stage calls) }
{
    let word = stage.word();
    if calls == 0 {
        return push_line(alloc, process, word, text);
    }
    let words = format!(in alloc; "{word} calls {calls}")?;
    push_words(alloc, process, words, text)
}
