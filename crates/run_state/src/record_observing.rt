//! How the entries of a record are observed.
ghost use Rattle.std.specs.Prelude.{◌≡◌, ◌+◌, ◌-◌, ◌^◌, ◌<◌, ◌++◌, ◌∷◌, [], IfOk, List, OnOk, Some, ℕ};
ghost use Rattle.plain_store.specs.{checked};
ghost use Rattle.plain_store.specs.declared.setups.Setup.{Setup as Given};
ghost use Rattle.model.specs.{Entry as Noted, Past, Taken as Placed, history, reply_taken};
ghost use Rattle.calls.specs.world.Cores.{InEachCorePast};
ghost use Rattle.judge.specs.safe_monitor.{entry_by};
ghost use Rattle.run_state.specs.Observing.{HasObservedRecord, IsNext, StoresNext, newest_lines, taken_with};
ghost use Rattle.run_state.specs.RecordStates.{ReportsState, bad_line};
ghost use Rattle.run_state.specs.ObservedRuns.{HasObserved};
ghost use Rattle.std.specs.Option.{option_to_list};

use crate::observed_run::ObservedRun;
use crate::record_observer::{GoodEntries, NewestEntry, RecordStateObserver};
use judge::{
    Audited, EntryObserver, RecordJudge, Reporting, ThisLockJudge, Verdict, entry_of_parts, parts,
    status_of, verdict_line,
};
use model::{Access, Entry, Mark, Taken};
use plain_store::{NestedTypes, Reply, Setup};
use std::alloc::{AllocError, Global};

impl EntryObserver for RecordStateObserver {
    ghost HasObserved = { HasObservedRecord };

    ghost count = { λ o. o.judge.entries };

    ghost Reports = { ReportsState };

    fn begin(alloc: Global, setup: &Setup) -> Result<RecordStateObserver, AllocError> {
        RecordStateObserver::new(alloc, setup)
    }

    fn take(
        &mut self,
        _alloc: Global,
        number: u64,
        process: u8,
        access: &Option<Access>,
        marks: &[Mark],
    ) -> Result<(), AllocError> {
        self.observe_parts(number, process, access, marks)
    }

    fn entries(&self) -> u64 {
        self.judge.entries()
    }

    fn report(&self, _alloc: Global) -> Result<Reporting, AllocError> {
        self.report_state()
    }

    ghost counts = { λ o s noted numbers observed. observed.judged.count };
}

impl RecordStateObserver {
    /// Creates an observer that has seen no entry of a record with this setup.
    fn new(alloc: Global, setup: &Setup) -> Result<RecordStateObserver, AllocError>
        requires { checked setup.now ≡ Ok tt }
        ensures { IfOk result (λ observer. HasObservedRecord observer setup.now [] []) }
    {
        Ok(RecordStateObserver {
            alloc,
            setup: *setup,
            judge: ThisLockJudge::begin(alloc, setup)?,
            good: GoodEntries {
                observed_run: ObservedRun::new(alloc, setup)?,
                newest: None,
                taken: Vec::new(alloc),
            },
        })
    }

    /// Observes one more entry, by its parts, which is in line `line`.
    fn observe_parts(
        &mut self,
        line: u64,
        process: u8,
        access: &Option<Access>,
        marks: &[Mark],
    ) -> Result<(), AllocError>
        requires { self.old.judge.entries < 2 ^ 64 - 1 }
        ensures { OnOk result
            ((s : Given) (noted : List Noted) (numbers : List ℕ) →
            HasObservedRecord self.old s noted numbers →
            HasObservedRecord self.new s (noted ++ entry_by process access.now marks.now ∷ [])
            (numbers ++ line ∷ [])) }
    {
        let read = self.judge.core().number_read(process);
        let taken = self.taken_by(process, marks);
        self.judge.observe_parts(process, access, marks);
        if !self.judge.is_good() {
            return Ok(());
        }
        let entry = entry_of_parts(self.alloc, process, access, marks)?;
        self.good.store(line, entry, read, &taken)
    }

    /// Returns the command that a process takes with these marks, if it takes one.
    fn taken_by(&self, process: u8, marks: &[Mark]) -> Option<Taken>
        ensures { InEachCorePast self.now.judge.auditor.core (λ s past.
            process < s.processes → result ≡ taken_with s past process marks.now) }
    {
        let _nested: NestedTypes = None;
        let reply = reply_in(marks)?;
        if process >= self.setup.processes {
            return None;
        }
        let caller = self.judge.core().process(process);
        Some(Taken {
            process,
            command: caller.command(),
            reply,
            number: caller.number(),
        })
    }

    /// Returns the state, with the line of the bad entry if there is one, and the exit status.
    fn report_state(&self) -> Result<Reporting, AllocError>
        ensures { IfOk result (λ reporting. (s : Given) (noted : List Noted) (numbers : List ℕ) →
            HasObservedRecord self.now s noted numbers →
            ReportsState s noted numbers reporting.text.items reporting.status) }
    {
        let judged = self.judge.judged();
        let mut text = Vec::new(self.alloc);
        self.good.observed_run.print_count(self.alloc, &mut text)?;
        self.good.print_newest(self.alloc, &mut text)?;
        let history = self.good.taken.as_slice();
        self.good
            .observed_run
            .print(self.alloc, self.judge.core(), history, &mut text)?;
        print_bad(self.alloc, &judged.verdict, &mut text)?;
        Ok(Reporting {
            text,
            status: status_of(&judged.verdict),
        })
    }
}

impl GoodEntries {
    /// Stores a good entry. `read` is the number read before it, and `taken` the command that it takes.
    fn store(
        &mut self,
        line: u64,
        entry: Entry,
        read: u32,
        taken: &Option<Taken>,
    ) -> Result<(), AllocError>
        requires { self.old.observed_run.entries < 2 ^ 64 - 1 }
        ensures setup { self.new.observed_run.setup ≡ self.old.observed_run.setup }
        ensures entries { self.new.observed_run.entries ≡ self.old.observed_run.entries + 1 }
        ensures stores { OnOk result (StoresNext self.old self.new line entry read taken.now) }
    {
        let _nested: NestedTypes = None;
        add_entry(&entry, read, &mut self.observed_run);
        push_taken(taken, &mut self.taken)?;
        self.newest = Some(NewestEntry { line, entry });
        Ok(())
    }

    /// Appends the newest entry and the number of its line, if there is one.
    fn print_newest(&self, alloc: Global, text: &mut Vec<u8>) -> Result<(), AllocError>
        ensures { OnOk result (text.new.items ≡ text.old.items ++ newest_lines self.now.newest) }
    {
        let _nested: NestedTypes = None;
        let Some(newest) = &self.newest else {
            return Ok(());
        };
        ObservedRun::print_newest(alloc, &newest.entry, text)?;
        let line = newest.line;
        let words = format!(in alloc; "line {line}\n")?;
        text.extend_from_slice(words.as_bytes())
    }
}

/// Adds an entry to an observed run. `read` is the number read before it.
fn add_entry(entry: &Entry, read: u32, observed_run: &mut ObservedRun)
    requires { observed_run.old.entries < 2 ^ 64 - 1 }
    ensures setup { observed_run.new.setup ≡ observed_run.old.setup }
    ensures entries { observed_run.new.entries ≡ observed_run.old.entries + 1 }
    ensures observed { (past : Past) → IsNext observed_run.old.setup past entry.now read →
        HasObserved observed_run.old past → HasObserved observed_run.new (entry.now ∷ past) }
{
    let _nested: NestedTypes = None;
    let (process, access, marks) = parts(entry);
    match access {
        Some(access) if marks.is_empty() => observed_run.step(process, access, read),
        _ => observed_run.observe(process, access.is_some(), marks),
    }
}

/// Appends a command taken, if there is one.
fn push_taken(taken: &Option<Taken>, history: &mut Vec<Taken>) -> Result<(), AllocError>
    ensures { OnOk result (history.new.items ≡ history.old.items ++ option_to_list taken.now) }
{
    let _nested: NestedTypes = None;
    if let Some(taken) = taken {
        history.push(*taken)?;
    }
    Ok(())
}

/// Returns the reply of the first command that marks take, if they take one.
fn reply_in(marks: &[Mark]) -> Option<Reply>
    ensures { result ≡ reply_taken marks.now }
{
    let _nested: NestedTypes = None;
    for mark in marks {
        if let Mark::Taken(_, reply) = mark {
            return Some(*reply);
        }
    }
    None
}

/// Appends the line of the bad entry, if there is one.
fn print_bad(alloc: Global, verdict: &Verdict, text: &mut Vec<u8>) -> Result<(), AllocError>
    ensures { OnOk result (text.new.items ≡ text.old.items ++ bad_line verdict.now) }
{
    match verdict {
        Verdict::Good => Ok(()),
        Verdict::Bad(entry, _) => {
            let audited = Audited {
                verdict: *verdict,
                entries: *entry,
            };
            let line = verdict_line(alloc, &audited)?;
            text.extend_from_slice(line.as_bytes())
        }
    }
}
