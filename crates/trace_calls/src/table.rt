//! The table of the calls of a trace, up to the newest entry.
ghost use Rattle.std.specs.Prelude.{◌≡◌, ◌+◌, ◌-◌, ◌^◌, ◌<◌, ◌≤◌, ◌∷◌, [], None, get_or};
ghost use Rattle.std.specs.List.{list_any};
ghost use Rattle.trace_engine.specs.trace_judge.lock_stages.{is_call};
ghost use Rattle.trace.specs.{trace_entry};
ghost use Rattle.trace_calls.specs.Calls.{ended_call, open_call};
ghost use Rattle.trace_calls.specs.Keeping.{HasListed, OfListed, ended_between as call_ended_between};

use crate::kept::{TraceCall, TraceCallState};
use crate::moves::has_call;
use crate::opened::{MOST_PROCESSES, OpenMoves};
use std::marker::Model;
use trace::{CellAccess, LockMark};

/// The calls of a trace, whose entries it observes one by one. It keeps the last call and the open access of each process, so its
/// memory does not grow with the trace.
#[derive(Drop)]
pub(crate) struct TraceCalls {
    opened: OpenMoves,
    kept: [TraceCallState; MOST_PROCESSES],
    entries: u64,
}

impl Model for TraceCalls {
    ghost use Rattle.trace_calls.specs.Keeping.{CallsState, IsCalls};

    ghost Value = { CallsState };

    ghost view = { λ t. record { opened = t.opened; kept = t.kept; entries = t.entries } };

    ghost invariant = { λ t. IsCalls
        (record { opened = t.opened; kept = t.kept; entries = t.entries }) };
}

impl TraceCalls {
    /// Creates a table of this number of processes, before the first entry.
    pub fn new(processes: u8) -> TraceCalls
        requires { processes ≤ 16 }
        ensures processes { result.opened.processes ≡ processes }
        ensures listed { HasListed result [] }
    {
        TraceCalls {
            opened: OpenMoves::new(processes),
            kept: [TraceCallState::at_rest(); MOST_PROCESSES],
            entries: 0,
        }
    }

    /// Returns the number of processes.
    pub fn processes(&self) -> u8
        ensures count { result ≡ self.now.opened.processes }
        ensures most { result ≤ 16 }
    {
        self.opened.processes()
    }

    /// Returns the number of entries.
    pub fn entries(&self) -> u64
        ensures { result ≡ self.now.entries }
    {
        self.entries
    }

    /// Adds an entry, good or bad, and returns the call that ends with it, if one does: an open call also ends when its process
    /// calls again. An entry of a process that does not exist is counted, and nothing else.
    pub fn list(
        &mut self,
        process: u8,
        access: &Option<CellAccess>,
        marks: &[LockMark],
    ) -> Option<TraceCall>
        requires { self.old.entries < 2 ^ 64 - 1 }
        ensures processes { self.new.opened.processes ≡ self.old.opened.processes }
        ensures entries { self.new.entries ≡ self.old.entries + 1 }
        ensures listed { OfListed self.old (λ past.
            HasListed self.new (trace_entry process access.now marks.now ∷ past)) }
        ensures ended { OfListed self.old (λ past. result ≡ ended_call
            self.old.opened.processes past (trace_entry process access.now marks.now)) }
    {
        let number = self.entries;
        self.entries += 1;
        if process >= self.opened.processes() {
            return None;
        }
        let overlapped = self.opened.observe(process, access);
        let before = self.kept[usize::from(process)];
        let mut after = before;
        after.take(number, overlapped, access, marks);
        self.kept[usize::from(process)] = after;
        ended_between(has_call(marks), &before, &after)
    }

    /// Returns the call of a process, if it has not ended.
    pub fn open_call(&self, process: u8) -> Option<TraceCall>
        requires { process < self.now.opened.processes }
        ensures { OfListed self.now (λ past. result
            ≡ open_call self.now.opened.processes process past) }
    {
        let kept = &self.kept[usize::from(process)];
        kept.calling.then_some(kept.last)
    }
}

/// Returns the call that ends as one state follows another, with marks that begin a call or not.
fn ended_between(calls: bool, before: &TraceCallState, after: &TraceCallState) -> Option<TraceCall>
    ensures { result ≡ call_ended_between calls before.now after.now }
{
    if calls {
        before.calling.then_some(before.last)
    } else {
        (before.calling && !after.calling).then_some(after.last)
    }
}
