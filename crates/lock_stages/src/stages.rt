ghost use Rattle.std.specs.Prelude.{◌≡◌, ◌<◌, ◌≤◌, ◌+◌, ◌-◌, ◌^◌, ◌∷◌, []};
ghost use Rattle.lock_stages.specs.Entries.{lock_entry};
ghost use Rattle.lock_stages.specs.Keeping.{HasObserved, OfObserved};
ghost use Rattle.lock_stages.specs.Order.{breaks_overtaken, breaks_together};
ghost use Rattle.lock_stages.specs.Passages.{AreSince, ahead_since as wait_ahead, inside_since as enter_inside};
ghost use Rattle.lock_stages.specs.Refusals.{refusal_of_marks};
ghost use Rattle.lock_stages.specs.States.{lock_passage, process_state};

use crate::order::{MOST_PROCESSES, ahead_since, inside_since, other_ahead, other_inside};
use crate::refusals::{LockMarkRefusal, calls, enters, first_refusal};
use crate::states::ProcessState;
use std::marker::Model;
use trace::LockMark;

/// The states of up to sixteen processes. It observes entries one by one and needs the same memory however many
/// there are. Contracts see what it keeps of them.
#[derive(Drop)]
pub struct LockStages {
    processes: u8,
    states: [ProcessState; MOST_PROCESSES],
    entries: u64,
}

impl Model for LockStages {
    ghost use Rattle.std.specs.Prelude.{◌≡◌, ◌≤◌, length};
    ghost use Rattle.lock_stages.specs.Keeping.{StagesState};

    ghost Value = { StagesState };

    ghost view = { λ k. record { processes = k.processes; states = k.states; entries = k.entries } };

    ghost invariant = { λ k. (k.processes ≤ 16) × (length k.states ≡ 16) };
}

impl LockStages {
    /// Creates the stages of this number of processes, before the first entry.
    pub fn new(processes: u8) -> LockStages
        requires { processes ≤ 16 }
        ensures processes { result.processes ≡ processes }
        ensures observed { HasObserved result [] }
    {
        LockStages {
            processes,
            states: [ProcessState::at_rest(); MOST_PROCESSES],
            entries: 0,
        }
    }

    /// Returns the number of processes.
    pub fn processes(&self) -> u8
        ensures count { result ≡ self.now.processes }
        ensures most { result ≤ 16 }
    {
        self.processes
    }

    /// Returns the number of entries so far.
    pub fn entries(&self) -> u64
        ensures { result ≡ self.now.entries }
    {
        self.entries
    }

    /// Returns the state of a process.
    pub fn state(&self, process: u8) -> ProcessState
        requires { process < 16 }
        ensures { OfObserved self.now (λ past. result ≡ process_state process past) }
    {
        self.states[usize::from(process)]
    }

    /// Returns why the marks of the next entry are refused, if they are. After its access its process has an access open
    /// or not.
    pub fn refusal(
        &self,
        process: u8,
        accesses: bool,
        is_open: bool,
        marks: &[LockMark],
    ) -> Option<LockMarkRefusal>
        requires { process < 16 }
        ensures { OfObserved self.now
            (λ past. result
            ≡ refusal_of_marks past is_open (lock_entry process accesses marks.now)) }
    {
        if calls(marks) && (accesses || marks.len() != 1) {
            return Some(LockMarkRefusal::NotAlone);
        }
        first_refusal(self.state(process).stage, is_open, marks)
    }

    /// Returns whether a process enters with these marks while another is inside.
    pub fn breaks_together(&self, process: u8, accesses: bool, marks: &[LockMark]) -> bool
        ensures { OfObserved self.now
            (λ past. result
            ≡ breaks_together self.now.processes past (lock_entry process accesses marks.now)) }
    {
        enters(marks) && other_inside(&self.states, self.processes, process).is_some()
    }

    /// Returns whether a process enters with these marks while another is ahead of it.
    pub fn breaks_overtaken(&self, process: u8, accesses: bool, marks: &[LockMark]) -> bool
        requires { process < 16 }
        ensures { OfObserved self.now
            (λ past. result
            ≡ breaks_overtaken self.now.processes past (lock_entry process accesses marks.now)) }
    {
        enters(marks) && other_ahead(&self.states, self.processes, process).is_some()
    }

    /// Returns of each other process that is inside the entry with which it entered.
    pub fn inside_since(&self, process: u8) -> [Option<u64>; MOST_PROCESSES]
        ensures { OfObserved self.now
            (λ past. AreSince result
            (enter_inside (lock_passage past) self.now.processes process)) }
    {
        inside_since(&self.states, self.processes, process)
    }

    /// Returns of each process that is ahead the entry with which it began to wait.
    pub fn ahead_since(&self, process: u8) -> [Option<u64>; MOST_PROCESSES]
        requires { process < 16 }
        ensures { OfObserved self.now
            (λ past. AreSince result (wait_ahead (lock_passage past) self.now.processes process)) }
    {
        ahead_since(&self.states, self.processes, process)
    }

    /// Observes the next entry.
    pub fn take(&mut self, process: u8, accesses: bool, marks: &[LockMark])
        requires process { process < 16 }
        requires bounded { self.old.entries < 2 ^ 64 - 1 }
        ensures processes { self.new.processes ≡ self.old.processes }
        ensures entries { self.new.entries ≡ self.old.entries + 1 }
        ensures observed { OfObserved self.old
            (λ past. HasObserved self.new (lock_entry process accesses marks.now ∷ past)) }
    {
        let mut state = self.state(process);
        state.take(self.entries, accesses, marks);
        self.states[usize::from(process)] = state;
        self.entries += 1;
    }
}
