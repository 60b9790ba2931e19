//! The state of one process, updated access by access and mark by mark.
ghost use Rattle.std.specs.Prelude.{◌≡◌};
ghost use Rattle.lock_stages.specs.Keeping.{accessed, at_rest, marked, process_state_after};
ghost use Rattle.lock_stages.specs.Refusals.{is_idle, is_in_doorway, is_inside, is_leaving, is_waiting};
ghost use Rattle.lock_stages.specs.States.{passage_marked};

use crate::order::HasPassage;
use crate::passages::Passage;
use crate::refusals::stage_after;
use trace::LockMark;

/// The stage of a process.
#[derive(Clone, Copy, PartialEq, Eq)]
pub enum LockStage {
    /// It has no call.
    Idle,
    /// Its call has begun.
    Doorway,
    /// Its doorway has ended, and it has not entered.
    Waiting,
    /// It is inside the critical section.
    Inside,
    /// It has left the critical section, and its call has not ended.
    Leaving,
}

/// The stage of a process, and its passage through the lock.
#[derive(Clone, Copy)]
pub struct ProcessState {
    pub stage: LockStage,
    pub passage: Passage,
}

impl HasPassage for ProcessState {
    ghost passage_of = { λ state. state.passage };

    fn passage(&self) -> &Passage {
        &self.passage
    }
}

impl ProcessState {
    /// Returns the state of a process without entries.
    pub(crate) fn at_rest() -> ProcessState
        ensures { result ≡ at_rest }
    {
        ProcessState {
            stage: LockStage::Idle,
            passage: Passage::none(),
        }
    }

    /// Updates the state by an entry of its process.
    pub(crate) fn take(&mut self, entry: u64, accesses: bool, marks: &[LockMark])
        ensures { self.new ≡ process_state_after entry accesses marks.now self.old }
    {
        self.access(entry, accesses);
        for mark in marks {
            self.mark(entry, *mark);
        }
    }

    /// Updates the state by the access of an entry, if the entry makes one.
    #[inline]
    fn access(&mut self, entry: u64, accesses: bool)
        ensures { self.new ≡ accessed entry accesses self.old }
    {
        if accesses {
            self.passage.access(entry);
        }
    }

    /// Updates the state by a mark of an entry.
    #[inline]
    fn mark(&mut self, entry: u64, mark: LockMark)
        ensures { self.new ≡ marked entry self.old mark }
    {
        self.stage = stage_after(mark);
        mark_passage(&mut self.passage, entry, mark);
    }
}

/// Updates a passage by a mark of an entry. A process is at one stage at a time, so each mark except `enter` ends its stay inside.
#[inline]
fn mark_passage(passage: &mut Passage, entry: u64, mark: LockMark)
    ensures { passage.new ≡ passage_marked entry passage.old mark }
{
    match mark {
        LockMark::Call => {
            passage.leave();
            passage.call();
        }
        LockMark::Wait => {
            passage.leave();
            passage.wait(entry);
        }
        LockMark::Enter => passage.enter(entry),
        LockMark::Leave | LockMark::Answer => passage.leave(),
    }
}

impl LockStage {
    /// Returns whether the process has no call.
    pub fn is_idle(self) -> bool
        ensures { result ≡ is_idle self }
    {
        matches!(self, LockStage::Idle)
    }

    /// Returns whether the process is in its doorway.
    pub fn is_in_doorway(self) -> bool
        ensures { result ≡ is_in_doorway self }
    {
        matches!(self, LockStage::Doorway)
    }

    /// Returns whether the doorway of the process has ended, and it has not entered.
    pub fn is_waiting(self) -> bool
        ensures { result ≡ is_waiting self }
    {
        matches!(self, LockStage::Waiting)
    }

    /// Returns whether the process is inside the critical section.
    pub fn is_inside(self) -> bool
        ensures { result ≡ is_inside self }
    {
        matches!(self, LockStage::Inside)
    }

    /// Returns whether the process has left the critical section, and its call has not ended.
    pub fn is_leaving(self) -> bool
        ensures { result ≡ is_leaving self }
    {
        matches!(self, LockStage::Leaving)
    }
}
