ghost use Rattle.std.specs.Prelude.{◌≡◌, ◌<◌, true, Ok, IfOk, IfSome, IsOk, []};
ghost use Rattle.plain_store.specs.{checked};
ghost use Rattle.plain_store.specs.declared.Command.TheVariants.{Ask};
ghost use Rattle.model.specs.{IsTornOf, value_of};
ghost use Rattle.process.specs.{called, marks_on, process_after, restarted, stage_doing, stepped, torn_of};
ghost use Rattle.bakery.specs.Doors.{BeginsCalls, CallGoesOn, CallTears, IsNextOfCall, MarksOfCall, goes_on, is_going, is_waiting, marks_reported, progress_on, reports_wait};
ghost use Rattle.bakery.specs.Memory.{answered_by, memory_after, memory_dropped};

use crate::door_progress::DoorProgress;
use crate::lock::Locks;
use model::{Access, TornBit};
use plain_store::{Command, Setup};
use process::Process;
use std::alloc::{AllocError, Global};
use std::marker::Model;

/// The doorway and the waiting of one process (Lamport 1974). It announces that it is choosing, reads the others'
/// tickets, and takes one more than the greatest. Then it waits for each other process, first until that one is not
/// choosing, then until its ticket is 0 or comes after its own.
///
/// It is a process that runs a call, with the state that the lock needs. The command of the call makes no difference
/// there, and contracts state each step for every call.
#[derive(Drop)]
pub struct Door {
    place: Process,
}

impl Model for Door {
    ghost use Rattle.process.specs.{ProcessState};

    ghost Value = { ProcessState };

    ghost view = { λ d. d.place };
}

impl Door {
    /// Creates a door of process `process`. It is not started and needs no memory.
    ///
    /// # Errors
    ///
    /// Returns no error.
    pub fn new(_alloc: Global, process: u8, setup: &Setup) -> Result<Door, AllocError>
        requires setup { checked setup.now ≡ Ok tt }
        requires process { process < setup.now.processes }
        ensures door { IfOk result (λ door. door ≡ process_after setup.now [] process) }
        ensures never { IsOk result }
    {
        Ok(Door {
            place: Process::new(process, setup),
        })
    }

    /// Begins the doorway of a call of this process, before its first access.
    pub fn start(&mut self)
        ensures door { self.new ≡ called self.old Ask 0 }
        ensures calls { BeginsCalls self.old self.new }
        ensures going { is_going self.new ≡ true }
    {
        self.place.call(Command::Ask, 0);
    }

    /// Makes the next access on the lock's registers, and returns it with its result. The end of a bit's read
    /// gives `flick` if a write of this process's copy was open at some time during the read, and otherwise the copy's
    /// value.
    #[inline]
    pub fn step(&mut self, locks: &mut Locks, flick: bool) -> (Access, DoorProgress)
        requires going { is_going self.old ≡ true }
        requires setup { self.old.setup ≡ locks.old.setup }
        ensures access { result.0 ≡ answered_by self.old locks.old flick }
        ensures any_access { IsNextOfCall self.old locks.old flick result.0 }
        ensures locks { locks.new ≡ memory_after locks.old result.0 }
        ensures door { self.new ≡ stepped self.old flick (value_of result.0.how) }
        ensures any_door { CallGoesOn self.old (value_of result.0.how) self.new }
        ensures progress { result.1 ≡ progress_on self.old self.new }
        ensures marks { marks_reported (stage_doing self.old.doing) result.1
            ≡ marks_on self.old flick (value_of result.0.how) }
        ensures any_marks { MarksOfCall self.old (value_of result.0.how) result.1 }
        ensures going { is_going self.new ≡ goes_on result.1 }
        ensures waiting { is_waiting self.new ≡ reports_wait result.1 }
    {
        let ticket = self.place.ticket();
        let full = self.place.full();
        let access = locks.lock.memory.step(&mut self.place, flick);
        (access, DoorProgress::at(self.place.stage(), ticket, full))
    }

    /// Gives up waiting: the open read is dropped, and the door has no call. The ticket remains until
    /// a [`Leaving`](crate::Leaving) clears it.
    pub fn withdraw(&mut self, locks: &mut Locks)
        requires waiting { is_waiting self.old ≡ true }
        requires setup { self.old.setup ≡ locks.old.setup }
        ensures locks { locks.new ≡ memory_dropped self.old locks.old }
        ensures door { self.new ≡ restarted self.old }
    {
        locks.lock.memory.drop_read(&self.place);
        self.place.restart();
    }

    /// Halts at the next access: an open read is dropped, and the door has no call. An open write stays open.
    /// Returns the bit whose write has begun and has not ended on every copy, if it exists.
    pub fn fail(&mut self, locks: &mut Locks) -> Option<TornBit>
        requires going { is_going self.old ≡ true }
        requires setup { self.old.setup ≡ locks.old.setup }
        ensures torn { result ≡ torn_of self.old.setup self.old.process self.old.doing }
        ensures any_torn { CallTears self.old result }
        ensures known { IfSome result (IsTornOf self.old.setup) }
        ensures locks { locks.new ≡ memory_dropped self.old locks.old }
        ensures door { self.new ≡ restarted self.old }
    {
        let torn = self.place.torn();
        locks.lock.memory.drop_read(&self.place);
        self.place.restart();
        torn
    }
}
