ghost use Rattle.std.specs.Prelude.{◌≡◌, ◌<◌, [], false, not, true, Ok, IfSome};
ghost use Rattle.reader_copies.specs.{progress_of};
ghost use Rattle.plain_store.specs.{checked};
ghost use Rattle.model.specs.{IsTornOf, value_of};
ghost use Rattle.process.specs.{may_step, next_at, process_after, stepped, torn_of, withdrawn};
ghost use Rattle.bakery.specs.Leavings.{BeginsClearing, CallGoesOn, CallTears, IsNextOfCall};
ghost use Rattle.bakery.specs.Memory.{with_access};

use crate::lock::Lock;
use model::{Access, TornBit};
use plain_store::Setup;
use process::Process;
use reader_copies::Progress;
use std::marker::Model;

/// The clearing of a process's ticket, with which a call ends (Lamport 1974): a write of 0. It serves a process
/// that was inside the critical section, and one that withdrew.
///
/// It is a process that has given up waiting. Contracts state each step as that of a call at the
/// corresponding place. It needs no memory.
#[derive(Drop)]
pub struct Leaving {
    place: Process,
}

impl Model for Leaving {
    ghost use Rattle.process.specs.{ProcessState};
    ghost use Rattle.bakery.specs.Leavings.{IsClosing};

    ghost Value = { ProcessState };

    ghost view = { λ l. l.place };

    ghost invariant = { λ l. IsClosing l.place.doing };
}

impl Leaving {
    /// Creates the clearing of the ticket of process `process`, before its first access.
    pub fn new(process: u8, setup: &Setup) -> Leaving
        requires setup { checked setup.now ≡ Ok tt }
        requires process { process < setup.now.processes }
        ensures leaving { result ≡ withdrawn (process_after setup.now [] process) }
        ensures calls { BeginsClearing setup.now process result }
    {
        let mut place = Process::new(process, setup);
        place.clear_ticket();
        Leaving { place }
    }

    /// Makes the next access on the lock's registers.
    #[inline]
    pub fn step(&mut self, lock: &mut Lock) -> (Access, Progress)
        requires going { may_step self.old.doing ≡ true }
        requires setup { self.old.setup ≡ lock.old.memory.setup }
        ensures access { result.0 ≡ next_at self.old false }
        ensures any_access { IsNextOfCall self.old result.0 }
        ensures own { result.0.owner ≡ self.old.process }
        ensures lock { lock.new ≡ with_access lock.old result.0 }
        ensures leaving { self.new ≡ stepped self.old false (value_of result.0.how) }
        ensures any_leaving { CallGoesOn self.old self.new }
        ensures progress { result.1 ≡ progress_of (not (may_step self.new.doing)) }
    {
        let access = lock.memory.step(&mut self.place, false);
        let progress = if self.place.goes() {
            Progress::Going
        } else {
            Progress::Done
        };
        (access, progress)
    }

    /// Halts at the next access, and returns the bit whose write has begun and has not ended on every copy, if it
    /// exists. Its write stays open.
    pub fn fail(&self) -> Option<TornBit>
        requires { may_step self.now.doing ≡ true }
        ensures torn { result ≡ torn_of self.now.setup self.now.process self.now.doing }
        ensures any_torn { CallTears self.now result }
        ensures known { IfSome result (IsTornOf self.now.setup) }
    {
        self.place.torn()
    }
}
