ghost use Rattle.std.specs.Prelude.{◌≡◌, ◌<◌, [], false, true, Ok, IfSome};
ghost use Rattle.plain_store.specs.{checked};
ghost use Rattle.model.specs.{IsTornOf};
ghost use Rattle.process.specs.{may_step, next_at, process_after, settling_with, stepped};
ghost use Rattle.bakery.specs.Units.{BeginsClosings, ClosingGoesOn, IsNextOfClosing, MarksOfClosing, lock_after, remains, versions_after};

use crate::data::Data;
use crate::lock::Lock;
use crate::unit_progress::UnitProgress;
use model::{Access, Field, TornBit};
use plain_store::Setup;
use process::Process;
use std::marker::Model;

/// The memory unit of a failed process. It settles the torn bit, if there is one: on each copy by begin and end of a
/// write, and by a single `Settle` where the write was open. The flick of the unit's first access sets all copies.
/// Then it writes 0 to the ticket, and at last 0 to the choosing bit. After that the process is down.
///
/// It is a process whose unit works. Contracts state each step for every closing of the failure rule at the corresponding
/// place, whether or not the process was inside and whichever command the settling may take.
#[derive(Drop)]
pub struct Unit {
    place: Process,
}

impl Model for Unit {
    ghost use Rattle.process.specs.{ProcessState};
    ghost use Rattle.bakery.specs.Leavings.{IsClosing};

    ghost Value = { ProcessState };

    ghost view = { λ u. u.place };

    ghost invariant = { λ u. IsClosing u.place.doing };
}

impl Unit {
    /// Creates the unit of process `p`, before its first access. `torn` is the bit that the failure has torn, as `fail`
    /// returned it.
    pub fn start(p: u8, setup: &Setup, torn: Option<TornBit>) -> Unit
        requires setup { checked setup.now ≡ Ok tt }
        requires process { p < setup.now.processes }
        requires torn { IfSome torn (λ t. IsTornOf setup.now t) }
        ensures going { may_step result.doing ≡ true }
        ensures unit { result ≡ settling_with (process_after setup.now [] p) torn }
        ensures closings { BeginsClosings setup.now p torn result }
    {
        let mut place = Process::new(p, setup);
        place.begin_unit(torn);
        Unit { place }
    }

    /// Makes the next access on the registers of the process. Returns the access and the remaining work. All copies of the
    /// torn bit are settled at the flick of the first access. No other flick has an effect.
    #[inline]
    pub fn step(
        &mut self,
        lock: &mut Lock,
        versions: &mut Data,
        flick: bool,
    ) -> (Access, UnitProgress)
        requires going { may_step self.old.doing ≡ true }
        requires lock { self.old.setup ≡ lock.old.memory.setup }
        requires versions { self.old.setup ≡ versions.old.memory.setup }
        ensures access { result.0 ≡ next_at self.old flick }
        ensures any_access { IsNextOfClosing self.old flick result.0 }
        ensures own { result.0.owner ≡ self.old.process }
        ensures lock { lock.new ≡ lock_after lock.old result.0 }
        ensures versions { versions.new ≡ versions_after versions.old result.0 }
        ensures unit { self.new ≡ stepped self.old flick false }
        ensures any_unit { ClosingGoesOn self.old flick self.new }
        ensures progress { result.1 ≡ remains self.new.doing }
        ensures any_marks { MarksOfClosing self.old flick result.1 }
    {
        let access = match self.place.next(flick).field {
            Field::Choosing | Field::Ticket => lock.memory.step(&mut self.place, flick),
            _ => versions.memory.step(&mut self.place, flick),
        };
        (access, UnitProgress::of(&self.place))
    }
}
