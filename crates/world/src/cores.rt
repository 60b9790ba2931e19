//! N processes over one set of registers, without a history.
ghost use Rattle.std.specs.Prelude.{◌≡◌, ◌<◌, ◌≤◌, ◌+◌, Bool, length, true, None, Some, IfOk, IfErr, IfSome, IsOk, OnErr, OnOk, Ok, [], option_map, slice_get};
ghost use Rattle.plain_store.specs.{checked, is_command};
ghost use Rattle.model.specs.store_image.{image_of};
ghost use Rattle.model.specs.declared.Event.TheVariants.{Call, Step, Fail, Withdraw, Restart};
ghost use Rattle.model.specs.{ahead, newest};
ghost use Rattle.process.specs.declared.outcomes.EventOutcome.TheVariants.{Calls, Fails, Restarts, Steps, Withdraws};
ghost use Rattle.process.specs.{WantsNoMemory};
ghost use Rattle.world.specs.Cores.{CoreAdds, CoreAddsStep, CoreEventReportsChanges, CoreMakes, CoreRefuses, CoreRefusesStep, CoreReportsChanges, CoreSteps, CoreReportsOverlapped, CoreWalks, InEachCorePast, PendedBefore, PendedUnlessCall, UnlessCoreRefuses, pending_with, taken_by, with_history};
ghost use Rattle.world.specs.Events.{stage_in};
ghost use Rattle.world.specs.Going.{CoreGoes};
ghost use Rattle.world.specs.Shows.{Shows};
ghost use Rattle.world.specs.Walks.{KeepOthers, remaining_in};

mod copies;
mod looking;

use crate::queue::listed;
use crate::seats::{Seat, is_occupied, note_waiting, waiting};
use choices::Flicks;
use model::{Access, Event, Refusal, Stage, Taken};
use plain_store::{Command, NestedTypes, Reply, Setup};
use process::{
    AccessMade, AccessesMade, BitMemory, EventOutcome, Image, Process, StepOutcome, newest,
    open_memory,
};
use smallvec::SmallVec;
use std::alloc::{AllocError, Global};
use std::marker::Model;

/// N processes over one set of registers: a world without its history. After its creation it does not allocate.
///
/// Contracts state its contents. With each history that makes it the world of a record, it behaves as that world
/// does.
#[derive(Drop)]
pub struct Core {
    setup: Setup,
    registers: BitMemory,
    seats: Vec<Seat>,
}

impl Model for Core {
    ghost use Rattle.world.specs.Cores.{CoreState, KeepsCore};

    ghost Value = { CoreState };

    ghost view = { λ w. record { setup = w.setup; registers = w.registers; seats = w.seats.items } };

    ghost invariant = { λ w. KeepsCore (record { setup = w.setup; registers = w.registers; seats = w.seats.items }) };
}

impl Core {
    /// Creates a core in which nothing has happened.
    ///
    /// # Errors
    ///
    /// Returns [`AllocError`] if an allocation fails; there is no other error.
    pub fn new(alloc: Global, setup: &Setup) -> Result<Core, AllocError>
        requires good { checked setup.now ≡ Ok tt }
        ensures setup { IfOk result (λ c. c.setup ≡ setup.now) }
        ensures shows { IfOk result (λ c. Shows (with_history c []) []) }
    {
        setup.opening.pairs_are_sound();
        let mut seats = Vec::new(alloc);
        for process in 0..setup.processes {
            seats.push(Seat {
                process: Process::new(process, setup),
                begun: false,
                before: [false; 16],
            })?;
        }
        Ok(Core {
            setup: *setup,
            registers: open_memory(alloc, setup)?,
            seats,
        })
    }

    /// Returns the seat of a process; `None` if the process does not exist.
    #[inline]
    fn seat(&self, process: u8) -> Option<&Seat>
        ensures { option_map (λ seat. seat.now) result ≡ slice_get self.now.seats process }
    {
        self.seats.get(usize::from(process))
    }

    /// Returns the number of processes.
    pub fn processes(&self) -> usize
        ensures { result ≡ length self.now.seats }
    {
        self.seats.len()
    }

    /// Returns the stage of a process; `None` if the process does not exist.
    pub fn stage(&self, process: u8) -> Option<Stage>
        ensures { InEachCorePast self.now (λ s past. result ≡ stage_in s past process) }
    {
        Some(self.seat(process)?.process.stage())
    }

    /// Returns the processes that wait and whose doorways ended before that of this process began, ascending. The list
    /// is empty unless this process is in its doorway or waiting.
    pub fn ahead(&self, alloc: Global, process: u8) -> SmallVec<u8, 16>
        ensures { InEachCorePast self.now (λ s past. result.items ≡ ahead s process past) }
    {
        match self.seat(process) {
            Some(seat) if seat.process.is_at_door() => listed(alloc, &seat.before),
            _ => SmallVec::new(alloc),
        }
    }

    /// Reads the store after the history from the registers; `None` while a process is inside.
    pub fn newest(&self) -> Option<Image>
        ensures { InEachCorePast self.now (λ s past. option_map image_of result ≡ newest s past) }
    {
        if is_occupied(&self.seats) {
            return None;
        }
        Some(newest(&self.registers, &self.setup))
    }

    /// Returns the entry of the history for the last call of a process, with this reply.
    pub fn taken(&self, process: u8, reply: Reply) -> Taken
        requires { process < length self.now.seats }
        ensures { result ≡ taken_by self.now.seats process reply }
    {
        let _nested: NestedTypes = None;
        let caller = &self.seats[usize::from(process)].process;
        Taken {
            process,
            command: caller.command(),
            reply,
            number: caller.number(),
        }
    }

    /// Returns the reason for which an event is refused, or `None` if it is not refused.
    pub fn refusal(&self, event: &Event) -> Option<Refusal>
        ensures refused { CoreRefuses self.now event.now result }
        ensures never { IfSome result WantsNoMemory }
    {
        match self.seat(event.process()) {
            Some(seat) => seat.process.refusal(event),
            None => Some(Refusal::NoProcess),
        }
    }

    /// Makes one event, writes its effect to `effect`, and returns the access of a step, or `None` for other events. If
    /// the event takes a command, it is that of the process's last call.
    ///
    /// # Errors
    ///
    /// Returns the [`Refusal`] of an event that is refused; the core and `effect` are then unchanged. It is never
    /// [`Refusal::Memory`]: the owner of a history reserves its memory before a call.
    pub fn event(
        &mut self,
        event: &Event,
        effect: &mut EventOutcome,
    ) -> Result<Option<Access>, Refusal>
        ensures accepted { IfOk result (CoreAdds self.old event.now effect.new) }
        ensures changes { OnOk result (CoreEventReportsChanges self.old effect.new) }
        ensures shows { OnOk result (CoreMakes self.old event.now effect.new self.new) }
        ensures pending { OnOk result (PendedUnlessCall event.now self.old effect.new self.new) }
        ensures bounded { OnOk result (pending_with effect.new self.new ≤ length self.old.seats) }
        ensures refused { IfErr result (λ refusal. CoreRefuses self.old event.now (Some refusal)) }
        ensures never { IfErr result WantsNoMemory }
        ensures unchanged { OnErr result (self.new ≡ self.old) }
        ensures unreported { OnErr result (effect.new ≡ effect.old) }
        ensures setup { OnOk result (self.new.setup ≡ self.old.setup) }
    {
        let _kept = &self.seats;
        if let Some(refusal) = self.refusal(event) {
            return Err(refusal);
        }
        Ok(self.make_event(event, effect))
    }

    /// Makes one step of a process, or of its memory unit, and writes its outcome to `reported`. Returns its access, and
    /// whether it ended a read that a write overlapped. If the step takes a command, it is that of the process's last call.
    ///
    /// # Errors
    ///
    /// Returns the [`Refusal`] of a step that is refused; the core and `reported` are then unchanged.
    #[inline]
    pub fn step(
        &mut self,
        process: u8,
        flick: bool,
        reported: &mut StepOutcome,
    ) -> Result<AccessMade, Refusal>
        ensures accepted { IfOk result
            (λ made. CoreAddsStep self.old process flick reported.new made.access) }
        ensures overlapped { IfOk result
            (λ made. CoreReportsOverlapped self.old made.access made.overlapped) }
        ensures changes { OnOk result (CoreReportsChanges self.old reported.new) }
        ensures shows { OnOk result (CoreSteps self.old process flick reported.new self.new) }
        ensures pending { OnOk result (PendedBefore self.old (Steps reported.new) self.new) }
        ensures refused { IfErr result (CoreRefusesStep self.old process flick) }
        ensures never { IfErr result WantsNoMemory }
        ensures unchanged { OnErr result (self.new ≡ self.old) }
        ensures unreported { OnErr result (reported.new ≡ reported.old) }
        ensures setup { OnOk result (self.new.setup ≡ self.old.setup) }
        ensures through { UnlessCoreRefuses self.old (Step process flick) (IsOk result) }
        ensures others { KeepOthers self.old.seats process self.new.seats }
    {
        if 0 < self.remaining(process) {
            *reported = StepOutcome::Nothing;
            let made = self.run(process, &mut Flicks::only(flick), 1);
            return Ok(AccessMade {
                access: made.newest,
                overlapped: made.overlapped > 0,
            });
        }
        if let Some(refusal) = self.step_refusal(process) {
            return Err(refusal);
        }
        Ok(self.make_step(process, flick, reported))
    }

    /// Returns the reason for which a step of a process is refused, or `None`, as `refusal` does, without an event.
    #[inline]
    fn step_refusal(&self, process: u8) -> Option<Refusal>
        ensures refused { (flick : Bool) → CoreRefuses self.now (Step process flick) result }
        ensures never { IfSome result WantsNoMemory }
    {
        match self.seat(process) {
            Some(seat) if seat.process.goes() => None,
            Some(_) => Some(Refusal::NotRunning),
            None => Some(Refusal::NoProcess),
        }
    }

    /// Makes the next access of a process, or of its memory unit, and writes its outcome to `reported`.
    #[inline]
    fn make_step(&mut self, process: u8, flick: bool, reported: &mut StepOutcome) -> AccessMade
        requires { CoreRefuses self.old (Step process flick) None }
        ensures step { CoreGoes self.old (Step process flick) (Steps reported.new)
            (Some result.access) self.new }
        ensures overlapped { CoreReportsOverlapped self.old result.access result.overlapped }
        ensures changes { CoreReportsChanges self.old reported.new }
        ensures others { KeepOthers self.old.seats process self.new.seats }
    {
        let seat = &mut self.seats[usize::from(process)];
        let waited = seat.process.is_waiting();
        let made = seat.step(&mut self.registers, flick, reported);
        let waits = seat.process.is_waiting();
        note_waiting(&mut self.seats, process, waited, waits);
        made
    }

    /// Makes `steps` steps of a process within one register access of its call: each as `step` makes it, by the next flick,
    /// and without a mark. Returns the newest access, and how many of them ended a read that a write overlapped. Each reads
    /// few words of memory, so it is quicker than a step that may have marks.
    #[inline(always)]
    pub fn run(&mut self, process: u8, flicks: &mut Flicks, steps: u32) -> AccessesMade
        requires nonzero { 0 < steps }
        requires within { steps ≤ remaining_in self.old.seats process }
        ensures runs { CoreWalks self.old flicks.old process steps result.newest result.overlapped
            self.new flicks.new }
        ensures fewer { remaining_in self.old.seats process
            ≡ remaining_in self.new.seats process + steps }
        ensures others { KeepOthers self.old.seats process self.new.seats }
    {
        self.seats[usize::from(process)]
            .process
            .run(&mut self.registers, flicks, steps)
    }

    /// Returns the number of the next steps of a process that are within a register access of its call, whatever other
    /// processes do. They have no mark, and none is the first of the call or the last of the access. 0 if the process does
    /// not exist.
    #[inline]
    pub fn remaining(&self, process: u8) -> u32
        ensures { result ≡ remaining_in self.now.seats process }
    {
        match self.seat(process) {
            Some(seat) => seat.process.remaining(),
            None => 0,
        }
    }

    /// Makes an event that is not refused, writes its effect to `effect`, and returns the access of a step.
    fn make_event(&mut self, event: &Event, effect: &mut EventOutcome) -> Option<Access>
        requires { CoreRefuses self.old event.now None }
        ensures event { CoreGoes self.old event.now effect.new result self.new }
        ensures changes { CoreEventReportsChanges self.old effect.new }
    {
        event.command_is_sound();
        let before = waiting(&self.seats, event);
        let process = event.process();
        let seat = &mut self.seats[usize::from(process)];
        let waited = seat.process.is_waiting();
        let access = seat.make(&mut self.registers, before, event, effect);
        let waits = seat.process.is_waiting();
        note_waiting(&mut self.seats, process, waited, waits);
        access
    }
}
