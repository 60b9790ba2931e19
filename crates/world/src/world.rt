ghost use Rattle.std.specs.Prelude.{◌≡◌, ◌<◌, ◌≤◌, ◌+◌, [], false, option_map, None, Some, IfOk, IfErr, OnOk, OnErr, IsOk, Ok, length, List};
ghost use Rattle.std.specs.Vec.{vec_capacity};
ghost use Rattle.plain_store.specs.{checked};
ghost use Rattle.model.specs.store_image.{image_of};
ghost use Rattle.model.specs.declared.Event.{Event as Happening};
ghost use Rattle.model.specs.declared.Event.TheVariants.{Call, Step};
ghost use Rattle.model.specs.declared.Refusal.TheVariants.{Memory};
ghost use Rattle.model.specs.{ahead, history, is_call, newest, process_of, refused};
ghost use Rattle.world.specs.Cores.{CoreTurnsAway, HasRoomToTake, MakesRoomForCall, history_with, with_history};
ghost use Rattle.world.specs.Events.{Adds, AddsEvent, AddsStep, EventKeepsMainTheorem, EventReportsChanges, GoesOn, InEachPast, IsRefused, IsTurnedAway, KeepsTheMainTheorem, ReportsChanges, StepKeepsMainTheorem, UnlessRefused, stage_in};
ghost use Rattle.world.specs.Shows.{Shows};
ghost use Rattle.process.specs.declared.outcomes.EventOutcome.TheVariants.{Steps};
ghost use Rattle.world.specs.Walks.{KeepOthers, ReportsOverlapped, Walks, remaining_in};

mod looking;

use crate::cores::Core;
use crate::marks::act_made;
use choices::Flicks;
use model::{Access, Act, Event, Refusal, Stage, Taken};
use plain_store::{NestedTypes, Reply, Setup};
use process::{AccessMade, AccessesMade, EventMade, EventOutcome, Image, StepOutcome};
use smallvec::SmallVec;
use std::alloc::{AllocError, Global};
use std::marker::Model;

/// N processes over one set of registers, and the history of the commands that they took.
///
/// Contracts state its contents, and that the record of its events determines them.
#[derive(Drop)]
pub struct World {
    alloc: Global,
    core: Core,
    history: Vec<Taken>,
}

impl Model for World {
    ghost use Rattle.std.specs.Vec.{vec_capacity};
    ghost use Rattle.world.specs.Cores.{with_history};
    ghost use Rattle.world.specs.Events.{KeepsWorld};
    ghost use Rattle.world.specs.Shows.{WorldState};

    ghost Value = { WorldState };

    ghost view = { λ w. with_history w.core w.history.items };

    ghost invariant = { λ w. KeepsWorld (with_history w.core w.history.items) (vec_capacity w.history) };
}

impl World {
    /// Creates a world in which nothing has happened.
    ///
    /// # Errors
    ///
    /// Returns [`AllocError`] if an allocation fails; there is no other error.
    pub fn new(alloc: Global, setup: &Setup) -> Result<World, AllocError>
        requires good { checked setup.now ≡ Ok tt }
        ensures setup { IfOk result (λ w. w.setup ≡ setup.now) }
        ensures shows { IfOk result (λ w. Shows w []) }
    {
        Ok(World {
            alloc,
            core: Core::new(alloc, setup)?,
            history: Vec::new(alloc),
        })
    }

    /// Makes one event and returns the act of the entry that it adds to the record. A call reserves the memory that its
    /// later steps need.
    ///
    /// The act keeps the main theorem. No two processes are inside the critical section at once. No process enters before a
    /// waiting one whose doorway ended before its own began. Every store reply is that of the sequential specification at
    /// its position in one history, which keeps the order of calls that do not overlap.
    ///
    /// # Errors
    ///
    /// Returns the first [`Refusal`] that applies; [`Refusal::Memory`] comes last, and only for a call. The world is then
    /// unchanged.
    pub fn event(&mut self, event: Event) -> Result<Act, Refusal>
        ensures accepted { IfOk result (λ act. Adds self.old event (process_of event) act) }
        ensures shows { OnOk result (GoesOn self.old event self.new) }
        ensures refused { IfErr result (λ refusal. IsTurnedAway self.old event refusal) }
        ensures unchanged { OnErr result (self.new ≡ self.old) }
        ensures setup { OnOk result (self.new.setup ≡ self.old.setup) }
        ensures through { UnlessRefused self.old event (is_call event ≡ false → IsOk result) }
        ensures main_theorem { IfOk result
            (λ act. KeepsTheMainTheorem self.old (process_of event) act) }
    {
        let place = self.history.len() as u64;
        let mut effect = EventOutcome::Steps(StepOutcome::Nothing);
        match self.make(&event, &mut effect) {
            Ok(access) => Ok(act_made(self.alloc, &EventMade { access, effect }, place)),
            Err(refusal) => Err(refusal),
        }
    }

    /// Makes one event as `event` does, writes its effect to `effect`, and returns the access of a step, or `None` for
    /// other events. The position of a command that it takes is the length of the history before the event.
    ///
    /// # Errors
    ///
    /// Returns the same [`Refusal`] as `event`; the world and `effect` are then unchanged.
    pub fn make(
        &mut self,
        event: &Event,
        effect: &mut EventOutcome,
    ) -> Result<Option<Access>, Refusal>
        ensures accepted { IfOk result (AddsEvent self.old event.now effect.new) }
        ensures changes { OnOk result (EventReportsChanges self.old effect.new) }
        ensures shows { OnOk result (GoesOn self.old event.now self.new) }
        ensures refused { IfErr result (λ refusal. IsTurnedAway self.old event.now refusal) }
        ensures unchanged { OnErr result (self.new ≡ self.old) }
        ensures unreported { OnErr result (effect.new ≡ effect.old) }
        ensures setup { OnOk result (self.new.setup ≡ self.old.setup) }
        ensures main_theorem { IfOk result (EventKeepsMainTheorem self.old event.now effect.new) }
    {
        if let Err(refusal) = reserve(&mut self.history, &self.core, event) {
            return Err(refusal);
        }
        match self.core.event(event, effect) {
            Ok(access) => {
                take(
                    &mut self.history,
                    &self.core,
                    event.process(),
                    effect.reply(),
                );
                Ok(access)
            }
            Err(refusal) => Err(refusal),
        }
    }

    /// Makes one step of a process, or of its memory unit, as `event` does, and writes its outcome to `reported`. Returns its
    /// access, and whether it ended a read that a write overlapped.
    ///
    /// An act has room for three marks, and few steps have a mark, so the outcome is best written in place. The position
    /// of a command that the step takes is the length of the history before the step.
    ///
    /// # Errors
    ///
    /// Returns the [`Refusal`] of a step that is refused; the world and `reported` are then unchanged.
    #[inline(never)]
    pub fn step(
        &mut self,
        process: u8,
        flick: bool,
        reported: &mut StepOutcome,
    ) -> Result<AccessMade, Refusal>
        ensures accepted { IfOk result
            (λ made. AddsStep self.old process flick reported.new made.access) }
        ensures overlapped { IfOk result
            (λ made. ReportsOverlapped self.old made.access made.overlapped) }
        ensures changes { OnOk result (ReportsChanges self.old reported.new) }
        ensures shows { OnOk result (GoesOn self.old (Step process flick) self.new) }
        ensures refused { IfErr result (λ why. IsRefused self.old (Step process flick) (Some why)) }
        ensures unchanged { OnErr result (self.new ≡ self.old) }
        ensures unreported { OnErr result (reported.new ≡ reported.old) }
        ensures setup { OnOk result (self.new.setup ≡ self.old.setup) }
        ensures through { UnlessRefused self.old (Step process flick) (IsOk result) }
        ensures main_theorem { IfOk result
            (λ made. StepKeepsMainTheorem self.old process reported.new made.access) }
        ensures others { KeepOthers self.old.seats process self.new.seats }
    {
        match self.core.step(process, flick, reported) {
            Ok(made) => {
                take(&mut self.history, &self.core, process, reported.reply());
                Ok(made)
            }
            Err(refusal) => Err(refusal),
        }
    }

    /// Makes `steps` steps of a process within one register access of its call: each as `step` makes it, by the next flick,
    /// and without a mark. Each keeps the main theorem. Returns the newest access, and how many of them ended a read that a
    /// write overlapped; that number costs nothing if the caller does not use it.
    #[inline(always)]
    pub fn run(&mut self, process: u8, flicks: &mut Flicks, steps: u32) -> AccessesMade
        requires nonzero { 0 < steps }
        requires within { steps ≤ remaining_in self.old.seats process }
        ensures runs { Walks self.old flicks.old process steps result.newest result.overlapped
            self.new flicks.new }
        ensures fewer { remaining_in self.old.seats process
            ≡ remaining_in self.new.seats process + steps }
        ensures others { KeepOthers self.old.seats process self.new.seats }
    {
        self.core.run(process, flicks, steps)
    }

    /// Returns the number of the next steps of a process that are within a register access of its call, whatever other
    /// processes do. They have no mark, and none is the first of the call or the last of the access. 0 if the process does
    /// not exist.
    #[inline]
    pub fn remaining(&self, process: u8) -> u32
        ensures { result ≡ remaining_in self.now.seats process }
    {
        self.core.remaining(process)
    }

    /// Proves that the world shows the record of some events. It does nothing at run time: a caller that borrowed the
    /// world obtains the fact that every other clause assumes.
    pub fn shown(&self)
        ensures { (events : List Happening) × Shows self.now events }
    {
        let _kept = &self.core;
    }

    /// Returns the part of the world other than the history.
    pub fn core(&self) -> &Core
        ensures { with_history result.now self.now.history ≡ self.now }
    {
        &self.core
    }

    /// Returns the stage of a process; `None` if the process does not exist.
    pub fn stage(&self, process: u8) -> Option<Stage>
        ensures { InEachPast self.now (λ s past. result ≡ stage_in s past process) }
    {
        self.core.stage(process)
    }

    /// Returns the commands taken, in their order.
    pub fn history(&self) -> &[Taken]
        ensures { InEachPast self.now (λ s past. result.now ≡ history s past) }
    {
        &self.history
    }

    /// Returns the processes that wait and whose doorways ended before that of this process began, ascending. The list
    /// is empty unless this process is in its doorway or waiting.
    pub fn ahead(&self, process: u8) -> SmallVec<u8, 16>
        ensures { InEachPast self.now (λ s past. result.items ≡ ahead s process past) }
    {
        self.core.ahead(self.alloc, process)
    }

    /// Reads the store after the history from the registers; `None` while a process is inside.
    pub fn newest(&self) -> Option<Image>
        ensures { InEachPast self.now (λ s past. option_map image_of result ≡ newest s past) }
    {
        self.core.newest()
    }
}

/// Reserves memory in the history for each call that may be taken, before a call that is not refused.
///
/// # Errors
///
/// Returns the refusal of the call, or [`Refusal::Memory`] if the allocation fails.
fn reserve(history: &mut Vec<Taken>, core: &Core, event: &Event) -> Result<(), Refusal>
    ensures room { OnOk result (MakesRoomForCall event.now core.now history.old history.new) }
    ensures refused { IfErr result (CoreTurnsAway core.now event.now) }
    ensures items { history.new.items ≡ history.old.items }
    ensures capacity { vec_capacity history.old ≤ vec_capacity history.new }
{
    if !matches!(event, Event::Call(..)) {
        return Ok(());
    }
    if let Some(refusal) = core.refusal(event) {
        return Err(refusal);
    }
    match history.reserve(core.processes()) {
        Ok(()) => Ok(()),
        Err(_) => Err(Refusal::Memory),
    }
}

/// Appends the command that a process takes, if it takes one, to the history, which has room for it.
fn take(history: &mut Vec<Taken>, core: &Core, process: u8, reply: Option<Reply>)
    requires room { HasRoomToTake reply history.old }
    requires in_range { process < length core.now.seats }
    ensures items { history.new.items ≡ history_with history.old.items core.now process reply }
    ensures capacity { vec_capacity history.old ≤ vec_capacity history.new }
{
    let _nested: NestedTypes = None;
    let Some(reply) = reply else {
        return;
    };
    match history.push(core.taken(process, reply)) {
        Ok(()) => {}
        Err(_) => unreachable!(),
    }
}
