//! The work of each thread of a race: its port makes the calls of a plan, one after the other.
ghost use Rattle.std.specs.Prelude.{◌≡◌, IfErr, IfOk, OnOk, Some};
ghost use Rattle.board.specs.{IsOf, SamePort, new_own, stage_in};
ghost use Rattle.race.specs.Calling.{ComesTo, IsCalling, PortHasCalled};
ghost use Rattle.race.specs.Faults.{EndsPort, IsFaultOf};
ghost use Rattle.race.specs.Races.{HasMade};
ghost use Rattle.race.specs.declared.workers.CallReached.TheVariants.{Answer};

use crate::faults::RaceFault;
use crate::gates::{Gate, Moment, passes};
use board::{Board, Driven, Flicks, Port};
use model::Stage;
use plain_store::Command;
use std::sync::Wait;
use std::thread;

/// The state that a call has reached.
#[derive(Clone, Copy)]
pub(crate) enum CallReached {
    /// Its port is inside.
    Section,
    /// It is answered.
    Answer,
}

/// After this number of word steps at the door the thread yields its processor to another one, which may be the one that
/// the port waits for.
const TURNS_AT_THE_DOOR: u32 = 256;

/// One of the threads of a race.
#[derive(Drop)]
pub(crate) struct Worker<'a, G> {
    pub board: &'a Board,
    pub gate: &'a G,
    /// The process of its port.
    pub number: u8,
}

impl<'a, G: Gate> Worker<'a, G> {
    /// Makes the calls of the plan, in order, and returns the port. A port that the gate holds is dropped once it is down.
    ///
    /// # Errors
    ///
    /// Returns [`RaceFault::Held`] if the gate holds the port, or [`RaceFault::Memory`] if an allocation fails.
    #[tactic(auto, using(crate::proofs::Threads::ended_by))]
    pub fn run<R: Wait>(&self, rt: &R, mut port: Port, plan: &[Command]) -> Result<Port, RaceFault>
        requires board { IsOf self.now.board.now port }
        requires new { port.view.own ≡ new_own self.now.number }
        ensures made { IfOk result (HasMade self.now.board.now self.now.number plan.now) }
        ensures fault { IfErr result (IsFaultOf self.now.number) }
    {
        let mut flicks = Flicks::pcg(u64::from(self.number));
        for command in plan {
            self.call(rt, &mut port, &mut flicks, *command)?;
        }
        Ok(port)
    }

    /// Makes one call. If the gate holds the port, the port fails and is driven down.
    fn call<R: Wait>(
        &self,
        rt: &R,
        port: &mut Port,
        flicks: &mut Flicks,
        command: Command,
    ) -> Result<(), RaceFault>
        requires board { IsOf self.now.board.now port.old }
        ensures same { SamePort port.old port.new }
        ensures called { OnOk result (PortHasCalled port.old command port.new) }
        ensures fault { IfErr result (EndsPort self.now.number port.new.setup port.new.view.own) }
    {
        if port.begin(self.board, command).is_err() {
            return Err(RaceFault::Memory);
        }
        self.pass(rt, port, flicks, Moment::Begun)?;
        match self.come_inside(rt, port, flicks) {
            CallReached::Section => {
                self.pass(rt, port, flicks, Moment::Inside)?;
                self.finish(rt, port, flicks);
            }
            CallReached::Answer => {}
        }
        Ok(())
    }

    /// Asks the gate. If the gate holds the port, the port fails and is driven down.
    fn pass<R: Wait>(
        &self,
        rt: &R,
        port: &mut Port,
        flicks: &mut Flicks,
        moment: Moment,
    ) -> Result<(), RaceFault>
        requires board { IsOf self.now.board.now port.old }
        ensures same { SamePort port.old port.new }
        ensures passed { OnOk result (port.new ≡ port.old) }
        ensures fault { IfErr result (EndsPort self.now.number port.new.setup port.new.view.own) }
    {
        if passes(self.gate, self.number, moment) {
            return Ok(());
        }
        let _ = port.fail();
        self.take_down(rt, port, flicks);
        Err(RaceFault::Held(self.number))
    }

    /// Drives a port that has failed until it is down.
    #[tactic(auto, using(crate::proofs::Calling::is_down, crate::proofs::Calling::is_of_then, board::proofs::Drives::same_on))]
    fn take_down<R: Wait>(&self, rt: &R, port: &mut Port, flicks: &mut Flicks)
        requires board { IsOf self.now.board.now port.old }
        ensures same { SamePort port.old port.new }
        ensures down { stage_in port.new.setup port.new.view.own ≡ Stage.Down }
    {
        for _ in rt.forever() {
            if let Driven::Down = port.drive(self.board, u64::MAX, flicks) {
                return;
            }
        }
        unreachable!()
    }

    /// Drives a port whose call has begun until it comes inside, or the call is answered.
    fn come_inside<R: Wait>(&self, rt: &R, port: &mut Port, flicks: &mut Flicks) -> CallReached
        requires board { IsOf self.now.board.now port.old }
        requires calling { IsCalling port.old.setup port.old.view.own }
        ensures same { SamePort port.old port.new }
        ensures comes { ComesTo port.old.setup (Some result) port.old.view port.new.view }
    {
        for _ in rt.forever() {
            if let Some(reached) = self.come_nearer(port, flicks) {
                return reached;
            }
            thread::yield_now();
        }
        unreachable!()
    }

    /// Drives the port by a few word steps at most. Returns `None` if they do not suffice. The stage is read after each of
    /// them, so that the port makes no access of the section before the gate is asked.
    fn come_nearer(&self, port: &mut Port, flicks: &mut Flicks) -> Option<CallReached>
        requires board { IsOf self.now.board.now port.old }
        requires calling { IsCalling port.old.setup port.old.view.own }
        ensures same { SamePort port.old port.new }
        ensures comes { ComesTo port.old.setup result port.old.view port.new.view }
    {
        for _ in 0..TURNS_AT_THE_DOOR {
            match port.drive(self.board, 1, flicks) {
                Driven::Turns => {}
                _ => return Some(CallReached::Answer),
            }
            if port.stage() == Stage::Inside {
                return Some(CallReached::Section);
            }
        }
        None
    }

    /// Drives a port from inside until its call is answered.
    fn finish<R: Wait>(&self, rt: &R, port: &mut Port, flicks: &mut Flicks)
        requires board { IsOf self.now.board.now port.old }
        requires calling { IsCalling port.old.setup port.old.view.own }
        ensures same { SamePort port.old port.new }
        ensures answered { ComesTo port.old.setup (Some Answer) port.old.view port.new.view }
    {
        for _ in rt.forever() {
            match port.drive(self.board, u64::MAX, flicks) {
                Driven::Turns => {}
                _ => return,
            }
        }
        unreachable!()
    }
}
