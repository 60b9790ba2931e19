//! Ports, each of which runs one process.
ghost use Rattle.std.specs.Prelude.{◌≡◌, ◌↔◌, IsTrue, ℕ, OnErr, OnOk, true, []};
ghost use Rattle.plain_store.specs.{are_pairs};
ghost use Rattle.process.specs.{process_after};
ghost use Rattle.model.specs.declared.Event.TheVariants.{Fail, Restart, Withdraw};
ghost use Rattle.board.specs.Boards.{IsOf};
ghost use Rattle.board.specs.Closings.{IsSeatOf, IsStill, AreInRecord};
ghost use Rattle.board.specs.Lists.{AreFirstChanges};
ghost use Rattle.board.specs.Ports.{IsBegun, SamePort, CallsAreInSeen, answer_to, call_of, port_after};
ghost use Rattle.board.specs.Seats.{port_at};
ghost use Rattle.board.specs.Views.{new_view, stage_in};
ghost use Rattle.board.specs.WordSteps.{LeadsTo, WordStep, goes};

use crate::board::Board;
use crate::calls::CallList;
use crate::pending::Pending;
use crate::steps::{WordSeat, word_step};
use model::{Event, Placed, Refusal, Stage};
use plain_store::Command;
use process::{Process, StepOutcome};
use std::alloc::Global;
use std::marker::Model;

/// What runs one process of a board: its seat at the words, the process, what joins its next word step, and the list of
/// its calls.
#[derive(Drop)]
pub struct Port {
    seat: WordSeat,
    process: Process,
    pending: Pending,
    /// The value that it writes to a bit.
    value: bool,
    calls: CallList,
    /// The stamp that was read before a failure cut the change: the position of the command, if the memory unit takes
    /// it.
    stamp: Option<u32>,
}

impl Model for Port {
    ghost use Rattle.board.specs.Ports.{KeepsPort, PortState, with_pending};

    ghost Value = { PortState };

    ghost view = { λ p. record { table_id = p.seat.table_id; id = p.seat.id; setup = p.process.setup; view = with_pending p.process.setup p.pending p.seat.me.0 } };

    ghost invariant = { λ p. KeepsPort p.process.setup p.pending p.process p.value p.calls p.stamp p.seat.me.0 p.seat.me.1 };
}

impl Port {
    /// Creates a port of a process that has done nothing, at a seat that knows nothing yet. Allocates nothing.
    pub(crate) fn new(alloc: Global, seat: WordSeat, process: Process) -> Port
        requires process { process ≡ process_after process.setup [] process.process }
        requires seat { (made : ℕ) × (seat.me ≡ (new_view process.process made, [])) }
        requires pairs { are_pairs process.setup.opening ≡ true }
        ensures { result ≡ port_at seat process.setup }
    {
        Port {
            seat,
            process,
            pending: Pending::new(),
            value: false,
            calls: CallList::new(alloc),
            stamp: None,
        }
    }

    /// Returns whether its process is idle or down.
    pub(crate) fn is_still(&self) -> bool
        ensures { IsTrue result ↔ IsStill self.now.setup self.now.view.own }
    {
        self.stage().is_at_rest()
    }

    /// Returns its seat and its finished calls, once its process is idle or down.
    pub(crate) fn into_parts(self) -> (WordSeat, Vec<Placed>)
        requires still { IsStill self.setup self.view.own }
        ensures table { result.0.table_id ≡ self.table_id }
        ensures holds { result.0.me.1 ≡ [] }
        ensures seat { IsSeatOf self result.0.me.0 }
        ensures calls { result.1.items ≡ self.view.own.calls.done }
        ensures fits { AreInRecord self.setup self.view.own.process result.1.items }
    {
        let Port { seat, calls, .. } = self;
        (seat, calls.into_done())
    }

    /// Returns the number of its process.
    pub fn process(&self) -> u8
        ensures { result ≡ self.now.view.own.process }
    {
        self.process.process()
    }

    /// Returns the stage of its process.
    pub fn stage(&self) -> Stage
        ensures { result ≡ stage_in self.now.setup self.now.view.own }
    {
        self.process.stage()
    }

    /// Returns its finished calls, in order. They are consistent with the changes that it has seen, which are the first
    /// changes of some record.
    pub fn answers(&self) -> &[Placed]
        ensures list { result.now ≡ self.now.view.own.calls.done }
        ensures fits { CallsAreInSeen self.now result.now }
        ensures seen { AreFirstChanges self.now.setup self.now.view.seen }
    {
        self.calls.done()
    }

    /// Makes one word step.
    #[inline]
    pub(crate) fn turn(&mut self, board: &Board, flick: bool) -> StepOutcome
        requires board { IsOf board.now self.old }
        requires enabled { goes self.old.setup self.old.view.own ≡ true }
        ensures same { SamePort self.old self.new }
        ensures step { WordStep self.old.setup flick self.old.view self.new.view }
        ensures leads { LeadsTo self.old.setup result self.old.view.own self.new.view.own }
    {
        let reported = word_step(
            &board.table.shared,
            &board.setup,
            &board.layout,
            &mut self.seat,
            &mut self.process,
            self.pending,
            &mut self.value,
            flick,
        );
        self.pending.clear();
        self.calls.report(&reported, self.stamp);
        reported
    }

    /// Returns the refusal of an event of its process, as a world would refuse it.
    fn answer(&self, event: &Event) -> Result<(), Refusal>
        ensures { result ≡ answer_to self.now event.now }
    {
        match self.process.refusal(event) {
            Some(refusal) => Err(refusal),
            None => Ok(()),
        }
    }

    /// Begins a call of its process and reserves room for its entry in the list of calls.
    ///
    /// # Errors
    ///
    /// Returns the [`Refusal`] that a world would return; [`Refusal::Memory`], for a failed allocation, comes last. The
    /// port is then unchanged.
    pub fn begin(&mut self, board: &Board, command: Command) -> Result<(), Refusal>
        requires { IsOf board.now self.old }
        ensures same { SamePort self.old self.new }
        ensures answer { IsBegun self.old (call_of self.old command) result }
        ensures port { OnOk result (self.new ≡ port_after self.old (call_of self.old command)) }
        ensures unchanged { OnErr result (self.new ≡ self.old) }
    {
        if let Err(refusal) = self.answer(&Event::Call(self.process(), command)) {
            return Err(refusal);
        }
        if self.calls.begin(command).is_err() {
            return Err(Refusal::Memory);
        }
        command.operands_are_sound();
        let number = self.process.next_number();
        self.process.call(command, number);
        self.pending.called = Some(command);
        Ok(())
    }

    /// Halts the process; its memory unit takes over.
    ///
    /// # Errors
    ///
    /// Returns the [`Refusal`] that a world would return. The port is then unchanged.
    pub fn fail(&mut self) -> Result<(), Refusal>
        ensures same { SamePort self.old self.new }
        ensures answer { result ≡ answer_to self.old (Fail self.old.view.own.process) }
        ensures port { self.new ≡ port_after self.old (Fail self.old.view.own.process) }
    {
        if let Err(refusal) = self.answer(&Event::Fail(self.process())) {
            return Err(refusal);
        }
        self.stamp = self.process.changes_pending();
        self.process.cut();
        self.pending.failed = true;
        Ok(())
    }

    /// Withdraws the process, which stops waiting.
    ///
    /// # Errors
    ///
    /// Returns the [`Refusal`] that a world would return. The port is then unchanged.
    pub fn withdraw(&mut self) -> Result<(), Refusal>
        ensures same { SamePort self.old self.new }
        ensures answer { result ≡ answer_to self.old (Withdraw self.old.view.own.process) }
        ensures port { self.new ≡ port_after self.old (Withdraw self.old.view.own.process) }
    {
        if let Err(refusal) = self.answer(&Event::Withdraw(self.process())) {
            return Err(refusal);
        }
        self.process.give_up();
        self.pending.withdrew = true;
        Ok(())
    }

    /// Restarts the process, which was down, so that it may call again.
    ///
    /// # Errors
    ///
    /// Returns the [`Refusal`] that a world would return. The port is then unchanged.
    pub fn restart(&mut self) -> Result<(), Refusal>
        ensures same { SamePort self.old self.new }
        ensures answer { result ≡ answer_to self.old (Restart self.old.view.own.process) }
        ensures port { self.new ≡ port_after self.old (Restart self.old.view.own.process) }
    {
        if let Err(refusal) = self.answer(&Event::Restart(self.process())) {
            return Err(refusal);
        }
        self.process.restart();
        self.pending.restarted = true;
        Ok(())
    }
}
