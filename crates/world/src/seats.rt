//! The seat of each process in a world: how an event of its process changes it, and how another process does.
ghost use Rattle.std.specs.Prelude.{◌≡◌, ◌<◌, IfSome, None, map, true};
ghost use Rattle.std.specs.List.{list_any};
ghost use Rattle.laws.specs.{is_inside};
ghost use Rattle.process.specs.registers.{AreOf, applied, ends_overlapped};
ghost use Rattle.process.specs.{answered_at, changes_of_event, changes_read, changes_reported, marks_of, marks_on, marks_reported, may_step, refusal_of, stepped};
ghost use Rattle.model.specs.{is_call, value_of};
ghost use Rattle.world.specs.Changes.{reported, waiting_in, waits_in};
ghost use Rattle.world.specs.Going.{access_made, marks_made, registers_made, seat_made};
ghost use Rattle.world.specs.Seats.{seat_stepped};

use model::{Access, Event};
use process::{AccessMade, BitMemory, EventOutcome, Process, StepOutcome};

/// The state of one process in a world.
#[derive(Drop)]
pub(crate) struct Seat {
    pub process: Process,
    /// Whether the doorway of its last call has begun.
    pub begun: bool,
    /// Which of 16 processes wait in a doorway before it.
    pub before: [bool; 16],
}

impl Seat {
    /// Makes an event of this seat's process on the registers, and writes its effect to `effect`. If the event is a call,
    /// `before` contains the processes that wait then. Returns the access of a step, or `None` for other events.
    pub fn make(
        &mut self,
        registers: &mut BitMemory,
        before: [bool; 16],
        event: &Event,
        effect: &mut EventOutcome,
    ) -> Option<Access>
        requires allowed { refusal_of self.old.process event.now ≡ None }
        requires registers { AreOf self.old.process.setup registers.old }
        ensures seat { self.new ≡ seat_made registers.old before self.old event.now }
        ensures registers { registers.new ≡ registers_made registers.old self.old event.now }
        ensures access { result ≡ access_made registers.old self.old event.now }
        ensures marks { marks_of effect.new ≡ marks_made registers.old self.old event.now }
        ensures changes { IfSome (changes_of_event effect.new)
            (λ changes. changes ≡ changes_read self.old.process.doing) }
    {
        match event {
            Event::Call(_, command) => {
                let number = self.process.next_number();
                self.process.call(*command, number);
                self.begun = false;
                self.before = before;
                *effect = EventOutcome::Calls(*command);
                None
            }
            Event::Step(_, flick) => {
                let mut reported = StepOutcome::Nothing;
                let made = self.step(registers, *flick, &mut reported);
                *effect = EventOutcome::Steps(reported);
                Some(made.access)
            }
            Event::Fail(_) => {
                self.process.fail(registers);
                *effect = EventOutcome::Fails;
                None
            }
            Event::Withdraw(_) => {
                self.process.withdraw(registers);
                *effect = EventOutcome::Withdraws;
                None
            }
            Event::Restart(_) => {
                self.process.restart();
                *effect = EventOutcome::Restarts;
                None
            }
        }
    }

    /// Makes the next access of this seat's process, or of its memory unit, on the registers, and writes its outcome to
    /// `reported`. Returns the access, and whether it ended a read that a write overlapped. The doorway begins with the first
    /// step.
    #[inline]
    pub fn step(
        &mut self,
        registers: &mut BitMemory,
        flick: bool,
        reported: &mut StepOutcome,
    ) -> AccessMade
        requires enabled { may_step self.old.process.doing ≡ true }
        requires registers { AreOf self.old.process.setup registers.old }
        ensures access { result.access ≡ answered_at self.old.process registers.old flick }
        ensures overlapped { result.overlapped ≡
            ends_overlapped self.old.process.setup.processes registers.old result.access }
        ensures seat { self.new
            ≡ seat_stepped (stepped self.old.process flick (value_of result.access.how)) self.old }
        ensures marks { marks_reported reported.new
            ≡ marks_on self.old.process flick (value_of result.access.how) }
        ensures changes { IfSome (changes_reported reported.new)
            (λ changes. changes ≡ changes_read self.old.process.doing) }
        ensures registers { registers.new ≡
            applied self.old.process.setup.processes registers.old result.access }
    {
        self.begun = self.begun || self.process.is_at_door();
        self.process.step(registers, flick, reported)
    }

    /// Returns whether both processes are at rest, and the seats are equal. The processes have the same setup.
    pub fn is_same(&self, other: &Seat) -> bool
        requires setup { self.now.process.setup ≡ other.now.process.setup }
        ensures { result ≡ true → self.now ≡ other.now }
    {
        if self.begun != other.begun || self.before != other.before {
            return false;
        }
        self.process.is_same(&other.process)
    }
}

/// Returns whether the process exists and waits.
fn waits_at(seats: &[Seat], process: usize) -> bool
    ensures { result ≡ waits_in seats.now process }
{
    match seats.get(process) {
        Some(seat) => seat.process.is_waiting(),
        None => false,
    }
}

/// Returns whether a process is inside.
pub(crate) fn is_occupied(seats: &[Seat]) -> bool
    ensures { result ≡ list_any (λ seat. is_inside seat.process.doing) seats.now }
{
    seats.iter().any(|seat| seat.process.is_inside())
}

/// Returns which of 16 processes wait before a call; for another event the result is unspecified.
pub(crate) fn waiting(seats: &[Seat], event: &Event) -> [bool; 16]
    ensures { is_call event.now ≡ true → result ≡ waiting_in seats.now }
{
    let mut waiting = [false; 16];
    if !matches!(event, Event::Call(..)) {
        return waiting;
    }
    for process in 0..16 {
        waiting[process] = waits_at(seats, process);
    }
    waiting
}

/// Updates every seat after a process starts or stops waiting.
pub(crate) fn note_waiting(seats: &mut [Seat], process: u8, waited: bool, waits: bool)
    requires { process < 16 }
    ensures { seats.new ≡ map (reported process waited waits) seats.old }
{
    if waited != waits {
        for seat in seats.iter_mut() {
            seat.before[usize::from(process)] = waits && !seat.begun;
        }
    }
}
