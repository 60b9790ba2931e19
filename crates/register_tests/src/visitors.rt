//! A caller that drives a process through whole calls, from the start of the doorway to the end of the clearing, and through
//! withdrawals and failures. Its one condition is that the process and the registers were made with one setup.
ghost use Rattle.std.specs.Prelude.{◌≡◌, ◌<◌, IfOk, Ok, true};
ghost use Rattle.plain_store.specs.{checked};
ghost use Rattle.bakery.specs.Doors.{is_going};
ghost use Rattle.register_tests.specs.Visitors.{DoorLeads};

use super::doors::read_lock;
use super::sections::{a, goes_on};
use super::units::is_down;
use bakery::{DataRow, Door, DoorProgress, Leaving, Locks, Section, Unit};
use model::Stage;
use plain_store::{Command, NestedTypes, Setup, Store, Value};
use reader_copies::Progress;
use std::alloc::{AllocError, Global};
use std::marker::Model;

/// A process with the calls that carry it out.
#[derive(Drop)]
pub struct Visitor {
    setup: Setup,
    process: u8,
    command: Command,
    door: Door,
    section: Section,
    leaving: Leaving,
    unit: Unit,
    stage: Stage,
}

impl Model for Visitor {
    ghost use Rattle.plain_store.specs.{Setup as Seen};
    ghost use Rattle.register_tests.specs.Visitors.{IsVisitor};

    ghost Value = { Seen };

    ghost view = { λ v. v.setup };

    ghost invariant = { λ v. IsVisitor v.setup v.process v.stage v.door v.section v.leaving v.unit };
}

impl Visitor {
    /// Creates a process of a setup that has made no call.
    fn new(alloc: Global, process: u8, setup: &Setup) -> Result<Visitor, AllocError>
        requires setup { checked setup.now ≡ Ok tt }
        requires process { process < setup.now.processes }
        ensures { IfOk result (λ visitor. visitor ≡ setup.now) }
    {
        Ok(Visitor {
            setup: *setup,
            process,
            command: Command::Ask,
            door: Door::new(alloc, process, setup)?,
            section: Section::new(alloc, process, setup)?,
            leaving: Leaving::new(process, setup),
            unit: Unit::start(process, setup, None),
            stage: Stage::Idle,
        })
    }

    /// Begins a call, if the process has none.
    fn begin(&mut self, command: Command)
        ensures { self.new ≡ self.old }
    {
        if let Stage::Idle = self.stage {
            self.command = command;
            self.door.start();
            self.stage = Stage::Doorway;
        }
    }

    /// Makes the next access of the process or of its memory unit, if it has one.
    fn step(&mut self, locks: &mut Locks, row: &mut DataRow, flick: bool)
        requires locks { self.old ≡ locks.old.setup }
        requires row { self.old ≡ row.old.setup }
        ensures visitor { self.new ≡ self.old }
        ensures locks { locks.new.setup ≡ locks.old.setup }
        ensures row { row.new.setup ≡ row.old.setup }
    {
        let _nested: NestedTypes = None;
        match self.stage {
            Stage::Idle | Stage::Down => {}
            Stage::Doorway | Stage::Waiting => {
                self.stage = door_step(&mut self.door, locks, flick);
                if let Stage::Inside = self.stage {
                    self.section.start(self.command, 0);
                }
            }
            Stage::Inside => {
                let (_, progress) = self.section.step(row, flick);
                if !goes_on(&progress) {
                    self.leaving = Leaving::new(self.process, &self.setup);
                    self.stage = Stage::Leaving;
                }
            }
            Stage::Leaving => {
                let (_, progress) = self.leaving.step(locks.own(self.process));
                if let Progress::Done = progress {
                    self.stage = Stage::Idle;
                }
            }
            Stage::Settling => {
                let (lock, versions) = (locks.own(self.process), row.own(self.process));
                let (_, progress) = self.unit.step(lock, versions, flick);
                if is_down(progress) {
                    self.stage = Stage::Down;
                }
            }
        }
    }

    /// Gives up waiting, if the process waits.
    fn withdraw(&mut self, locks: &mut Locks)
        requires { self.old ≡ locks.old.setup }
        ensures visitor { self.new ≡ self.old }
        ensures locks { locks.new.setup ≡ locks.old.setup }
    {
        if let Stage::Waiting = self.stage {
            self.door.withdraw(locks);
            self.leaving = Leaving::new(self.process, &self.setup);
            self.stage = Stage::Leaving;
        }
    }

    /// Makes the process fail, unless it has failed.
    fn fail(&mut self, locks: &mut Locks, row: &mut DataRow)
        requires locks { self.old ≡ locks.old.setup }
        requires row { self.old ≡ row.old.setup }
        ensures visitor { self.new ≡ self.old }
        ensures locks { locks.new.setup ≡ locks.old.setup }
        ensures row { row.new.setup ≡ row.old.setup }
    {
        let torn = match self.stage {
            Stage::Settling | Stage::Down => return,
            Stage::Idle => None,
            Stage::Doorway | Stage::Waiting => self.door.fail(locks),
            Stage::Inside => self.section.fail(row),
            Stage::Leaving => self.leaving.fail(),
        };
        self.unit = Unit::start(self.process, &self.setup, torn);
        self.stage = Stage::Settling;
    }

    /// Restarts the process, if it is down.
    fn restart(&mut self)
        ensures { self.new ≡ self.old }
    {
        if let Stage::Down = self.stage {
            self.stage = Stage::Idle;
        }
    }
}

/// Makes the next access of a door, and returns the stage of its process after it.
fn door_step(door: &mut Door, locks: &mut Locks, flick: bool) -> Stage
    requires going { is_going door.old ≡ true }
    requires setup { door.old.setup ≡ locks.old.setup }
    ensures door { door.new.setup ≡ door.old.setup }
    ensures locks { locks.new.setup ≡ locks.old.setup }
    ensures stage { DoorLeads result door.new }
{
    match door.step(locks, flick).1 {
        DoorProgress::Doorway => Stage::Doorway,
        DoorProgress::Waiting(_) => Stage::Waiting,
        DoorProgress::Inside(_) => Stage::Inside,
        DoorProgress::Full { .. } => Stage::Idle,
    }
}

/// An action of a caller on a process.
#[derive(Clone, Copy)]
enum CallerAction {
    /// Begins a write of this counter.
    Begins(i64),
    /// Makes this number of accesses.
    Steps(u32),
    /// Gives up waiting.
    Withdraws,
    /// Fails.
    Fails,
    /// Restarts.
    Restarts,
}

/// Makes at most `most` accesses of a process or of its memory unit.
fn steps(visitor: &mut Visitor, locks: &mut Locks, row: &mut DataRow, most: u32, flick: bool)
    requires locks { visitor.old ≡ locks.old.setup }
    requires row { visitor.old ≡ row.old.setup }
    ensures visitor { visitor.new ≡ visitor.old }
    ensures locks { locks.new.setup ≡ locks.old.setup }
    ensures row { row.new.setup ≡ row.old.setup }
{
    for _made in 0..most {
        visitor.step(locks, row, flick);
    }
}

/// Makes an action on a process. A process that can't take it, as one that doesn't wait and should withdraw, stays as it is.
fn take(
    visitor: &mut Visitor,
    locks: &mut Locks,
    row: &mut DataRow,
    action: CallerAction,
    flick: bool,
)
    requires locks { visitor.old ≡ locks.old.setup }
    requires row { visitor.old ≡ row.old.setup }
    ensures visitor { visitor.new ≡ visitor.old }
    ensures locks { locks.new.setup ≡ locks.old.setup }
    ensures row { row.new.setup ≡ row.old.setup }
{
    let _nested: NestedTypes = None;
    match action {
        CallerAction::Begins(count) => visitor.begin(Command::Write(a(), Value::Count(count))),
        CallerAction::Steps(most) => steps(visitor, locks, row, most, flick),
        CallerAction::Withdraws => visitor.withdraw(locks),
        CallerAction::Fails => visitor.fail(locks, row),
        CallerAction::Restarts => visitor.restart(),
    }
}

/// Makes actions on two processes on one set of registers, in this order. Every list of actions may be given.
fn take_all(
    first: &mut Visitor,
    second: &mut Visitor,
    locks: &mut Locks,
    row: &mut DataRow,
    actions: &[(bool, CallerAction)],
    flick: bool,
)
    requires first { first.old ≡ locks.old.setup }
    requires second { second.old ≡ locks.old.setup }
    requires row { row.old.setup ≡ locks.old.setup }
    ensures first { first.new ≡ first.old }
    ensures second { second.new ≡ second.old }
    ensures locks { locks.new.setup ≡ locks.old.setup }
    ensures row { row.new.setup ≡ row.old.setup }
{
    for &(is_first, action) in actions {
        if is_first {
            take(first, locks, row, action, flick);
        } else {
            take(second, locks, row, action, flick);
        }
    }
}

/// The outcome of two visits: the stage of each, its lock, and the value of the newest store.
type TwoVisits = ([Stage; 2], [(bool, u32); 2], Option<Value>);

/// Makes actions on two new processes on new registers, and returns their outcome.
fn outcome(
    alloc: Global,
    actions: &[(bool, CallerAction)],
    flick: bool,
) -> Result<TwoVisits, AllocError> {
    let setup = Setup::one(2, 2, 2, 1);
    let mut locks = Locks::new(alloc, &setup)?;
    let mut row = DataRow::new(alloc, &setup)?;
    let mut first = Visitor::new(alloc, 0, &setup)?;
    let mut second = Visitor::new(alloc, 1, &setup)?;
    take_all(
        &mut first,
        &mut second,
        &mut locks,
        &mut row,
        actions,
        flick,
    );
    let held = [read_lock(&mut locks, 0), read_lock(&mut locks, 1)];
    let newest = row.newest();
    let value = match newest.entry(0) {
        Some((_, value)) => Some(value),
        None => None,
    };
    Ok(([first.stage, second.stage], held, value))
}

/// Returns whether both processes are idle, both locks are as they were initially, and the newest store has this counter.
fn ends_with(made: &TwoVisits, count: i64) -> bool {
    made.0 == [Stage::Idle, Stage::Idle]
        && made.1 == [(false, 0), (false, 0)]
        && made.2 == Some(Value::Count(count))
}

// Process 0 makes a whole call. In its next call it is inside while process 1 waits and withdraws. It fails there, is settled and
// restarts, and process 1 calls again and writes the counter 7.
#[test]
fn whole_calls_with_a_withdrawal_and_a_failure(rt: HostRuntime) -> Result<(), AllocError> {
    let actions = [
        (true, CallerAction::Begins(5)),
        (true, CallerAction::Withdraws),
        (true, CallerAction::Steps(3000)),
        (true, CallerAction::Begins(6)),
        (true, CallerAction::Steps(100)),
        (false, CallerAction::Begins(7)),
        (false, CallerAction::Steps(100)),
        (false, CallerAction::Withdraws),
        (false, CallerAction::Steps(8)),
        (true, CallerAction::Fails),
        (true, CallerAction::Steps(100)),
        (true, CallerAction::Restarts),
        (false, CallerAction::Begins(7)),
        (false, CallerAction::Steps(3000)),
    ];
    for flick in [false, true] {
        let made = outcome(rt.alloc(), &actions, flick)?;
        assert!(rt; ends_with(&made, 7));
    }
    Ok(())
}

// Process 0 fails after every fortieth access of its call, and process 1 then writes the counter 7.
#[test]
fn a_call_fails_after_every_fortieth_access(rt: HostRuntime) -> Result<(), AllocError> {
    for most in 0..40 {
        let actions = [
            (true, CallerAction::Begins(5)),
            (true, CallerAction::Steps(40 * most)),
            (true, CallerAction::Fails),
            (true, CallerAction::Steps(100)),
            (true, CallerAction::Restarts),
            (false, CallerAction::Begins(7)),
            (false, CallerAction::Steps(3000)),
        ];
        let made = outcome(rt.alloc(), &actions, true)?;
        assert!(rt; ends_with(&made, 7), "after {most} times 40 steps");
    }
    Ok(())
}
