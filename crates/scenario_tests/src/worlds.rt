//! Worlds that are driven by single events. Each belongs to a function with one exit, which passes it by reference.
use crate::uses::two_events;
use auditor::World;
use model::{Act, Event, Mark, Refusal, Stage};
use plain_store::{Command, Name, Setup};
use std::alloc::Global;
use std::process::Abort;
use std::test::Fail;

/// The one name here.
pub fn a() -> Name {
    Name::new(b"a").unwrap()
}

/// Makes an event.
pub fn make(world: &mut World, event: Event) -> Result<(), Refusal> {
    world.event(event)?;
    Ok(())
}

/// Makes a process call to read and make 20 steps, and returns whether it then waits.
fn comes_to_wait(world: &mut World, process: u8) -> Result<bool, Refusal> {
    make(world, Event::Call(process, Command::Read(a())))?;
    for _ in 0..20 {
        make(world, Event::Step(process, false))?;
    }
    Ok(world.stage(process) == Some(Stage::Waiting))
}

/// Returns whether no process is ahead of a process.
fn is_first(world: &World, process: u8) -> bool {
    world.ahead(process).is_empty()
}

/// Returns whether process 0 alone is ahead of process 1.
fn is_behind_one(world: &World) -> bool {
    matches!(world.ahead(1).as_slice(), [0])
}

/// Makes two processes wait, of which the first withdraws.
fn one_gives_up(rt: &impl Abort, world: &mut World) -> Result<(), Fail> {
    for process in 0..2 {
        assert!(rt; comes_to_wait(world, process)?);
    }
    assert!(rt; is_first(world, 0) && is_behind_one(world));
    make(world, Event::Withdraw(0))?;
    assert!(rt; is_first(world, 1));
    Ok(())
}

// A process that finished its doorway before a call began is ahead of it, until that process withdraws.
#[test]
fn reports_who_is_ahead(rt: HostRuntime) -> Result<(), Fail> {
    let mut world = World::new(rt.alloc(), &Setup::one(2, 2, 2, 1))?;
    one_gives_up(&rt, &mut world)
}

/// Returns whether an act is that of a call.
fn asks(act: &Act) -> bool {
    matches!(act.marks.as_slice(), [Mark::Called(Command::Ask)]) && act.access.is_none()
}

/// Returns whether an act is that of a step without a mark.
fn steps(act: &Act) -> bool {
    act.marks.is_empty() && act.access.is_some()
}

/// Returns whether a call and a step have the acts that each would have alone.
fn calls_and_steps(world: &mut World) -> Result<bool, Refusal> {
    let call = Event::Call(1, Command::Ask);
    let (called, stepped) = two_events(world, call, Event::Step(1, false))?;
    Ok(asks(&called) && steps(&stepped))
}

/// Returns the refusal of two steps, of which the second is of a process that does not run.
fn refusal_of_steps(world: &mut World) -> Option<Refusal> {
    two_events(world, Event::Step(1, false), Event::Step(0, false)).err()
}

/// Makes a call and a step, and then those steps.
fn makes_them(rt: &impl Abort, world: &mut World) -> Result<(), Fail> {
    assert!(rt; calls_and_steps(world)?);
    assert!(rt; matches!(refusal_of_steps(world), Some(Refusal::NotRunning)));
    Ok(())
}

// Two events have the acts that each would have alone, and the first refusal is returned.
#[test]
fn makes_two_events(rt: HostRuntime) -> Result<(), Fail> {
    let mut world = World::new(rt.alloc(), &Setup::one(2, 4, 4, 1))?;
    makes_them(&rt, &mut world)
}

/// Makes a call that fails before its first access, and the events up to the restart of its process.
fn call_that_fails(world: &mut World) -> Result<(), Refusal> {
    make(world, Event::Call(0, Command::Read(a())))?;
    make(world, Event::Fail(0))?;
    for _ in 0..4 {
        make(world, Event::Step(0, false))?;
    }
    make(world, Event::Restart(0))
}

/// Returns the refusal of a call after 65,535 such calls, if it is refused.
fn refused_after(world: &mut World) -> Result<Option<Refusal>, Fail> {
    for _ in 0..65_535 {
        call_that_fails(world)?;
    }
    Ok(make(world, Event::Call(0, Command::Read(a()))).err())
}

/// Returns the refusal of that call in a world of one process.
fn refused_after_calls(alloc: Global, version: u8) -> Result<Option<Refusal>, Fail> {
    let mut setup = Setup::one(1, 1, 4, 1);
    setup.version = version;
    setup.check()?;
    let mut world = World::new(alloc, &setup)?;
    refused_after(&mut world)
}

// In version 2 a process makes 65,535 calls; in version 1 there is no such bound.
#[test]
fn calls_full(rt: HostRuntime) -> Result<(), Fail> {
    let refusal = refused_after_calls(rt.alloc(), 2)?;
    assert!(rt; matches!(refusal, Some(Refusal::CallsFull)));
    assert!(rt; refused_after_calls(rt.alloc(), 1)?.is_none());
    Ok(())
}
