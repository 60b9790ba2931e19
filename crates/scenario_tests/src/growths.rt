//! Refused allocations: a refused call changes nothing, and succeeds at the next try. The test passes with ample memory,
//! and also if any one allocation is refused.
use crate::worlds::{a, make};
use auditor::World;
use model::{Event, Refusal, Stage};
use plain_store::{Command, Setup, Store, Value};
use std::alloc::{AllocError, Global};
use std::process::Abort;
use std::test::Fail;

fn write(count: i64) -> Command {
    Command::Write(a(), Value::Count(count))
}

/// Makes a process call to write a count and finish its doorway. If an allocation of the call is refused, the process is
/// still idle, and the next try is accepted.
fn call(rt: &impl Abort, world: &mut World, process: u8, count: i64) {
    if let Err(refusal) = make(world, Event::Call(process, write(count))) {
        assert!(rt; matches!(refusal, Refusal::Memory));
        assert!(rt; is_in(world, process, Stage::Idle));
        assert!(rt; make(world, Event::Call(process, write(count))).is_ok());
    }
    assert!(rt; is_in(world, process, Stage::Doorway));
    go(rt, world, process, Stage::Waiting);
}

/// Returns whether a process is in this stage.
fn is_in(world: &World, process: u8, stage: Stage) -> bool {
    world.stage(process) == Some(stage)
}

/// Returns the number of processes that are ahead of a process.
fn ahead(world: &World, process: u8) -> usize {
    world.ahead(process).len()
}

/// Returns whether one process is ahead of process 1, and none is ahead of the others.
fn one_is_ahead(world: &World) -> bool {
    ahead(world, 0) == 0 && ahead(world, 1) == 1 && ahead(world, 2) == 0
}

/// Returns the count of the first name in the newest store, or `None` while a process is inside.
fn newest_count(world: &World) -> Option<i64> {
    match world.newest()?.entry(0)? {
        (_, Value::Count(count)) => Some(count),
        _ => None,
    }
}

/// Makes steps of a process until it is in this stage. No step allocates.
fn go(rt: &impl Abort, world: &mut World, process: u8, stage: Stage) {
    for _ in 0..65_536 {
        if is_in(world, process, stage) {
            return;
        }
        assert!(rt; make(world, Event::Step(process, false)).is_ok());
    }
    panic!(rt; "process {process} does not get there");
}

/// Creates the world of three processes, at the second try if the first one fails.
fn world_of_three(alloc: Global) -> Result<World, AllocError> {
    let setup = Setup::one(3, 4, 4, 1);
    match World::new(alloc, &setup) {
        Ok(world) => Ok(world),
        Err(AllocError) => World::new(alloc, &setup),
    }
}

/// The process that calls next, the process that then finishes its earlier call, and the count that the new call writes.
const TURNS: [(u8, u8, i64); 6] = [
    (2, 0, 2),
    (0, 1, 3),
    (1, 2, 4),
    (2, 0, 5),
    (0, 1, 6),
    (1, 2, 7),
];

/// Makes the three processes call in turns, each while the two others wait, one after the other.
fn call_in_turns(rt: &impl Abort, world: &mut World) {
    call(rt, world, 0, 0);
    call(rt, world, 1, 1);
    assert!(rt; one_is_ahead(world));
    for (caller, first, count) in &TURNS {
        call(rt, world, *caller, *count);
        go(rt, world, *first, Stage::Idle);
    }
    assert!(rt; one_is_ahead(world) && world.history().len() == 6);
    assert!(rt; newest_count(world) == Some(5));
}

// A world that could not be created is created at the next try. Its three processes call in turns, so that such calls
// meet the allocations of the history.
#[test]
fn calls_succeed_after_refused_growths(rt: HostRuntime) -> Result<(), Fail> {
    let mut world = world_of_three(rt.alloc())?;
    call_in_turns(&rt, &mut world);
    Ok(())
}
