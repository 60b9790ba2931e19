//! Worked runs as lists of events, each of which is made on a world by itself. Values that live across calls that may
//! fail belong to a function with one exit, which passes them by reference.
ghost use Rattle.std.specs.Prelude.{◌≡◌, Ok};
ghost use Rattle.plain_store.specs.{checked};

use crate::scenarios::SCENARIOS;
use crate::uses::printed_replies;
use auditor::World;
use bstr::ByteSlice;
use engines::events_of;
use model::{Act, Event};
use plain_store::Setup;
use scenario::{FromRead, IntoWrite, Scenario, read_scenario};
use std::alloc::{AllocError, Global};
use std::test::Fail;

/// The number of bytes for which a text has room from the start, so that a failed allocation is reported as one.
const ROOM: usize = 4_096;

/// Returns the text that a replay of a file prints.
fn printed(alloc: Global, file: &str) -> Result<Vec<u8>, Fail> {
    let mut text = Vec::with_capacity(alloc, ROOM)?;
    printed_replies(
        alloc,
        &mut FromRead::new(file.as_bytes()),
        &mut IntoWrite::new(&mut text),
    )?;
    Ok(text)
}

/// Appends a line.
fn push_line(lines: &mut Vec<u8>, line: &[u8]) -> Result<(), AllocError> {
    lines.extend_from_slice(line)?;
    lines.push(b'\n')?;
    Ok(())
}

/// Returns the lines of a print that begin with the number of an event.
fn mark_lines(alloc: Global, printed: &[u8]) -> Result<Vec<u8>, Fail> {
    let mut marks = Vec::new(alloc);
    for line in printed.lines() {
        if line.first().is_some_and(|byte| byte.is_ascii_digit()) {
            push_line(&mut marks, line)?;
        }
    }
    Ok(marks)
}

/// Returns the marks that a replay of a file prints.
fn marks_of_replay(alloc: Global, file: &str) -> Result<Vec<u8>, Fail> {
    let printed = printed(alloc, file)?;
    mark_lines(alloc, &printed)
}

/// Appends the marks of an act, as a replay prints them.
fn push_marks(marks: &mut String, number: usize, process: u8, act: &Act) -> Result<(), AllocError> {
    for mark in act.marks.as_slice() {
        writeln!(marks, "{number} {process} {mark}")?;
    }
    Ok(())
}

/// Makes an event, and appends its marks.
fn make(marks: &mut String, world: &mut World, number: usize, event: Event) -> Result<(), Fail> {
    let act = world.event(event)?;
    Ok(push_marks(marks, number, event.process(), &act)?)
}

/// Returns the marks of events that are made one by one.
fn marks_on(alloc: Global, world: &mut World, events: &[Event]) -> Result<String, Fail> {
    let mut marks = String::new(alloc);
    for (number, event) in events.iter().enumerate() {
        make(&mut marks, world, number, *event)?;
    }
    Ok(marks)
}

/// Returns the marks of events on a new world.
fn marks_in(alloc: Global, setup: &Setup, events: &[Event]) -> Result<String, Fail>
    requires { checked setup.now ≡ Ok tt }
{
    let mut world = World::new(alloc, setup)?;
    marks_on(alloc, &mut world, events)
}

/// Returns the marks of a scenario's accepted events.
fn marks_of_scenario(alloc: Global, scenario: &Scenario) -> Result<String, Fail> {
    let events = events_of(alloc, scenario)?;
    marks_in(alloc, &scenario.setup, &events)
}

/// Returns the marks of a file's accepted events.
fn marks_of_events(alloc: Global, file: &str) -> Result<String, Fail> {
    let scenario = read_scenario(alloc, file.as_bytes())?;
    marks_of_scenario(alloc, &scenario)
}

/// Returns whether the events of a file have the marks of its replay.
fn has_its_marks(alloc: Global, file: &str) -> Result<bool, Fail> {
    let marks = marks_of_events(alloc, file)?;
    let printed = marks_of_replay(alloc, file)?;
    Ok(marks.as_bytes() == printed.as_slice())
}

// The accepted events of each worked run, made one by one, have the marks that its replay prints.
#[test]
fn single_events_make_the_marks_of_replays(rt: HostRuntime) -> Result<(), Fail> {
    for file in &SCENARIOS {
        assert!(rt; has_its_marks(rt.alloc(), file)?, "{file}");
    }
    Ok(())
}
