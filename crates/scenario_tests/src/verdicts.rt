//! The calls that list, record, audit and sweep a run, for one call of one process alone; and a sweep of events of which
//! some are refused.
ghost use Rattle.std.specs.Prelude.{◌≡◌, Ok};
ghost use Rattle.plain_store.specs.{checked};

use crate::scenarios::LONE_WRITE;
use crate::worlds::a;
use auditor::{Auditor, Law, Record, Verdict, audit, parts};
use engines::{Swept, events_of, record_of, sweep};
use model::{Entry, Event, Mark};
use plain_store::{Command, Setup, Value};
use scenario::read_scenario;
use std::alloc::{AllocError, Global};
use std::process::Abort;
use std::test::Fail;

/// Returns the command that reads the one name here.
fn read() -> Command {
    Command::Read(a())
}

/// Returns whether there were `runs` runs, all of them good and none stuck.
fn are_all_good(found: &Swept, runs: u64) -> bool {
    found.runs == runs && found.good == runs && found.stuck == 0 && found.first_bad.is_none()
}

/// Audits a record, at the second try if an allocation of the first one fails.
fn audit_again(alloc: Global, setup: &Setup, record: &Record) -> Result<Verdict, AllocError>
    requires { checked setup.now ≡ Ok tt }
{
    match audit(alloc, setup, record) {
        Ok(verdict) => Ok(verdict),
        Err(AllocError) => audit(alloc, setup, record),
    }
}

/// Sweeps events, at the second try if an allocation of the first one fails.
fn sweep_again(
    alloc: Global,
    setup: &Setup,
    events: &[Event],
    calls: &[(u8, Command)],
) -> Result<Swept, AllocError>
    requires { checked setup.now ≡ Ok tt }
{
    match sweep(alloc, setup, events, calls) {
        Ok(found) => Ok(found),
        Err(AllocError) => sweep(alloc, setup, events, calls),
    }
}

/// Returns whether an auditor finds no fault with an entry.
fn keeps_the_laws(auditor: &mut Auditor, entry: &Entry) -> bool {
    let (process, access, marks) = parts(entry);
    auditor.observe(process, access, marks).is_none()
}

/// Asserts that an auditor finds no fault with the entries of a record.
fn observe_all(rt: &impl Abort, auditor: &mut Auditor, record: &Record) {
    for (number, entry) in record.entries.iter().enumerate() {
        assert!(rt; keeps_the_laws(auditor, entry), "entry {number}");
    }
}

/// Returns whether the process of the file `LONE_WRITE` enters with its eighth step.
fn comes_inside(record: &Record) -> bool {
    match record.entries.get(8) {
        Some(entry) => matches!(
            entry.act.marks.as_slice(),
            [Mark::Waiting(1), Mark::Entered]
        ),
        None => false,
    }
}

/// Returns the setup of the file.
fn setup_of_lone_write() -> Setup
    ensures { checked result ≡ Ok tt }
{
    Setup::one(1, 2, 2, 1)
}

/// Returns the events of the file.
fn events_of_lone_write(alloc: Global) -> Result<Vec<Event>, Fail> {
    let scenario = read_scenario(alloc, LONE_WRITE.as_bytes())?;
    let events = events_of(alloc, &scenario);
    drop(scenario);
    Ok(events?)
}

/// Asserts that an auditor finds no fault with the record of the file.
fn observe_lone_write(rt: &(impl Abort + AllocGlobal), record: &Record) -> Result<(), AllocError> {
    let mut auditor = Auditor::new(rt.alloc(), &setup_of_lone_write())?;
    observe_all(rt, &mut auditor, record);
    Ok(())
}

/// Returns whether the record of the file is good.
fn is_good(alloc: Global, record: &Record) -> Result<bool, AllocError> {
    let verdict = audit_again(alloc, &setup_of_lone_write(), record)?;
    Ok(matches!(verdict, Verdict::Good))
}

/// Returns whether a record breaks the local program at this entry.
fn breaks_the_program(alloc: Global, record: &Record, entry: u64) -> Result<bool, AllocError> {
    let verdict = audit_again(alloc, &setup_of_lone_write(), record)?;
    Ok(matches!(verdict, Verdict::Bad(reported, Law::Program) if reported == entry))
}

/// Removes the access of an entry.
fn drop_access(record: &mut Record, entry: usize) {
    if let Some(entry) = record.entries.get_mut(entry) {
        entry.act.access = None;
    }
}

/// Asserts that the record of the file is good, and that it breaks the local program without one access.
fn audit_both(rt: &(impl Abort + AllocGlobal), record: &mut Record) -> Result<(), Fail> {
    assert!(rt; record.entries.len() == 761 && comes_inside(record));
    observe_lone_write(rt, record)?;
    assert!(rt; is_good(rt.alloc(), record)?);
    drop_access(record, 756);
    assert!(rt; breaks_the_program(rt.alloc(), record, 756)?);
    Ok(())
}

/// Makes the record of these events, which are those of the file, and asserts its verdicts.
fn audit_record(rt: &(impl Abort + AllocGlobal), events: &[Event]) -> Result<(), Fail> {
    let mut record = record_of(rt.alloc(), &setup_of_lone_write(), events)?;
    audit_both(rt, &mut record)
}

// The record of a run has its entries and is good, and one without an access breaks the local program.
#[test]
fn observes_and_audits_a_record(rt: HostRuntime) -> Result<(), Fail> {
    let events = events_of_lone_write(rt.alloc())?;
    assert!(rt; events.len() == 761);
    audit_record(&rt, &events)
}

/// Returns the result of the sweep of the file.
fn sweep_of_lone_write(alloc: Global) -> Result<Swept, Fail> {
    let events = events_of_lone_write(alloc)?;
    let calls = [(0, Command::Write(a(), Value::Count(5)))];
    Ok(sweep(alloc, &setup_of_lone_write(), &events, &calls)?)
}

#[test]
fn sweeps_the_lone_write(rt: HostRuntime) -> Result<(), Fail> {
    let found = sweep_of_lone_write(rt.alloc())?;
    assert!(rt; are_all_good(&found, 1_522), "{found}");
    Ok(())
}

const STEP: Event = Event::Step(0, false);

// A failed process restarts and calls: it may fail after the call, and again after its restart. The sweep does not cut a
// run after a refused event.
#[test]
fn sweeps_a_failed_process(rt: HostRuntime) -> Result<(), AllocError> {
    let setup = Setup::one(1, 4, 4, 1);
    let events = [
        Event::Call(0, read()),
        Event::Fail(0),
        Event::Restart(0),
        Event::Call(0, read()),
        STEP,
        STEP,
        STEP,
        STEP,
        STEP,
        STEP,
        STEP,
        STEP,
        STEP,
        STEP,
        Event::Call(0, read()),
        Event::Restart(0),
    ];
    let found = sweep_again(rt.alloc(), &setup, &events, &[(0, read())])?;
    assert!(rt; are_all_good(&found, 4), "{found}");
    Ok(())
}
