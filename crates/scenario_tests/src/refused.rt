//! Allocations that are refused while a worked run is listed, recorded and audited. The refused call returns only the
//! refusal, and the same call then succeeds.
ghost use Rattle.std.specs.Prelude.{◌≡◌, Ok};
ghost use Rattle.plain_store.specs.{checked};

use crate::scenarios::{COMMENTS_AND_SPACES, FAILURE_COMMIT_SETTLED_NEW, LONE_WRITE, WITHDRAWAL};
use auditor::{Record, Verdict, audit};
use engines::{events_of, record_of};
use model::Event;
use plain_store::Setup;
use scenario::{Scenario, read_scenario};
use std::alloc::AllocError;
use std::process::Abort;
use std::test::Fail;

/// The files whose runs are listed, and the numbers of their events.
const RUNS: [(&str, usize); 4] = [
    (LONE_WRITE, 761),
    (FAILURE_COMMIT_SETTLED_NEW, 1_585),
    (WITHDRAWAL, 58),
    (COMMENTS_AND_SPACES, 1),
];

/// Lists the events of a scenario's run. After a refused allocation the same call must succeed; then the refusal is returned.
fn list(rt: &(impl Abort + AllocGlobal), scenario: &Scenario) -> Result<Vec<Event>, AllocError> {
    let listed = events_of(rt.alloc(), scenario);
    if listed.is_err() {
        assert!(rt;
            events_of(rt.alloc(), scenario).is_ok(),
            "the events are not listed"
        );
    }
    listed
}

/// Makes the record of these events in the same way.
fn make_record(
    rt: &(impl Abort + AllocGlobal),
    setup: &Setup,
    events: &[Event],
) -> Result<Record, AllocError>
    requires { checked setup.now ≡ Ok tt }
{
    let recorded = record_of(rt.alloc(), setup, events);
    if recorded.is_err() {
        assert!(rt;
            record_of(rt.alloc(), setup, events).is_ok(),
            "the record is not made"
        );
    }
    recorded
}

/// Audits a record in the same way.
fn judge(
    rt: &(impl Abort + AllocGlobal),
    setup: &Setup,
    record: &Record,
) -> Result<Verdict, AllocError>
    requires { checked setup.now ≡ Ok tt }
{
    let judged = audit(rt.alloc(), setup, record);
    if judged.is_err() {
        assert!(rt;
            audit(rt.alloc(), setup, record).is_ok(),
            "the record is not audited"
        );
    }
    judged
}

/// Asserts that a record of `count` entries can be made of these events, and is good.
fn assert_is_good(
    rt: &(impl Abort + AllocGlobal),
    setup: &Setup,
    events: &[Event],
    count: usize,
) -> Result<(), AllocError>
    requires { checked setup.now ≡ Ok tt }
{
    let record = make_record(rt, setup, events)?;
    assert!(rt;
        record.entries.len() == count,
        "{} entries",
        record.entries.len()
    );
    let verdict = judge(rt, setup, &record)?;
    assert!(rt;
        verdict == Verdict::Good,
        "the record of {count} entries is bad"
    );
    Ok(())
}

/// Asserts that a scenario's run has `count` events, of which a good record is made.
fn assert_is_recorded(
    rt: &(impl Abort + AllocGlobal),
    scenario: &Scenario,
    count: usize,
) -> Result<(), AllocError> {
    let events = list(rt, scenario)?;
    assert!(rt; events.len() == count, "{} events", events.len());
    assert_is_good(rt, &scenario.setup, &events, count)
}

// The test fails with an allocation error if any one allocation is refused, and passes otherwise.
#[test]
fn refused_allocations_are_returned(rt: HostRuntime) -> Result<(), Fail> {
    for (file, count) in &RUNS {
        let scenario = read_scenario(rt.alloc(), file.as_bytes())?;
        assert_is_recorded(&rt, &scenario, *count)?;
    }
    Ok(())
}
