//! Verdicts on the records of worked runs of which one entry is changed, and their exit statuses.
ghost use Rattle.std.specs.Prelude.{◌≡◌, Ok};
ghost use Rattle.plain_store.specs.{checked};

use crate::scenarios::{LONE_WRITE, TICKETS_FULL, TIE_OF_TICKETS};
use auditor::{Law, Record, Verdict, audit};
use engines::{events_of, record_of, status_of};
use model::{Access, Act, Mark, Move};
use plain_store::{Answer, NestedTypes, Reply, Setup};
use scenario::{Scenario, read_scenario};
use std::alloc::{AllocError, Global};
use std::process::Abort;
use std::test::Fail;

/// A part of an entry.
#[derive(Clone, Copy)]
enum EntryPart {
    /// The move of its access.
    OfAccess(Move),
    /// Its only mark, or that it has none.
    OnlyMark(Option<Mark>),
}

/// A change of one entry in the record of a file's run, and the first law that this entry then breaks.
struct EntryChange {
    file: &'static str,
    entry: usize,
    from: EntryPart,
    to: EntryPart,
    law: Law,
}

const CHANGES: [EntryChange; 4] = [
    EntryChange {
        file: TICKETS_FULL,
        entry: 21,
        from: EntryPart::OfAccess(Move::EndRead(true)),
        to: EntryPart::OfAccess(Move::EndRead(false)),
        law: Law::Safe,
    },
    EntryChange {
        file: LONE_WRITE,
        entry: 760,
        from: EntryPart::OnlyMark(Some(Mark::Answered(Answer::Reply(Reply::Done)))),
        to: EntryPart::OnlyMark(Some(Mark::Answered(Answer::Reply(Reply::NoName)))),
        law: Law::Program,
    },
    EntryChange {
        file: TIE_OF_TICKETS,
        entry: 30,
        from: EntryPart::OnlyMark(None),
        to: EntryPart::OnlyMark(Some(Mark::Entered)),
        law: Law::Program,
    },
    EntryChange {
        file: LONE_WRITE,
        entry: 756,
        from: EntryPart::OnlyMark(Some(Mark::Taken(0, Reply::Done))),
        to: EntryPart::OnlyMark(Some(Mark::Taken(1, Reply::Done))),
        law: Law::History,
    },
];

/// Returns whether an act has this part.
fn has(act: &Act, part: &EntryPart) -> bool {
    let _nested: NestedTypes = None;
    match part {
        EntryPart::OfAccess(made) => act.access.is_some_and(|access| access.how == *made),
        EntryPart::OnlyMark(None) => act.marks.is_empty(),
        EntryPart::OnlyMark(Some(mark)) => {
            matches!(act.marks.as_slice(), [only] if only == mark)
        }
    }
}

/// Replaces the part of an act by this one.
fn set(act: &mut Act, part: &EntryPart) -> Result<(), AllocError> {
    let _nested: NestedTypes = None;
    match part {
        EntryPart::OfAccess(made) => {
            if let Some(access) = act.access {
                act.access = Some(Access {
                    how: *made,
                    ..access
                });
            }
        }
        EntryPart::OnlyMark(mark) => {
            act.marks.clear();
            if let Some(mark) = mark {
                act.marks.push(*mark)?;
            }
        }
    }
    Ok(())
}

/// Changes an entry of a record, and returns whether the entry had the part that is replaced.
fn change(record: &mut Record, changed: &EntryChange) -> Result<bool, AllocError> {
    let Some(entry) = record.entries.get_mut(changed.entry) else {
        return Ok(false);
    };
    let was = has(&entry.act, &changed.from);
    set(&mut entry.act, &changed.to)?;
    Ok(was)
}

/// Asserts that a record is good before a change and bad after it, and that the exit statuses are 0 and 3.
fn assert_verdicts(
    rt: &(impl Abort + AllocGlobal),
    setup: &Setup,
    record: &mut Record,
    changed: &EntryChange,
) -> Result<(), AllocError>
    requires { checked setup.now ≡ Ok tt }
{
    let good = audit(rt.alloc(), setup, record)?;
    assert!(rt;
        good == Verdict::Good && status_of(&good) == 0,
        "{}",
        changed.file
    );
    assert!(rt; change(record, changed)?, "{}", changed.file);
    let bad = audit(rt.alloc(), setup, record)?;
    let wanted = Verdict::Bad(changed.entry as u64, changed.law);
    assert!(rt; bad == wanted && status_of(&bad) == 3, "{}", changed.file);
    Ok(())
}

/// Returns the record of a scenario's run.
fn record_of_run(alloc: Global, scenario: &Scenario) -> Result<Record, AllocError> {
    let events = events_of(alloc, scenario)?;
    record_of(alloc, &scenario.setup, &events)
}

/// Asserts the verdicts on the record of a scenario's run.
fn judge_changed(
    rt: &(impl Abort + AllocGlobal),
    scenario: &Scenario,
    changed: &EntryChange,
) -> Result<(), AllocError> {
    let mut record = record_of_run(rt.alloc(), scenario)?;
    assert_verdicts(rt, &scenario.setup, &mut record, changed)
}

// A read ends with the other value, an answer is another one, a process enters while it writes its ticket, and a command has
// another position in the history.
#[test]
fn changed_records_are_bad(rt: HostRuntime) -> Result<(), Fail> {
    for changed in &CHANGES {
        let scenario = read_scenario(rt.alloc(), changed.file.as_bytes())?;
        judge_changed(&rt, &scenario, changed)?;
    }
    Ok(())
}
