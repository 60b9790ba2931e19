//! What is shown of the accesses of small records. The expected lines are written by hand.
ghost use Rattle.std.specs.Prelude.{◌≡◌, Ok};
ghost use Rattle.plain_store.specs.{checked};

use crate::{RecordAccessMonitor, WaveCount, WaveLimit};
use model::{Access, Act, Entry, Field, Mark, Move};
use picture_layout::{AccessKind, AccessStep, ShownAccess, WaveChange};
use plain_store::{Name, Setup, Value};
use smallvec::SmallVec;
use std::alloc::{AllocError, Global};
use std::test::Fail;

/// A bit by its owner, its register, its number and its reader.
type Bit = (u8, Field, u16, u8);

/// An entry by its process, its access if it has one, whether its process fails, and what is shown of it.
type RecordCase = (u8, Option<(Bit, Move)>, bool, &'static str);

fn kind_word(kind: AccessKind) -> &'static str {
    match kind {
        AccessKind::Read => "reads",
        AccessKind::Write => "writes",
        AccessKind::Update => "updates",
    }
}

fn step_word(step: AccessStep) -> &'static str {
    match step {
        AccessStep::Begin => "begin",
        AccessStep::End => "end",
        AccessStep::Whole => "whole",
    }
}

fn push_change(alloc: Global, change: &WaveChange, text: &mut Vec<u8>) -> Result<(), AllocError> {
    let row = format!(in alloc; " row {} ", change.row)?;
    text.extend_from_slice(row.as_bytes())?;
    text.extend_from_slice(change.name.as_slice())?;
    text.extend_from_slice(b" ")?;
    text.extend_from_slice(change.old.as_slice())?;
    text.extend_from_slice(b" ")?;
    text.extend_from_slice(change.value.as_slice())?;
    if change.was_open {
        text.extend_from_slice(b" was open")?;
    }
    if change.is_open {
        text.extend_from_slice(b" open")?;
    }
    Ok(())
}

/// Returns an access in one line.
fn line(alloc: Global, access: &ShownAccess) -> Result<Vec<u8>, AllocError> {
    let mut text = Vec::new(alloc);
    let front = format!(in alloc;
        "{} {} {} {} {} [",
        access.event,
        access.process,
        kind_word(access.kind),
        step_word(access.step),
        access.begin
    )?;
    text.extend_from_slice(front.as_bytes())?;
    text.extend_from_slice(access.words.as_slice())?;
    text.extend_from_slice(b"] ")?;
    text.extend_from_slice(access.cell.as_slice())?;
    for process in 0..16 {
        if access.overlaps[process] {
            let over = format!(in alloc; " over {process}")?;
            text.extend_from_slice(over.as_bytes())?;
        }
    }
    if let Some(change) = &access.change {
        push_change(alloc, change, &mut text)?;
    }
    Ok(text)
}

fn access(bit: Bit, how: Move) -> Access {
    let (owner, field, number, reader) = bit;
    Access {
        owner,
        field,
        bit: number,
        reader,
        how,
    }
}

fn entry(alloc: Global, case: &RecordCase) -> Result<Entry, AllocError> {
    let (process, made, fails, _) = *case;
    let mut marks = SmallVec::new(alloc);
    if fails {
        marks.push(Mark::Failed)?;
    }
    let access = match made {
        Some((bit, how)) => Some(access(bit, how)),
        None => None,
    };
    Ok(Entry {
        process,
        act: Act { access, marks },
    })
}

/// Returns the number of the first entry of which another line is shown.
fn first_other(
    alloc: Global,
    setup: &Setup,
    limit: WaveLimit,
    cases: &[RecordCase],
) -> Result<Option<usize>, AllocError>
    requires { checked setup.now ≡ Ok tt }
{
    let mut monitor = RecordAccessMonitor::new(alloc, setup, limit)?;
    for (number, case) in cases.iter().enumerate() {
        let entry = entry(alloc, case)?;
        let text = match monitor.observe(alloc, number as u64, &entry)? {
            Some(access) => line(alloc, &access)?,
            None => Vec::new(alloc),
        };
        if text.as_slice() != case.3.as_bytes() {
            return Ok(Some(number));
        }
    }
    Ok(None)
}

/// The copies of the choosing bit of process 1, for process 0 and for itself.
const C0: Bit = (1, Field::Choosing, 0, 0);

const C1: Bit = (1, Field::Choosing, 0, 1);

/// Process 0 reads a bit while process 1 writes it, and fails during its second read. Process 1 fails during its second write,
/// whose bit its memory unit settles at once. It then fails while it writes the copy for itself, and the unit writes the copy
/// for process 0 first. Three entries are impossible: there is no process 2, which owns no bit and reads none.
const FAILURES: [RecordCase; 19] = [
    (
        1,
        Some((C0, Move::BeginWrite(true))),
        false,
        "0 1 writes begin 0 [write 1] 1.choosing.0.0 row 0 1.choosing.0.0 0 0 open",
    ),
    (
        0,
        Some((C0, Move::BeginRead)),
        false,
        "1 0 reads begin 1 [read] 1.choosing.0.0 over 1",
    ),
    (
        0,
        Some((C0, Move::EndRead(true))),
        false,
        "2 0 reads end 1 [→ 1 ≠ 0] 1.choosing.0.0",
    ),
    (
        1,
        Some((C0, Move::EndWrite)),
        false,
        "3 1 writes end 0 [] 1.choosing.0.0 row 0 1.choosing.0.0 0 1 was open",
    ),
    (
        0,
        Some((C0, Move::BeginRead)),
        false,
        "4 0 reads begin 4 [read] 1.choosing.0.0",
    ),
    (
        1,
        Some((C0, Move::BeginWrite(false))),
        false,
        "5 1 writes begin 5 [write 0] 1.choosing.0.0 over 0 row 0 1.choosing.0.0 1 1 open",
    ),
    (0, None, true, "6 0 reads end 4 [] 1.choosing.0.0"),
    (1, None, true, ""),
    (
        1,
        Some((C0, Move::Settle(true))),
        false,
        "8 1 writes end 5 [settle 1] 1.choosing.0.0 row 0 1.choosing.0.0 1 1 was open",
    ),
    (
        1,
        Some((C1, Move::BeginWrite(true))),
        false,
        "9 1 writes begin 9 [write 1] 1.choosing.0.1 row 1 1.choosing.0.1 0 0 open",
    ),
    (1, None, true, ""),
    (
        1,
        Some((C0, Move::BeginWrite(false))),
        false,
        "11 1 writes begin 11 [write 0] 1.choosing.0.0 row 0 1.choosing.0.0 1 1 open",
    ),
    (
        1,
        Some((C0, Move::EndWrite)),
        false,
        "12 1 writes end 11 [] 1.choosing.0.0 row 0 1.choosing.0.0 1 0 was open",
    ),
    (
        0,
        Some((C1, Move::BeginRead)),
        false,
        "13 0 reads begin 13 [read] 1.choosing.0.1 over 1",
    ),
    (
        1,
        Some((C1, Move::Settle(false))),
        false,
        "14 1 writes whole 14 [settle 0] 1.choosing.0.1 row 1 1.choosing.0.1 0 0 was open",
    ),
    (2, Some((C0, Move::BeginRead)), false, ""),
    (
        0,
        Some(((2, Field::Choosing, 0, 0), Move::BeginRead)),
        false,
        "",
    ),
    (
        0,
        Some(((1, Field::Choosing, 0, 2), Move::BeginRead)),
        false,
        "",
    ),
    (
        0,
        Some((C1, Move::EndRead(false))),
        false,
        "18 0 reads end 13 [→ 0] 1.choosing.0.1",
    ),
];

/// The first image of process 0 opens with a used slot of a counter, whose first byte is 1. Then the first bit is 1, and the
/// second one is 0. The second image opens at 0.
const OPENINGS: [RecordCase; 6] = [
    (
        0,
        Some(((0, Field::Image0, 0, 0), Move::BeginRead)),
        false,
        "0 0 reads begin 0 [read] 0.image0.0.0",
    ),
    (
        0,
        Some(((0, Field::Image0, 0, 0), Move::EndRead(false))),
        false,
        "1 0 reads end 0 [→ 0 ≠ 1] 0.image0.0.0",
    ),
    (
        0,
        Some(((0, Field::Image0, 1, 0), Move::BeginRead)),
        false,
        "2 0 reads begin 2 [read] 0.image0.1.0",
    ),
    (
        0,
        Some(((0, Field::Image0, 1, 0), Move::EndRead(false))),
        false,
        "3 0 reads end 2 [→ 0] 0.image0.1.0",
    ),
    (
        0,
        Some(((0, Field::Image0, 0, 0), Move::BeginWrite(false))),
        false,
        "4 0 writes begin 4 [write 0] 0.image0.0.0 row 0 0.image0.0.0 1 1 open",
    ),
    (
        0,
        Some(((0, Field::Image1, 0, 0), Move::Settle(true))),
        false,
        "5 0 writes whole 5 [settle 1] 0.image1.0.0 row 1 0.image1.0.0 0 1",
    ),
];

/// The copies of the choosing bit of process 0, for itself and for process 1.
const B0: Bit = (0, Field::Choosing, 0, 0);

const B1: Bit = (0, Field::Choosing, 0, 1);

/// Waves and words begin with entry 3. One write is open then, and ends later. Another one ended before, so its bit has no wave.
/// The last entry ends a write that never began.
const LATER_WAVES: [RecordCase; 6] = [
    (
        1,
        Some((C0, Move::BeginWrite(true))),
        false,
        "0 1 writes begin 0 [] ",
    ),
    (
        0,
        Some((B1, Move::BeginWrite(true))),
        false,
        "1 0 writes begin 1 [] ",
    ),
    (0, Some((B1, Move::EndWrite)), false, "2 0 writes end 1 [] "),
    (
        0,
        Some((B0, Move::BeginWrite(true))),
        false,
        "3 0 writes begin 3 [write 1] 0.choosing.0.0 row 0 0.choosing.0.0 0 0 open",
    ),
    (
        1,
        Some((C0, Move::EndWrite)),
        false,
        "4 1 writes end 0 [] 1.choosing.0.0 row 1 1.choosing.0.0 0 1 was open",
    ),
    (
        1,
        Some((C1, Move::EndWrite)),
        false,
        "5 1 writes end 5 [] 1.choosing.0.1",
    ),
];

/// Returns the limit of pictures from an entry on.
fn limit(from: u64, count: WaveCount) -> WaveLimit {
    WaveLimit { from, count }
}

/// Returns the row of the wave that begins as seventeen bits are written, if it is shown.
fn seventeenth_row(
    alloc: Global,
    setup: &Setup,
    limit: WaveLimit,
) -> Result<Option<u16>, AllocError>
    requires { checked setup.now ≡ Ok tt }
{
    let mut monitor = RecordAccessMonitor::new(alloc, setup, limit)?;
    let mut row = None;
    for bit in 0..17 {
        let access = access((0, Field::Image0, bit, 0), Move::BeginWrite(true));
        row = match monitor.observe_access(alloc, u64::from(bit), 0, &Some(access), false)? {
            Some(shown) => match &shown.change {
                Some(change) => Some(change.row),
                None => None,
            },
            None => None,
        };
    }
    Ok(row)
}

#[test]
fn shows_accesses_that_failures_interrupt(rt: HostRuntime) -> Result<(), Fail> {
    let setup = Setup::one(2, 1, 1, 1);
    setup.check()?;
    let limit = limit(0, WaveCount::Sixteen);
    assert_eq!(rt; first_other(rt.alloc(), &setup, limit, &FAILURES)?, None);
    Ok(())
}

#[test]
fn compares_reads_with_opening_values(rt: HostRuntime) -> Result<(), Fail> {
    let mut setup = Setup::one(1, 1, 1, 1);
    setup.version = 2;
    setup.opening.add(Name::new(b"a")?, Value::Count(5))?;
    setup.check()?;
    let limit = limit(0, WaveCount::Sixteen);
    assert_eq!(rt; first_other(rt.alloc(), &setup, limit, &OPENINGS)?, None);
    Ok(())
}

#[test]
fn shows_sixteen_waves_or_all(rt: HostRuntime) -> Result<(), Fail> {
    let setup = Setup::one(1, 1, 1, 1);
    setup.check()?;
    let sixteen = seventeenth_row(rt.alloc(), &setup, limit(0, WaveCount::Sixteen))?;
    assert_eq!(rt; sixteen, None);
    let all = seventeenth_row(rt.alloc(), &setup, limit(0, WaveCount::All))?;
    assert_eq!(rt; all, Some(16));
    let later = seventeenth_row(rt.alloc(), &setup, limit(1, WaveCount::Sixteen))?;
    assert_eq!(rt; later, Some(15));
    Ok(())
}

#[test]
fn begins_waves_at_an_entry(rt: HostRuntime) -> Result<(), Fail> {
    let setup = Setup::one(2, 1, 1, 1);
    setup.check()?;
    let limit = limit(3, WaveCount::Sixteen);
    assert_eq!(rt; first_other(rt.alloc(), &setup, limit, &LATER_WAVES)?, None);
    Ok(())
}
