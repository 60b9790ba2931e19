//! What is shown of the accesses of small traces. The expected lines are written by hand.
ghost use Rattle.std.specs.Prelude.{◌≡◌, ◌<◌, ◌≤◌, true, IfOk};
ghost use Rattle.trace.specs.{is_trace_setup};

use crate::{AccessMonitor, WaveLimit};
use picture_layout::{AccessKind, AccessStep, ShownAccess, WaveChange, WaveCount};
use smallvec::SmallVec;
use std::alloc::{AllocError, Global};
use std::test::Fail;
use trace::{
    Cell, CellAccess, CellMove, CellName, TraceEntry, TraceMemory, TraceRegister, TraceSetup,
};

/// An entry by its process, the index of its cell in register 0 or none, its move, and what is shown of it.
type Case = (u8, Option<u8>, CellMove, &'static str);

fn kind_word(kind: AccessKind) -> &'static str {
    match kind {
        AccessKind::Read => "reads",
        AccessKind::Write => "writes",
        AccessKind::Update => "updates",
    }
}

fn step_word(step: AccessStep) -> &'static str {
    match step {
        AccessStep::Begin => "begin",
        AccessStep::End => "end",
        AccessStep::Whole => "whole",
    }
}

fn push_change(alloc: Global, change: &WaveChange, text: &mut Vec<u8>) -> Result<(), AllocError> {
    let row = format!(in alloc; " row {} ", change.row)?;
    text.extend_from_slice(row.as_bytes())?;
    text.extend_from_slice(change.name.as_slice())?;
    text.extend_from_slice(b" ")?;
    text.extend_from_slice(change.old.as_slice())?;
    text.extend_from_slice(b" ")?;
    text.extend_from_slice(change.value.as_slice())?;
    if change.was_open {
        text.extend_from_slice(b" was open")?;
    }
    if change.is_open {
        text.extend_from_slice(b" open")?;
    }
    Ok(())
}

/// Returns an access in one line.
fn line(alloc: Global, access: &ShownAccess) -> Result<Vec<u8>, AllocError> {
    let mut text = Vec::new(alloc);
    let front = format!(in alloc;
        "{} {} {} {} {} [",
        access.event,
        access.process,
        kind_word(access.kind),
        step_word(access.step),
        access.begin
    )?;
    text.extend_from_slice(front.as_bytes())?;
    text.extend_from_slice(access.words.as_slice())?;
    text.extend_from_slice(b"] ")?;
    text.extend_from_slice(access.cell.as_slice())?;
    for process in 0..16 {
        if access.overlaps[process] {
            let over = format!(in alloc; " over {process}")?;
            text.extend_from_slice(over.as_bytes())?;
        }
    }
    if let Some(change) = &access.change {
        push_change(alloc, change, &mut text)?;
    }
    Ok(text)
}

/// Returns the setup of a trace of two processes with one register.
fn setup(alloc: Global, name: &[u8], width: u8, is_shared: bool) -> Result<TraceSetup, Fail>
    requires { (0 < width) × (width ≤ 8) }
    ensures { IfOk result (λ setup. is_trace_setup setup ≡ true) }
{
    let name = CellName::new(name)?;
    let memory = if is_shared {
        TraceMemory::Atomic
    } else {
        TraceMemory::Safe
    };
    let mut registers = Vec::new(alloc);
    registers.push(TraceRegister {
        name,
        width,
        opens: 0,
        is_shared,
    })?;
    Ok(TraceSetup {
        processes: 2,
        memory,
        registers,
    })
}

fn entry(alloc: Global, case: &Case) -> TraceEntry {
    let (process, index, how, _) = *case;
    let cell = Cell { register: 0, index };
    TraceEntry {
        process,
        access: Some(CellAccess { cell, how }),
        marks: SmallVec::new(alloc),
    }
}

/// Returns the number of the first entry of which another line is shown, in a picture with waves from an entry on.
fn first_other(
    alloc: Global,
    setup: &TraceSetup,
    from: u64,
    cases: &[Case],
) -> Result<Option<usize>, AllocError>
    requires { is_trace_setup setup.now ≡ true }
{
    let count = WaveCount::Sixteen;
    let mut monitor = AccessMonitor::new(alloc, setup, WaveLimit { from, count })?;
    for (number, case) in cases.iter().enumerate() {
        if monitor.entries() == u64::MAX {
            return Ok(Some(number));
        }
        let entry = entry(alloc, case);
        let text = match monitor.observe(alloc, &entry)? {
            Some(access) => line(alloc, &access)?,
            None => Vec::new(alloc),
        };
        if text.as_slice() != case.3.as_bytes() {
            return Ok(Some(number));
        }
    }
    Ok(None)
}

/// Process 1 reads while process 0 writes, and process 0 writes while process 1 reads. Three entries are impossible: there is
/// no cell 2, and neither a process 2 nor a process 16.
const SAFE: [Case; 13] = [
    (
        0,
        Some(0),
        CellMove::Write(1),
        "0 0 writes begin 0 [write 1] flag[0] row 0 flag[0] 0 0 open",
    ),
    (
        1,
        Some(0),
        CellMove::Read,
        "1 1 reads begin 1 [read] flag[0] over 0",
    ),
    (
        1,
        Some(0),
        CellMove::Value(1),
        "2 1 reads end 1 [→ 1 ≠ 0] flag[0]",
    ),
    (
        0,
        Some(0),
        CellMove::End,
        "3 0 writes end 0 [] flag[0] row 0 flag[0] 0 1 was open",
    ),
    (
        1,
        Some(0),
        CellMove::Get(1),
        "4 1 reads whole 4 [get → 1] flag[0]",
    ),
    (1, Some(2), CellMove::Set(1), ""),
    (2, Some(1), CellMove::Set(1), ""),
    (16, Some(1), CellMove::Set(0), ""),
    (
        1,
        Some(0),
        CellMove::Read,
        "8 1 reads begin 8 [read] flag[0]",
    ),
    (
        0,
        Some(0),
        CellMove::Set(0),
        "9 0 writes whole 9 [set 0] flag[0] over 1 row 0 flag[0] 1 0",
    ),
    (
        1,
        Some(0),
        CellMove::Value(0),
        "10 1 reads end 8 [→ 0] flag[0]",
    ),
    (
        1,
        Some(1),
        CellMove::Get(0),
        "11 1 reads whole 11 [get → 0] flag[1]",
    ),
    (
        0,
        Some(0),
        CellMove::End,
        "12 0 writes end 12 [] flag[0] row 0 flag[0] 0 0",
    ),
];

/// The value is 0, 0 after the failing comparison, 3, 2 after the sum that wraps, and 1. No cell has an index.
const ATOMIC: [Case; 5] = [
    (
        0,
        None,
        CellMove::Cas {
            expected: 1,
            new: 1,
            gives: 0,
        },
        "0 0 updates whole 0 [cas 1 1 → 0] turn row 0 turn 0 0",
    ),
    (
        1,
        None,
        CellMove::Add {
            addend: 3,
            gives: 0,
        },
        "1 1 updates whole 1 [add 3 → 0] turn row 0 turn 0 3",
    ),
    (
        1,
        None,
        CellMove::Add {
            addend: 3,
            gives: 3,
        },
        "2 1 updates whole 2 [add 3 → 3] turn row 0 turn 3 2",
    ),
    (
        0,
        None,
        CellMove::Swap { new: 1, gives: 0 },
        "3 0 updates whole 3 [swap 1 → 0 ≠ 2] turn row 0 turn 2 1",
    ),
    (0, Some(0), CellMove::Set(1), ""),
];

/// Waves begin with entry 2. One write is open then, and ends later. Entry 2 ends a write that is not open.
const LATER_WAVES: [Case; 5] = [
    (
        0,
        Some(0),
        CellMove::Write(1),
        "0 0 writes begin 0 [write 1] flag[0]",
    ),
    (
        1,
        Some(1),
        CellMove::Set(1),
        "1 1 writes whole 1 [set 1] flag[1]",
    ),
    (1, Some(1), CellMove::End, "2 1 writes end 2 [] flag[1]"),
    (
        0,
        Some(0),
        CellMove::End,
        "3 0 writes end 0 [] flag[0] row 0 flag[0] 0 1 was open",
    ),
    (
        1,
        Some(1),
        CellMove::Set(0),
        "4 1 writes whole 4 [set 0] flag[1] row 1 flag[1] 1 0",
    ),
];

#[test]
fn shows_reads_that_writes_overlap(rt: HostRuntime) -> Result<(), Fail> {
    let setup = setup(rt.alloc(), b"flag", 1, false)?;
    assert_eq!(rt; first_other(rt.alloc(), &setup, 0, &SAFE)?, None);
    Ok(())
}

#[test]
fn shows_updates_of_a_shared_cell(rt: HostRuntime) -> Result<(), Fail> {
    let setup = setup(rt.alloc(), b"turn", 2, true)?;
    assert_eq!(rt; first_other(rt.alloc(), &setup, 0, &ATOMIC)?, None);
    Ok(())
}

#[test]
fn begins_waves_at_an_entry(rt: HostRuntime) -> Result<(), Fail> {
    let setup = setup(rt.alloc(), b"flag", 1, false)?;
    assert_eq!(rt; first_other(rt.alloc(), &setup, 2, &LATER_WAVES)?, None);
    Ok(())
}
