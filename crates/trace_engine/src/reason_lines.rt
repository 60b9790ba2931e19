//! The lines of the reasons of a bad verdict.
ghost use Rattle.std.specs.Prelude.{◌≡◌, ◌++◌, IfOk, OnOk, codes};
ghost use Rattle.std.specs.String.{string_bytes};
ghost use Rattle.trace.specs.{trace_entry};
ghost use Rattle.trace_judge.specs.{entry_reading};
ghost use Rattle.trace_engine.specs.Lines.{entry_line, entry_lines, may_if as may_or_none, may_lines, number_if as number_or_none, number_line, other_lines, pair_if as pair_or_none, pair_line, pair_lines, process_lines, refused_line, stage_line, trace_reason_lines};

use lock_stages::LockStage;
use std::alloc::{AllocError, Global};
use trace::{CellAccess, TraceEntry, TraceRegister, print_trace_entry};
use trace_judge::{TraceReasons, TraceRefused};

/// Writes the reasons of a bad entry of this line.
#[tactic(auto, using(crate::proofs::Texts::three))]
pub(crate) fn push_reasons(
    alloc: Global,
    number: u64,
    registers: &[TraceRegister],
    entry: &TraceEntry,
    reasons: &TraceReasons,
    text: &mut Vec<u8>,
) -> Result<(), AllocError>
    ensures { OnOk result (text.new.items ≡ text.old.items
        ++ trace_reason_lines number registers.now entry.now reasons.now) }
{
    push_bad(alloc, number, registers, entry, reasons, text)?;
    push_process(alloc, reasons, text)?;
    push_others(alloc, reasons, text)
}

/// Writes the number of the line, the entry, and how that would keep all laws.
#[tactic(auto, using(crate::proofs::Texts::three))]
fn push_bad(
    alloc: Global,
    number: u64,
    registers: &[TraceRegister],
    entry: &TraceEntry,
    reasons: &TraceReasons,
    text: &mut Vec<u8>,
) -> Result<(), AllocError>
    ensures { OnOk result (text.new.items ≡ text.old.items
        ++ entry_lines number registers.now entry.now reasons.now) }
{
    push_number(alloc, "line", number, text)?;
    push_entry(alloc, "is", registers, entry, &entry.access, text)?;
    push_mays(alloc, registers, entry, &reasons.may, text)
}

/// Writes the entry with each value with which it would keep all laws.
fn push_mays(
    alloc: Global,
    registers: &[TraceRegister],
    entry: &TraceEntry,
    mays: &[Option<u32>],
    text: &mut Vec<u8>,
) -> Result<(), AllocError>
    ensures { OnOk result (text.new.items ≡ text.old.items
        ++ may_lines registers.now entry.now mays.now) }
{
    'mays: for may in mays {
        push_may_if(alloc, registers, entry, may, text)?;
    }
    Ok(())
}

#[tactic(auto, using(crate::proofs::Texts::none))]
fn push_may_if(
    alloc: Global,
    registers: &[TraceRegister],
    entry: &TraceEntry,
    may: &Option<u32>,
    text: &mut Vec<u8>,
) -> Result<(), AllocError>
    ensures { OnOk result (text.new.items ≡ text.old.items
        ++ may_or_none registers.now entry.now may.now) }
{
    match may {
        None => Ok(()),
        Some(value) => push_may(alloc, registers, entry, *value, text),
    }
}

/// Writes the entry as it reads this value.
fn push_may(
    alloc: Global,
    registers: &[TraceRegister],
    entry: &TraceEntry,
    value: u32,
    text: &mut Vec<u8>,
) -> Result<(), AllocError>
    ensures { OnOk result (text.new.items ≡ text.old.items
        ++ entry_line (codes "may") registers.now (entry_reading value entry.now)) }
{
    let access = match &entry.access {
        None => None,
        Some(access) => Some(access.reading(value)),
    };
    push_entry(alloc, "may", registers, entry, &access, text)
}

/// Writes a word, and an entry with this access in place of its own.
#[tactic(auto, using(crate::proofs::Texts::three))]
fn push_entry(
    alloc: Global,
    word: &str,
    registers: &[TraceRegister],
    entry: &TraceEntry,
    access: &Option<CellAccess>,
    text: &mut Vec<u8>,
) -> Result<(), AllocError>
    ensures { OnOk result
        (text.new.items
        ≡ text.old.items
        ++ entry_line word.now registers.now
        (trace_entry entry.now.process access.now entry.now.marks)) }
{
    text.extend_from_slice(word.as_bytes())?;
    text.extend_from_slice(b" ")?;
    print_trace_entry(alloc, registers, entry.process, access, &entry.marks, text)
}

/// Writes why the entry is refused, the stage of its process, and where its open access began.
#[tactic(auto, using(crate::proofs::Texts::three))]
fn push_process(alloc: Global, reasons: &TraceReasons, text: &mut Vec<u8>) -> Result<(), AllocError>
    ensures { OnOk result (text.new.items ≡ text.old.items
        ++ process_lines reasons.now) }
{
    push_refused(alloc, &reasons.refused, text)?;
    push_stage(alloc, reasons.stage, text)?;
    push_number_if(alloc, "open", reasons.opened, text)
}

/// Writes which processes are inside or ahead, and where the doorway began.
#[tactic(auto, using(crate::proofs::Texts::three))]
fn push_others(alloc: Global, reasons: &TraceReasons, text: &mut Vec<u8>) -> Result<(), AllocError>
    ensures { OnOk result (text.new.items ≡ text.old.items
        ++ other_lines reasons.now) }
{
    push_pairs(alloc, "inside", &reasons.inside, text)?;
    push_pairs(alloc, "waits", &reasons.waits, text)?;
    push_number_if(alloc, "doorway", reasons.doorway, text)
}

#[tactic(auto, using(crate::proofs::Texts::none))]
fn push_refused(
    alloc: Global,
    refused: &Option<TraceRefused>,
    text: &mut Vec<u8>,
) -> Result<(), AllocError>
    ensures { OnOk result (text.new.items ≡ text.old.items
        ++ refused_line refused.now) }
{
    match refused {
        None => Ok(()),
        Some(TraceRefused::Access(refusal)) => {
            let line = format!(in alloc; "refused {refusal}\n")?;
            text.extend_from_slice(line.as_bytes())
        }
        Some(TraceRefused::Marks(refusal)) => {
            let line = format!(in alloc; "refused {refusal}\n")?;
            text.extend_from_slice(line.as_bytes())
        }
    }
}

#[tactic(auto, using(crate::proofs::Texts::none))]
fn push_stage(alloc: Global, stage: Option<LockStage>, text: &mut Vec<u8>) -> Result<(), AllocError>
    ensures { OnOk result (text.new.items ≡ text.old.items
        ++ stage_line stage) }
{
    match stage {
        None => Ok(()),
        Some(stage) => {
            let line = format!(in alloc; "stage {stage}\n")?;
            text.extend_from_slice(line.as_bytes())
        }
    }
}

/// Writes a word and a number, if there is one.
#[tactic(auto, using(crate::proofs::Texts::none))]
fn push_number_if(
    alloc: Global,
    word: &str,
    number: Option<u64>,
    text: &mut Vec<u8>,
) -> Result<(), AllocError>
    ensures { OnOk result (text.new.items ≡ text.old.items
        ++ number_or_none word.now number) }
{
    match number {
        None => Ok(()),
        Some(number) => push_number(alloc, word, number, text),
    }
}

fn push_number(alloc: Global, word: &str, number: u64, text: &mut Vec<u8>) -> Result<(), AllocError>
    ensures { OnOk result (text.new.items ≡ text.old.items
        ++ number_line word.now number) }
{
    let line = number_text(alloc, word, number)?;
    text.extend_from_slice(line.as_bytes())
}

fn number_text(alloc: Global, word: &str, number: u64) -> Result<String, AllocError>
    ensures { IfOk result (λ line. string_bytes line ≡ number_line word.now number) }
{
    format!(in alloc; "{word} {number}\n")
}

/// Writes a word, a process and an entry, for each process that has one.
fn push_pairs(
    alloc: Global,
    word: &str,
    entries: &[Option<u64>],
    text: &mut Vec<u8>,
) -> Result<(), AllocError>
    ensures { OnOk result (text.new.items ≡ text.old.items
        ++ pair_lines word.now 0 entries.now) }
{
    let mut process = 0;
    'entries: for entry in entries {
        push_pair_if(alloc, word, process, entry, text)?;
        process += 1;
    }
    Ok(())
}

#[tactic(auto, using(crate::proofs::Texts::none))]
fn push_pair_if(
    alloc: Global,
    word: &str,
    process: u64,
    entry: &Option<u64>,
    text: &mut Vec<u8>,
) -> Result<(), AllocError>
    ensures { OnOk result (text.new.items ≡ text.old.items
        ++ pair_or_none word.now process entry.now) }
{
    match entry {
        None => Ok(()),
        Some(entry) => {
            let line = pair_text(alloc, word, process, *entry)?;
            text.extend_from_slice(line.as_bytes())
        }
    }
}

fn pair_text(alloc: Global, word: &str, process: u64, entry: u64) -> Result<String, AllocError>
    ensures { IfOk result (λ line. string_bytes line ≡ pair_line word.now process entry) }
{
    format!(in alloc; "{word} {process} {entry}\n")
}
