//! The lines of the reasons of a bad verdict on a record of any lock.
ghost use Rattle.std.specs.Prelude.{◌≡◌, ◌++◌, IfOk, OnOk, codes};
ghost use Rattle.std.specs.String.{string_bytes};
ghost use Rattle.any_lock.specs.{access_refusal_text, mark_refusal_text};
ghost use Rattle.judge.specs.ReasonLines.{word_line};
ghost use Rattle.judge.specs.AnyReasons.{entry_if, inside_line, any_may_line, others_lines, pair_line, any_reason_lines as lines_of, any_refused_line, process_state_lines, wait_line, waits_from};

use crate::reason_lines::{push_bad, push_entry, push_number, push_stage};
use any_lock::{AccessRefusal, MarkRefusal, Reasons, Refused, Remedy, changed};
use model::Entry;
use plain_store::NestedTypes;
use std::alloc::{AllocError, Global};

/// Writes the reasons of a bad entry, which is in line `number`.
#[tactic(auto, using(crate::proofs::Texts::five))]
pub(crate) fn push_reasons(
    alloc: Global,
    number: u64,
    entry: &Entry,
    reasons: &Reasons,
    text: &mut Vec<u8>,
) -> Result<(), AllocError>
    ensures { OnOk result
        (text.new.items ≡ text.old.items ++ lines_of number entry.now reasons.now) }
{
    let _nested: NestedTypes = None;
    push_bad(alloc, number, entry, text)?;
    push_may(alloc, entry, &reasons.may, text)?;
    push_refused(alloc, &reasons.refused, text)?;
    push_process_state(alloc, reasons, text)?;
    push_others(alloc, reasons, text)
}

/// Writes the entry with the change after which it keeps all laws.
#[tactic(auto, using(crate::proofs::Texts::none))]
fn push_may(
    alloc: Global,
    entry: &Entry,
    may: &Option<Remedy>,
    text: &mut Vec<u8>,
) -> Result<(), AllocError>
    ensures { OnOk result (text.new.items ≡ text.old.items ++ any_may_line entry.now may.now) }
{
    let _nested: NestedTypes = None;
    match may {
        None => Ok(()),
        Some(change) => {
            let with = changed(alloc, entry, change)?;
            push_entry(alloc, "may", &with, text)
        }
    }
}

/// Writes why it is refused.
#[tactic(auto, using(crate::proofs::Texts::none))]
fn push_refused(
    alloc: Global,
    refused: &Option<Refused>,
    text: &mut Vec<u8>,
) -> Result<(), AllocError>
    ensures { OnOk result (text.new.items ≡ text.old.items ++ any_refused_line refused.now) }
{
    match refused {
        None => Ok(()),
        Some(Refused::Access(refusal)) => {
            let line = access_text(alloc, refusal)?;
            text.extend_from_slice(line.as_bytes())
        }
        Some(Refused::Marks(refusal)) => {
            let line = mark_text(alloc, refusal)?;
            text.extend_from_slice(line.as_bytes())
        }
    }
}

fn access_text(alloc: Global, refusal: &AccessRefusal) -> Result<String, AllocError>
    ensures { IfOk result
        (λ line. string_bytes line
        ≡ word_line (codes "refused") (access_refusal_text refusal.now)) }
{
    format!(in alloc; "refused {refusal}\n")
}

fn mark_text(alloc: Global, refusal: &MarkRefusal) -> Result<String, AllocError>
    ensures { IfOk result
        (λ line. string_bytes line ≡ word_line (codes "refused") (mark_refusal_text refusal.now)) }
{
    format!(in alloc; "refused {refusal}\n")
}

/// Writes the stage of its process, and what that has open or torn.
#[tactic(auto, using(crate::proofs::Texts::three))]
fn push_process_state(
    alloc: Global,
    reasons: &Reasons,
    text: &mut Vec<u8>,
) -> Result<(), AllocError>
    ensures { OnOk result (text.new.items ≡ text.old.items ++ process_state_lines reasons.now) }
{
    push_stage(alloc, reasons.stage, text)?;
    push_if(alloc, "open", reasons.opened, text)?;
    push_if(alloc, "torn", reasons.torn, text)
}

/// Writes the processes that are inside or ahead, and the begin of the doorway.
#[tactic(auto, using(crate::proofs::Texts::three))]
fn push_others(alloc: Global, reasons: &Reasons, text: &mut Vec<u8>) -> Result<(), AllocError>
    ensures { OnOk result (text.new.items ≡ text.old.items ++ others_lines reasons.now) }
{
    push_inside(alloc, reasons.inside, text)?;
    push_waits(alloc, &reasons.waits, text)?;
    push_if(alloc, "doorway", reasons.doorway, text)
}

/// Writes a word and the number of an entry, if there is one.
#[tactic(auto, using(crate::proofs::Texts::none))]
fn push_if(
    alloc: Global,
    word: &str,
    entry: Option<u64>,
    text: &mut Vec<u8>,
) -> Result<(), AllocError>
    ensures { OnOk result (text.new.items ≡ text.old.items ++ entry_if word.now entry) }
{
    match entry {
        None => Ok(()),
        Some(entry) => push_number(alloc, word, entry, text),
    }
}

/// Writes the process that is inside.
#[tactic(auto, using(crate::proofs::Texts::none))]
fn push_inside(
    alloc: Global,
    inside: Option<(u8, u64)>,
    text: &mut Vec<u8>,
) -> Result<(), AllocError>
    ensures { OnOk result (text.new.items ≡ text.old.items ++ inside_line inside) }
{
    match inside {
        None => Ok(()),
        Some((process, since)) => push_pair(alloc, "inside", u64::from(process), since, text),
    }
}

/// Writes the processes that are ahead.
fn push_waits(alloc: Global, waits: &[Option<u64>], text: &mut Vec<u8>) -> Result<(), AllocError>
    ensures { OnOk result (text.new.items ≡ text.old.items ++ waits_from 0 waits.now) }
{
    let mut process = 0;
    'waits: for wait in waits {
        push_wait(alloc, process, wait, text)?;
        process += 1;
    }
    Ok(())
}

#[tactic(auto, using(crate::proofs::Texts::none))]
fn push_wait(
    alloc: Global,
    process: u64,
    wait: &Option<u64>,
    text: &mut Vec<u8>,
) -> Result<(), AllocError>
    ensures { OnOk result (text.new.items ≡ text.old.items ++ wait_line process wait.now) }
{
    match wait {
        None => Ok(()),
        Some(entry) => push_pair(alloc, "waits", process, *entry, text),
    }
}

fn push_pair(
    alloc: Global,
    word: &str,
    process: u64,
    entry: u64,
    text: &mut Vec<u8>,
) -> Result<(), AllocError>
    ensures { OnOk result (text.new.items ≡ text.old.items ++ pair_line word.now process entry) }
{
    let line = pair_text(alloc, word, process, entry)?;
    text.extend_from_slice(line.as_bytes())
}

fn pair_text(alloc: Global, word: &str, process: u64, entry: u64) -> Result<String, AllocError>
    ensures { IfOk result (λ line. string_bytes line ≡ pair_line word.now process entry) }
{
    format!(in alloc; "{word} {process} {entry}\n")
}
