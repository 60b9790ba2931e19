//! The lines of the reasons of a bad verdict on a record of this project's lock.
ghost use Rattle.std.specs.Prelude.{◌≡◌, ◌++◌, [], IfOk, OnOk, codes};
ghost use Rattle.model.specs.declared.events.Event.TheVariants.{Step};
ghost use Rattle.model.specs.{entry_of, refusal_text as text_of_refusal};
ghost use Rattle.files.specs.{GivesText};
ghost use Rattle.judge.specs.ReasonLines.{word_line};
ghost use Rattle.judge.specs.Reasons.{Writes, event_or_step, is_crowded, may_line as line_of_may, may_lines, reason_lines, refusal_line, refused_line, without_twin};

use crate::reason_lines::{push_bad, push_entry, push_stage, push_word};
use auditor::{Auditor, event_in, reports_event};
use model::{Act, Entry, Event, Refusal, Stage};
use plain_store::NestedTypes;
use std::alloc::{AllocError, Global};

/// Writes the reasons of a bad entry, which is in line `number`. The auditor has observed the entries before it.
pub(crate) fn push_reasons(
    alloc: Global,
    number: u64,
    entry: &Entry,
    auditor: &Auditor,
    lines: &mut Vec<u8>,
) -> Result<(), AllocError>
    ensures { OnOk result (Writes auditor.now (λ s past. reason_lines s past number entry.now)
        lines.old.items lines.new.items) }
{
    push_bad(alloc, number, entry, lines)?;
    push_may(alloc, entry.process, auditor, lines)?;
    push_refused(alloc, entry, auditor, lines)?;
    push_stage(alloc, auditor.stage(entry.process), lines)
}

/// Writes the entry that a Step of a process adds: with flick 0, and with flick 1 if that is another entry.
fn push_may(
    alloc: Global,
    process: u8,
    auditor: &Auditor,
    lines: &mut Vec<u8>,
) -> Result<(), AllocError>
    ensures lines { OnOk result (Writes auditor.now (λ s past. may_lines s past process)
        lines.old.items lines.new.items) }
{
    let with_0 = stepped_line(alloc, process, false, auditor)?;
    let with_1 = stepped_line(alloc, process, true, auditor)?;
    push_both(&with_0, &with_1, lines)
}

/// Returns the line of the entry that a Step of a process adds with this flick.
fn stepped_line(
    alloc: Global,
    process: u8,
    flick: bool,
    auditor: &Auditor,
) -> Result<Vec<u8>, AllocError>
    ensures line { IfOk result
        (λ line. Writes auditor.now (λ s past. line_of_may (entry_of s past (Step process flick)))
        [] line.items) }
{
    may_line(alloc, &auditor.stepped(process, flick))
}

/// Returns the line of an entry, if there is one.
fn may_line(alloc: Global, entry: &Option<Entry>) -> Result<Vec<u8>, AllocError>
    ensures { IfOk result (λ line. line.items ≡ line_of_may entry.now) }
{
    let _nested: NestedTypes = None;
    let mut line = Vec::new(alloc);
    if let Some(entry) = entry {
        push_entry(alloc, "may", entry, &mut line)?;
    }
    Ok(line)
}

/// Writes a line and another one, unless they are equal.
fn push_both(line: &[u8], other: &[u8], lines: &mut Vec<u8>) -> Result<(), AllocError>
    ensures { OnOk result (lines.new.items ≡ lines.old.items ++ without_twin line.now other.now) }
{
    lines.extend_from_slice(line)?;
    if line == other {
        return Ok(());
    }
    lines.extend_from_slice(other)
}

/// Writes why an entry is refused, if it is: by the event of its mark, or otherwise by a Step. If the mark of such an event
/// has an access or another mark next to it, the refusal is that it is not alone.
fn push_refused(
    alloc: Global,
    entry: &Entry,
    auditor: &Auditor,
    lines: &mut Vec<u8>,
) -> Result<(), AllocError>
    ensures { OnOk result (Writes auditor.now (λ s past. refused_line s past entry.now)
        lines.old.items lines.new.items) }
{
    if is_crowded(auditor.stage(entry.process), entry) {
        return push_word(alloc, "refused", "not-alone", lines);
    }
    push_refusal(alloc, &auditor.refusal(&event_or_step(entry)), lines)
}

/// Returns whether the mark of an event other than a Step is not alone, in an entry of a process that exists.
fn is_crowded(stage: Option<Stage>, entry: &Entry) -> bool
    ensures { result ≡ is_crowded stage entry.now }
{
    let Act { access, marks } = &entry.act;
    stage.is_some() && event_in(entry.process, access, marks).is_none() && reports_event(marks)
}

/// Returns the event of an entry: that of its mark, or otherwise a Step.
fn event_or_step(entry: &Entry) -> Event
    ensures { result ≡ event_or_step entry.now }
{
    let Act { access, marks } = &entry.act;
    event_in(entry.process, access, marks).unwrap_or(Event::Step(entry.process, false))
}

/// Writes a refusal, if there is one.
fn push_refusal(
    alloc: Global,
    refusal: &Option<Refusal>,
    lines: &mut Vec<u8>,
) -> Result<(), AllocError>
    ensures { OnOk result (lines.new.items ≡ lines.old.items ++ refusal_line refusal.now) }
{
    match refusal {
        None => Ok(()),
        Some(refusal) => {
            let line = refusal_text(alloc, refusal)?;
            lines.extend_from_slice(line.as_bytes())
        }
    }
}

fn refusal_text(alloc: Global, refusal: &Refusal) -> Result<String, AllocError>
    ensures { GivesText result (word_line (codes "refused") (text_of_refusal refusal.now)) }
{
    format!(in alloc; "refused {refusal}\n")
}
