//! The verdict of a report.
ghost use Rattle.std.specs.Prelude.{◌≡◌, ◌++◌, ◌∷◌, [], codes, map, IfOk, OnOk, option_map};
ghost use Rattle.shown_verdict.specs.Lines.{report_lines};
ghost use Rattle.shown_verdict.specs.Verdicts.{bad_entry as entry_named, judged_line as line_judged, last_line as line_last, other_pointer as pointed_other, own_pointer as pointed_own, pointer_of as pointed, seen_line, seen_verdict, verdict_lines as lines_of_verdict, verdict_of};
ghost use Rattle.shown_verdict.specs.declared.verdicts.VerdictLine.{VerdictLine as Line};

use crate::lines::{behind, behind_space, number_of, process_of, text_behind};
use crate::sentences::sentence_of;
use crate::verdicts::{FirstBadEntry, Pointer, PointerKind, ShownVerdict, VerdictLine};
use bstr::ByteSlice;
use std::alloc::{AllocError, Global};

/// Returns the verdict of a report, which is what `judge --why` prints. Its last line is `last`, the last line of the picture.
/// The line `source` of the page's list makes all of them.
///
/// # Errors
///
/// Returns [`AllocError`] if memory is lacking.
pub fn verdict_of(
    alloc: Global,
    source: u64,
    report: &[u8],
    last: &[u8],
) -> Result<ShownVerdict, AllocError>
    ensures { IfOk result
        (λ verdict. seen_verdict verdict ≡ verdict_of source (report_lines report.now) last.now) }
{
    let bad = bad_entry(report);
    Ok(ShownVerdict {
        source,
        bad,
        sentence: sentence_of(alloc, report)?,
        lines: lines_of(alloc, bad, report, last)?,
    })
}

/// Returns the lines of a verdict.
fn lines_of(
    alloc: Global,
    bad: Option<FirstBadEntry>,
    report: &[u8],
    last: &[u8],
) -> Result<Vec<VerdictLine>, AllocError>
    ensures { IfOk result
        (λ lines. map seen_line lines.items
        ≡ lines_of_verdict bad (report_lines report.now) last.now) }
{
    let mut lines = Vec::new(alloc);
    for words in report.lines() {
        lines.push(judged_line(alloc, bad, words)?)?;
    }
    lines.push(last_line(alloc, last)?)?;
    Ok(lines)
}

/// Returns a line of the judge.
fn judged_line(
    alloc: Global,
    bad: Option<FirstBadEntry>,
    words: &[u8],
) -> Result<VerdictLine, AllocError>
    ensures { IfOk result (λ line. seen_line line ≡ line_judged bad words.now) }
{
    let mut title = Vec::new(alloc);
    title.extend_from_slice(b"judge ")?;
    title.extend_from_slice(words)?;
    Ok(VerdictLine {
        title,
        words: copied(alloc, words)?,
        points: pointer_of(bad, words),
    })
}

/// Returns the last line of the picture.
fn last_line(alloc: Global, last: &[u8]) -> Result<VerdictLine, AllocError>
    ensures { IfOk result (λ line. seen_line line ≡ line_last last.now) }
{
    Ok(VerdictLine {
        title: copied(alloc, last)?,
        words: copied(alloc, last)?,
        points: None,
    })
}

/// Returns a copy of a text.
fn copied(alloc: Global, text: &[u8]) -> Result<Vec<u8>, AllocError>
    ensures { IfOk result (λ copy. copy.items ≡ text.now) }
{
    let mut copy = Vec::new(alloc);
    copy.extend_from_slice(text)?;
    Ok(copy)
}

/// Returns the entry that breaks a law, if the lines name it and its process.
fn bad_entry(report: &[u8]) -> Option<FirstBadEntry>
    ensures { result ≡ entry_named (report_lines report.now) }
{
    let bad = text_behind(b"bad ", report);
    let is = text_behind(b"is ", report);
    match (bad, is) {
        (Some(bad), Some(is)) => Some(FirstBadEntry {
            entry: number_of(bad),
            process: process_of(is),
        }),
        _ => None,
    }
}

/// Returns what a line names, if it names anything.
fn pointer_of(bad: Option<FirstBadEntry>, line: &[u8]) -> Option<Pointer>
    ensures { result ≡ pointed bad line.now }
{
    let waits = other_pointer(PointerKind::Waits, b"waits ", line);
    let inside = other_pointer(PointerKind::Inside, b"inside ", line);
    let doorway = own_pointer(PointerKind::Doorway, b"doorway ", bad, line);
    let open = own_pointer(PointerKind::Open, b"open ", bad, line);
    let torn = own_pointer(PointerKind::Torn, b"torn ", bad, line);
    waits.or(inside.or(doorway.or(open.or(torn))))
}

/// Returns what a line `WORD Q K` names: process Q since entry K.
fn other_pointer(kind: PointerKind, word: &[u8], line: &[u8]) -> Option<Pointer>
    ensures { result ≡ pointed_other kind word.now line.now }
{
    match behind(word, line) {
        Some(rest) => Some(Pointer {
            kind,
            process: process_of(rest),
            since: number_of(behind_space(rest)),
        }),
        None => None,
    }
}

/// Returns what a line `WORD K` names: the process of the bad entry since entry K.
fn own_pointer(
    kind: PointerKind,
    word: &[u8],
    bad: Option<FirstBadEntry>,
    line: &[u8],
) -> Option<Pointer>
    ensures { result ≡ pointed_own kind word.now bad line.now }
{
    let Some(bad) = bad else {
        return None;
    };
    match behind(word, line) {
        Some(rest) => Some(Pointer {
            kind,
            process: bad.process,
            since: number_of(rest),
        }),
        None => None,
    }
}
