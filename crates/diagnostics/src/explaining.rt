//! The lines that explain a fault.
use crate::kept::StoredFile;
use crate::kinds::FileKind;
use crate::lines::{Span, SplitLine};
use crate::places::FileWithFault;
use crate::traces::FaultyTrace;
use bstr::ByteSlice;
use files::{FaultKind, FromLines, LineFault, read_any_line};
use plain_store::{NestedTypes, Setup};
use record_file::RecordReader;
use scenario::Reader;
use scenario::bit_files::BitsReader;
use std::alloc::{AllocError, Global};
use trace_file::TraceReader;

/// Returns the lines that explain a fault of a file of this kind, of which `kept` was kept: the line, carets under the word,
/// and what was expected. If no such line was kept, it returns only what was expected. The text is empty if the fault is an
/// allocation failure, or if an allocation failed while the file was kept.
///
/// # Errors
///
/// Returns [`AllocError`] if an allocation fails.
pub fn explanation(
    alloc: Global,
    kind: FileKind,
    kept: &StoredFile,
    fault: &LineFault,
) -> Result<String, AllocError> {
    let mut text = String::new(alloc);
    if fault.kind != FaultKind::Memory && kept.is_whole() {
        add_explanation(alloc, kind, kept, fault, &mut text)?;
    }
    Ok(text)
}

/// Adds the lines that explain a fault.
fn add_explanation(
    alloc: Global,
    kind: FileKind,
    kept: &StoredFile,
    fault: &LineFault,
    text: &mut String,
) -> Result<(), AllocError> {
    let Some(bytes) = kept.line(fault.line) else {
        text.push_str("expected ")?;
        kind.add_all_first_lines(text)?;
        return text.push_str(" as the first line\n");
    };
    let faulty = FileWithFault {
        alloc,
        kind,
        setup: setup_before(alloc, kind, kept.front(), fault.line)?,
        fault: fault.kind,
    };
    let line = SplitLine::new(alloc, bytes)?;
    let mut what = String::new(alloc);
    let mut read: Option<TraceReader> = None;
    if let FileKind::Trace = kind {
        read_before(alloc, kept.front(), fault.line, &mut read)?;
    }
    let place = match &read {
        Some(read) => FaultyTrace { faulty, read }.place(&line, fault.line, &mut what)?,
        None => faulty.place(&line, fault.line, &mut what)?,
    };
    match place {
        Some(span) => add_place(&line, span, what.as_str(), text),
        None => Ok(()),
    }
}

/// Adds a line, carets under some of its bytes, and what was expected there.
fn add_place(
    line: &SplitLine<'_>,
    span: Span,
    what: &str,
    text: &mut String,
) -> Result<(), AllocError> {
    line.show(span, text)?;
    write!(text, "expected {what}\n")
}

/// Returns the setup that the lines before the line with this number declare, as the grammar of the file reads them.
fn setup_before(
    alloc: Global,
    kind: FileKind,
    front: &[u8],
    number: u64,
) -> Result<Option<Setup>, AllocError> {
    match kind {
        FileKind::Scenario => scenario_setup(alloc, front, number),
        FileKind::Record => record_setup(alloc, front, number),
        FileKind::Bits => bits_setup(alloc, front, number),
        FileKind::Trace => Ok(None),
    }
}

fn scenario_setup(alloc: Global, front: &[u8], number: u64) -> Result<Option<Setup>, AllocError> {
    let _nested: NestedTypes = None;
    let mut read: Option<Reader> = None;
    read_before(alloc, front, number, &mut read)?;
    Ok(match &read {
        Some(read) => Some(*read.setup()),
        None => None,
    })
}

fn record_setup(alloc: Global, front: &[u8], number: u64) -> Result<Option<Setup>, AllocError> {
    let _nested: NestedTypes = None;
    let mut read: Option<RecordReader> = None;
    read_before(alloc, front, number, &mut read)?;
    Ok(match &read {
        Some(read) => Some(*read.setup()),
        None => None,
    })
}

fn bits_setup(alloc: Global, front: &[u8], number: u64) -> Result<Option<Setup>, AllocError> {
    let mut read: Option<BitsReader> = None;
    read_before(alloc, front, number, &mut read)?;
    Ok(match &read {
        Some(_) => Some(Setup::one(1, 1, 1, 1)),
        None => None,
    })
}

/// Reads the lines before the line with this number.
fn read_before<T: FromLines>(
    alloc: Global,
    front: &[u8],
    number: u64,
    read: &mut Option<T>,
) -> Result<(), AllocError> {
    let mut at: u64 = 1;
    for line in front.lines() {
        if at >= number {
            return Ok(());
        }
        at = at.saturating_add(1);
        match read_any_line(alloc, line, read) {
            Ok(()) => {}
            Err(FaultKind::Memory) => return Err(AllocError),
            Err(_) => return Ok(()),
        }
    }
    Ok(())
}
