//! Each read and each write of an engine fails in turn.
use crate::devices::{FailingSink, FailingSource, Taking};
use crate::runs::{FAULTY, FaultyFile, FileEngine, GOOD, GoodFile, run};
use files::Fault;
use std::alloc::AllocError;
use std::process::Abort;
use std::test::Fail;

/// A number of bytes after which no read of a test fails.
const NEVER: usize = usize::MAX;

/// Asserts that an engine returns a read fault if the read after `fails_after` bytes fails. It reads and writes nothing after
/// that.
fn assert_read_fault(
    rt: &(impl Abort + AllocGlobal),
    engine: FileEngine,
    file: &str,
    fails_after: usize,
) -> Result<(), AllocError> {
    let mut input = FailingSource::new(file, fails_after);
    let mut output = FailingSink::new(rt.alloc(), Taking::All, None)?;
    let ran = run(rt.alloc(), engine, &mut input, &mut output);
    assert!(rt;
        matches!(ran, Err(Fault::Read)),
        "{engine:?}, {fails_after}: {ran:?}"
    );
    assert!(rt;
        input.read == fails_after && output.calls == 0,
        "{engine:?}, {fails_after}"
    );
    Ok(())
}

/// Asserts this for each number of bytes, up to the length of the file.
fn assert_read_faults(
    rt: &(impl Abort + AllocGlobal),
    engine: FileEngine,
    file: &str,
) -> Result<(), AllocError> {
    for fails_after in 0..=file.len() {
        assert_read_fault(rt, engine, file, fails_after)?;
    }
    Ok(())
}

// The source fails after each number of bytes. Files with a fault are read to their end too, before the fault is found.
#[test]
fn failed_reads_are_reported(rt: HostRuntime) -> Result<(), Fail> {
    for good in &GOOD {
        assert_read_faults(&rt, good.engine, good.file)?;
    }
    for faulty in &FAULTY {
        assert_read_faults(&rt, faulty.engine, faulty.file)?;
    }
    Ok(())
}

/// Asserts that an engine writes its whole text by calls of this kind, and returns the number of calls.
fn calls_for_text(
    rt: &(impl Abort + AllocGlobal),
    good: &GoodFile,
    usual: Taking,
) -> Result<usize, AllocError> {
    let GoodFile { engine, file, text } = *good;
    let mut input = FailingSource::new(file, NEVER);
    let mut output = FailingSink::new(rt.alloc(), usual, None)?;
    let ran = run(rt.alloc(), engine, &mut input, &mut output);
    assert!(rt; matches!(ran, Ok(0)), "{engine:?}: {ran:?}");
    assert!(rt; output.written.as_slice() == text.as_bytes(), "{engine:?}");
    Ok(output.calls)
}

/// Asserts that an engine returns a write fault if a call fails or takes no byte. That call is the last one, and the earlier
/// calls wrote a prefix of the text.
fn assert_write_fault(
    rt: &(impl Abort + AllocGlobal),
    good: &GoodFile,
    usual: Taking,
    call: usize,
    odd: Taking,
) -> Result<(), AllocError> {
    let GoodFile { engine, file, text } = *good;
    let mut input = FailingSource::new(file, NEVER);
    let mut output = FailingSink::new(rt.alloc(), usual, Some((call, odd)))?;
    let ran = run(rt.alloc(), engine, &mut input, &mut output);
    assert!(rt;
        matches!(ran, Err(Fault::Write)),
        "{engine:?}, {call} {odd:?}: {ran:?}"
    );
    let written = output.written.as_slice();
    assert!(rt;
        output.calls == call && written.len() < text.len(),
        "{engine:?}, {call} {odd:?}"
    );
    assert!(rt;
        text.as_bytes().starts_with(written),
        "{engine:?}, {call} {odd:?}"
    );
    Ok(())
}

// The sink fails at each call in turn, or takes no byte there. Its other calls take all bytes, or one.
#[test]
fn failed_writes_are_reported(rt: HostRuntime) -> Result<(), Fail> {
    for good in &GOOD {
        for usual in [Taking::All, Taking::One] {
            for call in 1..=calls_for_text(&rt, good, usual)? {
                assert_write_fault(&rt, good, usual, call, Taking::Failure)?;
                assert_write_fault(&rt, good, usual, call, Taking::Nothing)?;
            }
        }
    }
    Ok(())
}

// A sink that takes one byte per call receives the whole text.
#[test]
fn texts_are_written_byte_by_byte(rt: HostRuntime) -> Result<(), Fail> {
    for good in &GOOD {
        let calls = calls_for_text(&rt, good, Taking::One)?;
        assert!(rt; calls == good.text.len(), "{:?}: {calls}", good.engine);
    }
    Ok(())
}

/// Asserts that an engine returns the first fault of a file, and writes nothing to a sink of this kind.
fn assert_line_fault(
    rt: &(impl Abort + AllocGlobal),
    faulty: &FaultyFile,
    usual: Taking,
) -> Result<(), AllocError> {
    let FaultyFile {
        engine,
        file,
        line,
        kind,
    } = *faulty;
    let mut input = FailingSource::new(file, NEVER);
    let mut output = FailingSink::new(rt.alloc(), usual, None)?;
    let ran = run(rt.alloc(), engine, &mut input, &mut output);
    let is_found =
        matches!(ran, Err(Fault::Line(fault)) if fault.line == line && fault.kind == kind);
    assert!(rt; is_found, "{engine:?}: {ran:?}");
    assert!(rt; output.calls == 0, "{engine:?}");
    Ok(())
}

// The fault of a line is returned before anything is written, whatever the sink does.
#[test]
fn line_faults_are_reported(rt: HostRuntime) -> Result<(), Fail> {
    for faulty in &FAULTY {
        for usual in [Taking::All, Taking::One, Taking::Nothing, Taking::Failure] {
            assert_line_fault(&rt, faulty, usual)?;
        }
    }
    Ok(())
}
