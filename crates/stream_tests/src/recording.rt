//! A sink that fails during a record.
use crate::devices::{FailingSink, FailingSource, Taking};
use engines::run_record;
use files::Fault;
use files::progress::NoObserver;
use std::alloc::{AllocError, Global};
use std::test::Fail;

/// A process fails after its first access, which is recorded.
const FAILURE: &str = "bakery 1\ncall 0 read a\nstep 0 1\nfail 0\n";

/// The call of the sink that fails, and what the calls before it wrote.
const FRONTS: [(usize, &str); 3] = [
    (1, ""),
    (2, "record 1\nprocesses 2\ntickets 4\nstamps 4\nslots 1\n"),
    (
        3,
        "record 1\nprocesses 2\ntickets 4\nstamps 4\nslots 1\n0 : call read a\n",
    ),
];

/// The fault of recording to a sink whose call fails, and whether it took this text.
fn recorded(alloc: Global, call: usize, text: &str) -> Result<(Option<Fault>, bool), AllocError> {
    let mut input = FailingSource::new(FAILURE, usize::MAX);
    let mut output = FailingSink::new(alloc, Taking::All, Some((call, Taking::Failure)))?;
    let fault = run_record(alloc, &mut input, &mut output, &mut NoObserver).err();
    Ok((fault, output.written.as_slice() == text.as_bytes()))
}

// A record's lines before its entries are written by one call, and each entry by one.
#[test]
fn writes_each_entry_by_one_call(rt: HostRuntime) -> Result<(), Fail> {
    for (call, text) in &FRONTS {
        let (fault, is_written) = recorded(rt.alloc(), *call, text)?;
        assert!(rt; matches!(fault, Some(Fault::Write)), "{fault:?}");
        assert!(rt; is_written);
    }
    Ok(())
}
