//! Entries as lines: each line is read, and its entry is printed as that line again.
use model::Entry;
use record_file::{StepLine, print_entry, read_entry, read_step};
use scenario::FaultKind::{self, Words};
use std::alloc::{AllocError, Global};
use std::test::Fail;

/// Returns the entry of a line, whose words have single spaces between them.
fn read(alloc: Global, line: &str) -> Result<Entry, FaultKind> {
    let words: Vec<&[u8]> = line.as_bytes().split(|b| *b == b' ').collect(alloc)?;
    match words.as_slice() {
        [first, rest @ ..] => read_entry(alloc, first, rest),
        [] => Err(Words),
    }
}

/// Returns the printed entry of a line, without the end of the line; it is empty if the line is not an entry.
fn printed(alloc: Global, line: &str) -> Result<Vec<u8>, AllocError> {
    let mut printed = Vec::new(alloc);
    match read(alloc, line) {
        Ok(entry) => print_entry(alloc, &entry, &mut printed)?,
        Err(FaultKind::Memory) => return Err(AllocError),
        Err(_) => {}
    }
    printed.pop();
    Ok(printed)
}

/// Lines that are a step without a mark: each register, each move, and the greatest numbers.
const STEPS: [&str; 8] = [
    "1 0.choosing.7.2 write 0",
    "1 0.ticket.7.2 write 1",
    "1 0.commit.7.2 end",
    "1 0.stamp0.7.2 read",
    "1 0.stamp1.7.2 value 0",
    "1 0.image0.7.2 value 1",
    "1 0.image1.7.2 settle 0",
    "255 255.image1.65535.255 settle 1",
];

/// Lines of other entries: with marks, without an access, and without either.
const OTHERS: [&str; 4] = [
    "0",
    "255 : enter",
    "0 0.choosing.0.0 end : wait 1 : enter",
    "1 0.commit.0.1 settle 1 : settled 1 : taken 3 swapped : leave",
];

/// Returns whether the entry of a line is printed as that line.
fn is_printed(alloc: Global, line: &str) -> Result<bool, AllocError> {
    Ok(printed(alloc, line)?.as_slice() == line.as_bytes())
}

#[test]
fn entries_are_read_and_printed(rt: HostRuntime) -> Result<(), Fail> {
    for lines in [STEPS.as_slice(), OTHERS.as_slice()] {
        for line in lines {
            assert!(rt; is_printed(rt.alloc(), line)?, "{line}");
        }
    }
    Ok(())
}

/// Returns whether a line is read at once as a step without a mark, and printed as that line.
fn is_step(line: &str) -> bool {
    let Some((process, access)) = read_step(line.as_bytes()) else {
        return false;
    };
    let mut step = StepLine::new();
    step.print(process, access);
    step.as_bytes().strip_suffix(b"\n") == Some(line.as_bytes())
}

#[test]
fn steps_are_read_at_once(rt: HostRuntime) {
    for line in &STEPS {
        assert!(rt; is_step(line), "{line}");
    }
    for line in &OTHERS {
        assert!(rt; !is_step(line), "{line}");
    }
}
