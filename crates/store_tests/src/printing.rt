//! Scenarios as text.
use scenario::{Scenario, print_scenario, read_scenario};
use std::alloc::Global;
use std::test::Fail;

// Worked examples, each with its printed text: all headings, and single spaces.
const PRINTED: [(&str, &str); 5] = [
    (
        "bakery 1\n# x\nslots 2\n  call 0  add a -3\n",
        "bakery 1\nprocesses 2\ntickets 4\nstamps 4\nslots 2\ncall 0 add a -3\n",
    ),
    (
        "bakery 1\nprocesses 1\ntickets 2\nstamps 2\ncall 0 write a c:5\ngo 0 idle\nshow\n",
        "bakery 1\nprocesses 1\ntickets 2\nstamps 2\nslots 1\ncall 0 write a c:5\ngo 0 idle\nshow\n",
    ),
    (
        "bakery 1\ntickets 2\nstamps 2\ncall 0 write a c:5\nstep 0 1152\nfail 0\nflick 1\n\
            go 0 down\ncall 1 read a\ngo 1 idle\n",
        "bakery 1\nprocesses 2\ntickets 2\nstamps 2\nslots 1\ncall 0 write a c:5\nstep 0 1152\nfail 0\nflick 1\n\
            go 0 down\ncall 1 read a\ngo 1 idle\n",
    ),
    (
        "bakery 1\ntickets 2\nstamps 2\ncall 0 read a\ngo 0 wait\ncall 1 read a\ngo 1 wait\nstep 0 1\n\
            withdraw 0\ngo 0 idle\ngo 1 inside\nwithdraw 1\n",
        "bakery 1\nprocesses 2\ntickets 2\nstamps 2\nslots 1\ncall 0 read a\ngo 0 wait\ncall 1 read a\ngo 1 wait\n\
            step 0 1\nwithdraw 0\ngo 0 idle\ngo 1 inside\nwithdraw 1\n",
    ),
    (EACH, EACH),
];

// A file that has each kind of line prints as itself.
const EACH: &str = "bakery 2\nprocesses 3\ntickets 32\nstamps 1\nslots 2\nopen a c:-1\nopen b t:\n\
    call 0 read a\ncall 1 write b t:x\ncall 2 add a -9223372036854775808\n\
    call 0 cas a c:5 t:~\ncall 255 ask\nstep 9 100000\ngo 0 wait\ngo 1 inside\ngo 2 idle\n\
    go 0 down\nfail 0\nwithdraw 1\nrestart 0\nflick 0\nflick 1\n\
    flick pcg 18446744073709551615\nwander 0\nshow\n";

/// Returns whether a file prints as this text.
fn prints(alloc: Global, text: &str, printed: &str) -> Result<bool, Fail> {
    let scenario = read_scenario(alloc, text.as_bytes())?;
    Ok(print_scenario(alloc, &scenario)?.as_slice() == printed.as_bytes())
}

#[test]
fn prints_scenarios(rt: HostRuntime) -> Result<(), Fail> {
    for (text, printed) in &PRINTED {
        assert!(rt; prints(rt.alloc(), text, printed)?, "{printed}");
    }
    Ok(())
}

// If a scenario made by hand is printed and read again, its lines have the numbers that they had.
#[test]
fn numbers_lines_as_they_are_printed(rt: HostRuntime) -> Result<(), Fail> {
    let read = read_scenario(rt.alloc(), EACH.as_bytes())?;
    let made = Scenario::new(rt.alloc(), read.setup, read.lines)?;
    assert!(rt; made.numbers.as_slice() == read.numbers.as_slice());
    assert!(rt; made.numbers.first() == Some(&8));
    assert!(rt; print_scenario(rt.alloc(), &made)?.as_slice() == EACH.as_bytes());
    Ok(())
}
