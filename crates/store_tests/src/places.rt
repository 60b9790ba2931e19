//! The numbers of the lines that are run.
use scenario::progress::{LinePosition, ProgressPoint};
use scenario::read_scenario;
use std::process::Abort;
use std::test::Fail;

// Skipped lines come before, between and after the other lines. The last three of those are run.
#[test]
fn reports_the_number_of_each_line_that_is_run(rt: HostRuntime) -> Result<(), Fail> {
    let file = "# a comment\nbakery 2\n\nprocesses 3\nopen a c:1\n \t# behind blanks\n\
        call 0 read a\r\n \t\n\tstep 0 1\n#show\n\r\nshow\n\n#";
    let scenario = read_scenario(rt.alloc(), file.as_bytes())?;
    assert!(rt; scenario.lines.len() == 3);
    let mut place = LinePosition::before(&scenario.numbers);
    assert!(rt; place.number() == 0);
    for (events, number) in [(0, 7), (1, 9), (2, 12)] {
        let ProgressPoint::Line(line) = place.begin_line(events) else {
            panic!(rt; "a line begins");
        };
        assert!(rt; line.number() == number && line.event_count() == events);
    }
    Ok(())
}
