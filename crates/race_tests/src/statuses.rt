//! The exit statuses of a race.
use race::{RaceFault, Weighed, race_status};
use std::test::Fail;

#[test]
fn gives_the_status_of_a_race(rt: HostRuntime) -> Result<(), Fail> {
    for (raced, status) in &[
        (Ok(Weighed::Good), 0),
        (Ok(Weighed::Bad(1, 0)), 3),
        (Ok(Weighed::BadEnd), 3),
        (Err(RaceFault::Held(1)), 3),
        (Err(RaceFault::Memory), 4),
        (Err(RaceFault::Spawn), 4),
    ] {
        assert!(rt; race_status(raced) == *status);
    }
    Ok(())
}
