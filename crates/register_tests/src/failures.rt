//! Doors that fail in the doorway, and the memory unit after them.
ghost use Rattle.std.specs.Prelude.{◌≡◌, ◌<◌, Ok};
ghost use Rattle.plain_store.specs.{checked};

use super::doors::{DoorSteps, read_lock, run_door};
use super::units::{UnitSteps, place_of, settle};
use bakery::{DataRow, Door, DoorProgress, Locks, Unit, UnitProgress};
use model::Field;
use plain_store::Setup;
use std::alloc::{AllocError, Global};

/// The outcome for a process that fails in its doorway, and for one that comes after it.
#[derive(Clone, Copy)]
struct Failure {
    /// The bit that it leaves torn.
    torn: Option<(Field, u16)>,
    /// The steps of its memory unit.
    unit: UnitSteps,
    /// Its lock after them.
    lock: (bool, u32),
    /// The steps of the door of process 1 after them.
    enters: DoorSteps,
}

/// Lets process 0 fail after `steps` steps of its doorway and settles its torn bit at `value`. Then process 1 enters. None if
/// the doorway has fewer steps.
fn falls(
    locks: &mut Locks,
    row: &mut DataRow,
    first: &mut Door,
    second: &mut Door,
    setup: &Setup,
    steps: u32,
    value: bool,
) -> Option<Failure>
    requires good { checked setup.now ≡ Ok tt }
    requires process { 0 < setup.now.processes }
    requires locks { setup.now ≡ locks.old.setup }
    requires row { setup.now ≡ row.old.setup }
    requires first { first.old.setup ≡ locks.old.setup }
    requires second { second.old.setup ≡ locks.old.setup }
{
    first.start();
    let doorway = run_door(first, locks, steps, true);
    if !doorway.goes() {
        return None;
    }
    let torn = first.fail(locks);
    let place = place_of(&torn);
    let mut unit = Unit::start(0, setup, torn);
    let made = settle(locks, row, 0, &mut unit, value);
    let lock = read_lock(locks, 0);
    second.start();
    let enters = run_door(second, locks, 100, true);
    Some(Failure {
        torn: place,
        unit: made,
        lock,
        enters,
    })
}

/// Lets two new processes fail and enter so.
fn fails_in_the_doorway(
    alloc: Global,
    steps: u32,
    value: bool,
) -> Result<Option<Failure>, AllocError> {
    let setup = Setup::one(2, 2, 2, 1);
    let mut locks = Locks::new(alloc, &setup)?;
    let mut row = DataRow::new(alloc, &setup)?;
    let mut first = Door::new(alloc, 0, &setup)?;
    let mut second = Door::new(alloc, 1, &setup)?;
    Ok(falls(
        &mut locks,
        &mut row,
        &mut first,
        &mut second,
        &setup,
        steps,
        value,
    ))
}

/// Returns the bit that is torn after `steps` of the twenty steps of a doorway. The first four write the choosing bit, the next
/// four read a ticket, the next eight write the two bits of the ticket, and the last four write the choosing bit again. No bit is
/// torn between two of these writes.
fn torn_after(steps: u32) -> Option<(Field, u16)> {
    match steps {
        1..=3 | 17..=19 => Some((Field::Choosing, 0)),
        9..=11 => Some((Field::Ticket, 0)),
        13..=15 => Some((Field::Ticket, 1)),
        _ => None,
    }
}

// The unit settles the bit with three accesses where a write of one of its two copies is open, and with four where none is. Then eight
// accesses clear the ticket and four the choosing bit, and the process is down. The lock of process 0 is then as it was at first,
// so that process 1 takes the ticket 1, and is inside after six more accesses.
#[test]
fn a_doorway_fails_after_each_step(rt: HostRuntime) -> Result<(), AllocError> {
    for steps in 0..20 {
        for value in [false, true] {
            let Some(made) = fails_in_the_doorway(rt.alloc(), steps, value)? else {
                panic!(rt; "the run comes to its end too early");
            };
            let settling: u32 = match torn_after(steps) {
                None => 0,
                Some(_) if steps % 2 == 1 => 3,
                Some(_) => 4,
            };
            assert!(rt; made.torn == torn_after(steps), "after {steps} steps");
            assert!(rt; made.unit.settling == settling.saturating_sub(1));
            assert!(rt; made.unit.clearing == 11 + u32::from(settling > 0));
            assert!(rt; matches!(made.unit.last, Some(UnitProgress::Down)));
            assert!(rt; made.lock == (false, 0));
            assert!(rt;
                matches!(
                    made.enters,
                    DoorSteps {
                        doorway: 19,
                        waiting: 6,
                        last: Some(DoorProgress::Inside(1))
                    }
                )
            );
        }
    }
    Ok(())
}
