//! Steps on real registers.
use bakery::{Door, DoorProgress, Leaving, Locks};
use model::{Access, Field, Move};
use plain_store::Setup;
use reader_copies::{Made, Progress};
use std::alloc::{AllocError, Global};

/// The first access of process 1 that gives up waiting, and the bit that is torn where it fails there, if it goes on.
fn leaves(alloc: Global) -> Result<(Access, Option<(Field, u16)>), AllocError> {
    let setup = Setup::one(2, 2, 2, 1);
    let mut locks = Locks::new(alloc, &setup)?;
    let mut leaving = Leaving::new(1, &setup);
    let (access, progress) = leaving.step(locks.own(1));
    let Progress::Going = progress else {
        return Ok((access, None));
    };
    let torn = leaving.fail();
    Ok((access, torn.map(|torn| (torn.field, torn.bit))))
}

// On registers, a step makes the access that its cursor reports, and a failure reports the bit whose write has
// begun.
#[test]
fn steps_on_registers(rt: HostRuntime) -> Result<(), AllocError> {
    let (access, torn) = leaves(rt.alloc())?;
    assert!(rt;
        matches!(
            access,
            Access {
                owner: 1,
                field: Field::Ticket,
                bit: 0,
                reader: 0,
                how: Move::BeginWrite(false),
            }
        )
    );
    assert!(rt; matches!(torn, Some((Field::Ticket, 0))));
    Ok(())
}

/// The first access of the door of process 0; and where the doorway goes on and the process halts there, the torn bit, and the
/// access that begins to settle it at 0.
fn halts(alloc: Global) -> Result<(Access, Option<(Field, u16, Made)>), AllocError> {
    let setup = Setup::one(2, 2, 2, 1);
    let mut locks = Locks::new(alloc, &setup)?;
    let mut door = Door::new(alloc, 0, &setup)?;
    door.start();
    let (access, reported) = door.step(&mut locks, true);
    let DoorProgress::Doorway = reported else {
        return Ok((access, None));
    };
    let Some(torn) = door.fail(&mut locks) else {
        return Ok((access, None));
    };
    Ok((access, Some((torn.field, torn.bit, torn.torn.next(false)))))
}

// A door's step on registers begins the announcement on the copy of process 0. Where the process halts there,
// the bit is torn, and is settled on that copy by one access.
#[test]
fn door_on_registers(rt: HostRuntime) -> Result<(), AllocError> {
    let (access, torn) = halts(rt.alloc())?;
    assert!(rt;
        matches!(
            access,
            Access {
                owner: 0,
                field: Field::Choosing,
                bit: 0,
                reader: 0,
                how: Move::BeginWrite(true),
            }
        )
    );
    let settled = Made {
        reader: 0,
        how: Move::Settle(false),
    };
    assert!(rt; matches!(torn, Some((Field::Choosing, 0, next)) if next == settled));
    Ok(())
}
