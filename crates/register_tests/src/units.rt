//! The memory unit on registers.
ghost use Rattle.std.specs.Prelude.{◌≡◌, ◌<◌, true};
ghost use Rattle.bakery.specs.process.{may_step};
ghost use Rattle.register_tests.specs.Steps.{is_down};

use bakery::{Data, DataRow, Lock, Locks, Unit, UnitProgress};
use model::{Access, Field, Move, TornBit};
use plain_store::Setup;
use std::alloc::{AllocError, Global};

/// The first step of the unit of a process that failed before its first access.
fn first_step(alloc: Global) -> Result<(Access, UnitProgress), AllocError> {
    let setup = Setup::one(1, 1, 2, 1);
    let mut locks = Locks::new(alloc, &setup)?;
    let mut row = DataRow::new(alloc, &setup)?;
    let mut unit = Unit::start(0, &setup, None);
    Ok(unit.step(locks.own(0), row.own(0), true))
}

// On the registers of a process that failed before its first access, the unit begins to clear the ticket.
#[test]
fn clears_the_registers(rt: HostRuntime) -> Result<(), AllocError> {
    let (access, reported) = first_step(rt.alloc())?;
    assert!(rt;
        matches!(
            access,
            Access {
                owner: 0,
                field: Field::Ticket,
                bit: 0,
                reader: 0,
                how: Move::BeginWrite(false),
            }
        )
    );
    assert!(rt; matches!(reported, UnitProgress::Clearing));
    Ok(())
}

/// The outcome of the steps of a memory unit.
#[derive(Clone, Copy)]
pub struct UnitSteps {
    /// How many of them left something to settle.
    pub settling: u32,
    /// How many of them left something to clear.
    pub clearing: u32,
    /// The work that remained after the last step, if there was one.
    pub last: Option<UnitProgress>,
}

impl UnitSteps {
    /// No steps.
    fn none() -> UnitSteps {
        UnitSteps {
            settling: 0,
            clearing: 0,
            last: None,
        }
    }

    /// Those and one more, which left this.
    fn with(self, progress: UnitProgress) -> UnitSteps {
        let (settling, clearing) = match progress {
            UnitProgress::Settling => (self.settling.saturating_add(1), self.clearing),
            UnitProgress::Clearing => (self.settling, self.clearing.saturating_add(1)),
            UnitProgress::Down => (self.settling, self.clearing),
        };
        UnitSteps {
            settling,
            clearing,
            last: Some(progress),
        }
    }
}

/// Makes at most `most` steps of a memory unit, and fewer where its process is down: the first at this flick, and all others at
/// the other one.
pub fn run_unit(
    unit: &mut Unit,
    lock: &mut Lock,
    versions: &mut Data,
    most: u32,
    flick: bool,
) -> UnitSteps
    requires going { may_step unit.old.doing ≡ true }
    requires lock { unit.old.setup ≡ lock.old.memory.setup }
    requires versions { unit.old.setup ≡ versions.old.memory.setup }
    ensures lock { lock.new.memory.setup ≡ lock.old.memory.setup }
    ensures versions { versions.new.memory.setup ≡ versions.old.memory.setup }
{
    let mut steps = UnitSteps::none();
    let mut next = flick;
    for _made in 0..most {
        let (_, progress) = unit.step(lock, versions, next);
        steps = steps.with(progress);
        if is_down(progress) {
            return steps;
        }
        next = !flick;
    }
    steps
}

/// Whether a process is down after a step of its unit that left this.
pub fn is_down(progress: UnitProgress) -> bool
    ensures { result ≡ is_down progress }
{
    matches!(progress, UnitProgress::Down)
}

/// Makes at most 100 steps of the memory unit of a process, and fewer where the process is down: the first at this flick, and all
/// others at the other one.
pub fn settle(
    locks: &mut Locks,
    row: &mut DataRow,
    process: u8,
    unit: &mut Unit,
    flick: bool,
) -> UnitSteps
    requires process { process < unit.old.setup.processes }
    requires going { may_step unit.old.doing ≡ true }
    requires locks { unit.old.setup ≡ locks.old.setup }
    requires row { unit.old.setup ≡ row.old.setup }
    ensures locks { locks.new.setup ≡ locks.old.setup }
    ensures row { row.new.setup ≡ row.old.setup }
{
    run_unit(unit, locks.own(process), row.own(process), 100, flick)
}

/// The register of a torn bit, and its number.
pub fn place_of(torn: &Option<TornBit>) -> Option<(Field, u16)> {
    match torn {
        Some(torn) => Some((torn.field, torn.bit)),
        None => None,
    }
}
