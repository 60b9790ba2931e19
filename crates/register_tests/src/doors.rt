//! Doors, and the clearing of tickets, driven to their end on registers.
ghost use Rattle.std.specs.Prelude.{◌≡◌, ◌<◌, true, None, Ok, Some};
ghost use Rattle.plain_store.specs.{checked};
ghost use Rattle.bakery.specs.process.{may_step};
ghost use Rattle.bakery.specs.Doors.{goes_on, is_going, is_waiting};
ghost use Rattle.register_tests.specs.Steps.{door_goes, door_waits};

use bakery::{Door, DoorProgress, Leaving, Lock, Locks};
use plain_store::Setup;
use reader_copies::Progress;
use std::alloc::{AllocError, Global};

/// The outcome of the steps of a door.
#[derive(Clone, Copy)]
pub struct DoorSteps {
    /// How many of them led to the doorway.
    pub doorway: u32,
    /// How many of them led to waiting.
    pub waiting: u32,
    /// The outcome of the last step, if there was one.
    pub last: Option<DoorProgress>,
}

impl DoorSteps {
    /// No steps.
    fn none() -> DoorSteps
        ensures { result.last ≡ None }
    {
        DoorSteps {
            doorway: 0,
            waiting: 0,
            last: None,
        }
    }

    /// Those and one more, which led to this.
    fn with(self, progress: DoorProgress) -> DoorSteps
        ensures { result.last ≡ Some progress }
    {
        let (doorway, waiting) = match progress {
            DoorProgress::Doorway => (self.doorway.saturating_add(1), self.waiting),
            DoorProgress::Waiting(_) => (self.doorway, self.waiting.saturating_add(1)),
            _ => (self.doorway, self.waiting),
        };
        DoorSteps {
            doorway,
            waiting,
            last: Some(progress),
        }
    }

    /// Whether steps of the door remain after these.
    pub fn goes(self) -> bool
        ensures { result ≡ door_goes self.last }
    {
        self.last.map_or(true, goes_on)
    }

    /// Whether the process waits after these steps, if it waited before them or not.
    pub fn waits(self, before: bool) -> bool
        ensures { result ≡ door_waits before self.last }
    {
        match self.last {
            None => before,
            Some(DoorProgress::Waiting(_)) => true,
            Some(_) => false,
        }
    }
}

/// Whether steps of a door remain after one that led to this.
fn goes_on(progress: DoorProgress) -> bool
    ensures { result ≡ goes_on progress }
{
    matches!(progress, DoorProgress::Doorway | DoorProgress::Waiting(_))
}

/// Makes at most `most` steps of a door, and fewer where it comes to its end.
pub fn run_door(door: &mut Door, locks: &mut Locks, most: u32, flick: bool) -> DoorSteps
    requires going { is_going door.old ≡ true }
    requires setup { door.old.setup ≡ locks.old.setup }
    ensures door { door.new.setup ≡ door.old.setup }
    ensures locks { locks.new.setup ≡ locks.old.setup }
    ensures going { is_going door.new ≡ door_goes result.last }
    ensures waiting { is_waiting door.new ≡ door_waits (is_waiting door.old) result.last }
{
    let mut steps = DoorSteps::none();
    for _made in 0..most {
        let (_, progress) = door.step(locks, flick);
        steps = steps.with(progress);
        if !goes_on(progress) {
            return steps;
        }
    }
    steps
}

/// Makes at most `most` steps of the clearing of a ticket. Returns how many it took, or `None` if it is not done.
pub fn run_leaving(leaving: &mut Leaving, lock: &mut Lock, most: u32) -> Option<u32>
    requires going { may_step leaving.old.doing ≡ true }
    requires setup { leaving.old.setup ≡ lock.old.memory.setup }
    ensures setup { lock.new.memory.setup ≡ lock.old.memory.setup }
{
    for made in 0..most {
        let (_, progress) = leaving.step(lock);
        match progress {
            Progress::Done => return Some(made + 1),
            Progress::Going => {}
        }
    }
    None
}

/// Clears the ticket of a process with at most 100 steps. Returns how many it took, or `None` if it is not done.
pub fn clear_ticket(locks: &mut Locks, process: u8, setup: &Setup) -> Option<u32>
    requires good { checked setup.now ≡ Ok tt }
    requires process { process < setup.now.processes }
    requires setup { setup.now ≡ locks.old.setup }
    ensures setup { locks.new.setup ≡ locks.old.setup }
{
    let mut leaving = Leaving::new(process, setup);
    run_leaving(&mut leaving, locks.own(process), 100)
}

/// Returns whether a process is choosing, and its ticket.
pub fn read_lock(locks: &mut Locks, process: u8) -> (bool, u32)
    requires process { process < locks.old.setup.processes }
    ensures setup { locks.new.setup ≡ locks.old.setup }
{
    let lock = locks.own(process);
    (lock.is_choosing(), lock.ticket())
}

/// The outcome of a single door, and its lock.
#[derive(Clone, Copy)]
struct Visit {
    /// The steps with which it enters.
    enters: DoorSteps,
    /// The lock then.
    inside: (bool, u32),
    /// How many steps clear its ticket.
    cleared: Option<u32>,
    /// The lock after them.
    outside: (bool, u32),
}

/// Enters by a door, and clears the ticket.
fn visit_alone(locks: &mut Locks, door: &mut Door, setup: &Setup) -> Visit
    requires good { checked setup.now ≡ Ok tt }
    requires process { 0 < setup.now.processes }
    requires locks { setup.now ≡ locks.old.setup }
    requires door { door.old.setup ≡ locks.old.setup }
{
    door.start();
    let enters = run_door(door, locks, 100, true);
    let inside = read_lock(locks, 0);
    let cleared = clear_ticket(locks, 0, setup);
    let outside = read_lock(locks, 0);
    Visit {
        enters,
        inside,
        cleared,
        outside,
    }
}

/// Lets a single process enter and leave.
fn lone(alloc: Global) -> Result<Visit, AllocError> {
    let setup = Setup::one(1, 2, 2, 1);
    let mut locks = Locks::new(alloc, &setup)?;
    let mut door = Door::new(alloc, 0, &setup)?;
    Ok(visit_alone(&mut locks, &mut door, &setup))
}

// The doorway of a lone process with two ticket bits makes eight accesses, two for each bit that it writes: the choosing bit, the
// ticket 1, and the choosing bit again. With the last one the process is inside. Four accesses clear the ticket.
#[test]
fn a_lone_process_enters_and_leaves(rt: HostRuntime) -> Result<(), AllocError> {
    let made = lone(rt.alloc())?;
    assert!(rt;
        matches!(
            made.enters,
            DoorSteps {
                doorway: 7,
                waiting: 0,
                last: Some(DoorProgress::Inside(1)),
            }
        )
    );
    assert!(rt; made.inside == (false, 1));
    assert!(rt; made.cleared == Some(4));
    assert!(rt; made.outside == (false, 0));
    Ok(())
}
