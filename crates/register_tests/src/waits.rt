//! Two processes at the lock, one of which waits for the other and gives up.
ghost use Rattle.std.specs.Prelude.{◌≡◌, ◌<◌, Ok, false};
ghost use Rattle.plain_store.specs.{checked};
ghost use Rattle.bakery.specs.Doors.{is_going, is_waiting};
ghost use Rattle.register_tests.specs.Steps.{door_goes, door_waits};

use super::doors::{DoorSteps, clear_ticket, read_lock, run_door};
use bakery::{Door, DoorProgress, Locks};
use plain_store::Setup;
use std::alloc::{AllocError, Global};

/// The steps with which process 0 takes its ticket, and then process 1.
#[derive(Clone, Copy)]
struct Tickets {
    first: DoorSteps,
    second: DoorSteps,
}

/// Process 0 takes a ticket, and then process 1.
fn take_tickets(locks: &mut Locks, first: &mut Door, second: &mut Door) -> Tickets
    requires first { first.old.setup ≡ locks.old.setup }
    requires second { second.old.setup ≡ locks.old.setup }
    ensures locks { locks.new.setup ≡ locks.old.setup }
    ensures first { first.new.setup ≡ first.old.setup }
    ensures first_going { is_going first.new ≡ door_goes result.first.last }
    ensures first_waiting { is_waiting first.new ≡ door_waits false result.first.last }
    ensures second { second.new.setup ≡ second.old.setup }
    ensures second_going { is_going second.new ≡ door_goes result.second.last }
    ensures second_waiting { is_waiting second.new ≡ door_waits false result.second.last }
{
    first.start();
    let one = run_door(first, locks, 20, true);
    second.start();
    let two = run_door(second, locks, 20, true);
    Tickets {
        first: one,
        second: two,
    }
}

/// The outcome for two processes at the lock, one of which gives up.
#[derive(Clone, Copy)]
struct Withdrawal {
    tickets: Tickets,
    /// The steps of the one that gives up, until it does.
    waits: DoorSteps,
    /// How many steps its clearing takes.
    cleared: Option<u32>,
    /// Its lock after that.
    lock: (bool, u32),
    /// The steps of the other process after that.
    enters: DoorSteps,
}

/// Process 0 gives up after one step of its waiting, within a read of the choosing bit of process 1. None if one of them does
/// not wait then.
fn first_withdraws(
    locks: &mut Locks,
    first: &mut Door,
    second: &mut Door,
    setup: &Setup,
) -> Option<Withdrawal>
    requires good { checked setup.now ≡ Ok tt }
    requires process { 0 < setup.now.processes }
    requires locks { setup.now ≡ locks.old.setup }
    requires first { first.old.setup ≡ locks.old.setup }
    requires second { second.old.setup ≡ locks.old.setup }
{
    let tickets = take_tickets(locks, first, second);
    if !tickets.first.goes() || !tickets.second.goes() {
        return None;
    }
    let waits = run_door(first, locks, 1, true);
    if !waits.waits(tickets.first.waits(false)) {
        return None;
    }
    first.withdraw(locks);
    let cleared = clear_ticket(locks, 0, setup);
    let lock = read_lock(locks, 0);
    let enters = run_door(second, locks, 100, true);
    Some(Withdrawal {
        tickets,
        waits,
        cleared,
        lock,
        enters,
    })
}

/// Lets two new processes do so.
fn first_gives_up(alloc: Global) -> Result<Option<Withdrawal>, AllocError> {
    let setup = Setup::one(2, 2, 2, 1);
    let mut locks = Locks::new(alloc, &setup)?;
    let mut first = Door::new(alloc, 0, &setup)?;
    let mut second = Door::new(alloc, 1, &setup)?;
    Ok(first_withdraws(&mut locks, &mut first, &mut second, &setup))
}

/// The ticket that was taken with twenty steps.
fn ticket(steps: DoorSteps) -> Option<u32> {
    match steps {
        DoorSteps {
            doorway: 19,
            waiting: 1,
            last: Some(DoorProgress::Waiting(ticket)),
        } => Some(ticket),
        _ => None,
    }
}

// Process 0 takes the ticket 1 with twenty accesses, and process 1 the ticket 2. Process 0 gives up while it has a read open: eight
// accesses clear its ticket. Then process 1 gets inside with six accesses, in which it reads that process 0 is not choosing and has
// no ticket.
#[test]
fn the_other_enters_after_a_withdrawal(rt: HostRuntime) -> Result<(), AllocError> {
    let Some(made) = first_gives_up(rt.alloc())? else {
        panic!(rt; "the run comes to its end too early");
    };
    assert!(rt; ticket(made.tickets.first) == Some(1));
    assert!(rt; ticket(made.tickets.second) == Some(2));
    assert!(rt;
        matches!(
            made.waits,
            DoorSteps {
                doorway: 0,
                waiting: 1,
                last: Some(DoorProgress::Waiting(1))
            }
        )
    );
    assert!(rt; made.cleared == Some(8));
    assert!(rt; made.lock == (false, 0));
    assert!(rt;
        matches!(
            made.enters,
            DoorSteps {
                doorway: 0,
                waiting: 5,
                last: Some(DoorProgress::Inside(2))
            }
        )
    );
    Ok(())
}

/// Lets process 1 give up after `steps` steps of its waiting. None if one of them does not wait then.
fn second_withdraws(
    locks: &mut Locks,
    first: &mut Door,
    second: &mut Door,
    setup: &Setup,
    steps: u32,
) -> Option<Withdrawal>
    requires good { checked setup.now ≡ Ok tt }
    requires process { 1 < setup.now.processes }
    requires locks { setup.now ≡ locks.old.setup }
    requires first { first.old.setup ≡ locks.old.setup }
    requires second { second.old.setup ≡ locks.old.setup }
{
    let tickets = take_tickets(locks, first, second);
    if !tickets.first.goes() || !tickets.second.goes() {
        return None;
    }
    let waits = run_door(second, locks, steps, true);
    if !waits.waits(tickets.second.waits(false)) {
        return None;
    }
    second.withdraw(locks);
    let cleared = clear_ticket(locks, 1, setup);
    let lock = read_lock(locks, 1);
    let enters = run_door(first, locks, 100, true);
    Some(Withdrawal {
        tickets,
        waits,
        cleared,
        lock,
        enters,
    })
}

/// Lets two new processes do so.
fn second_gives_up(alloc: Global, steps: u32) -> Result<Option<Withdrawal>, AllocError> {
    let setup = Setup::one(2, 2, 2, 1);
    let mut locks = Locks::new(alloc, &setup)?;
    let mut first = Door::new(alloc, 0, &setup)?;
    let mut second = Door::new(alloc, 1, &setup)?;
    Ok(second_withdraws(&mut locks, &mut first, &mut second, &setup, steps))
}

// Process 1 waits for process 0, whose ticket it reads again and again, and gives up after any number of accesses: after an even
// number with no read open, and after an odd one within a read. Eight accesses clear its ticket, and process 0 gets inside.
#[test]
fn a_waiting_process_gives_up(rt: HostRuntime) -> Result<(), AllocError> {
    for steps in 0..14 {
        let Some(made) = second_gives_up(rt.alloc(), steps)? else {
            panic!(rt; "the run comes to its end too early");
        };
        assert!(rt; made.waits.doorway == 0 && made.waits.waiting == steps);
        assert!(rt; steps == 0 || matches!(made.waits.last, Some(DoorProgress::Waiting(2))));
        assert!(rt; made.cleared == Some(8));
        assert!(rt; made.lock == (false, 0));
        assert!(rt;
            matches!(
                made.enters,
                DoorSteps {
                    doorway: 0,
                    waiting: 5,
                    last: Some(DoorProgress::Inside(1))
                }
            )
        );
    }
    Ok(())
}
