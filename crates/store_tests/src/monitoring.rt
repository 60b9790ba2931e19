//! The monitor of the law `safe`, move by move on one bit, and on several bits.
use model::{Access, Field, Move};
use plain_store::Setup;
use safe_monitor::SafeMonitor;
use std::alloc::{AllocError, Global};
use std::test::Fail;

/// A copy of a bit: the owner and the field of its register, its number, and its reader.
type Place = (u8, Field, u16, u8);

/// Bit 1 of the ticket of process 0, in the copy for process 1.
const T: Place = (0, Field::Ticket, 1, 1);

const BEGIN_READ: Move = Move::BeginRead;

const ONE: Move = Move::EndRead(true);

const ZERO: Move = Move::EndRead(false);

/// A move on a copy of a bit, and the expected result: whether it keeps the law, or whether it ends an overlapped read.
type Observed = (Place, Move, bool);

fn access(place: Place, how: Move) -> Access {
    let (owner, field, bit, reader) = place;
    Access {
        owner,
        field,
        bit,
        reader,
        how,
    }
}

/// The question to the monitor.
#[derive(Clone, Copy)]
enum AskedOfMonitor {
    /// Whether a move keeps the law.
    Keeps,
    /// Whether it ends an overlapped read.
    Overlaps,
}

/// Returns the number of the first move for which the result is not the expected one.
fn first_otherwise(
    alloc: Global,
    observed: &[Observed],
    asked: AskedOfMonitor,
) -> Result<Option<usize>, AllocError> {
    let mut monitor = SafeMonitor::new(alloc, &Setup::one(2, 2, 2, 1))?;
    for (number, (place, how, expected)) in observed.iter().enumerate() {
        let access = access(*place, *how);
        let overlaps = monitor.overlaps(&access);
        let keeps = monitor.observe(&Some(access));
        let said = match asked {
            AskedOfMonitor::Keeps => keeps,
            AskedOfMonitor::Overlaps => overlaps,
        };
        if said != *expected {
            return Ok(Some(number));
        }
    }
    Ok(None)
}

/// A read alone returns the value written.
const READ_ALONE: [Observed; 8] = [
    (T, BEGIN_READ, true),
    (T, ONE, false),
    (T, ZERO, true),
    (T, Move::BeginWrite(true), true),
    (T, Move::EndWrite, true),
    (T, BEGIN_READ, true),
    (T, ZERO, false),
    (T, ONE, true),
];

/// An overlapped read returns any value.
const OVERLAPPED: [Observed; 14] = [
    // It begins during a write.
    (T, Move::BeginWrite(true), true),
    (T, BEGIN_READ, true),
    (T, ZERO, true),
    (T, ONE, true),
    // The write has ended in between.
    (T, Move::EndWrite, true),
    (T, ZERO, true),
    // A write begins and ends during the read.
    (T, BEGIN_READ, true),
    (T, ZERO, false),
    (T, Move::BeginWrite(false), true),
    (T, Move::EndWrite, true),
    (T, ONE, true),
    (T, ZERO, true),
    // The next read is bound again.
    (T, BEGIN_READ, true),
    (T, ONE, false),
];

/// A settled bit has the value that it was settled at.
const SETTLED: [Observed; 7] = [
    (T, Move::BeginWrite(false), true),
    (T, BEGIN_READ, true),
    (T, Move::Settle(true), true),
    (T, ZERO, true),
    (T, BEGIN_READ, true),
    (T, ZERO, false),
    (T, ONE, true),
];

/// No read began that these moves could end, so the law allows each of them.
const WITHOUT_BEGIN: [Observed; 5] = [
    (T, ONE, true),
    (T, ZERO, true),
    (T, Move::BeginWrite(true), true),
    (T, Move::EndWrite, true),
    (T, ZERO, true),
];

/// A write that ends twice ends with the value with which it began. A read returns the value from before it, even if a
/// write that never began ends during it.
const OUT_OF_TURN: [Observed; 9] = [
    (T, Move::BeginWrite(true), true),
    (T, Move::Settle(false), true),
    (T, BEGIN_READ, true),
    (T, Move::EndWrite, true),
    (T, ONE, false),
    (T, ZERO, true),
    (T, BEGIN_READ, true),
    (T, ZERO, false),
    (T, ONE, true),
];

#[test]
fn moves_on_a_bit_keep_the_law_or_not(rt: HostRuntime) -> Result<(), Fail> {
    let tables: [&[Observed]; 5] = [
        &READ_ALONE,
        &OVERLAPPED,
        &SETTLED,
        &WITHOUT_BEGIN,
        &OUT_OF_TURN,
    ];
    for observed in &tables {
        let other = first_otherwise(rt.alloc(), observed, AskedOfMonitor::Keeps)?;
        assert!(rt; other.is_none(), "{other:?}");
    }
    Ok(())
}

const ENDS_OF_OVERLAPPED: [Observed; 16] = [
    (T, BEGIN_READ, false),
    (T, ZERO, false),
    (T, Move::BeginWrite(true), false),
    (T, BEGIN_READ, false),
    (T, ZERO, true),
    (T, BEGIN_READ, false),
    (T, Move::EndWrite, false),
    (T, ONE, true),
    (T, BEGIN_READ, false),
    (T, ONE, false),
    (T, BEGIN_READ, false),
    (T, Move::BeginWrite(false), false),
    (T, Move::Settle(true), false),
    (T, ONE, true),
    (T, BEGIN_READ, false),
    (T, ONE, false),
];

/// Reads of other copies: a read of another bit, of another reader's copy, and of a bit that does not exist.
const OTHER_READS: [Observed; 8] = [
    (T, BEGIN_READ, false),
    ((0, Field::Ticket, 0, 1), BEGIN_READ, false),
    ((0, Field::Ticket, 1, 0), BEGIN_READ, false),
    (T, Move::BeginWrite(true), false),
    ((0, Field::Ticket, 0, 1), ONE, false),
    ((0, Field::Ticket, 1, 0), ONE, false),
    ((0, Field::Ticket, 2, 1), ONE, false),
    (T, ONE, true),
];

// A write overlaps a read of its bit if it was open when the read began, or began before the read ended. It overlaps no
// read of another bit, or of another reader's copy. A move on a bit that does not exist ends no overlapped read.
#[test]
fn the_end_of_an_overlapped_read_is_reported(rt: HostRuntime) -> Result<(), Fail> {
    let tables: [&[Observed]; 2] = [&ENDS_OF_OVERLAPPED, &OTHER_READS];
    for observed in &tables {
        let other = first_otherwise(rt.alloc(), observed, AskedOfMonitor::Overlaps)?;
        assert!(rt; other.is_none(), "{other:?}");
    }
    Ok(())
}

/// One bit is set to 1, and then other copies are read, which are initially 0.
const APART: [Observed; 16] = [
    (T, Move::BeginWrite(true), true),
    (T, Move::EndWrite, true),
    ((0, Field::Ticket, 0, 1), BEGIN_READ, true),
    ((0, Field::Ticket, 0, 1), ONE, false),
    ((0, Field::Ticket, 1, 0), BEGIN_READ, true),
    ((0, Field::Ticket, 1, 0), ONE, false),
    ((1, Field::Ticket, 1, 1), BEGIN_READ, true),
    ((1, Field::Ticket, 1, 1), ONE, false),
    ((0, Field::Stamp1, 1, 1), BEGIN_READ, true),
    ((0, Field::Stamp1, 1, 1), ONE, false),
    // Process 2 and ticket bit 2 do not exist: the end of a read of these keeps the law.
    ((2, Field::Ticket, 1, 1), ONE, true),
    ((0, Field::Ticket, 1, 255), ONE, true),
    ((0, Field::Ticket, 2, 1), ONE, true),
    ((0, Field::Ticket, 65535, 1), ONE, true),
    (T, BEGIN_READ, true),
    (T, ONE, true),
];

// Each copy of each bit of each register is monitored by itself.
#[test]
fn bits_are_reported_apart(rt: HostRuntime) -> Result<(), Fail> {
    let other = first_otherwise(rt.alloc(), &APART, AskedOfMonitor::Keeps)?;
    assert!(rt; other.is_none(), "{other:?}");
    Ok(())
}
