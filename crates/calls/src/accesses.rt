//! Facts about an access of a call: which number it has read, and whether its process waits by it.
ghost use Rattle.std.specs.Prelude.{◌≡◌, ◌+◌, ◌-◌, ◌^◌, ◌<◌, ◌&&◌, Some, Ok};
ghost use Rattle.plain_store.specs.{checked};
ghost use Rattle.model.specs.{is_below as below, width};
ghost use Rattle.calls.specs.Columns.{ends_number, holds_up as holds, more_if as one_more_if, number_after as after, reports_waiting, with_bit as bit_with};
ghost use Rattle.calls.specs.Passing.{reads_begun, writes_begun};
ghost use Rattle.calls.specs.Stepping.{waits_by};

use crate::called::Marked;
use model::{Access, Field, Move, width_of};
use plain_store::Setup;

/// Returns `count`, plus one if the test holds.
#[inline]
pub fn more_if(count: u64, test: bool) -> u64
    ensures { count < 2 ^ 64 - 1 → result ≡ one_more_if test count }
{
    if test { count.saturating_add(1) } else { count }
}

/// Returns how many of `steps` accesses begin a read, where begins and ends alternate and the last makes the move `newest`.
#[inline(always)]
pub(crate) fn reads_among(steps: u32, newest: Move) -> u64
    ensures { result ≡ reads_begun steps newest }
{
    match newest {
        Move::BeginRead => (u64::from(steps) + 1) / 2,
        Move::EndRead(_) => u64::from(steps) / 2,
        Move::BeginWrite(_) | Move::EndWrite | Move::Settle(_) => 0,
    }
}

/// Returns how many of `steps` such accesses begin a write.
#[inline(always)]
pub(crate) fn writes_among(steps: u32, newest: Move) -> u64
    ensures { result ≡ writes_begun steps newest }
{
    match newest {
        Move::BeginWrite(_) => (u64::from(steps) + 1) / 2,
        Move::EndWrite => u64::from(steps) / 2,
        Move::BeginRead | Move::EndRead(_) | Move::Settle(_) => 0,
    }
}

/// Returns the number as far as it is read once an access is made; `number` was read before it.
#[inline]
pub fn number_after(access: &Access, number: u64) -> u64
    ensures { result ≡ after access.now.bit access.now.how number }
{
    match access.how {
        Move::EndRead(value) => with_bit(access.bit, value, number),
        _ => number,
    }
}

/// Returns a number with one more bit. Bit 0 begins a new number.
#[inline]
fn with_bit(bit: u16, value: bool, number: u64) -> u64
    ensures { result ≡ bit_with bit value number }
{
    if bit == 0 {
        u64::from(value)
    } else if value && bit < 64 {
        number | (1 << bit)
    } else {
        number
    }
}

/// Returns whether an access shows that its process waits for the register's owner. `read` is the number as far as it was read
/// before, if that was reported.
#[inline(always)]
pub(crate) fn waits_by(
    setup: &Setup,
    process: u8,
    marks: &Marked,
    access: &Access,
    read: Option<u32>,
) -> bool
    requires { checked setup.now ≡ Ok tt }
    ensures { result
        ≡ waits_by setup.now process marks.now.ticket marks.now.wait_end access.now read }
{
    match read {
        None => false,
        Some(read) => {
            let number = number_after(access, u64::from(read));
            reports_waiting(setup, process, marks, access, number)
        }
    }
}

/// Returns whether a process that has read `number` with this access waits for the register's owner.
#[inline]
fn reports_waiting(setup: &Setup, process: u8, marks: &Marked, access: &Access, number: u64) -> bool
    requires { checked setup.now ≡ Ok tt }
    ensures { result
        ≡ reports_waiting setup.now process marks.now.ticket marks.now.wait_end access.now number }
{
    let Some(ticket) = marks.ticket else {
        return false;
    };
    marks.wait_end.is_none()
        && ends_number(setup, access)
        && holds_up(process, ticket, access.owner, access.field, number)
}

/// Returns whether a number that was read from a register of `owner` holds up a process with this ticket.
pub fn holds_up(process: u8, ticket: u32, owner: u8, field: Field, number: u64) -> bool
    ensures { result ≡ holds process ticket owner field number }
{
    match field {
        Field::Choosing => number == 1,
        Field::Ticket => number > 0 && is_below(number, owner, u64::from(ticket), process),
        _ => false,
    }
}

/// Returns whether an access is the last one of the read of a register.
#[inline]
pub fn ends_number(setup: &Setup, access: &Access) -> bool
    requires { checked setup.now ≡ Ok tt }
    ensures { result
        ≡ ends_number (width setup.now access.now.field) access.now.bit access.now.how }
{
    match access.how {
        Move::EndRead(_) => usize::from(access.bit) + 1
            == usize::from(width_of(access.field, setup)),
        _ => false,
    }
}

/// Returns whether one ticket, with its process, is below another.
fn is_below(ticket: u64, process: u8, other: u64, other_process: u8) -> bool
    ensures { result ≡ below ticket process other other_process }
{
    ticket < other || (ticket == other && process < other_process)
}
