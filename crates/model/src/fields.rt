//! The registers of a process: their order, their words and their widths.
ghost use Rattle.std.specs.Prelude.{◌≡◌, ◌<◌, ◌≤◌, Ok, slice_index_or};
ghost use Rattle.plain_store.specs.{checked};
ghost use Rattle.model.specs.Moves.{field_number, fields};
ghost use Rattle.model.specs.Registers.{image_bytes, width};

use crate::access::Field;
use plain_store::Setup;

/// The registers of a process in their order, each with its word.
pub const FIELDS: [(Field, &str); 7] = [
    (Field::Choosing, "choosing"),
    (Field::Ticket, "ticket"),
    (Field::Commit, "commit"),
    (Field::Stamp0, "stamp0"),
    (Field::Stamp1, "stamp1"),
    (Field::Image0, "image0"),
    (Field::Image1, "image1"),
];

/// Returns the index of a register in their order, counted from 0.
#[inline(always)]
pub fn number_of_field(field: Field) -> usize
    ensures number { result ≡ field_number field }
    ensures most { result < 7 }
{
    match field {
        Field::Choosing => 0,
        Field::Ticket => 1,
        Field::Commit => 2,
        Field::Stamp0 => 3,
        Field::Stamp1 => 4,
        Field::Image0 => 5,
        Field::Image1 => 6,
    }
}

/// Returns the register at an index in their order.
pub fn field_numbered(number: usize) -> Field
    requires { number < 7 }
    ensures place { result ≡ slice_index_or fields number Field.Image1 }
    ensures number { field_number result ≡ number }
{
    FIELDS[number].0
}

/// Returns the number of bits of a register.
#[inline]
pub fn width_of(field: Field, setup: &Setup) -> u16
    requires { checked setup.now ≡ Ok tt }
    ensures width { result ≡ width setup.now field }
    ensures nonzero { 1 ≤ result }
    ensures most { result ≤ 1728 }
{
    match field {
        Field::Choosing | Field::Commit => 1,
        Field::Ticket => u16::from(setup.ticket_bits),
        Field::Stamp0 | Field::Stamp1 => u16::from(setup.stamp_bits),
        Field::Image0 | Field::Image1 => 8 * image_bytes(setup),
    }
}

/// Returns the number of bytes of an image: 23 for each slot, and 2 for each caller.
#[inline]
pub fn image_bytes(setup: &Setup) -> u16
    requires { checked setup.now ≡ Ok tt }
    ensures bytes { result ≡ image_bytes setup.now }
    ensures least { 23 ≤ result }
    ensures most { result ≤ 216 }
{
    23 * u16::from(setup.slots) + 2 * u16::from(setup.callers())
}
