//! The word of each single-reader bit: words are ordered by the owner of the bit, then by its reader, then by the bits
//! of the owner's registers in order. So the words of one read of a register are adjacent.
ghost use Rattle.std.specs.Prelude.{◌≡◌, ◌+◌, ◌<◌, ◌≤◌, Ok};
ghost use Rattle.plain_store.specs.{checked};
ghost use Rattle.model.specs.{width};
ghost use Rattle.board.specs.Words.{copy_of, first_bit, row_bits, words_in};

use model::{Field, width_of};
use plain_store::Setup;
use process::{BitCopy, RegisterName};

/// Returns the position in a row at which the bits of a register begin.
#[inline]
pub(crate) fn first_bit(setup: &Setup, field: Field) -> usize
    requires { checked setup.now ≡ Ok tt }
    ensures first { result ≡ first_bit setup.now field }
    ensures most { result ≤ 1826 }
{
    let tickets = usize::from(setup.ticket_bits);
    let stamps = usize::from(setup.stamp_bits);
    match field {
        Field::Choosing => 0,
        Field::Ticket => 1,
        Field::Commit => 1 + tickets,
        Field::Stamp0 => 2 + tickets,
        Field::Stamp1 => 2 + tickets + stamps,
        Field::Image0 => 2 + tickets + 2 * stamps,
        Field::Image1 => 2 + tickets + 2 * stamps + usize::from(width_of(Field::Image0, setup)),
    }
}

/// Returns the number of bits of one owner for one reader.
#[inline]
pub(crate) fn row_bits(setup: &Setup) -> usize
    requires { checked setup.now ≡ Ok tt }
    ensures row { result ≡ row_bits setup.now }
    ensures most { result ≤ 3554 }
{
    first_bit(setup, Field::Image1) + usize::from(width_of(Field::Image1, setup))
}

/// Returns the number of words.
pub(crate) fn words_in(setup: &Setup) -> usize
    requires { checked setup.now ≡ Ok tt }
    ensures words { result ≡ words_in setup.now }
    ensures most { result ≤ 909824 }
{
    let processes = usize::from(setup.processes);
    processes * processes * row_bits(setup)
}

/// Returns the register at a position in a row.
fn field_at(setup: &Setup, place: usize) -> Field
    requires good { checked setup.now ≡ Ok tt }
    requires place { place < row_bits setup.now }
    ensures from { first_bit setup.now result ≤ place }
    ensures within { place < first_bit setup.now result + width setup.now result }
{
    if place < first_bit(setup, Field::Ticket) {
        Field::Choosing
    } else if place < first_bit(setup, Field::Commit) {
        Field::Ticket
    } else if place < first_bit(setup, Field::Stamp0) {
        Field::Commit
    } else if place < first_bit(setup, Field::Stamp1) {
        Field::Stamp0
    } else if place < first_bit(setup, Field::Image0) {
        Field::Stamp1
    } else if place < first_bit(setup, Field::Image1) {
        Field::Image0
    } else {
        Field::Image1
    }
}

/// Returns the copy of the bit to which a word belongs.
pub(crate) fn copy_of(setup: &Setup, word: usize) -> BitCopy
    requires good { checked setup.now ≡ Ok tt }
    requires word { word < words_in setup.now }
    ensures copy { result ≡ copy_of setup.now word }
{
    let row = row_bits(setup);
    let processes = usize::from(setup.processes);
    let copy = word / row;
    let place = word % row;
    let field = field_at(setup, place);
    BitCopy {
        register: RegisterName {
            owner: (copy / processes) as u8,
            field,
        },
        bit: (place - first_bit(setup, field)) as u16,
        reader: (copy % processes) as u8,
    }
}
