//! The positions of the words of a board's bits, computed once, because each word step needs them.
ghost use Rattle.std.specs.Prelude.{◌≡◌, ◌<◌, Ok};
ghost use Rattle.plain_store.specs.{checked};
ghost use Rattle.board.specs.Words.{first_bit, layout_of, word_of_copy};

use crate::words::{first_bit, row_bits};
use model::{Field, number_of_field};
use plain_store::Setup;
use process::BitCopy;

/// The numbers from which the word of a bit is computed.
#[derive(Clone, Copy)]
pub(crate) struct WordLayout {
    pub(crate) processes: u8,
    /// The number of bits of one owner for one reader.
    pub(crate) row: u16,
    /// The positions in a row at which the bits of each register begin, in the order of the registers.
    pub(crate) firsts: [u16; 7],
}

/// Returns the position in a row at which the bits of a register begin. It fits a `u16`.
fn first(setup: &Setup, field: Field) -> u16
    requires { checked setup.now ≡ Ok tt }
    ensures { result ≡ first_bit setup.now field }
{
    first_bit(setup, field) as u16
}

impl WordLayout {
    /// Returns the layout of a setup.
    pub(crate) fn of(setup: &Setup) -> WordLayout
        requires { checked setup.now ≡ Ok tt }
        ensures { result ≡ layout_of setup.now }
    {
        WordLayout {
            processes: setup.processes,
            row: row_bits(setup) as u16,
            firsts: [
                first(setup, Field::Choosing),
                first(setup, Field::Ticket),
                first(setup, Field::Commit),
                first(setup, Field::Stamp0),
                first(setup, Field::Stamp1),
                first(setup, Field::Image0),
                first(setup, Field::Image1),
            ],
        }
    }

    /// Returns the position in a row at which the bits of a register begin. `_setup` is for the proof alone.
    #[inline(always)]
    fn first(&self, _setup: &Setup, field: Field) -> u16
        requires { self.now ≡ layout_of _setup.now }
        ensures { result ≡ first_bit _setup.now field }
    {
        self.firsts[number_of_field(field)]
    }

    /// Returns the word of a copy of a bit. `setup` is for the proof alone.
    #[inline(always)]
    pub(crate) fn word_of(&self, setup: &Setup, copy: BitCopy) -> usize
        requires { self.now ≡ layout_of setup.now }
        ensures word { result ≡ word_of_copy setup.now copy }
    {
        let BitCopy {
            register,
            bit,
            reader,
        } = copy;
        let row = usize::from(register.owner) * usize::from(self.processes) + usize::from(reader);
        let first = usize::from(self.first(setup, register.field));
        row * usize::from(self.row) + first + usize::from(bit)
    }
}
