//! The state of each bit that was written.
ghost use Rattle.std.specs.Prelude.{◌≡◌, ◌<◌, IfOk, IfSome, None, OnOk, length};
ghost use Rattle.record_accesses.specs.Keeping.{bits_taken, no_bits, state_at};
ghost use Rattle.record_accesses.specs.Rows.{row_in};

use crate::bit_names::BitName;
use crate::bits::BitState;
use indexmap::IndexSet;
use model::Access;
use std::alloc::{AllocError, Global};
use std::marker::Model;

/// The bits that were written, in the order of their first writes, and the state of each.
#[derive(Drop)]
pub(crate) struct WrittenBits {
    names: IndexSet<BitName>,
    states: Vec<BitState>,
}

impl Model for WrittenBits {
    ghost use Rattle.std.specs.Prelude.{◌≡◌, length};
    ghost use Rattle.record_accesses.specs.Keeping.{BitsState};

    ghost Value = { BitsState };

    ghost view = { λ b. record { names = b.names.keys; states = b.states.items } };

    ghost invariant = { λ b. length b.states.items ≡ length b.names.keys };
}

impl WrittenBits {
    /// Creates a list without bits.
    pub fn new(alloc: Global) -> WrittenBits
        ensures { result ≡ no_bits }
    {
        WrittenBits {
            names: IndexSet::new(alloc),
            states: Vec::new(alloc),
        }
    }

    /// Returns the row of the bit of an access, if it has one.
    pub fn row(&self, access: &Access) -> Option<usize>
        ensures row { result ≡ row_in self.now.names access.now }
        ensures within { IfSome result (λ row. row < length self.now.names) }
        ensures states { length self.now.states ≡ length self.now.names }
    {
        self.names.get_index_of(&BitName::of(access))
    }

    /// Returns the state of a bit with this row. Without one it was not written, and is as it opens.
    pub fn state(&self, row: Option<usize>, opening: bool) -> BitState
        requires { IfSome row (λ row. row < length self.now.names) }
        ensures { result ≡ state_at self.now row opening }
    {
        match row {
            Some(row) => self.states[row],
            None => BitState::opening(opening),
        }
    }

    /// Observes an access to a bit that had this row before and has this state after it, and returns its row after it.
    ///
    /// # Errors
    ///
    /// Returns [`AllocError`] if memory runs out.
    pub fn take(
        &mut self,
        row: Option<usize>,
        access: Access,
        state: BitState,
    ) -> Result<Option<usize>, AllocError>
        requires row { row ≡ row_in self.old.names access }
        requires within { IfSome row (λ row. row < length self.old.names) }
        ensures taken { OnOk result (self.new ≡ bits_taken row access state self.old) }
        ensures row { IfOk result (λ row. row ≡ row_in self.new.names access) }
    {
        match row {
            Some(row) => {
                self.states[row] = state;
                Ok(Some(row))
            }
            None => self.add(access, state),
        }
    }

    /// Adds the bit of an access that has no row, if the access writes, and returns its row.
    fn add(&mut self, access: Access, state: BitState) -> Result<Option<usize>, AllocError>
        requires { row_in self.old.names access ≡ None }
        ensures taken { OnOk result (self.new ≡ bits_taken None access state self.old) }
        ensures row { IfOk result (λ row. row ≡ row_in self.new.names access) }
    {
        if !access.how.gives_value() {
            return Ok(None);
        }
        let row = self.names.len();
        self.names.reserve(1)?;
        self.states.push(state)?;
        self.names.insert(BitName::of(&access))?;
        Ok(Some(row))
    }
}
