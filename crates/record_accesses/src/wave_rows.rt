//! The rows of waves: the bits that entries from one number on give a wave.
ghost use Rattle.std.specs.Prelude.{◌≡◌, ◌≤◌, ◌&&◌, [], IfOk, None, OnOk, cond, nat_le, true};
ghost use Rattle.model.specs.{Past};
ghost use Rattle.model.specs.safe_bit.{is_of_write};
ghost use Rattle.record_accesses.specs.Rows.{row_in, waves_since, waves_with, written_bits};

use crate::bit_names::BitName;
use indexmap::IndexSet;
use model::Access;
use std::alloc::{AllocError, Global};
use std::marker::Model;

/// The bits that have waves, in the order of their rows. Contracts see the list.
#[derive(Drop)]
pub(crate) struct BitWaves {
    bits: IndexSet<BitName>,
}

impl Model for BitWaves {
    ghost use Rattle.std.specs.Prelude.{List};
    ghost use Rattle.model.specs.{Access as BitAccess};

    ghost Value = { List BitAccess };

    ghost view = { λ w. w.bits.keys };
}

impl BitWaves {
    /// Creates a list without waves.
    pub fn new(alloc: Global) -> BitWaves
        ensures { result ≡ [] }
    {
        BitWaves {
            bits: IndexSet::new(alloc),
        }
    }

    /// Observes the access of the entry with this number, whose bit was written or not, where entries from the number `from`
    /// on begin waves. If the access begins or ends a write, the method returns the row of its bit, if that has one.
    ///
    /// # Errors
    ///
    /// Returns [`AllocError`] if memory runs out.
    pub fn take(
        &mut self,
        from: u64,
        number: u64,
        access: &Access,
        is_written: bool,
    ) -> Result<Option<usize>, AllocError>
        ensures taken { OnOk result (self.new ≡ waves_with
            (is_of_write access.now.how && (nat_le from number && is_written))
            access.now self.old) }
        ensures row { IfOk result (λ row.
            row ≡ cond (is_of_write access.now.how) (row_in self.new access.now) None) }
    {
        if !access.how.is_of_write() {
            return Ok(None);
        }
        let row = self.row(access);
        if number < from || !is_written {
            return Ok(row);
        }
        match row {
            Some(row) => Ok(Some(row)),
            None => self.add(*access),
        }
    }

    /// Returns the row of the bit of an access, if it has one.
    fn row(&self, access: &Access) -> Option<usize>
        ensures { result ≡ row_in self.now access.now }
    {
        self.bits.get_index_of(&BitName::of(access))
    }

    /// Adds the bit of an access that has no row, and returns its row.
    fn add(&mut self, access: Access) -> Result<Option<usize>, AllocError>
        requires { row_in self.old access ≡ None }
        ensures taken { OnOk result (self.new ≡ waves_with true access self.old) }
        ensures row { IfOk result (λ row. row ≡ row_in self.new access) }
    {
        let row = self.bits.len();
        self.bits.insert(BitName::of(&access))?;
        Ok(Some(row))
    }
}

/// In a picture from the first entry on, exactly the bits that were written have waves, in the order of their first writes.
pub fn written_bits_have_waves()
    ensures { (past : Past) → waves_since 0 past ≡ written_bits past }
{}
