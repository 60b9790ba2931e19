//! The bit of an access, as a key of sets.
ghost use Rattle.std.specs.Prelude.{◌≡◌};
ghost use Rattle.std.specs.Cmp.{partial_equiv_from_equiv};
ghost use Rattle.record_accesses.specs.BitNames.{bit_fed, is_one_bit, one_bit_equiv, one_bit_fed};

use model::{Access, number_of_field};
use std::hash::{Hash, Hasher};
use std::marker::Model;

/// The bit of an access: its owner, its register, its number and its reader. A set of these finds a bit in constant time.
/// Contracts see the access; the names of one bit are equal, whatever its accesses do.
#[derive(Clone, Copy)]
pub(crate) struct BitName {
    access: Access,
}

impl Model for BitName {
    ghost use Rattle.model.specs.{Access as BitAccess};

    ghost Value = { BitAccess };

    ghost view = { λ n. n.access };

    ghost inverse = { λ access. record { access = access } };
}

impl BitName {
    /// Returns the bit of an access.
    pub fn of(access: &Access) -> BitName
        ensures { result ≡ access.now }
    {
        BitName { access: *access }
    }
}

impl PartialEq for BitName {
    ghost eq = { is_one_bit };

    ghost laws = { partial_equiv_from_equiv one_bit_equiv };

    fn eq(&self, other: &BitName) -> bool {
        other.access.same_bit(&self.access)
    }
}

impl Eq for BitName {
    ghost laws = { one_bit_equiv };
}

impl Hash for BitName {
    ghost hash_input = { bit_fed };

    ghost respects_eq = { one_bit_fed };

    fn hash<H: Hasher>(&self, state: &mut H) {
        self.access.bit.hash(state);
        self.access.reader.hash(state);
        self.access.owner.hash(state);
        number_of_field(self.access.field).hash(state);
    }
}
