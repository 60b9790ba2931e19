//! The pairs with which a store opens.
ghost use Rattle.std.specs.Prelude.{◌≡◌, [], ◌∷◌, ◌++◌, ◌≤◌, IsTrue, length, slice_get, is_some, OnOk, OnErr};
ghost use Rattle.plain_store.specs.Pairs.{pairs_in};
ghost use Rattle.plain_store.specs.Store.{value_at, names_differ};

use crate::commands::Value;
use crate::names::Name;
use std::marker::Model;
use thiserror::Error;

/// The reason why a pair cannot be added to an opening.
#[derive(Clone, Copy, Debug, Error)]
pub enum OpenFault {
    #[error("the name has an opening pair")]
    Double,
    #[error("there are 8 opening pairs")]
    Full,
}

/// The pairs with which a store opens, at most 8. Contracts see their list, in the order added.
#[derive(Clone, Copy)]
pub struct Opening {
    len: u8,
    places: [Option<(Name, Value)>; 8],
}

impl Model for Opening {
    ghost use Rattle.std.specs.Prelude.{List, length};
    ghost use Rattle.std.proofs.Common.{sym};
    ghost use Rattle.plain_store.specs.Openings.{IsPacked};
    ghost use Rattle.plain_store.specs.Pairs.{Pair, pairs_in, placed};

    ghost Value = { List Pair };

    ghost view = { λ o. pairs_in o.places };

    ghost invariant = { λ o. IsPacked o.len o.places };

    ghost inverse = { λ pairs. record { len = length pairs; places = placed pairs } };

    ghost inverse_ok = { λ o h j. record { len = sym h.counted j; places = sym h.packed j } };
}

impl Opening {
    ghost use Rattle.plain_store.specs.Openings.{answer_to_add};

    /// Creates an opening without pairs.
    pub fn empty() -> Opening
        ensures { result ≡ [] }
    {
        Opening {
            len: 0,
            places: [None; 8],
        }
    }

    /// Returns the number of pairs: 0 to 8, with names that differ.
    pub fn len(&self) -> usize
        ensures pairs { result ≡ length self.now }
        ensures bounded { result ≤ 8 }
        ensures differ { IsTrue (names_differ self.now) }
    {
        usize::from(self.len)
    }

    /// Returns the pair at an index from 0, in the order added.
    pub fn entry(&self, place: usize) -> Option<(Name, Value)>
        ensures { result ≡ slice_get self.now place }
    {
        if place < usize::from(self.len) {
            self.places[place]
        } else {
            None
        }
    }

    /// Adds a pair at the end.
    ///
    /// # Errors
    ///
    /// Returns [`OpenFault::Double`] if the name has a pair, and otherwise [`OpenFault::Full`] if there are 8 pairs. The
    /// opening is then unchanged.
    pub fn add(&mut self, name: Name, value: Value) -> Result<(), OpenFault>
        ensures pairs { OnOk result (self.new ≡ self.old ++ (name, value) ∷ []) }
        ensures answer { result ≡ answer_to_add self.old name }
        ensures err { OnErr result (self.new ≡ self.old) }
    {
        if is_among(&self.places, &name) {
            return Err(OpenFault::Double);
        }
        if self.len == 8 {
            return Err(OpenFault::Full);
        }
        self.places[usize::from(self.len)] = Some((name, value));
        self.len += 1;
        Ok(())
    }
}

/// Returns whether the places contain a pair with the name.
fn is_among(places: &[Option<(Name, Value)>], name: &Name) -> bool
    ensures { result ≡ is_some (value_at (pairs_in places.now) name.now) }
{
    for place in places {
        if let Some((other, _)) = place
            && name == other
        {
            return true;
        }
    }
    false
}
