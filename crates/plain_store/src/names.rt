ghost use Rattle.std.specs.Prelude.{◌≡◌, ◌↔◌, IsTrue, IsOk, IfOk, nat_eq};
ghost use Rattle.std.proofs.Common.{rules};
ghost use Rattle.std.specs.Cmp.{partial_equiv_from_equiv};
ghost use Rattle.std.specs.Cmp.Lexicographic.{pointwise, nat_list_eq_equiv};
ghost use Rattle.std.specs.Cmp.Rules.{hashing};
ghost use Rattle.std.specs.Hash as fed;
ghost use Rattle.std.specs.List.{list_all};
ghost use Rattle.plain_store.specs.Names.{is_name, is_name_byte as name_byte};

use crate::padding::pad;
use std::hash::{Hash, Hasher};
use std::marker::Model;
use thiserror::Error;

/// The name of a value: 1 to 8 bytes, each `a` to `z`, `0` to `9` or `_`. Contracts see its bytes.
#[derive(Clone, Copy)]
pub struct Name {
    len: u8,
    bytes: [u8; 8],
}

impl Model for Name {
    ghost use Rattle.std.specs.Prelude.{◌≡◌, ◌≤◌, ℕ, List, take, length, IsTrue};
    ghost use Rattle.std.proofs.Common.{sym};
    ghost use Rattle.plain_store.specs.Names.{is_name};
    ghost use Rattle.plain_store.specs.Padding.{padded, padded_again};

    ghost Value = { List ℕ };

    ghost view = { λ n. take n.len n.bytes };

    ghost invariant = { λ n. IsTrue (is_name (take n.len n.bytes)) × (n.len ≤ 8) × (n.bytes ≡ padded 8 (take n.len n.bytes)) };

    ghost inverse = { λ bytes. record { len = length bytes; bytes = padded 8 bytes } };

    ghost inverse_ok = { λ n h j. record { len = padded_again 8 n.len n.bytes h.1 h.2 j; bytes = sym h.2 j } };
}

/// The bytes are not a name.
#[derive(Clone, Copy, Debug, Error)]
#[error("a name has 1 to 8 bytes, each a to z, 0 to 9 or _")]
pub struct BadName;

impl Name {
    /// Creates the name with these bytes.
    ///
    /// # Errors
    ///
    /// Returns [`BadName`] exactly if the bytes are not a name.
    pub fn new(bytes: &[u8]) -> Result<Name, BadName>
        ensures accepts { IsOk result ↔ IsTrue (is_name bytes.now) }
        ensures value { IfOk result (λ name. name ≡ bytes.now) }
    {
        if !Name::accepts(bytes) {
            return Err(BadName);
        }
        Ok(Name {
            len: bytes.len() as u8,
            bytes: pad(bytes),
        })
    }

    fn accepts(bytes: &[u8]) -> bool
        ensures { result ≡ is_name bytes.now }
    {
        !bytes.is_empty() && bytes.len() <= 8 && all_name_bytes(bytes)
    }

    /// Returns the bytes of the name, 1 to 8.
    pub fn bytes(&self) -> &[u8]
        ensures value { result.now ≡ self.now }
        ensures valid { IsTrue (is_name result.now) }
    {
        &self.bytes[..self.len as usize]
    }

    /// Returns the name as a string.
    #[tactic(auto, using(crate::proofs::Ascii::name_is_utf8))]
    pub fn as_str(&self) -> &str
        ensures { result.now ≡ self.now }
    {
        str::from_utf8(self.bytes()).unwrap()
    }
}

fn all_name_bytes(bytes: &[u8]) -> bool
    ensures { result ≡ list_all name_byte bytes.now }
{
    bytes.iter().all(|b| is_name_byte(*b))
}

fn is_name_byte(b: u8) -> bool
    ensures { result ≡ name_byte b }
{
    b.is_ascii_lowercase() || b.is_ascii_digit() || b == b'_'
}

impl PartialEq for Name {
    ghost eq = { pointwise nat_eq };

    ghost laws = { partial_equiv_from_equiv nat_list_eq_equiv };

    fn eq(&self, other: &Name) -> bool {
        self.bytes() == other.bytes()
    }
}

impl Eq for Name {
    ghost laws = { nat_list_eq_equiv };
}

impl Hash for Name {
    ghost hash_input = { fed.slice fed.u8 };

    ghost respects_eq = { Prim.search (hashing, rules) };

    fn hash<H: Hasher>(&self, state: &mut H) {
        self.bytes().hash(state);
    }
}
