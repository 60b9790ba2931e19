ghost use Rattle.std.specs.Prelude.{◌≡◌, ◌↔◌, IsTrue, IsOk, IfOk, nat_eq};
ghost use Rattle.std.proofs.Common.{rules};
ghost use Rattle.std.specs.Cmp.{partial_equiv_from_equiv};
ghost use Rattle.std.specs.Cmp.Lexicographic.{pointwise, nat_list_eq_equiv};
ghost use Rattle.std.specs.Cmp.Rules.{hashing};
ghost use Rattle.std.specs.Hash as fed;
ghost use Rattle.std.specs.List.{list_all};
ghost use Rattle.plain_store.specs.Names.{is_text, is_text_byte as text_byte};

use crate::padding::pad;
use std::hash::{Hash, Hasher};
use std::marker::Model;
use thiserror::Error;

/// A text as a value: 0 to 12 bytes, each from 0x21 to 0x7E. Contracts see its bytes.
#[derive(Clone, Copy)]
pub struct Text {
    len: u8,
    bytes: [u8; 12],
}

impl Model for Text {
    ghost use Rattle.std.specs.Prelude.{◌≡◌, ◌≤◌, ℕ, List, take, length, IsTrue};
    ghost use Rattle.std.proofs.Common.{sym};
    ghost use Rattle.plain_store.specs.Names.{is_text};
    ghost use Rattle.plain_store.specs.Padding.{padded, padded_again};

    ghost Value = { List ℕ };

    ghost view = { λ n. take n.len n.bytes };

    ghost invariant = { λ n. IsTrue (is_text (take n.len n.bytes)) × (n.len ≤ 12) × (n.bytes ≡ padded 12 (take n.len n.bytes)) };

    ghost inverse = { λ bytes. record { len = length bytes; bytes = padded 12 bytes } };

    ghost inverse_ok = { λ n h j. record { len = padded_again 12 n.len n.bytes h.1 h.2 j; bytes = sym h.2 j } };
}

/// The bytes are not a text.
#[derive(Clone, Copy, Debug, Error)]
#[error("a text has at most 12 bytes, each printable ASCII and no space")]
pub struct BadText;

impl Text {
    /// Creates the text with these bytes.
    ///
    /// # Errors
    ///
    /// Returns [`BadText`] exactly if the bytes are not a text.
    pub fn new(bytes: &[u8]) -> Result<Text, BadText>
        ensures accepts { IsOk result ↔ IsTrue (is_text bytes.now) }
        ensures value { IfOk result (λ text. text ≡ bytes.now) }
    {
        if !Text::accepts(bytes) {
            return Err(BadText);
        }
        Ok(Text {
            len: bytes.len() as u8,
            bytes: pad(bytes),
        })
    }

    fn accepts(bytes: &[u8]) -> bool
        ensures { result ≡ is_text bytes.now }
    {
        bytes.len() <= 12 && all_text_bytes(bytes)
    }

    /// Returns the bytes of the text, 0 to 12.
    pub fn bytes(&self) -> &[u8]
        ensures value { result.now ≡ self.now }
        ensures valid { IsTrue (is_text result.now) }
    {
        &self.bytes[..self.len as usize]
    }

    /// Returns the text as a string.
    #[tactic(auto, using(crate::proofs::Ascii::text_is_utf8))]
    pub fn as_str(&self) -> &str
        ensures { result.now ≡ self.now }
    {
        str::from_utf8(self.bytes()).unwrap()
    }
}

fn all_text_bytes(bytes: &[u8]) -> bool
    ensures { result ≡ list_all text_byte bytes.now }
{
    bytes.iter().all(|b| is_text_byte(*b))
}

fn is_text_byte(b: u8) -> bool
    ensures { result ≡ text_byte b }
{
    b.is_ascii_graphic()
}

impl PartialEq for Text {
    ghost eq = { pointwise nat_eq };

    ghost laws = { partial_equiv_from_equiv nat_list_eq_equiv };

    fn eq(&self, other: &Text) -> bool {
        self.bytes() == other.bytes()
    }
}

impl Eq for Text {
    ghost laws = { nat_list_eq_equiv };
}

impl Hash for Text {
    ghost hash_input = { fed.slice fed.u8 };

    ghost respects_eq = { Prim.search (hashing, rules) };

    fn hash<H: Hasher>(&self, state: &mut H) {
        self.bytes().hash(state);
    }
}
