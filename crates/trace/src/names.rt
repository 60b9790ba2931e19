ghost use Rattle.std.specs.Prelude.{◌≡◌, ◌↔◌, IsTrue, IsOk, IfOk};
ghost use Rattle.trace.specs.CellNames.{is_cell_name};

use plain_store::Name;
use std::marker::Model;
use thiserror::Error;

/// The name of a register: 1 to 8 bytes, each `a` to `z`, `0` to `9` or `_`, the first not a digit.
/// Contracts see its bytes.
#[derive(Clone, Copy, PartialEq, Eq)]
pub struct CellName {
    name: Name,
}

impl Model for CellName {
    ghost use Rattle.std.specs.Prelude.{ℕ, List, IsTrue};
    ghost use Rattle.trace.specs.CellNames.{is_cell_name};

    ghost Value = { List ℕ };

    ghost view = { λ n. n.name };

    ghost invariant = { λ n. IsTrue (is_cell_name n.name) };

    ghost inverse = { λ bytes. record { name = bytes } };
}

/// The bytes are not the name of a register.
#[derive(Clone, Copy, Debug, Error)]
#[error("a register's name has 1 to 8 bytes, each a to z, 0 to 9 or _, the first not a digit")]
pub struct BadCellName;

impl CellName {
    /// Returns the name with these bytes.
    ///
    /// # Errors
    ///
    /// Returns [`BadCellName`] exactly if the bytes are not a name.
    pub fn new(bytes: &[u8]) -> Result<CellName, BadCellName>
        ensures accepts { IsOk result ↔ IsTrue (is_cell_name bytes.now) }
        ensures value { IfOk result (λ name. name ≡ bytes.now) }
    {
        let Ok(name) = Name::new(bytes) else {
            return Err(BadCellName);
        };
        if bytes[0].is_ascii_digit() {
            return Err(BadCellName);
        }
        Ok(CellName { name })
    }

    /// Returns the bytes of the name, 1 to 8.
    pub fn bytes(&self) -> &[u8]
        ensures value { result.now ≡ self.now }
        ensures valid { IsTrue (is_cell_name result.now) }
    {
        self.name.bytes()
    }

    /// Returns the name as text.
    pub fn as_str(&self) -> &str
        ensures { result.now ≡ self.now }
    {
        self.name.as_str()
    }
}
