//! The properties of moves.
ghost use Rattle.std.specs.Prelude.{◌≡◌, ◌≤◌, ◌^◌, nat_lt};
ghost use Rattle.trace.specs.Moves.{access_reading, alters, begins, begins_read, changes, ends, ends_read, fits, is_part, move_reading, only_writes, reads, value_read, value_written, writes};

use crate::accesses::{CellAccess, CellMove};

impl CellAccess {
    /// Returns the access, if it reads this value.
    pub fn reading(&self, value: u32) -> CellAccess
        ensures { result ≡ access_reading value self.now }
    {
        CellAccess {
            cell: self.cell,
            how: self.how.reading(value),
        }
    }
}

impl CellMove {
    /// Returns whether the move begins a write or a read that ends later.
    #[inline]
    pub fn begins(self) -> bool
        ensures { result ≡ begins self }
    {
        matches!(self, CellMove::Write(_) | CellMove::Read)
    }

    /// Returns whether the move ends a write or a read that began earlier.
    #[inline]
    pub fn ends(self) -> bool
        ensures { result ≡ ends self }
    {
        matches!(self, CellMove::End | CellMove::Value(_))
    }

    /// Returns whether the move is a begin or an end.
    #[inline]
    pub fn is_part(self) -> bool
        ensures { result ≡ is_part self }
    {
        matches!(
            self,
            CellMove::Write(_) | CellMove::End | CellMove::Read | CellMove::Value(_)
        )
    }

    /// Returns whether the move writes and does not read.
    #[inline]
    pub fn only_writes(self) -> bool
        ensures { result ≡ only_writes self }
    {
        matches!(self, CellMove::Write(_) | CellMove::End | CellMove::Set(_))
    }

    /// Returns whether the move reads and writes in one entry.
    #[inline]
    pub fn changes(self) -> bool
        ensures { result ≡ changes self }
    {
        matches!(
            self,
            CellMove::Swap { .. } | CellMove::Add { .. } | CellMove::Cas { .. }
        )
    }

    /// Returns whether the move begins a read, which may end with it.
    #[inline]
    pub fn reads(self) -> bool
        ensures { result ≡ reads self }
    {
        matches!(
            self,
            CellMove::Read
                | CellMove::Get(_)
                | CellMove::Swap { .. }
                | CellMove::Add { .. }
                | CellMove::Cas { .. }
        )
    }

    /// Returns whether the move begins a write, which may end with it.
    #[inline]
    pub fn writes(self) -> bool
        ensures { result ≡ writes self }
    {
        matches!(
            self,
            CellMove::Write(_)
                | CellMove::Set(_)
                | CellMove::Swap { .. }
                | CellMove::Add { .. }
                | CellMove::Cas { .. }
        )
    }

    /// Returns whether the move begins or ends a write.
    #[inline]
    pub fn alters(self) -> bool
        ensures { result ≡ alters self }
    {
        !matches!(self, CellMove::Read | CellMove::Value(_) | CellMove::Get(_))
    }

    /// Returns whether the move begins a read that ends later.
    #[inline]
    pub fn begins_read(self) -> bool
        ensures { result ≡ begins_read self }
    {
        matches!(self, CellMove::Read)
    }

    /// Returns whether the move ends a read that began earlier.
    #[inline]
    pub fn ends_read(self) -> bool
        ensures { result ≡ ends_read self }
    {
        matches!(self, CellMove::Value(_))
    }

    /// Returns the value of a write that begins with the move.
    #[inline]
    pub fn value_written(self) -> Option<u32>
        ensures { result ≡ value_written self }
    {
        match self {
            CellMove::Write(value) | CellMove::Set(value) => Some(value),
            _ => None,
        }
    }

    /// Returns the value that the move read, as the trace states it.
    #[inline]
    pub fn value_read(self) -> Option<u32>
        ensures { result ≡ value_read self }
    {
        match self {
            CellMove::Value(value) | CellMove::Get(value) => Some(value),
            CellMove::Swap { new: _, gives } => Some(gives),
            CellMove::Add { addend: _, gives } => Some(gives),
            CellMove::Cas {
                expected: _,
                new: _,
                gives,
            } => Some(gives),
            CellMove::Write(_) | CellMove::End | CellMove::Read | CellMove::Set(_) => None,
        }
    }

    /// Returns the move, if it reads this value.
    pub fn reading(self, value: u32) -> CellMove
        ensures { result ≡ move_reading value self }
    {
        match self {
            CellMove::Value(_) => CellMove::Value(value),
            CellMove::Get(_) => CellMove::Get(value),
            CellMove::Swap { new, gives: _ } => CellMove::Swap { new, gives: value },
            CellMove::Add { addend, gives: _ } => CellMove::Add {
                addend,
                gives: value,
            },
            CellMove::Cas {
                expected,
                new,
                gives: _,
            } => CellMove::Cas {
                expected,
                new,
                gives: value,
            },
            how => how,
        }
    }

    /// Returns whether the values of the move fit a width.
    #[inline]
    pub fn fits(self, width: u8) -> bool
        requires { width ≤ 32 }
        ensures { result ≡ fits width self }
    {
        match self {
            CellMove::End | CellMove::Read => true,
            CellMove::Write(value)
            | CellMove::Value(value)
            | CellMove::Set(value)
            | CellMove::Get(value) => fits_width(width, value),
            CellMove::Swap { new, gives } => fits_width(width, new) && fits_width(width, gives),
            CellMove::Add { addend, gives } => {
                fits_width(width, addend) && fits_width(width, gives)
            }
            CellMove::Cas {
                expected,
                new,
                gives,
            } => {
                fits_width(width, expected) && fits_width(width, new) && fits_width(width, gives)
            }
        }
    }
}

/// Returns the number of values of a width, which is at most 32.
pub fn values_of_width(width: u8) -> u64
    requires { width ≤ 32 }
    ensures count { result ≡ 2 ^ width }
    ensures most { result ≤ 2 ^ 32 }
{
    1 << width
}

/// Returns whether a value fits a width.
#[inline]
fn fits_width(width: u8, value: u32) -> bool
    requires { width ≤ 32 }
    ensures { result ≡ nat_lt value (2 ^ width) }
{
    u64::from(value) < values_of_width(width)
}
