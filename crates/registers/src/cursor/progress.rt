//! The progress of a cursor: its accesses, and the one that it made last.
ghost use Rattle.std.specs.Prelude.{◌≡◌, ◌≤◌, false, length, slice_index_or};
ghost use Rattle.registers.specs.Progress.{accesses_in_all, accesses_made, last_access, access_on, last_read, last_write};

use super::{Cursor, RegisterAccessKind, word_at};
use model::{Access, Move};
use reader_copies::has_flag;

impl Cursor {
    /// Returns how many accesses of its register access it has made.
    pub fn accesses_made(&self) -> u32
        ensures { result ≡ accesses_made self.now }
    {
        let begun = u32::from(self.begun);
        match self.run {
            RegisterAccessKind::Reads => 2 * u32::from(self.bit) + begun,
            RegisterAccessKind::Writes => {
                let bits = u32::from(self.copies) * u32::from(self.bit) + u32::from(self.copy);
                2 * bits + begun
            }
            RegisterAccessKind::Settles { cut, .. } => {
                let passed = cut % 2 == 1 && cut / 2 < self.copy;
                (2 * u32::from(self.copy) + begun).saturating_sub(u32::from(passed))
            }
        }
    }

    /// Returns how many accesses its register access has.
    pub fn accesses_in_all(&self) -> u32
        ensures { result ≡ accesses_in_all self.now }
    {
        match self.run {
            RegisterAccessKind::Reads => 2 * u32::from(self.width),
            RegisterAccessKind::Writes => 2 * (u32::from(self.copies) * u32::from(self.width)),
            RegisterAccessKind::Settles { cut, .. } => {
                (2 * u32::from(self.copies)).saturating_sub(u32::from(cut % 2 == 1))
            }
        }
    }

    /// Returns the access that it made last; `None` if it has made none of its register access, and while it settles.
    pub fn last_access(&self) -> Option<Access>
        ensures { result ≡ last_access self.now }
    {
        match self.run {
            RegisterAccessKind::Reads => self.last_read(),
            RegisterAccessKind::Writes => self.last_write(),
            RegisterAccessKind::Settles { .. } => None,
        }
    }

    /// Returns the access that a read made last.
    fn last_read(&self) -> Option<Access>
        ensures { result ≡ last_read self.now }
    {
        if self.begun {
            return Some(self.access_on(self.bit, self.copy, Move::BeginRead));
        }
        if self.bit == 0 {
            return None;
        }
        let bit = self.bit - 1;
        Some(self.access_on(bit, self.copy, Move::EndRead(self.bit_kept(bit))))
    }

    /// Returns the access that a write made last.
    fn last_write(&self) -> Option<Access>
        ensures { result ≡ last_write self.now }
    {
        if self.begun {
            let how = Move::BeginWrite(self.bit_kept(self.bit));
            return Some(self.access_on(self.bit, self.copy, how));
        }
        if self.copy != 0 {
            return Some(self.access_on(self.bit, self.copy - 1, Move::EndWrite));
        }
        if self.bit == 0 {
            return None;
        }
        Some(self.access_on(self.bit - 1, self.copies - 1, Move::EndWrite))
    }

    /// Returns the access to a copy of a bit that makes this move.
    fn access_on(&self, bit: u16, copy: u8, how: Move) -> Access
        requires { copy ≤ 16 }
        ensures { result ≡ access_on self.now bit copy how }
    {
        Access {
            owner: self.register.owner,
            field: self.register.field,
            bit,
            reader: self.reader + copy,
            how,
        }
    }

    /// Returns a bit that was read, or that is written; `false` if there is no such bit.
    fn bit_kept(&self, bit: u16) -> bool
        ensures { result ≡ slice_index_or self.now.bits bit false }
    {
        if self.known_bits() <= bit {
            return false;
        }
        let place = usize::from(bit);
        has_flag(word_at(&self.words, place), place % 64)
    }

    /// Returns how many bits were read, or are written.
    pub(super) fn known_bits(&self) -> u16
        ensures bits { result ≡ length self.now.bits }
        ensures most { result ≤ 1728 }
    {
        match self.run {
            RegisterAccessKind::Reads => self.bit,
            RegisterAccessKind::Writes => self.width,
            RegisterAccessKind::Settles { .. } => self.width,
        }
    }
}
