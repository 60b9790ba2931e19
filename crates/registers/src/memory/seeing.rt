//! The state of a copy of a bit. It is read without an access.
ghost use Rattle.std.specs.Prelude.{◌≡◌, ◌<◌, ◌≤◌, IfNone, IfSome, Ok, OnSome, false, length, true};
ghost use Rattle.plain_store.specs.{checked};
ghost use Rattle.model.specs.{width};
ghost use Rattle.registers.specs.Accesses.{next_answered};
ghost use Rattle.registers.specs.BitCopies.{cell_of_copy};
ghost use Rattle.registers.specs.CopyBytes.{copies_in, copy_bytes, has_open_write, values_in};
ghost use Rattle.registers.specs.Cursors.{Fits};
ghost use Rattle.registers.specs.Openings.{AreOf};
ghost use Rattle.reader_copies.specs.{copy_state, bits_of_words};

use super::BitMemory;
use crate::cursor::{Cursor, RegisterAccessKind, lane_number};
use crate::fields::{BitCopy, RegisterName};
use crate::word_bytes::register_bytes;
use model::{Access, width_of};
use plain_store::Setup;
use reader_copies::{Copies, CopyState};

impl BitMemory {
    /// Returns the state of a copy of a bit.
    pub fn copy_state(&self, setup: &Setup, copy: BitCopy) -> CopyState
        requires good { checked setup.now ≡ Ok tt }
        requires memory { AreOf setup.now self.now }
        requires owner { copy.register.owner < setup.now.processes }
        requires reader { copy.reader < setup.now.processes }
        requires bit { copy.bit < width setup.now copy.register.field }
        ensures { result ≡ copy_state (cell_of_copy setup.now.processes self.now copy) }
    {
        let lane = lane_number(setup.processes, copy.register, copy.reader);
        self.lanes[lane].seen(usize::from(copy.bit))
    }

    /// Returns the access that [`step`](BitMemory::step) would make with this flick. Nothing changes.
    #[inline]
    pub fn next_access(&self, cursor: &Cursor, flick: bool) -> Access
        requires going { cursor.now.bit < cursor.now.width }
        requires fits { Fits self.now cursor.now }
        ensures { result ≡ next_answered cursor.now self.now flick }
    {
        let RegisterAccessKind::Reads = cursor.run() else {
            return cursor.next(flick);
        };
        let seen = self.lanes[cursor.lane].seen(usize::from(cursor.bit));
        let value = if seen.touched { flick } else { seen.value };
        cursor.made(cursor.read_move(value), false).access
    }

    /// Returns the copy that a reader has of a register as bytes, with zeros after its bits; `None` while a write of one
    /// of its bits is open.
    pub fn copy_bytes(&self, setup: &Setup, register: RegisterName, reader: u8) -> Option<[u8; 216]>
        requires good { checked setup.now ≡ Ok tt }
        requires memory { AreOf setup.now self.now }
        requires owner { register.owner < setup.now.processes }
        requires reader { reader < setup.now.processes }
        ensures { result ≡ copy_bytes (copies_in setup.now.processes self.now register reader) }
    {
        let width = usize::from(width_of(register.field, setup));
        let lane = &self.lanes[lane_number(setup.processes, register, reader)];
        let words = closed_words(lane, width)?;
        Some(register_bytes(&words, width))
    }
}

/// Returns the values of the copies of a lane as words; `None` while a write of one of them is open.
fn closed_words(lane: &Copies, width: usize) -> Option<[u64; 27]>
    requires wide { length lane.now ≡ width }
    requires most { width ≤ 1728 }
    ensures written { IfNone result (has_open_write lane.now ≡ true) }
    ensures closed { OnSome result (has_open_write lane.now ≡ false) }
    ensures bits { IfSome result (λ words. bits_of_words words width ≡ values_in lane.now) }
{
    let mut words = [0; 27];
    for place in 0..width.div_ceil(64) {
        if lane.is_written(64 * place, (width - 64 * place).min(64)) {
            return None;
        }
        words[place] = lane.word(64 * place);
    }
    Some(words)
}
