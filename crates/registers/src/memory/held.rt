//! The value of a register, by reader 0's copies. It is read from them without an access.
ghost use Rattle.std.specs.Prelude.{◌≡◌, ℕ, ◌<◌, ◌≤◌, Ok, false, slice_index_or};
ghost use Rattle.plain_store.specs.{checked};
ghost use Rattle.model.specs.{width};
ghost use Rattle.safe_number.specs.{bit_in, number_of_bits};
ghost use Rattle.registers.specs.Openings.{AreOf};
ghost use Rattle.registers.specs.Rows.{values_held};
ghost use Rattle.reader_copies.specs.{bits_of_words};

use super::BitMemory;
use crate::cursor::{lane_number, low_bits};
use crate::fields::RegisterName;
use crate::word_bytes::bytes_of;
use model::width_of;
use plain_store::Setup;

impl BitMemory {
    /// Returns the number that a register of at most 32 bits holds.
    pub fn number_held(&self, setup: &Setup, register: RegisterName) -> u32
        requires good { checked setup.now ≡ Ok tt }
        requires memory { AreOf setup.now self.now }
        requires owner { register.owner < setup.now.processes }
        requires narrow { width setup.now register.field ≤ 32 }
        ensures { result ≡ number_of_bits (values_held setup.now.processes self.now register) }
    {
        let words = self.words_held(setup, register);
        low_bits(words[0], width_of(register.field, setup))
    }

    /// Returns the bytes that a register holds. After its bits they have no meaning.
    pub fn bytes_held(&self, setup: &Setup, register: RegisterName) -> [u8; 216]
        requires good { checked setup.now ≡ Ok tt }
        requires memory { AreOf setup.now self.now }
        requires owner { register.owner < setup.now.processes }
        ensures { (k : ℕ) → k < width setup.now register.field →
            bit_in result k
            ≡ slice_index_or (values_held setup.now.processes self.now register) k false }
    {
        bytes_of(&self.words_held(setup, register))
    }

    /// Returns the value of a register as words.
    fn words_held(&self, setup: &Setup, register: RegisterName) -> [u64; 27]
        requires good { checked setup.now ≡ Ok tt }
        requires memory { AreOf setup.now self.now }
        requires owner { register.owner < setup.now.processes }
        ensures bits { bits_of_words result (width setup.now register.field)
            ≡ values_held setup.now.processes self.now register }
        ensures most { width setup.now register.field ≤ 1728 }
    {
        let width = usize::from(width_of(register.field, setup));
        let lane = &self.lanes[lane_number(setup.processes, register, 0)];
        let mut words = [0; 27];
        for place in 0..width.div_ceil(64) {
            words[place] = lane.word(64 * place);
        }
        words
    }
}
