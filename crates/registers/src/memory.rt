//! The memory, and the accesses on it.
ghost use Rattle.std.specs.Prelude.{◌≡◌, ◌≢◌, ℕ, ◌<◌, ◌≤◌, ◌+◌, ◌*◌, ◌%◌, length, true, false, IfOk, Ok};
ghost use Rattle.plain_store.specs.{checked};
ghost use Rattle.model.specs.{width};
ghost use Rattle.choices.specs.{after_flick, flick_of};
ghost use Rattle.registers.specs.Accesses.{LeadsTo, applied, cursor_after, ends_overlapped, newest_of, next_answered, overlapped_of, run_of};
ghost use Rattle.registers.specs.Begins.{is_settling};
ghost use Rattle.registers.specs.Cursors.{Fits, first_lane, rest_of};
ghost use Rattle.reader_copies.specs.{bits_of_words};
ghost use Rattle.registers.specs.Memory.{AreAlikeMemories, without_reads};
ghost use Rattle.registers.specs.Openings.{AreOfOneSetup, field_numbered, opening_lane, opening_memory};

mod held;
mod seeing;

use crate::access_made::{AccessMade, AccessesMade};
use crate::cursor::{Cursor, RegisterAccessKind, word_at};
use choices::Flicks;
use model::{Field, field_numbered, width_of};
use plain_store::Setup;
use reader_copies::Copies;
use std::alloc::{AllocError, Global};
use std::marker::Model;

/// The registers of all processes: for each register the copies of each reader.
///
/// Contracts see them as lanes: lane `lane_number` holds the copies that one reader has of one register, bit by bit.
#[derive(Drop)]
pub struct BitMemory {
    lanes: Vec<Copies>,
}

impl Model for BitMemory {
    ghost use Rattle.std.specs.Prelude.{List};
    ghost use Rattle.safe_bit.specs.Cell.{Cell};

    ghost Value = { List (List Cell) };

    ghost view = { λ r. r.lanes.items };
}

impl BitMemory {
    /// Creates the initial registers of all processes of a setup: the first image of process 0 holds the bits of `image`,
    /// and every other register is 0.
    ///
    /// # Errors
    ///
    /// Returns [`AllocError`] if an allocation fails; there is no other error.
    pub fn new(alloc: Global, setup: &Setup, image: &[u64]) -> Result<BitMemory, AllocError>
        requires good { checked setup.now ≡ Ok tt }
        requires image { width setup.now Field.Image0 ≤ 64 * length image.now }
        ensures { IfOk result
            (λ registers. registers
            ≡ opening_memory setup.now (bits_of_words image.now (width setup.now Field.Image0))) }
    {
        let processes = usize::from(setup.processes);
        let mut lanes = Vec::new(alloc);
        for lane in 0..7 * processes * processes {
            lanes.push(open_lane(alloc, setup, image, lane)?)?;
        }
        Ok(BitMemory { lanes })
    }

    /// Makes the next `steps` accesses, each by the next flick, with the effect of `steps` single accesses. Returns the
    /// newest of them, and how many ended a read that a write overlapped. A result that the caller does not use costs nothing.
    #[inline(always)]
    pub fn run(&mut self, cursor: &mut Cursor, flicks: &mut Flicks, steps: u32) -> AccessesMade
        requires kind { is_settling cursor.old.run ≡ false }
        requires nonzero { 0 < steps }
        requires within { steps ≤ rest_of cursor.old }
        requires fits { Fits self.old cursor.old }
        ensures run { (cursor.new, self.new, flicks.new)
            ≡ run_of steps (cursor.old, self.old, flicks.old) }
        ensures fits { Fits self.new cursor.new }
        ensures newest { result.newest ≡ newest_of steps (cursor.old, self.old, flicks.old) }
        ensures overlapped { result.overlapped
            ≡ overlapped_of steps (cursor.old, self.old, flicks.old) }
    {
        let (mut made, mut overlapped) = (0, 0);
        'steps: loop {
            // The last access is reported, so the word-wise path stops before it.
            let word = self.run_word(cursor, steps - 1 - made);
            if word > 0 {
                flicks.skip(word);
                made += word;
                continue;
            }
            let one = self.step_plain(cursor, flicks);
            made += 1;
            overlapped += u32::from(one.overlapped);
            if made == steps {
                return AccessesMade {
                    newest: one.access,
                    overlapped,
                };
            }
        }
    }

    /// Makes the next access by the next flick, and advances the cursor. Returns the access, and whether it ended a read
    /// that a write overlapped.
    #[inline]
    pub fn step(&mut self, cursor: &mut Cursor, flicks: &mut Flicks) -> AccessMade
        requires going { cursor.old.bit ≢ cursor.old.width }
        requires fits { Fits self.old cursor.old }
        ensures inside { cursor.old.bit < cursor.old.width }
        ensures access { result.access ≡ next_answered cursor.old self.old (flick_of flicks.old) }
        ensures overlapped { result.overlapped
            ≡ ends_overlapped cursor.old.copies self.old result.access }
        ensures cursor { cursor.new ≡ cursor_after cursor.old result.access.how }
        ensures memory { self.new ≡ applied cursor.old.copies self.old result.access }
        ensures flicks { flicks.new ≡ after_flick flicks.old }
    {
        let bit = cursor.bit as usize;
        let RegisterAccessKind::Settles { .. } = cursor.run() else {
            return self.step_plain(cursor, flicks);
        };
        let next = cursor.next(flicks.flick());
        self.lanes[cursor.copy_lane()].go_on(bit, next.how);
        cursor.advance(next.how);
        AccessMade {
            access: next,
            overlapped: false,
        }
    }

    /// Makes the next access of a read or a write, as `step` does. A read has no branch on whether it is a begin or an end,
    /// and a flick that is not needed is not computed.
    #[inline(always)]
    fn step_plain(&mut self, cursor: &mut Cursor, flicks: &mut Flicks) -> AccessMade
        requires kind { is_settling cursor.old.run ≡ false }
        requires going { cursor.old.bit < cursor.old.width }
        requires fits { Fits self.old cursor.old }
        ensures access { result.access ≡ next_answered cursor.old self.old (flick_of flicks.old) }
        ensures overlapped { result.overlapped
            ≡ ends_overlapped cursor.old.copies self.old result.access }
        ensures cursor { cursor.new ≡ cursor_after cursor.old result.access.how }
        ensures memory { self.new ≡ applied cursor.old.copies self.old result.access }
        ensures flicks { flicks.new ≡ after_flick flicks.old }
    {
        let bit = cursor.bit as usize;
        if let RegisterAccessKind::Reads = cursor.run() {
            let copies = &mut self.lanes[cursor.lane];
            let seen = copies.seen(bit);
            let value = if seen.touched {
                flicks.flick()
            } else {
                flicks.flick();
                seen.value
            };
            let how = cursor.read_move(value);
            let made = cursor.made(how, cursor.begun && seen.touched);
            copies.go_on(bit, how);
            cursor.read_on(value);
            made
        } else {
            flicks.flick();
            let how = cursor.write_move();
            let made = cursor.made(how, false);
            let lane = cursor.copy_lane();
            cursor.write_on();
            self.lanes[lane].go_on(bit, how);
            made
        }
    }

    /// Makes this memory equal to the other one, which has the same setup. It does not allocate.
    pub fn copy_from(&mut self, other: &BitMemory)
        requires { AreOfOneSetup self.old other.now }
        ensures { self.new ≡ other.now }
    {
        for (at, lane) in other.lanes.iter().enumerate() {
            self.lanes[at].copy_from(lane);
        }
    }

    /// Returns whether this memory behaves like the other one: it has as many lanes, and the flags of each copy are equal,
    /// except the flags `touched` of copies without an open read. It compares whole words, and a result `false` proves
    /// nothing.
    pub fn is_alike(&self, other: &BitMemory) -> bool
        ensures { result ≡ true → AreAlikeMemories self.now other.now }
    {
        if self.lanes.len() != other.lanes.len() {
            return false;
        }
        for (at, lane) in other.lanes.iter().enumerate() {
            if !self.lanes[at].is_alike(lane) {
                return false;
            }
        }
        true
    }

    /// Drops the open reads of the cursor's register by its reader: the read is given up and ends without a value.
    pub fn drop_read(&mut self, cursor: &Cursor)
        requires { Fits self.old cursor.now }
        ensures { self.new ≡ without_reads self.old (first_lane cursor.now) }
    {
        self.lanes[cursor.lane].drop_reads();
    }

    /// Accesses the next bits of one word at once, on each of their lanes. Returns the number of accesses made, at most
    /// `steps`: 0 if a bit has begun, and 0 if a bit that is to be read is being written.
    #[inline(always)]
    fn run_word(&mut self, cursor: &mut Cursor, steps: u32) -> u32
        requires fits { Fits self.old cursor.old }
        ensures within { result ≤ steps }
        ensures leads { LeadsTo result cursor.old self.old cursor.new self.new }
    {
        let bits = cursor.bits_ahead(steps);
        if bits == 0 {
            return 0;
        }
        let (lane, bit, n) = (cursor.lane, cursor.bit as usize, bits as usize);
        match cursor.run() {
            RegisterAccessKind::Reads => {
                let Some(word) = self.lanes[lane].read_word(bit, n) else {
                    return 0;
                };
                cursor.keep_word(n, word);
                2 * bits
            }
            RegisterAccessKind::Writes => {
                let (copies, word) = (u32::from(cursor.copies), word_at(&cursor.words, bit));
                for copy in 0..copies as usize {
                    self.lanes[lane + copy].write_word(bit, n, word);
                }
                cursor.bit += bits as u16;
                2 * (copies * bits)
            }
            RegisterAccessKind::Settles { .. } => 0,
        }
    }
}

/// Creates an initial lane.
fn open_lane(alloc: Global, setup: &Setup, image: &[u64], lane: usize) -> Result<Copies, AllocError>
    requires good { checked setup.now ≡ Ok tt }
    requires image { width setup.now Field.Image0 ≤ 64 * length image.now }
    ensures { IfOk result
        (λ copies. copies
        ≡ opening_lane setup.now (bits_of_words image.now (width setup.now Field.Image0)) lane) }
{
    let register = lane / usize::from(setup.processes);
    if register == 5 {
        Copies::from_words(alloc, usize::from(width_of(Field::Image0, setup)), image)
    } else {
        let field = field_numbered(register % 7);
        Copies::new(alloc, usize::from(width_of(field, setup)))
    }
}
