//! The progress of a register access of a process.
ghost use Rattle.std.specs.Prelude.{◌≡◌, ℕ, ◌<◌, ◌≤◌, ◌+◌, ◌*◌, ◌/◌, ◌%◌, ◌^◌, false, Ok, length, slice_index_or};
ghost use Rattle.plain_store.specs.{checked};
ghost use Rattle.reader_copies.specs.{HasItsValue};
ghost use Rattle.model.specs.{IsTornOf, value_of, width};
ghost use Rattle.safe_number.specs.{bit_in, bits_in, bits_of_number, number_of_bits};
ghost use Rattle.registers.specs.Accesses.{cursor_after, next_access, value_written};
ghost use Rattle.registers.specs.Begins.{idle_cursor, is_fresh, is_torn, reading, settling, settling_from, torn_bit, writing};
ghost use Rattle.registers.specs.CopyBytes.{register_bytes};
ghost use Rattle.registers.specs.Cursors.{is_over, lane_number, rest_of};

mod progress;
mod steps;

use crate::fields::RegisterName;
use crate::word_bytes::{bytes_of, register_bytes, words_of};
use model::{Access, Field, Move, TornBit, number_of_field, width_of};
use plain_store::Setup;
use reader_copies::Torn;
use std::marker::Model;

/// The kind of a register access.
#[derive(Clone, Copy)]
pub enum RegisterAccessKind {
    /// It reads each bit: begin and end on the reader's own copy.
    Reads,
    /// It writes each bit: begin and end on each copy, reader 0's first.
    Writes,
    /// It gives all copies of one bit one value, in place of its writer, which has left it.
    Settles {
        /// The number of accesses of the bit's write that were made.
        cut: u8,
        /// The value, or `None` before the settling has begun.
        value: Option<bool>,
    },
}

/// One register access: it reads, writes or settles a register, bit 0 first.
#[derive(Drop)]
pub struct Cursor {
    register: RegisterName,
    /// The reader whose copies are read; 0 for a write or a settling.
    reader: u8,
    /// The number of copies of each bit.
    pub(crate) copies: u8,
    width: u16,
    /// The lane of its reader, which is the first of the lanes that it writes.
    pub(crate) lane: usize,
    run: RegisterAccessKind,
    /// The present bit, the present copy of a write, and whether the access to it has begun.
    pub(crate) bit: u16,
    copy: u8,
    pub(crate) begun: bool,
    /// The bits that are read or written: bit `k` is bit `k % 64` of word `k / 64`. For a read, the bits above those that
    /// were read have no meaning.
    pub(crate) words: [u64; 27],
}

impl Model for Cursor {
    ghost use Rattle.registers.specs.Cursors.{CursorState, bits_kept};
    ghost use Rattle.registers.specs.Begins.{KeepsCursor};

    ghost Value = { CursorState };

    ghost view = { λ c. record { register = c.register; reader = c.reader; copies = c.copies; width = c.width; run = c.run; bit = c.bit; copy = c.copy; begun = c.begun; bits = bits_kept c.run c.words c.bit c.width } };

    ghost invariant = { λ c. KeepsCursor c.register c.reader c.copies c.width c.lane c.run c.bit c.copy c.words };
}

impl Cursor {
    /// Creates a cursor with no access to make.
    pub fn idle() -> Cursor
        ensures { result ≡ idle_cursor }
    {
        Cursor {
            register: RegisterName {
                owner: 0,
                field: Field::Choosing,
            },
            reader: 0,
            copies: 1,
            width: 0,
            lane: 0,
            run: RegisterAccessKind::Writes,
            bit: 0,
            copy: 0,
            begun: false,
            words: [0; 27],
        }
    }

    /// Makes this cursor equal to the other one.
    pub fn copy_from(&mut self, other: &Cursor)
        ensures { self.new ≡ other.now }
    {
        self.register = other.register;
        self.reader = other.reader;
        self.copies = other.copies;
        self.width = other.width;
        self.lane = other.lane;
        self.run = other.run;
        self.bit = other.bit;
        self.copy = other.copy;
        self.begun = other.begun;
        self.words = other.words;
    }

    /// Begins a read of a register by this reader.
    pub fn begin_read(&mut self, setup: &Setup, register: RegisterName, reader: u8)
        requires good { checked setup.now ≡ Ok tt }
        requires reader { reader < setup.now.processes }
        ensures { self.new ≡ reading setup.now register reader }
    {
        self.register = register;
        self.reader = reader;
        self.copies = setup.processes;
        self.width = width_of(register.field, setup);
        self.lane = lane_number(self.copies, register, reader);
        self.run = RegisterAccessKind::Reads;
        self.bit = 0;
        self.copy = 0;
        self.begun = false;
    }

    /// Begins a write of a number to a register of at most 32 bits.
    pub fn begin_write(&mut self, setup: &Setup, register: RegisterName, number: u32)
        requires good { checked setup.now ≡ Ok tt }
        requires narrow { width setup.now register.field ≤ 32 }
        ensures { self.new
            ≡ writing setup.now register (bits_of_number (width setup.now register.field) number) }
    {
        self.register = register;
        self.reader = 0;
        self.copies = setup.processes;
        self.width = width_of(register.field, setup);
        self.lane = lane_number(self.copies, register, 0);
        self.run = RegisterAccessKind::Writes;
        self.bit = 0;
        self.copy = 0;
        self.begun = false;
        self.words[0] = u64::from(number);
    }

    /// Begins a write of these bytes to a register.
    pub fn begin_write_bytes(&mut self, setup: &Setup, register: RegisterName, bytes: &[u8; 216])
        requires { checked setup.now ≡ Ok tt }
        ensures { self.new
            ≡ writing setup.now register (bits_in bytes.now (width setup.now register.field)) }
    {
        self.register = register;
        self.reader = 0;
        self.copies = setup.processes;
        self.width = width_of(register.field, setup);
        self.lane = lane_number(self.copies, register, 0);
        self.run = RegisterAccessKind::Writes;
        self.bit = 0;
        self.copy = 0;
        self.begun = false;
        self.words = words_of(bytes);
    }

    /// Begins to settle the present bit, whose write was interrupted, in place of its writer.
    pub fn settle(&mut self)
        requires writes { self.old.run ≡ RegisterAccessKind.Writes }
        ensures { self.new ≡ settling self.old }
    {
        let cut = 2 * self.copy + u8::from(self.begun);
        self.run = RegisterAccessKind::Settles { cut, value: None };
        self.copy = 0;
        self.begun = false;
    }

    /// Continues the settling of a torn bit of this process from its present progress.
    pub fn settle_on(&mut self, setup: &Setup, owner: u8, torn: &TornBit)
        requires good { checked setup.now ≡ Ok tt }
        requires torn { IsTornOf setup.now torn.now }
        ensures cursor { self.new ≡ settling_from setup.now owner torn.now }
        ensures value { HasItsValue torn.now.torn.begun torn.now.torn.value }
    {
        let register = RegisterName {
            owner,
            field: torn.field,
        };
        self.begin_write_bytes(setup, register, &[0; 216]);
        self.run = RegisterAccessKind::Settles {
            cut: torn.torn.made(),
            value: torn.torn.value(),
        };
        self.bit = torn.bit;
        self.copy = torn.torn.reader();
        self.begun = torn.torn.has_begun();
    }

    /// Returns whether it is a read or a write that has made no access.
    #[inline]
    pub fn is_fresh(&self) -> bool
        ensures { result ≡ is_fresh self.now }
    {
        self.bit == 0
            && self.copy == 0
            && !self.begun
            && !matches!(self.run, RegisterAccessKind::Settles { .. })
    }

    /// Returns whether it writes, and its present bit has begun and has not ended on every copy.
    pub fn is_torn(&self) -> bool
        ensures { result ≡ is_torn self.now }
    {
        matches!(self.run, RegisterAccessKind::Writes) && (self.copy != 0 || self.begun)
    }

    /// Returns the bit that it leaves unfinished if it halts now.
    pub fn torn(&self) -> Option<TornBit>
        ensures { result ≡ torn_bit self.now }
    {
        if !self.is_torn() {
            return None;
        }
        Some(TornBit {
            field: self.register.field,
            bit: self.bit,
            torn: Torn::cut_after(2 * self.copy + u8::from(self.begun)),
        })
    }

    /// Returns the number that was read from a register of at most 32 bits, or is written to it.
    pub fn number(&self) -> u32
        requires { self.now.width ≤ 32 }
        ensures { result ≡ number_of_bits self.now.bits }
    {
        let word = word_at(&self.words, 0);
        match self.run {
            RegisterAccessKind::Reads => low_bits(word, self.bit),
            RegisterAccessKind::Writes => low_bits(word, self.width),
            RegisterAccessKind::Settles { .. } => low_bits(word, self.width),
        }
    }

    /// Returns the bytes that were read or are written. After the register's bits they have no meaning.
    pub fn bytes(&self) -> [u8; 216]
        ensures { (k : ℕ) → k < length self.now.bits →
            bit_in result k ≡ slice_index_or self.now.bits k false }
    {
        bytes_of(&self.words)
    }

    /// Returns the bits that were read so far, or that are written, as the bytes of a register.
    pub fn register_bytes(&self) -> [u8; 216]
        ensures { result ≡ register_bytes self.now.bits }
    {
        register_bytes(&self.words, usize::from(self.known_bits()))
    }

    /// Returns whether no access is left.
    #[inline]
    pub fn is_over(&self) -> bool
        ensures { result ≡ is_over self.now }
    {
        self.bit == self.width
    }

    /// Returns the kind of its register access.
    #[inline]
    pub fn run(&self) -> RegisterAccessKind
        ensures { result ≡ self.now.run }
    {
        self.run
    }

    /// Returns the number of accesses that may be made at once: all that are left, or one for a settling.
    #[inline(always)]
    pub fn remaining(&self) -> u32
        ensures { result ≡ rest_of self.now }
    {
        match self.run {
            RegisterAccessKind::Reads => {
                let made = 2 * u32::from(self.bit) + u32::from(self.begun);
                (2 * u32::from(self.width)).saturating_sub(made)
            }
            RegisterAccessKind::Writes => {
                let copies = u32::from(self.copies);
                let bits = copies * u32::from(self.bit) + u32::from(self.copy);
                (2 * (copies * u32::from(self.width))).saturating_sub(
                    2 * bits + u32::from(self.begun),
                )
            }
            RegisterAccessKind::Settles { .. } => u32::from(self.bit != self.width),
        }
    }

    /// Returns the next access by this flick, which is the value of a settling that has not begun. The end of a read has the
    /// flick as its provisional value.
    #[inline(always)]
    pub fn next(&self, flick: bool) -> Access
        requires { self.now.bit < self.now.width }
        ensures { result ≡ next_access self.now flick }
    {
        let how = match self.run {
            RegisterAccessKind::Reads => self.read_move(flick),
            RegisterAccessKind::Writes => self.write_move(),
            RegisterAccessKind::Settles { cut, value } => {
                let value = match value {
                    Some(first) => first,
                    None => flick,
                };
                if self.begun {
                    Move::EndWrite
                } else if cut == 2 * self.copy + 1 {
                    Move::Settle(value)
                } else {
                    Move::BeginWrite(value)
                }
            }
        };
        self.made(how, false).access
    }

    /// Advances by this access, whatever memory it was made on; the end of a read contains the value that it returned.
    #[inline]
    pub fn advance(&mut self, how: Move)
        requires { self.old.bit < self.old.width }
        ensures { self.new ≡ cursor_after self.old how }
    {
        match self.run {
            RegisterAccessKind::Reads => self.read_on(value_returned(how)),
            RegisterAccessKind::Writes => self.write_on(),
            RegisterAccessKind::Settles { cut, value } => {
                let ends = self.begun || cut == 2 * self.copy + 1;
                self.run = RegisterAccessKind::Settles {
                    cut,
                    value: written(value, how),
                };
                self.begun = !ends;
                if ends && self.copy + 1 == self.copies {
                    self.copy = 0;
                    self.bit = self.width;
                } else {
                    self.copy += u8::from(ends);
                }
            }
        }
    }
}

/// Returns the word that contains a bit.
#[inline(always)]
pub(crate) fn word_at(words: &[u64; 27], bit: usize) -> u64
    requires { bit < 1728 }
    ensures { result ≡ slice_index_or words.now (bit / 64) 0 }
{
    words[bit / 64]
}

/// Returns the `bits` lowest bits of a word.
pub(crate) fn low_bits(word: u64, bits: u16) -> u32
    requires { bits ≤ 32 }
    ensures { result ≡ word % 2 ^ bits }
{
    (word % (1u64 << bits)) as u32
}

/// Returns the lane with a reader's copies of a register.
pub(crate) fn lane_number(copies: u8, register: RegisterName, reader: u8) -> usize
    ensures { result ≡ lane_number copies register reader }
{
    (7 * register.owner as usize + number_of_field(register.field)) * copies as usize
        + reader as usize
}

/// Returns the value that the end of a read returned; `false` for every other access.
#[inline]
pub fn value_returned(how: Move) -> bool
    ensures { result ≡ value_of how }
{
    match how {
        Move::EndRead(value) => value,
        _ => false,
    }
}

/// Returns the value of a bit that is written or settled.
fn written(value: Option<bool>, how: Move) -> Option<bool>
    ensures { result ≡ value_written value how }
{
    match how {
        Move::BeginWrite(value) | Move::Settle(value) => Some(value),
        _ => value,
    }
}
