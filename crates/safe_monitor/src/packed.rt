//! Looks, each in four bits.
ghost use Rattle.std.specs.Prelude.{◌≡◌, ℕ, ◌<◌, ◌%◌, length, replicate, slice_index_or, slice_set, IfOk, [], false};
ghost use Rattle.safe_monitor.specs.MonitoredBits.{monitored_after};
ghost use Rattle.safe_monitor.specs.Packing.{ending_from, four_bits, monitored_from};

use crate::monitored_bit::{MonitoredBit, ReadEnd};
use std::alloc::{AllocError, Global};
use std::marker::Model;

impl ReadEnd {
    /// Returns the number of this end of a read, below 4.
    #[inline]
    fn code(self) -> u8
        ensures same { ending_from result ≡ self }
        ensures most { result < 4 }
    {
        match self {
            ReadEnd::Free => 0,
            ReadEnd::Writing => 1,
            ReadEnd::Bound(false) => 2,
            ReadEnd::Bound(true) => 3,
        }
    }

    /// Returns the end of a read with this number.
    #[inline]
    fn from_code(code: u8) -> ReadEnd
        ensures { result ≡ ending_from code }
    {
        match code {
            0 => ReadEnd::Free,
            1 => ReadEnd::Writing,
            _ => ReadEnd::Bound(code == 3),
        }
    }
}

impl MonitoredBit {
    /// Returns the number of this look, below 16.
    #[inline]
    fn code(self) -> u8
        ensures same { monitored_from result ≡ self }
        ensures most { result < 16 }
    {
        u8::from(self.begun) + 2 * u8::from(self.written) + 4 * self.ending.code()
    }

    /// Returns the look with this number.
    #[inline]
    fn from_code(code: u8) -> MonitoredBit
        ensures { result ≡ monitored_from code }
    {
        MonitoredBit {
            begun: code % 2 == 1,
            written: code / 2 % 2 == 1,
            ending: ReadEnd::from_code(code / 4),
        }
    }
}

/// Returns the four bits of a byte at an even or an odd position.
#[inline]
fn four_bits(byte: u8, k: usize) -> u8
    ensures { result ≡ four_bits byte k }
{
    if k % 2 == 0 { byte % 16 } else { byte / 16 }
}

/// Returns the byte with other four bits at this position.
#[inline]
fn with_four_bits(byte: u8, k: usize, code: u8) -> u8
    requires { code < 16 }
    ensures same { four_bits result k ≡ code }
    ensures other { (j : ℕ) → (j % 2 ≡ k % 2 → ⊥) → four_bits result j ≡ four_bits byte j }
{
    if k % 2 == 0 {
        byte / 16 * 16 + code
    } else {
        byte % 16 + 16 * code
    }
}

/// A list of looks, two in a byte.
#[derive(Drop)]
pub(crate) struct MonitoredBits {
    bytes: Vec<u8>,
    len: usize,
}

impl Model for MonitoredBits {
    ghost use Rattle.std.specs.Prelude.{◌≡◌, List, ◌+◌, ◌/◌, length};
    ghost use Rattle.safe_monitor.specs.declared.monitored_bit.MonitoredBit.{MonitoredBit as Seen};
    ghost use Rattle.safe_monitor.specs.Packing.{monitored_bits_of};

    ghost Value = { List Seen };

    ghost view = { λ l. monitored_bits_of l.bytes.items l.len };

    ghost invariant = { λ l. length l.bytes.items ≡ (l.len + 1) / 2 };
}

impl MonitoredBits {
    /// Creates the looks of `len` bits that are initially 0.
    ///
    /// # Errors
    ///
    /// Returns [`AllocError`] if memory runs out.
    pub fn new(alloc: Global, len: usize) -> Result<MonitoredBits, AllocError>
        ensures { IfOk result
            (λ monitored_bits. monitored_bits ≡ replicate len (monitored_after false [])) }
    {
        let bytes = vec![in alloc; 0u8; len.div_ceil(2)]?;
        Ok(MonitoredBits { bytes, len })
    }

    /// Copies the looks.
    ///
    /// # Errors
    ///
    /// Returns [`AllocError`] if memory runs out.
    pub fn twin(&self, alloc: Global) -> Result<MonitoredBits, AllocError>
        ensures { IfOk result (λ monitored_bits. monitored_bits ≡ self.now) }
    {
        let mut bytes = Vec::new(alloc);
        bytes.extend_from_slice(self.bytes.as_slice())?;
        Ok(MonitoredBits {
            bytes,
            len: self.len,
        })
    }

    /// Returns the number of looks.
    #[inline]
    pub fn len(&self) -> usize
        ensures { result ≡ length self.now }
    {
        self.len
    }

    /// Returns look `k`.
    #[inline]
    pub fn get(&self, k: usize) -> MonitoredBit
        requires { k < length self.now }
        ensures { result ≡ slice_index_or self.now k (monitored_after false []) }
    {
        MonitoredBit::from_code(four_bits(self.bytes[k / 2], k))
    }

    /// Replaces look `k`.
    #[inline]
    pub fn set(&mut self, k: usize, monitored_bit: MonitoredBit)
        requires { k < length self.old }
        ensures { self.new ≡ slice_set self.old k monitored_bit }
    {
        self.bytes[k / 2] = with_four_bits(self.bytes[k / 2], k, monitored_bit.code());
    }
}
