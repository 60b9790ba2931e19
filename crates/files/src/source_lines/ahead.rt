//! Bytes that a source gave and that no line has taken.
ghost use Rattle.std.specs.Prelude.{◌≡◌, ◌+◌, ◌^◌, ◌-◌, ◌<◌, ◌≤◌, [], true, false, length, take, IfErr, IfOk, IfSome, Some};
ghost use Rattle.std.specs.List.{position};
ghost use Rattle.files.specs.Streams.{IsReadFault, failed_reading};
ghost use Rattle.files.specs.Lines.{ends_line, without_return};
ghost use Rattle.files.specs.SourceLines.{Ends, FindsLine, KeepsEnd, MovesOn, MovesToEnd, Waits};

use crate::faults::Fault;
use crate::streams::{Failed, Source};
use memchr::memchr;
use std::alloc::{AllocError, Global};
use std::marker::Model;
use std::simd::prelude::*;

/// The number of bytes that a source is asked for at once.
const BLOCK: usize = 8192;

/// The number of bytes that are searched at once for the end of a line: most lines of a record have fewer.
const NEAR: usize = 32;

/// Bytes that a source gave and that no line has taken, and whether it has reported its end. Contracts see their list.
#[derive(Drop)]
pub(crate) struct ReadAhead {
    block: Vec<u8>,
    at: usize,
    ended: bool,
    /// The start and the end of the line that was found last, unless a block came since.
    begin: usize,
    end: usize,
}

impl Model for ReadAhead {
    ghost use Rattle.std.specs.Prelude.{◌≤◌, ◌-◌, drop, length, take};
    ghost use Rattle.files.specs.SourceLines.{Held};

    ghost Value = { Held };

    ghost view = { λ a. record { given = record { bytes = drop a.at a.block.items; ended = a.ended }; line = take (a.end - a.begin) (drop a.begin a.block.items) } };

    ghost invariant = { λ a. (a.at ≤ length a.block.items) × (a.begin ≤ a.end) × (a.end ≤ length a.block.items) };
}

impl ReadAhead {
    /// Creates an `ReadAhead` without bytes.
    pub fn new(alloc: Global) -> ReadAhead
        ensures bytes { result.given.bytes ≡ [] }
        ensures ended { result.given.ended ≡ false }
    {
        ReadAhead {
            block: Vec::new(alloc),
            at: 0,
            ended: false,
            begin: 0,
            end: 0,
        }
    }

    /// Asks the source for a block if all bytes are taken. Returns `false` if it has none. A source that has reported its end
    /// is not asked again.
    ///
    /// # Errors
    ///
    /// Returns [`Fault::Read`] if the call of the source fails, or [`Fault::Memory`] if memory runs out.
    #[inline(always)]
    pub fn fill<R: Source>(&mut self, input: &mut R) -> Result<bool, Fault>
        requires { R.failures input.old < 2 ^ 64 - 1 }
        ensures nonempty { IfOk result (λ some. some ≡ true → 0 < length self.new.given.bytes) }
        ensures stays { Waits result self.old.given (R.to_come input.old) self.new.given
            (R.to_come input.new) }
        ensures end { Ends result self.old.given (R.to_come input.old) self.new.given
            (R.to_come input.new) }
        ensures ended { IfOk result (λ some. some ≡ false → self.new.given.ended ≡ true) }
        ensures holds { KeepsEnd self.old.given (R.to_come input.old) self.new.given
            (R.to_come input.new) }
        ensures stays_ended { self.old.given.ended ≡ true → self.new.given.ended ≡ true }
        ensures left_alone { self.old.given.ended ≡ true → input.new ≡ input.old }
        ensures fault { IfErr result IsReadFault }
        ensures failures { R.failures input.new ≡ R.failures input.old + failed_reading result }
    {
        if self.at < self.block.len() {
            return Ok(true);
        }
        if self.ended {
            return Ok(false);
        }
        let mut buffer = [0; BLOCK];
        match input.next_bytes(&mut buffer) {
            Ok(0) => {
                self.ended = true;
                Ok(false)
            }
            Ok(count) => {
                self.at = 0;
                self.begin = 0;
                self.end = 0;
                self.block.clear();
                match self.block.extend_from_slice(&buffer[..count]) {
                    Ok(()) => Ok(true),
                    Err(_) => Err(Fault::Memory),
                }
            }
            Err(Failed) => Err(Fault::Read),
        }
    }

    /// Finds the first line of the waiting bytes, if its end is among them. It stays in place. Otherwise nothing is changed.
    #[inline(always)]
    pub fn find_line(&mut self) -> bool
        ensures found { result ≡ true → FindsLine self.old self.new }
        ensures none { result ≡ false → self.new ≡ self.old }
        ensures source { self.new.given.ended ≡ self.old.given.ended }
    {
        let waiting = &self.block[self.at..];
        match offset_of_end(waiting) {
            Some(count) => {
                let inner = count_inner(&waiting[..count]);
                self.begin = self.at;
                self.end = self.at + inner;
                self.at += count + 1;
                true
            }
            None => false,
        }
    }

    /// Returns the line that was found last.
    #[inline(always)]
    pub fn line(&self) -> &[u8]
        ensures { result.now ≡ self.now.line }
    {
        &self.block[self.begin..self.end]
    }

    /// Moves the bytes before the first 0x0A to the end of a line, and drops the 0x0A. Without a 0x0A it moves all bytes and
    /// returns `false`.
    ///
    /// # Errors
    ///
    /// Returns [`AllocError`] if memory runs out.
    #[inline(always)]
    pub fn move_to(&mut self, line: &mut Vec<u8>) -> Result<bool, AllocError>
        ensures ended { MovesToEnd result self.old.given self.new.given line.old line.new }
        ensures all { MovesOn result self.old.given self.new.given line.old line.new }
        ensures source { self.new.given.ended ≡ self.old.given.ended }
    {
        let waiting = &self.block[self.at..];
        match offset_of_end(waiting) {
            Some(count) => {
                line.extend_from_slice(&waiting[..count])?;
                self.at += count + 1;
                Ok(true)
            }
            None => {
                line.extend_from_slice(waiting)?;
                self.at = self.block.len();
                Ok(false)
            }
        }
    }
}

/// Returns the number of bytes before the first 0x0A, if there is one.
#[inline(always)]
#[tactic(auto, using(crate::proofs::LineEnds::place_is))]
fn offset_of_end(bytes: &[u8]) -> Option<usize>
    ensures place { result ≡ position ends_line bytes.now }
    ensures within { IfSome result (λ at. at < length bytes.now) }
{
    if bytes.len() >= NEAR {
        let near = count_before_end(bytes);
        if near < NEAR {
            return Some(near);
        }
    }
    memchr(b'\n', bytes)
}

/// Returns the number of bytes before the first 0x0A, if it is near; otherwise a number greater than [`NEAR`].
#[inline(always)]
fn count_before_end(bytes: &[u8]) -> usize
    requires { 32 ≤ length bytes.now }
    ensures { result < 32 → position ends_line bytes.now ≡ Some result }
{
    let ends = u8x32::from_slice(bytes).simd_eq(u8x32::splat(b'\n'));
    ends.to_bitmask().trailing_zeros() as usize
}

/// Returns the number of bytes of a line without a 0x0D at its end.
#[inline(always)]
#[tactic(auto, using(crate::proofs::Returns::with_return, crate::proofs::Returns::all_kept))]
fn count_inner(line: &[u8]) -> usize
    ensures within { result ≤ length line.now }
    ensures inner { take result line.now ≡ without_return line.now }
{
    if line.last() == Some(&b'\r') {
        line.len() - 1
    } else {
        line.len()
    }
}
