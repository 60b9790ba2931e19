//! Bytes that an engine reads, one by one or in blocks, and bytes that it writes.
ghost use Rattle.std.specs.Prelude.{◌≡◌, ℕ, ◌+◌, ◌-◌, ◌^◌, ◌<◌, List, Option, Result, Ok, Err, IsErr, IfErr, IfOk, OnOk, OnErr};
ghost use Rattle.std.specs.Io.{ReadsAtMost, WritesAtMost};
ghost use Rattle.std.specs.Io.KnownBytes.{Appends, ReadConsumes, WriteAppends};
ghost use Rattle.files.specs.Streams.{GivesByte, failed_read, failed_put, failed_reading, failed_writing, GivesInput, IsReadFault, ReadsFront, WritesFront};

use crate::faults::Fault;
use std::alloc::Global;
use std::io::{self, Read, Write};

/// The error of a call that failed, for any reason.
#[derive(Clone, Copy)]
pub struct Failed;

/// The origin of an engine's input.
pub trait Source {
    /// The bytes to come, if they are known.
    ghost to_come: { Self → Option (List ℕ) };

    /// The number of calls that have failed.
    ghost failures: { Self → ℕ };

    /// Returns the next byte, or `None` at the end. An `Err` takes no byte.
    fn next_byte(&mut self) -> Result<Option<u8>, Failed>
        requires { failures self.old < 2 ^ 64 - 1 }
        ensures byte { GivesByte (to_come self.old) (to_come self.new) result }
        ensures failures { failures self.new ≡ failures self.old + failed_read result };

    /// Takes the first bytes into a buffer, and returns their number: 0 only at the end, or if the buffer has no
    /// room. An `Err` takes no byte.
    fn next_bytes(&mut self, buffer: &mut [u8]) -> Result<usize, Failed>
        requires { failures self.old < 2 ^ 64 - 1 }
        ensures count { ReadsAtMost result buffer.new }
        ensures bytes { ReadConsumes (to_come self.old) (to_come self.new) result buffer.new }
        ensures failures { failures self.new ≡ failures self.old + failed_read result }
    {
        if buffer.is_empty() {
            return Ok(0);
        }
        match self.next_byte()? {
            None => Ok(0),
            Some(byte) => {
                buffer[0] = byte;
                Ok(1)
            }
        }
    }
}

/// The destination of an engine's output.
pub trait Sink {
    /// The bytes that were taken, if they are known.
    ghost taken: { Self → Option (List ℕ) };

    /// The number of calls that have failed, or that took none of some bytes.
    ghost failures: { Self → ℕ };

    /// Takes the first of these bytes, and returns their number. After an `Err` no byte is taken.
    fn put(&mut self, bytes: &[u8]) -> Result<usize, Failed>
        requires { failures self.old < 2 ^ 64 - 1 }
        ensures count { WritesAtMost result bytes.now }
        ensures bytes { WriteAppends (taken self.old) (taken self.new) result bytes.now }
        ensures failures { failures self.new ≡ failures self.old + failed_put result bytes.now };
}

/// Returns the result of a call of std: an error of any kind is a failed call.
fn counted(ended: io::Result<usize>, failures: &mut u64) -> Result<usize, Failed>
    requires { failures.old < 2 ^ 64 - 1 }
    ensures count { IfOk ended (λ count. result ≡ Ok count) }
    ensures error { OnErr ended (IsErr result) }
    ensures failures { failures.new ≡ failures.old + failed_read result }
{
    match ended {
        Ok(count) => Ok(count),
        Err(_) => {
            *failures += 1;
            Err(Failed)
        }
    }
}

/// A reader of std as a source. An error of any kind is a failed call, so a reader that a signal may interrupt has to
/// read again by itself. Each byte and each block is a call of `read`, so put a buffer before a file that is read byte
/// by byte.
#[derive(Drop)]
pub struct FromRead<R: Read> {
    reader: R,
    failures: u64,
}

impl<R: Read> FromRead<R> {
    /// Creates a source of the bytes that a reader has, without failures.
    pub fn new(reader: R) -> FromRead<R>
        ensures bytes { ⟦<FromRead<R> as Source>⟧.to_come result ≡ R.remaining reader }
        ensures failures { ⟦<FromRead<R> as Source>⟧.failures result ≡ 0 }
    {
        FromRead {
            reader,
            failures: 0,
        }
    }
}

impl<R: Read> Source for FromRead<R> {
    ghost to_come = { λ s. R.remaining s.reader };

    ghost failures = { λ s. s.failures };

    fn next_byte(&mut self) -> Result<Option<u8>, Failed> {
        let mut buffer = [0];
        match counted(self.reader.read(&mut buffer), &mut self.failures)? {
            0 => Ok(None),
            _ => Ok(Some(buffer[0])),
        }
    }

    fn next_bytes(&mut self, buffer: &mut [u8]) -> Result<usize, Failed> {
        counted(self.reader.read(buffer), &mut self.failures)
    }
}

/// A writer of std as a sink. An error of any kind is a failed call, so a writer that a signal may interrupt has to
/// write again by itself.
#[derive(Drop)]
pub struct IntoWrite<W: Write> {
    writer: W,
    failures: u64,
}

impl<W: Write> IntoWrite<W> {
    /// Creates a sink with the bytes that a writer took, without failures.
    pub fn new(writer: W) -> IntoWrite<W>
        ensures bytes { ⟦<IntoWrite<W> as Sink>⟧.taken result ≡ W.contents writer }
        ensures failures { ⟦<IntoWrite<W> as Sink>⟧.failures result ≡ 0 }
    {
        IntoWrite {
            writer,
            failures: 0,
        }
    }
}

impl<W: Write> Sink for IntoWrite<W> {
    ghost taken = { λ s. W.contents s.writer };

    ghost failures = { λ s. s.failures };

    fn put(&mut self, bytes: &[u8]) -> Result<usize, Failed> {
        let count = counted(self.writer.write(bytes), &mut self.failures)?;
        if count == 0 && !bytes.is_empty() {
            self.failures += 1;
        }
        Ok(count)
    }
}

/// The most bytes that an engine reads of its input: 4,096 lines of 128 bytes with two bytes of end, and
/// one more. A longer input has its fault among them.
pub const INPUT_LIMIT: usize = 532_481;

/// Reads the bytes to come, up to the end or to [`INPUT_LIMIT`] of them. It fails with `Read` if a call failed, and with
/// `Memory` if memory ran out. In both cases it has taken at most [`INPUT_LIMIT`] bytes, from the front.
pub fn read_input<R: Source>(alloc: Global, input: &mut R) -> Result<Vec<u8>, Fault>
    requires { R.failures input.old < 2 ^ 64 - 1 }
    ensures input { GivesInput result (R.to_come input.old) (R.to_come input.new) }
    ensures front { ReadsFront (R.to_come input.old) (R.to_come input.new) }
    ensures fault { IfErr result IsReadFault }
    ensures failures { R.failures input.new ≡ R.failures input.old + failed_reading result }
{
    let mut bytes = Vec::new(alloc);
    while bytes.len() < INPUT_LIMIT {
        match input.next_byte() {
            Ok(Some(byte)) => {
                if bytes.push(byte).is_err() {
                    return Err(Fault::Memory);
                }
            }
            Ok(None) => return Ok(bytes),
            Err(Failed) => return Err(Fault::Read),
        }
    }
    Ok(bytes)
}

/// Writes all the bytes, in as many calls as the sink needs.
/// A call may take only some of the bytes.
///
/// # Errors
///
/// Returns [`Fault::Write`] if a call failed or took none of some bytes. Some bytes from the front were then written.
pub fn write_all<W: Sink>(output: &mut W, bytes: &[u8]) -> Result<(), Fault>
    requires { W.failures output.old < 2 ^ 64 - 1 }
    ensures written { OnOk result (Appends (W.taken output.old) (W.taken output.new) bytes.now) }
    ensures front { WritesFront (W.taken output.old) (W.taken output.new) bytes.now }
    ensures fault { OnErr result (result ≡ Err Fault.Write) }
    ensures failures { W.failures output.new ≡ W.failures output.old + failed_writing result }
{
    let mut at = 0;
    while at < bytes.len() {
        match output.put(&bytes[at..]) {
            Ok(0) => return Err(Fault::Write),
            Ok(n) => at += n,
            Err(Failed) => return Err(Fault::Write),
        }
    }
    Ok(())
}
