//! Reads and writes that are repeated if a signal interrupts them, below all streams of the program.
ghost use Rattle.std.specs.Prelude.{◌≡◌, ◌≢◌, IfErr};
ghost use Rattle.std.specs.Io.{ReadsAtMost, WritesAtMost};
ghost use Rattle.std.specs.Io.KnownBytes.{ReadConsumes, WriteAppends};
ghost use Rattle.std.specs.IoError.{error_kind};

use std::io;
use std::io::{Error, ErrorKind, Read, Write};

/// The most times that a call is made. No program runs long enough to reach it.
const MOST_TRIES: u64 = u64::MAX;

/// Reads once, and again whenever a signal interrupts the read.
pub fn read_again<R: Read>(reader: &mut R, buffer: &mut [u8]) -> io::Result<usize>
    ensures bound { ReadsAtMost result buffer.new }
    ensures bytes { ReadConsumes (R.remaining reader.old) (R.remaining reader.new) result
        buffer.new }
    ensures again { IfErr result (λ error. error_kind error ≢ ErrorKind.Interrupted) }
{
    for _ in 0..MOST_TRIES {
        match reader.read(buffer) {
            Err(error) if error.kind() == ErrorKind::Interrupted => {}
            ended => return ended,
        }
    }
    Err(Error::from(ErrorKind::TimedOut))
}

/// Writes once, and again whenever a signal interrupts the write.
pub fn write_again<W: Write>(writer: &mut W, bytes: &[u8]) -> io::Result<usize>
    ensures bound { WritesAtMost result bytes.now }
    ensures bytes { WriteAppends (W.contents writer.old) (W.contents writer.new) result bytes.now }
    ensures again { IfErr result (λ error. error_kind error ≢ ErrorKind.Interrupted) }
{
    for _ in 0..MOST_TRIES {
        match writer.write(bytes) {
            Err(error) if error.kind() == ErrorKind::Interrupted => {}
            ended => return ended,
        }
    }
    Err(Error::from(ErrorKind::TimedOut))
}

/// A reader whose reads are repeated if a signal interrupts them.
#[derive(Drop)]
pub struct Uninterrupted<R: Read + Drop> {
    reader: R,
}

impl<R: Read + Drop> Uninterrupted<R> {
    /// Creates it before a reader. It has the same bytes.
    pub fn new(reader: R) -> Uninterrupted<R>
        ensures { ⟦<Uninterrupted<R> as Read>⟧.remaining result ≡ R.remaining reader }
    {
        Uninterrupted { reader }
    }
}

impl<R: Read + Drop> Read for Uninterrupted<R> {
    ghost remaining = { λ r. R.remaining r.reader };

    fn read(&mut self, buffer: &mut [u8]) -> io::Result<usize>
        ensures bound { ReadsAtMost result buffer.new }
        ensures bytes { ReadConsumes (R.remaining self.old.reader) (R.remaining self.new.reader)
            result buffer.new }
        ensures again { IfErr result (λ error. error_kind error ≢ ErrorKind.Interrupted) }
    {
        read_again(&mut self.reader, buffer)
    }
}
