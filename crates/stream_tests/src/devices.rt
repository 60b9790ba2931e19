//! A source and a sink of which one call fails. Later calls succeed, so that a test notices an engine that makes them.
ghost use Rattle.std.specs.Prelude.{◌≡◌, IfOk};

use files::{Failed, Sink, Source};
use std::alloc::{AllocError, Global};

/// The bytes of a file, of which one read fails.
#[derive(Drop)]
pub struct FailingSource<'a> {
    file: &'a [u8],
    /// The number of bytes before the read that fails.
    fails_after: usize,
    /// The number of bytes that were read.
    pub read: usize,
    /// The number of reads that have failed.
    pub failures: u64,
}

impl<'a> FailingSource<'a> {
    /// Creates a source whose read after `fails_after` bytes fails. No read fails if the file is shorter.
    pub fn new(file: &'a str, fails_after: usize) -> FailingSource<'a>
        ensures failures { result.failures ≡ 0 }
    {
        FailingSource {
            file: file.as_bytes(),
            fails_after,
            read: 0,
            failures: 0,
        }
    }
}

impl Source for FailingSource<'_> {
    ghost use Rattle.std.specs.Prelude.{Some, drop};

    ghost to_come = { λ source. Some (drop source.read source.file.now) };

    ghost failures = { λ source. source.failures };

    fn next_byte(&mut self) -> Result<Option<u8>, Failed> {
        if self.read == self.fails_after && self.failures == 0 {
            self.failures += 1;
            return Err(Failed);
        }
        let byte = self.file.get(self.read).copied();
        if byte.is_some() {
            self.read += 1;
        }
        Ok(byte)
    }
}

/// The way in which a sink takes the bytes of a call.
#[derive(Clone, Copy, Debug)]
pub enum Taking {
    /// It takes all of them.
    All,
    /// It takes the first one.
    One,
    /// It takes no byte.
    Nothing,
    /// It returns `Failed`.
    Failure,
}

/// A sink that keeps the bytes that it takes.
#[derive(Drop)]
pub struct FailingSink {
    /// The bytes that were taken.
    pub written: Vec<u8>,
    /// The number of calls so far. Calls without bytes are not counted.
    pub calls: usize,
    usual: Taking,
    odd: Option<(usize, Taking)>,
    failures: u64,
}

/// The number of bytes for which a sink has room from the start. No test writes more, so `put` allocates nothing.
const ROOM: usize = 512;

impl FailingSink {
    /// Creates a sink whose calls take bytes in one way. The call whose number is in `odd`, counted from 1, takes them in
    /// another.
    pub fn new(
        alloc: Global,
        usual: Taking,
        odd: Option<(usize, Taking)>,
    ) -> Result<FailingSink, AllocError>
        ensures failures { IfOk result (λ sink. sink.failures ≡ 0) }
    {
        Ok(FailingSink {
            written: Vec::with_capacity(alloc, ROOM)?,
            calls: 0,
            usual,
            odd,
            failures: 0,
        })
    }

    /// Returns how the call of this number takes its bytes.
    fn taking(&self, call: usize) -> Taking {
        match self.odd {
            Some((number, odd)) if number == call => odd,
            _ => self.usual,
        }
    }
}

impl Sink for FailingSink {
    ghost use Rattle.std.specs.Prelude.{Some};

    ghost taken = { λ sink. Some sink.written.items };

    ghost failures = { λ sink. sink.failures };

    fn put(&mut self, bytes: &[u8]) -> Result<usize, Failed> {
        if bytes.is_empty() {
            return Ok(0);
        }
        self.calls = self.calls.saturating_add(1);
        let taken = match self.taking(self.calls) {
            Taking::All => bytes,
            Taking::One => &bytes[..1],
            Taking::Nothing => {
                self.failures += 1;
                return Ok(0);
            }
            Taking::Failure => {
                self.failures += 1;
                return Err(Failed);
            }
        };
        if self.written.extend_from_slice(taken).is_err() {
            self.failures += 1;
            return Err(Failed);
        }
        Ok(taken.len())
    }
}
