//! How the program writes: a line at a time to a terminal, otherwise a block; and nothing after a write has failed.
ghost use Rattle.std.specs.Prelude.{◌≡◌, IfOk};
ghost use Rattle.std.specs.Io.KnownBytes.{Keeps};
ghost use Rattle.command_line.specs.Outputs.{held_by, held_in};

use crate::retries::write_again;
use std::alloc::Global;
use std::io::{self, BufWriter, ErrorKind, LineWriter, Write};

/// The streams of the program that are terminals.
#[derive(Clone, Copy)]
pub struct Terminals {
    pub input: bool,
    pub output: bool,
    pub error: bool,
}

/// A writer up to the first write that fails or takes nothing. No later write is made, except that a write which a signal
/// interrupts is repeated. Otherwise a buffer before it would write its content again when it is flushed and dropped.
#[derive(Drop)]
pub struct UpToFailure<W: Write + Drop> {
    writer: W,
    has_failed: bool,
}

impl<W: Write + Drop> UpToFailure<W> {
    /// Creates it before a writer that has not failed.
    fn new(writer: W) -> UpToFailure<W>
        ensures { held_by W.contents result ≡ W.contents writer }
    {
        UpToFailure {
            writer,
            has_failed: false,
        }
    }
}

impl<W: Write + Drop> Write for UpToFailure<W> {
    ghost contents = { held_by W.contents };

    #[tactic(auto, using(files::proofs::EngineEnds::kept))]
    fn write(&mut self, bytes: &[u8]) -> io::Result<usize> {
        if self.has_failed {
            return Err(ErrorKind::BrokenPipe.into());
        }
        let written = write_again(&mut self.writer, bytes);
        self.has_failed = match &written {
            Ok(count) => *count == 0 && !bytes.is_empty(),
            Err(_) => true,
        };
        written
    }

    fn flush(&mut self) -> io::Result<()> {
        self.writer.flush()
    }
}

/// A writer through a buffer, which writes each whole line to a terminal, and otherwise blocks.
#[derive(Drop)]
pub enum Output<W: Write + Drop> {
    Lines(LineWriter<UpToFailure<W>>),
    Blocks(BufWriter<UpToFailure<W>>),
}

impl<W: Write + Drop> Output<W> {
    /// Creates the writer before `writer`, which has the same bytes.
    ///
    /// # Errors
    ///
    /// Returns an error only if an allocation fails.
    pub fn new(alloc: Global, writer: W, at_terminal: bool) -> io::Result<Output<W>>
        ensures { IfOk result (λ output. Keeps (W.contents writer) (held_in W.contents output)) }
    {
        let writer = UpToFailure::new(writer);
        if at_terminal {
            Ok(Output::Lines(LineWriter::new(alloc, writer)?))
        } else {
            Ok(Output::Blocks(BufWriter::new(alloc, writer)?))
        }
    }
}

impl<W: Write + Drop> Write for Output<W> {
    ghost contents = { held_in W.contents };

    fn write(&mut self, bytes: &[u8]) -> io::Result<usize> {
        match self {
            Output::Lines(writer) => writer.write(bytes),
            Output::Blocks(writer) => writer.write(bytes),
        }
    }

    fn flush(&mut self) -> io::Result<()> {
        match self {
            Output::Lines(writer) => writer.flush(),
            Output::Blocks(writer) => writer.flush(),
        }
    }
}
