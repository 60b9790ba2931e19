//! The reasons for which a read or a write of the program has failed.
ghost use Rattle.std.specs.Prelude.{◌≡◌};

use std::cell::Cell;
use std::io::{self, ErrorKind, Read, Write};

/// A reader that reads from another one, and notes why the newest read has failed.
#[derive(Drop)]
pub struct NotedReader<'a, R: Read + Drop> {
    reader: R,
    cause: &'a Cell<Option<ErrorKind>>,
}

impl<'a, R: Read + Drop> NotedReader<'a, R> {
    /// Creates a reader of the same bytes.
    pub fn new(reader: R, cause: &'a Cell<Option<ErrorKind>>) -> NotedReader<'a, R>
        ensures { ⟦<NotedReader<'a, R> as Read>⟧.remaining result ≡ R.remaining reader }
    {
        NotedReader { reader, cause }
    }
}

impl<'a, R: Read + Drop> Read for NotedReader<'a, R> {
    ghost remaining = { λ r. R.remaining r.reader };

    fn read(&mut self, buffer: &mut [u8]) -> io::Result<usize> {
        let ended = self.reader.read(buffer);
        if let Err(error) = &ended {
            self.cause.set(Some(error.kind()));
        }
        ended
    }
}

/// A writer that writes to another one, and notes why the newest write has failed.
#[derive(Drop)]
pub struct NotedWriter<'a, W: Write + Drop> {
    writer: W,
    cause: &'a Cell<Option<ErrorKind>>,
}

impl<'a, W: Write + Drop> NotedWriter<'a, W> {
    /// Creates a writer to the same place.
    pub fn new(writer: W, cause: &'a Cell<Option<ErrorKind>>) -> NotedWriter<'a, W>
        ensures { ⟦<NotedWriter<'a, W> as Write>⟧.contents result ≡ W.contents writer }
    {
        NotedWriter { writer, cause }
    }
}

impl<'a, W: Write + Drop> Write for NotedWriter<'a, W> {
    ghost contents = { λ w. W.contents w.writer };

    fn write(&mut self, bytes: &[u8]) -> io::Result<usize> {
        let ended = self.writer.write(bytes);
        if let Err(error) = &ended {
            self.cause.set(Some(error.kind()));
        }
        ended
    }

    fn flush(&mut self) -> io::Result<()> {
        self.writer.flush()
    }
}

/// Returns in words why a read or a write has failed; without a cause it has taken no byte.
pub fn reason_of(cause: Option<ErrorKind>) -> &'static str {
    match cause {
        None => "no byte was taken",
        Some(ErrorKind::NotFound) => "no such file",
        Some(ErrorKind::PermissionDenied) => "permission denied",
        Some(ErrorKind::NotADirectory) => "a part of the path is not a directory",
        Some(ErrorKind::IsADirectory) => "it is a directory",
        Some(ErrorKind::InvalidFilename) => "the name is too long",
        Some(ErrorKind::FilesystemLoop) => "too many symbolic links",
        Some(ErrorKind::StorageFull) => "no space left on the device",
        Some(ErrorKind::QuotaExceeded) => "the quota is used up",
        Some(ErrorKind::FileTooLarge) => "the file would be too large",
        Some(ErrorKind::BrokenPipe) => "its reader has gone away",
        Some(_) => "the system reports an error",
    }
}
