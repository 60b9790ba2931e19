//! The parts of a file that are kept while it is read, to show the line of a fault: its front and its last blocks. Except
//! for a record, each file that may have no fault fits in the front.
ghost use Rattle.std.specs.Prelude.{◌≡◌};

use bstr::ByteSlice;
use files::{Failed, INPUT_LIMIT, Source};
use std::alloc::{AllocError, Global};

/// The first bytes of a file, and its last blocks.
#[derive(Drop)]
pub struct StoredFile {
    front: Vec<u8>,
    /// The block before the last one, and the last one.
    last: Vec<u8>,
    /// The index at which the last block begins among them.
    block: usize,
    /// The number of lines that end before them.
    ended: u64,
    /// Whether nothing was lost because an allocation failed.
    whole: bool,
}

impl StoredFile {
    /// Creates a file of which nothing is kept yet.
    fn new(alloc: Global) -> StoredFile {
        StoredFile {
            front: Vec::new(alloc),
            last: Vec::new(alloc),
            block: 0,
            ended: 0,
            whole: true,
        }
    }

    /// Returns whether nothing was lost because an allocation failed.
    pub fn is_whole(&self) -> bool {
        self.whole
    }

    /// Returns the first bytes of the file, at most `INPUT_LIMIT` of them.
    pub fn front(&self) -> &[u8] {
        self.front.as_slice()
    }

    /// Returns the line with this number, counted from 1, if it is in the front or in the last blocks.
    pub fn line(&self, number: u64) -> Option<&[u8]> {
        let place = number.saturating_sub(1);
        let front = self.front.as_slice();
        let (bytes, ended) = if front.len() < INPUT_LIMIT || place < ends_among(front) {
            (front, 0)
        } else {
            (self.last.as_slice(), self.ended)
        };
        bytes.lines().nth(place.saturating_sub(ended) as usize)
    }

    /// Keeps the next bytes of the file.
    fn add(&mut self, bytes: &[u8]) {
        if self.try_add(bytes).is_err() {
            self.whole = false;
        }
    }

    fn try_add(&mut self, bytes: &[u8]) -> Result<(), AllocError> {
        let room = INPUT_LIMIT
            .saturating_sub(self.front.len())
            .min(bytes.len());
        if let Some(more) = bytes.get(..room) {
            self.front.extend_from_slice(more)?;
        }
        if bytes.len() < 2 {
            return Ok(());
        }
        let block = self.block.min(self.last.len());
        if let Some(before) = self.last.get(..block) {
            self.ended = self.ended.saturating_add(ends_among(before));
        }
        self.last.drain(..block);
        self.block = self.last.len();
        self.last.extend_from_slice(bytes)
    }
}

/// Returns the number of lines that end among bytes.
fn ends_among(bytes: &[u8]) -> u64 {
    let mut ends: u64 = 0;
    for byte in bytes {
        ends = ends.saturating_add(u64::from(*byte == b'\n'));
    }
    ends
}

/// A source that reads from another one, and keeps what is read.
#[derive(Drop)]
pub struct TeeInput<S: Source + Drop> {
    source: S,
    keeps: bool,
    kept: StoredFile,
}

impl<S: Source + Drop> TeeInput<S> {
    /// Creates a source that reads from `source`; nothing is kept unless `keeps`.
    pub fn new(alloc: Global, source: S, keeps: bool) -> TeeInput<S>
        ensures to_come { ⟦<TeeInput<S> as Source>⟧.to_come result ≡ S.to_come source }
        ensures failures { ⟦<TeeInput<S> as Source>⟧.failures result ≡ S.failures source }
    {
        TeeInput {
            source,
            keeps,
            kept: StoredFile::new(alloc),
        }
    }

    /// Returns the bytes that were kept, and the source from which they were read.
    pub fn into_parts(self) -> (StoredFile, S)
        ensures { result.1 ≡ self.source }
    {
        (self.kept, self.source)
    }
}

impl<S: Source + Drop> Source for TeeInput<S> {
    ghost to_come = { λ kept. S.to_come kept.source };

    ghost failures = { λ kept. S.failures kept.source };

    fn next_byte(&mut self) -> Result<Option<u8>, Failed> {
        let byte = self.source.next_byte()?;
        if let Some(byte) = byte {
            if self.keeps {
                self.kept.add(&[byte]);
            }
        }
        Ok(byte)
    }

    fn next_bytes(&mut self, buffer: &mut [u8]) -> Result<usize, Failed> {
        let count = self.source.next_bytes(buffer)?;
        if self.keeps {
            self.kept.add(&buffer[..count]);
        }
        Ok(count)
    }
}
