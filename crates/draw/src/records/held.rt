//! Bytes that are stored until they are written.
ghost use Rattle.std.specs.Prelude.{◌≡◌, [], Some};
ghost use Rattle.draw.specs.Sheets.{without_write};

use scenario::{Failed, Fault, Sink};
use std::alloc::Global;

/// The sink of the bands of one picture, until its height is known.
#[derive(Drop)]
pub struct StoredBands {
    bytes: Vec<u8>,
    failures: u64,
}

impl StoredBands {
    /// Creates a sink without bytes.
    pub fn new(alloc: Global) -> StoredBands
        ensures bytes { result.bytes.items ≡ [] }
        ensures failures { result.failures ≡ 0 }
    {
        StoredBands {
            bytes: Vec::new(alloc),
            failures: 0,
        }
    }

    /// Returns the bytes that were written to it.
    pub fn bytes(&self) -> &[u8]
        ensures { result.now ≡ self.now.bytes.items }
    {
        self.bytes.as_slice()
    }
}

impl Sink for StoredBands {
    ghost taken = { λ h. Some h.bytes.items };

    ghost failures = { λ h. h.failures };

    fn put(&mut self, bytes: &[u8]) -> Result<usize, Failed> {
        match self.bytes.extend_from_slice(bytes) {
            Ok(()) => Ok(bytes.len()),
            Err(_) => {
                self.failures += 1;
                Err(Failed)
            }
        }
    }
}

/// Returns the fault of a picture whose bands are stored: storing them fails only if memory is lacking.
pub fn held_fault(fault: Fault) -> Fault
    ensures { result ≡ without_write fault }
{
    match fault {
        Fault::Write => Fault::Memory,
        other => other,
    }
}
