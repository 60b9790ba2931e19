//! The first bytes of an output, by which the program decides whether to print a hint.
ghost use Rattle.std.specs.Prelude.{◌≡◌};

use files::{Failed, Sink};

/// The number of bytes that are stored.
const FRONT: usize = 16;

/// The first bytes of an output.
#[derive(Clone, Copy)]
struct Front {
    bytes: [u8; FRONT],
    length: usize,
}

impl Front {
    /// Adds these bytes, as far as there is room.
    fn add(&mut self, bytes: &[u8]) {
        for byte in bytes {
            if let Some(place) = self.bytes.get_mut(self.length) {
                *place = *byte;
                self.length = self.length.saturating_add(1);
            }
        }
    }

    /// Returns whether they are `bad E program`, where E is one of the first ten entries.
    fn is_early_program(&self) -> bool {
        let bytes = self.bytes.as_slice();
        bytes.starts_with(b"bad ")
            && bytes[4].is_ascii_digit()
            && bytes[5..].starts_with(b" program\n")
    }
}

/// A sink before another one, which stores the first bytes that it receives.
#[derive(Drop)]
pub struct FrontSink<S: Sink + Drop> {
    sink: S,
    front: Front,
}

impl<S: Sink + Drop> FrontSink<S> {
    /// Creates a sink that passes all bytes on to this one.
    pub fn new(sink: S) -> FrontSink<S>
        ensures failures { ⟦<FrontSink<S> as Sink>⟧.failures result ≡ S.failures sink }
    {
        let front = Front {
            bytes: [0; FRONT],
            length: 0,
        };
        FrontSink { sink, front }
    }

    /// Returns whether the output begins with `bad E program`, where E is one of the first ten entries.
    pub fn is_early_program(&self) -> bool {
        self.front.is_early_program()
    }
}

impl<S: Sink + Drop> Sink for FrontSink<S> {
    ghost taken = { λ s. S.taken s.sink };

    ghost failures = { λ s. S.failures s.sink };

    fn put(&mut self, bytes: &[u8]) -> Result<usize, Failed> {
        let count = self.sink.put(bytes)?;
        if let Some(taken) = bytes.get(..count) {
            self.front.add(taken);
        }
        Ok(count)
    }
}
