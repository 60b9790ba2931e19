ghost use Rattle.std.specs.Prelude.{None};

use scenario::{Failed, Sink};

/// A sink that drops its bytes: a picture is drawn once to learn its height.
#[derive(Drop)]
pub(crate) struct NullSink;

impl Sink for NullSink {
    ghost taken = { λ _. None };

    ghost failures = { λ _. 0 };

    fn put(&mut self, bytes: &[u8]) -> Result<usize, Failed> {
        Ok(bytes.len())
    }
}
