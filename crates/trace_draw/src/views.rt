//! The view of a trace that is asked for.
ghost use Rattle.std.specs.Prelude.{◌≡◌};
ghost use Rattle.trace_draw.specs.Views.{asks_all, limit_of, shows_all};

use draw::{is_short, waves_for_few_entries};
use picture::{Form, PictureOptions, Reads};
use std::alloc::Global;
use trace_accesses::WaveLimit;

/// The form of a picture, whether it is judged, and its options.
#[derive(Clone, Copy)]
pub(crate) struct TraceView {
    pub alloc: Global,
    pub form: Form,
    /// Whether the picture shows the verdict, and ends with the first bad entry.
    pub judged: bool,
    pub options: PictureOptions,
}

impl TraceView {
    /// Returns whether all accesses are shown, however many entries the picture has.
    pub fn shows_all(self) -> bool
        ensures { result ≡ shows_all self.options }
    {
        asks_all(self.options.reads) || is_short(self.options.window)
    }

    /// Returns which waves are shown with accesses.
    pub fn limit(self) -> WaveLimit
        ensures { result ≡ limit_of self.options }
    {
        waves_for_few_entries(self.options)
    }
}

/// Returns whether all accesses are asked for.
fn asks_all(reads: Reads) -> bool
    ensures { result ≡ asks_all reads }
{
    match reads {
        Reads::All => true,
        Reads::Hidden | Reads::Shown => false,
    }
}
