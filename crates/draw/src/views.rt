//! What the picture of a run or of a record shows of accesses, and the window that it shows.
ghost use Rattle.std.specs.Prelude.{◌≡◌};
ghost use Rattle.draw.specs.Views.{full_view, is_short as shows_few, long_view, short_view, waves_asked, waves_from, waves_for_few_entries as waves_shown};

use picture::{PictureOptions, Reads, Window};
use record_accesses::{WaveCount, WaveLimit};

/// What a picture shows.
#[derive(Clone, Copy)]
pub(crate) struct AccessView {
    /// No accesses, the overlapped reads, or all accesses.
    pub reads: Reads,
    /// The waves that are shown, if all accesses are.
    pub limit: WaveLimit,
    /// The entries that are shown.
    pub window: Window,
}

impl AccessView {
    /// Returns the view of a run: what is asked for. All accesses are shown with all waves.
    pub fn full(options: PictureOptions) -> AccessView
        ensures { result ≡ full_view options }
    {
        AccessView {
            reads: options.reads,
            limit: from(options.window, WaveCount::All),
            window: options.window,
        }
    }

    /// Returns the view of a record of at most 400 entries: all accesses. They are shown with the first sixteen waves, unless all
    /// accesses are asked for.
    pub fn short(options: PictureOptions) -> AccessView
        ensures { result ≡ short_view options }
    {
        AccessView {
            reads: Reads::All,
            limit: waves_for_few_entries(options),
            window: options.window,
        }
    }

    /// Returns the view of a record of more than 400 entries: all accesses if the window shows at most 400 entries, and otherwise
    /// what is asked for.
    pub fn long(options: PictureOptions) -> AccessView
        ensures { result ≡ long_view options }
    {
        if is_short(options.window) {
            AccessView::short(options)
        } else {
            AccessView::full(options)
        }
    }
}

/// Returns whether a window shows at most 400 entries, whatever it is a window of.
pub fn is_short(window: Window) -> bool
    ensures { result ≡ shows_few window }
{
    match window.to {
        None => false,
        Some(to) => to.saturating_sub(window.from) < 400,
    }
}

/// Returns the waves that the picture of few entries shows: those of the cells that are written in the window, at most sixteen
/// unless all accesses are asked for.
pub fn waves_for_few_entries(options: PictureOptions) -> WaveLimit
    ensures { result ≡ waves_shown options }
{
    from(options.window, waves(options.reads))
}

/// Returns how many waves the picture of few entries shows.
fn waves(asked: Reads) -> WaveCount
    ensures { result ≡ waves_asked asked }
{
    match asked {
        Reads::All => WaveCount::All,
        Reads::Hidden | Reads::Shown => WaveCount::Sixteen,
    }
}

/// Returns the limit of so many waves, of the cells that are written in a window.
fn from(window: Window, count: WaveCount) -> WaveLimit
    ensures { result ≡ waves_from window count }
{
    WaveLimit {
        from: window.from,
        count,
    }
}
