//! How many waves are shown.
ghost use Rattle.std.specs.Prelude.{◌≡◌};
ghost use Rattle.trace_accesses.specs.Accesses.{is_within};

use picture_layout::WaveCount;

/// Returns whether the wave in a row is shown.
pub(crate) fn has_row(count: WaveCount, row: u16) -> bool
    ensures { result ≡ is_within count row }
{
    match count {
        WaveCount::Sixteen => row < 16,
        WaveCount::All => true,
    }
}
