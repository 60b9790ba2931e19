//! How many waves are shown.
ghost use Rattle.std.specs.Prelude.{◌≡◌};
ghost use Rattle.record_accesses.specs.Waves.{is_within};

use picture_layout::WaveCount;

/// Returns whether the wave in a row is shown. A picture has rows for 65,536 waves.
pub(crate) fn has_row(count: WaveCount, row: usize) -> bool
    ensures { result ≡ is_within count row }
{
    match count {
        WaveCount::Sixteen => row < 16,
        WaveCount::All => row < 65_536,
    }
}
