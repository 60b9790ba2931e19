//! Which waves are shown.

/// How many waves a picture shows. A wave is the value of a cell or of a bit over the entries.
#[derive(Clone, Copy, PartialEq, Eq)]
pub enum WaveCount {
    /// At most sixteen.
    Sixteen,
    /// All, as far as a picture has rows for them.
    All,
}

/// The waves that a picture shows: those of the cells that are written first, from one entry on.
#[derive(Clone, Copy, PartialEq, Eq)]
pub struct WaveLimit {
    /// The number of the entry from which on writes count. A cell of which no later entry begins, ends or settles a write
    /// has no wave.
    pub from: u64,
    /// The most waves.
    pub count: WaveCount,
}
