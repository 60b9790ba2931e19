//! The state of one copy of a bit, as an observer sees it.

/// The state of a copy of a bit, except whether a read of it is open.
#[derive(Clone, Copy)]
pub struct CopyState {
    /// The value that was last written or settled, or that is being written.
    pub value: bool,
    /// Whether a write is open.
    pub writing: bool,
    /// Whether a write was open at some time since the last read began.
    pub touched: bool,
}
