/// Why an access is refused. Where several reasons apply, the first in this order is given.
#[derive(Clone, Copy, PartialEq, Eq)]
pub enum CellRefusal {
    /// The process does not exist. It is refused without an access too.
    NoProcess,
    /// The cell does not exist.
    NoCell,
    /// A write or the end of one, of the cell of another process.
    NotOwner,
    /// A read-modify-write of a cell that is not shared.
    NotShared,
    /// A value exceeds the width.
    TooWide,
    /// The begin or end of an access in atomic memory.
    NotWhole,
    /// The process has no call.
    NotRunning,
    /// The end of an access that is not open.
    NotOpen,
    /// Another access while one is open.
    AccessOpen,
}
