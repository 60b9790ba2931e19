/// The reason why an event is refused. If several apply, it is the first in this order. A refused event adds no
/// entry.
#[derive(Clone, Copy, Debug, PartialEq, Eq)]
pub enum Refusal {
    /// Any event: there is no such process.
    NoProcess,
    /// A call: the process is running.
    Busy,
    /// A call: the process is settling or down.
    IsDown,
    /// A step: the process is idle or down.
    NotRunning,
    /// A withdrawal: the process does not wait.
    NotWaiting,
    /// A failure: the process is settling or down.
    AlreadyFailed,
    /// A restart: the process is not down.
    NotDown,
    /// A call in version 2: the process has made 65,535 calls.
    CallsFull,
    /// A call: an allocation failed. This refusal is not part of the definition of a record.
    Memory,
}
