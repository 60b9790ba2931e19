//! Why an access or a mark is refused, for any algorithm.

/// Why an access is refused. If several reasons apply, the first in this order is given.
#[derive(Clone, Copy)]
pub enum AccessRefusal {
    /// The process does not exist. An entry without an access is refused too.
    NoProcess,
    /// The owner, the reader or the bit does not exist.
    NoBit,
    /// A process that is not the owner writes, ends a write or settles.
    NotOwner,
    /// A process that is not the reader reads or ends a read.
    NotReader,
    /// A settling, and the process does not settle.
    NotSettling,
    /// Another move of a process that does not run; one that settles may write and end that.
    NotRunning,
    /// The end of an access that is not open.
    NotOpen,
    /// A begin or a settling while an access is open.
    AccessOpen,
    /// A settling of another bit than the torn one.
    NotTorn,
    /// A write of the torn bit.
    Torn,
}

/// Why the marks of an entry are refused: the first refusal of the first refused mark.
#[derive(Clone, Copy)]
pub enum MarkRefusal {
    /// The entry has neither an access nor a mark.
    Nothing,
    /// A call, a failure, a withdrawal or a restart with an access or another mark.
    NotAlone,
    /// A call: the process is running.
    Busy,
    /// A call: the process is settling or down.
    IsDown,
    /// A call in version 2: the process has made 65,535 calls.
    CallsFull,
    /// A failure: the process is settling or down.
    AlreadyFailed,
    /// A withdrawal, or entering: the process does not wait.
    NotWaiting,
    /// A restart: the process is not down.
    NotDown,
    /// Waiting: the process is not in its doorway.
    NotInDoorway,
    /// Leaving, or taking a command: the process is not inside.
    NotInside,
    /// Taking a command: one was taken in this call.
    TakenBefore,
    /// An answer: the process is neither in its doorway nor leaving.
    NotLeaving,
    /// An answer other than `Withdrawn` to a call that was withdrawn.
    WasWithdrawn,
    /// An answer other than the reply with which the command was taken.
    OtherReply,
    /// A reply, and no command was taken.
    NotTaken,
    /// An answer `Withdrawn` to a call that was not withdrawn.
    NotWithdrawn,
    /// An answer, or the end of a unit's work: an access is open.
    AccessOpen,
    /// A settled bit, or the end of a unit's work: the process does not settle.
    NotSettling,
    /// A settled bit, or the end of a unit's work: a bit is torn.
    Torn,
    /// The end of a unit's work: the process is still inside.
    StillInside,
}
