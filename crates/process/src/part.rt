//! The register access of its call that a process is making.

use plain_store::{Answer, Command, Setup};

/// The last call of a process.
#[derive(Clone, Copy)]
pub(crate) struct ProcessCall {
    pub setup: Setup,
    pub process: u8,
    pub command: Command,
    /// The call's number: 0 in version 1.
    pub number: u16,
}

/// A register access of a call. The values that were read before it are stored separately.
#[derive(Clone, Copy)]
pub(crate) enum ProgramPoint {
    /// A: writes `Choosing` 1.
    Raises,
    /// B: reads the ticket of another process.
    Asks { owner: u8 },
    /// C: writes its ticket.
    TakesTicket(u32),
    /// C: writes `Choosing` 0, with this ticket.
    Lowers(u32),
    /// C: writes `Choosing` 0, without a ticket: this process has the greatest possible ticket.
    Refuses(u8),
    /// D: reads whether `owner` is choosing, until it is not.
    AwaitsChoosing { ticket: u32, owner: u8 },
    /// D: reads the ticket of `owner`, until it lets this process pass.
    AwaitsTicket { ticket: u32, owner: u8 },
    /// E: reads the commit bit of a process.
    AsksCommit { of: u8 },
    /// E: reads the stamp that this commit bit chooses.
    AsksStamp { of: u8, commit: bool },
    /// F: reads the newest image.
    AsksImage,
    /// G: writes the image of the store after the command.
    WritesImage,
    /// G: writes the new stamp.
    WritesStamp,
    /// G: writes the commit bit.
    WritesCommit,
    /// H: writes `Ticket` 0; then the call is answered.
    Clears(Answer),
    /// The call was answered.
    Over,
}
