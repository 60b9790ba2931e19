use plain_store::{Answer, Command, Reply};

/// A mark of an entry, apart from its access. The default fills only the unused positions of an act's list.
#[derive(Clone, Copy, Default, PartialEq, Eq)]
pub enum Mark {
    /// A call began, with this command.
    Called(Command),
    /// The doorway is finished: the process waits, with this ticket.
    Waiting(u32),
    /// The process is inside the critical section from now on.
    #[default]
    Entered,
    /// The command was taken: its position in the history, which is the number of commands taken before it,
    /// and the store's reply.
    Taken(u64, Reply),
    /// The clearing of the ticket begins: the process is no longer inside.
    Left,
    /// The call ended, with this answer.
    Answered(Answer),
    /// The process halted.
    Failed,
    /// The memory unit has settled the torn bit at this value.
    Settled(bool),
    /// The memory unit has cleared the lock's registers, and the process is down.
    Down,
    /// The process gave up waiting.
    Withdrew,
    /// A process that was down may call again.
    Restarted,
}
