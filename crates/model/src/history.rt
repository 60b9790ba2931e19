use plain_store::{Command, Reply};

/// A command that was taken: an item of the history, whose index is its position.
#[derive(Clone, Copy)]
pub struct Taken {
    /// The process of the call, from 0.
    pub process: u8,
    pub command: Command,
    /// The sequential store's reply at that position.
    pub reply: Reply,
    /// The call's number: 1 for the first call of the process in version 2, and so on; always 0 in version 1.
    pub number: u16,
}
