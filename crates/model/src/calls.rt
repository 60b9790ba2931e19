//! Finished calls.
use plain_store::{Answer, Command};

/// A finished call. It has no answer if a failure cut it, and a position if it was taken: the number of changes of the store
/// that were taken before it.
#[derive(Clone, Copy)]
pub struct Placed {
    pub command: Command,
    pub answer: Option<Answer>,
    pub place: Option<u32>,
}
