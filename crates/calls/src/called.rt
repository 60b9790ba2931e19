//! A call of a process, with what its accesses and its marks show.
use plain_store::{Answer, Command};

/// The counts and events of the accesses of a call. Events are numbered from 0.
#[derive(Clone, Copy)]
pub struct Accesses {
    /// The event of the first access that the process makes itself, and not its memory unit. Its doorway begins with it.
    pub doorway: Option<u64>,
    /// The number of reads of bits that the process has begun itself, and not its memory unit.
    pub reads: u64,
    /// The number of writes of bits that it has begun itself.
    pub writes: u64,
    /// The number of its reads that have ended and were overlapped by a write.
    pub overlapped: u64,
    /// The process for which it waited last.
    pub waited_for: Option<u8>,
}

/// Facts about an entry that its access and its marks do not show.
#[derive(Clone, Copy)]
pub struct EntryFacts {
    /// Whether it ends a read that a write overlapped.
    pub overlapped: bool,
    /// The number that was read before it, as far as it was read. It may be omitted for an entry with marks, and for one that
    /// does not end the read of a register.
    pub read: Option<u32>,
}

/// The events and values of the marks of a call, including those of its memory unit. Events are numbered from 0.
#[derive(Clone, Copy)]
pub struct Marked {
    /// The event that ends its doorway, after which it waits.
    pub door_end: Option<u64>,
    pub entered: Option<u64>,
    /// The event that ends its waiting: it enters, withdraws or fails.
    pub wait_end: Option<u64>,
    /// The event with which its command is taken.
    pub taken: Option<u64>,
    /// The position of its command in the history, from 0.
    pub place: Option<u64>,
    pub remaining: Option<u64>,
    pub answered: Option<u64>,
    pub failed: Option<u64>,
    pub withdrew: Option<u64>,
    /// The ticket with which it waits.
    pub ticket: Option<u32>,
    pub answer: Option<Answer>,
}

/// A call of a process, with its accesses and marks so far.
#[derive(Clone, Copy)]
pub struct Called {
    pub process: u8,
    /// Its number among the calls of its process, from 1.
    pub call: u64,
    pub command: Command,
    /// The event with which it began.
    pub called: u64,
    pub accesses: Accesses,
    pub marks: Marked,
}
