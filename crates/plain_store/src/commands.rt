//! Commands, callers, replies and answers. All of them are this project's own profile.
ghost use Rattle.std.specs.Prelude.{◌≡◌};
ghost use Rattle.plain_store.specs.Commands.{name_of};

use crate::names::Name;
use crate::texts::Text;

/// The value of a name: a count of 64 bits with a sign, or a text. Values are equal if they are of one
/// kind and equal.
#[derive(Clone, Copy, PartialEq, Eq)]
pub enum Value {
    Count(i64),
    Text(Text),
}

/// A command to a store.
#[derive(Clone, Copy, PartialEq, Eq)]
pub enum Command {
    /// Reads the value of the name.
    Read(Name),
    /// Sets the name to the value; a new name takes a slot.
    Write(Name, Value),
    /// Adds to the name's count.
    Add(Name, i64),
    /// Compare and swap: sets the name to the second value if its value is the first.
    Cas(Name, Value, Value),
    /// Returns the number of the caller's last call that changed the pairs. A restarted process learns from it
    /// whether its interrupted call was taken. Only scenario files of version 2 have it.
    Ask,
}

impl Command {
    /// Returns the name of the command; `Ask` has none.
    pub fn name(&self) -> Option<Name>
        ensures { result ≡ name_of self.now }
    {
        match self {
            Command::Read(name) => Some(*name),
            Command::Write(name, _) => Some(*name),
            Command::Add(name, _) => Some(*name),
            Command::Cas(name, _, _) => Some(*name),
            Command::Ask => None,
        }
    }
}

/// The calling process, and the number of the call.
#[derive(Clone, Copy)]
pub struct Caller {
    /// The calling process, from 0.
    pub process: u8,
    /// 1 for the first call of the process in version 2, and so on; always 0 in version 1.
    pub number: u16,
}

/// A store's reply to a command.
#[derive(Clone, Copy, PartialEq, Eq)]
pub enum Reply {
    /// To `Read`: the value of the name.
    Value(Value),
    /// To `Write`: the name has the value.
    Done,
    /// To `Add`: the new count.
    Sum(i64),
    /// To `Cas`: the name had the first value and has the second.
    Swapped,
    /// To `Cas`: the name has this other value, and keeps it.
    Kept(Value),
    /// The name has no value yet.
    NoName,
    /// To `Add`: the name has a text.
    NotCounter,
    /// To `Add`: the sum does not fit 64 bits.
    Overflow,
    /// To `Write` of a new name: all slots are used.
    StoreFull,
    /// To `Ask`: the number of the caller's last call that changed the pairs, or 0.
    Last(u16),
}

/// How a call ends: by the store's reply, or without having reached the store.
#[derive(Clone, Copy, PartialEq, Eq)]
pub enum Answer {
    /// The store's reply.
    Reply(Reply),
    /// No greater ticket fits the ticket bits. `process` is the lowest one that was read with the greatest ticket.
    TicketsFull { process: u8 },
    /// The command would change the store, and no greater stamp fits the stamp bits.
    StampsFull,
    /// The caller withdrew while it waited.
    Withdrawn,
}
