ghost use Rattle.std.specs.Prelude.{◌≡◌, true};
ghost use Rattle.model.specs.Given.{is_event};
ghost use Rattle.model.specs.Records.{process_of};

use plain_store::Command;

/// An event of a world. The first number is the process, from 0. The event is accepted or refused as a
/// whole: see `Refusal`.
#[derive(Clone, Copy)]
pub enum Event {
    /// The process calls the store with a command.
    Call(u8, Command),
    /// One begin or one end of a read or a write of one single-reader bit, or its settling, by the process
    /// or, once it has failed, by its memory unit. The `bool` is the flick: the bit for what the rules
    /// leave open, an overlapped read's value or the value at which a torn bit is settled.
    Step(u8, bool),
    /// The process halts, at any time. Its memory unit takes over.
    Fail(u8),
    /// The process gives up waiting, and leaves with the answer `Withdrawn`.
    Withdraw(u8),
    /// A process that is down may call again.
    Restart(u8),
}

impl Event {
    /// Returns the process of the event.
    pub fn process(&self) -> u8
        ensures { result ≡ process_of self.now }
    {
        match *self {
            Event::Call(process, _) => process,
            Event::Step(process, _) => process,
            Event::Fail(process) => process,
            Event::Withdraw(process) => process,
            Event::Restart(process) => process,
        }
    }

    /// Does nothing. Its contract states that the command of an event that calls is a command.
    pub fn command_is_sound(&self)
        ensures { is_event self.now ≡ true }
    {
        if let Event::Call(_, command) = self {
            command.operands_are_sound();
        }
    }
}
