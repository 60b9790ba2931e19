//! The outcome of a step and the effect of an event.
ghost use Rattle.std.specs.Prelude.{◌≡◌};
ghost use Rattle.model.specs.{reply_taken};
ghost use Rattle.process.specs.Reporting.{marks_of, marks_reported};

use model::Access;
use plain_store::{Answer, Command, Reply};

/// The outcome of a step of a process, or of its memory unit.
#[derive(Clone, Copy)]
pub enum StepOutcome {
    Nothing,
    /// The doorway is finished, with this ticket.
    Waits(u32),
    /// The doorway is finished, and there is no process to wait for.
    WaitsAndEnters(u32),
    Enters,
    /// The command is taken, after `changes` commands have changed the store.
    Took { reply: Reply, changes: u32 },
    Leaves,
    Answers(Answer),
    Settles(bool),
    /// The torn commit bit is settled at its new value.
    SettlesAndTakes(bool, Reply),
    Lies,
}

/// The effect of an event. Nearly all events are steps, so the outcome of a step is a type of its own: it is small,
/// because it has no room for a command.
#[derive(Clone, Copy)]
pub enum EventOutcome {
    Steps(StepOutcome),
    Calls(Command),
    Fails,
    Withdraws,
    Restarts,
}

impl StepOutcome {
    /// Returns the reply of a command that is taken.
    pub fn reply(&self) -> Option<Reply>
        ensures { result ≡ reply_taken (marks_reported self.now) }
    {
        match *self {
            StepOutcome::Took { reply, .. } | StepOutcome::SettlesAndTakes(_, reply) => Some(reply),
            _ => None,
        }
    }
}

impl EventOutcome {
    /// Returns the reply of a command that is taken.
    pub fn reply(&self) -> Option<Reply>
        ensures { result ≡ reply_taken (marks_of self.now) }
    {
        match self {
            EventOutcome::Steps(reported) => reported.reply(),
            _ => None,
        }
    }
}

/// The result of an event: the access of a step, and the effect of the event.
#[derive(Clone, Copy)]
pub struct EventMade {
    pub access: Option<Access>,
    pub effect: EventOutcome,
}
