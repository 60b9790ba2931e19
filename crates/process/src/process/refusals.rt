//! The refusals of an event that depend on its process alone.
ghost use Rattle.std.specs.Prelude.{◌≡◌, ◌<◌, IfSome};
ghost use Rattle.model.specs.{refused_at};
ghost use Rattle.process.specs.Places.{WantsNoMemory, is_full, next_number, refusal_of};

use super::Process;
use model::{Event, Refusal, Stage};
use plain_store::Setup;

impl Process {
    /// Returns the reason for which an event of this process is refused, if it is: its stage, or one call too many. It does
    /// not check that the event is one of this process.
    pub fn refusal(&self, event: &Event) -> Option<Refusal>
        ensures refused { result ≡ refusal_of self.now event.now }
        ensures never { IfSome result WantsNoMemory }
    {
        if let Some(refusal) = refusal_at(event, self.stage()) {
            return Some(refusal);
        }
        if is_full(event, &self.called.setup(), self.called.number()) {
            return Some(Refusal::CallsFull);
        }
        None
    }

    /// Returns the number of its next call.
    pub fn next_number(&self) -> u16
        requires { self.now.setup.version ≡ 2 → self.now.number < 65535 }
        ensures { result ≡ next_number self.now.setup self.now.number }
    {
        if self.called.setup().version == 2 {
            self.called.number() + 1
        } else {
            0
        }
    }
}

/// Returns the refusal that the stage of the process causes.
fn refusal_at(event: &Event, stage: Stage) -> Option<Refusal>
    ensures refused { result ≡ refused_at event.now stage }
    ensures never { IfSome result WantsNoMemory }
{
    match event {
        Event::Call(..) => match stage {
            Stage::Idle => None,
            Stage::Settling | Stage::Down => Some(Refusal::IsDown),
            _ => Some(Refusal::Busy),
        },
        Event::Step(..) => match stage {
            Stage::Idle | Stage::Down => Some(Refusal::NotRunning),
            _ => None,
        },
        Event::Withdraw(_) => match stage {
            Stage::Waiting => None,
            _ => Some(Refusal::NotWaiting),
        },
        Event::Fail(_) => match stage {
            Stage::Settling | Stage::Down => Some(Refusal::AlreadyFailed),
            _ => None,
        },
        Event::Restart(_) => match stage {
            Stage::Down => None,
            _ => Some(Refusal::NotDown),
        },
    }
}

/// Returns whether a call would be one too many, because its number does not fit.
fn is_full(event: &Event, setup: &Setup, number: u16) -> bool
    ensures { result ≡ is_full setup.now number event.now }
{
    matches!(event, Event::Call(..)) && setup.version == 2 && u16::MAX <= number
}
