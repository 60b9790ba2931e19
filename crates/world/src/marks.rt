//! The marks of a step and of an event, as an act contains them. They do not allocate.
ghost use Rattle.std.specs.Prelude.{◌≡◌, [], ◌∷◌, map};
ghost use Rattle.model.specs.{placed};
ghost use Rattle.process.specs.{act_of, marks_of, marks_reported};

use model::{Act, Mark};
use process::{EventMade, EventOutcome, StepOutcome};
use smallvec::SmallVec;
use std::alloc::Global;

/// Returns the marks of a step; a command that is taken gets the position `place` in the history.
pub fn step_marks(alloc: Global, reported: &StepOutcome, place: u64) -> SmallVec<Mark, 3>
    ensures { result.items ≡ map (placed place) (marks_reported reported.now) }
{
    match *reported {
        StepOutcome::Nothing => SmallVec::new(alloc),
        StepOutcome::Waits(ticket) => one(alloc, Mark::Waiting(ticket)),
        StepOutcome::WaitsAndEnters(ticket) => two(alloc, Mark::Waiting(ticket), Mark::Entered),
        StepOutcome::Enters => one(alloc, Mark::Entered),
        StepOutcome::Took { reply, .. } => one(alloc, Mark::Taken(place, reply)),
        StepOutcome::Leaves => one(alloc, Mark::Left),
        StepOutcome::Answers(answer) => one(alloc, Mark::Answered(answer)),
        StepOutcome::Settles(value) => one(alloc, Mark::Settled(value)),
        StepOutcome::SettlesAndTakes(value, reply) => {
            two(alloc, Mark::Settled(value), Mark::Taken(place, reply))
        }
        StepOutcome::Lies => one(alloc, Mark::Down),
    }
}

/// Returns the marks of an event; a command that is taken gets the position `place` in the history.
pub fn event_marks(alloc: Global, effect: &EventOutcome, place: u64) -> SmallVec<Mark, 3>
    ensures { result.items ≡ map (placed place) (marks_of effect.now) }
{
    match effect {
        EventOutcome::Steps(reported) => step_marks(alloc, reported, place),
        EventOutcome::Calls(command) => one(alloc, Mark::Called(*command)),
        EventOutcome::Fails => one(alloc, Mark::Failed),
        EventOutcome::Withdraws => one(alloc, Mark::Withdrew),
        EventOutcome::Restarts => one(alloc, Mark::Restarted),
    }
}

/// Returns the act of an event that was made; a command that is taken gets the position `place` in the history.
pub(crate) fn act_made(alloc: Global, made: &EventMade, place: u64) -> Act
    ensures { result ≡ act_of place made.now }
{
    Act {
        access: made.access,
        marks: event_marks(alloc, &made.effect, place),
    }
}

/// Returns one mark, stored in place.
fn one(alloc: Global, mark: Mark) -> SmallVec<Mark, 3>
    ensures { result.items ≡ mark ∷ [] }
{
    match SmallVec::from_array(alloc, [mark]) {
        Ok(marks) => marks,
        Err(_) => unreachable!(),
    }
}

/// Returns two marks, stored in place.
fn two(alloc: Global, first: Mark, second: Mark) -> SmallVec<Mark, 3>
    ensures { result.items ≡ first ∷ second ∷ [] }
{
    match SmallVec::from_array(alloc, [first, second]) {
        Ok(marks) => marks,
        Err(_) => unreachable!(),
    }
}
