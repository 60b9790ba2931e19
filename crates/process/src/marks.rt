//! The outcome of the last access of a part.
ghost use Rattle.std.specs.Prelude.{◌≡◌, IfSome, None};
ghost use Rattle.model.specs.{Call};
ghost use Rattle.process.specs.CallParts.{marks_lowered, marks_taken, marks_to};
ghost use Rattle.process.specs.ValuesRead.{part_at};
ghost use Rattle.process.specs.Reporting.{changes_reported, marks_reported};
ghost use Rattle.process.specs.declared.values_read.ValuesRead.{ValuesRead};

use crate::outcomes::StepOutcome;
use crate::part::ProgramPoint;
use plain_store::Answer;

/// Returns the outcome of the last access of a part, before this next part. `changes` changes precede a command taken.
pub(crate) fn outcome_before(part: &ProgramPoint, next: &ProgramPoint, changes: u32) -> StepOutcome
    ensures marks { (c : Call) (seen then : ValuesRead) →
        marks_reported result ≡ marks_to (part_at c seen part.now) (part_at c then next.now) }
    ensures changes { IfSome (changes_reported result) (λ reported. reported ≡ changes) }
{
    match part {
        ProgramPoint::Lowers(ticket) => outcome_of_lowering(*ticket, next),
        ProgramPoint::Refuses(process) => StepOutcome::Answers(Answer::TicketsFull {
            process: *process,
        }),
        ProgramPoint::AwaitsChoosing { .. } | ProgramPoint::AwaitsTicket { .. } => match next {
            ProgramPoint::AsksCommit { .. } | ProgramPoint::AsksImage => StepOutcome::Enters,
            _ => StepOutcome::Nothing,
        },
        ProgramPoint::AsksImage | ProgramPoint::WritesCommit => outcome_of_taking(next, changes),
        ProgramPoint::Clears(answer) => StepOutcome::Answers(*answer),
        _ => StepOutcome::Nothing,
    }
}

/// Returns the outcome with which the doorway ends.
fn outcome_of_lowering(ticket: u32, next: &ProgramPoint) -> StepOutcome
    ensures marks { (c : Call) (then : ValuesRead) →
        marks_reported result ≡ marks_lowered ticket (part_at c then next.now) }
    ensures changes { changes_reported result ≡ None }
{
    match next {
        ProgramPoint::AwaitsChoosing { .. } | ProgramPoint::AwaitsTicket { .. } =>
            StepOutcome::Waits(ticket),
        _ => StepOutcome::WaitsAndEnters(ticket),
    }
}

/// Returns the outcome of an access that may take a command, after `changes` changes.
fn outcome_of_taking(next: &ProgramPoint, changes: u32) -> StepOutcome
    ensures marks { (c : Call) (then : ValuesRead) →
        marks_reported result ≡ marks_taken (part_at c then next.now) }
    ensures changes { IfSome (changes_reported result) (λ reported. reported ≡ changes) }
{
    match next {
        ProgramPoint::Clears(Answer::Reply(reply)) => StepOutcome::Took {
            reply: *reply,
            changes,
        },
        _ => StepOutcome::Nothing,
    }
}
