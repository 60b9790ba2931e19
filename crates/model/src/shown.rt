//! The words and lines that print marks, refusals, stages and registers, in replays and elsewhere.
ghost use Rattle.std.specs.Prelude.{◌≡◌, IfOk};
ghost use Rattle.std.specs.String.{string_bytes};
ghost use Rattle.model.specs.Shown.{field_word, mark_text, refusal_line as line_of_refusal, refusal_text, stage_word};

use crate::access::Field;
use crate::fields::{FIELDS, number_of_field};
use crate::marks::Mark;
use crate::refusals::Refusal;
use crate::stages::Stage;
use plain_store::NestedTypes;
use std::alloc::{AllocError, Global};
use std::fmt;

impl fmt::Display for Mark {
    ghost use Rattle.std.specs.Prelude.{Some};

    ghost output = { λ mark. Some (mark_text mark) };

    fn fmt<W: fmt::Write>(&self, f: &mut fmt::Formatter<W>) -> fmt::Result {
        let _nested: NestedTypes = None;
        match self {
            Mark::Called(command) => write!(f, "call {command}"),
            Mark::Waiting(ticket) => write!(f, "wait {ticket}"),
            Mark::Entered => f.write_str("enter"),
            Mark::Taken(place, reply) => write!(f, "taken {place} {reply}"),
            Mark::Left => f.write_str("leave"),
            Mark::Answered(answer) => write!(f, "answer {answer}"),
            Mark::Failed => f.write_str("fail"),
            Mark::Settled(false) => f.write_str("settled 0"),
            Mark::Settled(true) => f.write_str("settled 1"),
            Mark::Down => f.write_str("down"),
            Mark::Withdrew => f.write_str("withdraw"),
            Mark::Restarted => f.write_str("restart"),
        }
    }
}

impl fmt::Display for Refusal {
    ghost use Rattle.std.specs.Prelude.{Some};

    ghost output = { λ refusal. Some (refusal_text refusal) };

    fn fmt<W: fmt::Write>(&self, f: &mut fmt::Formatter<W>) -> fmt::Result {
        f.write_str(match self {
            Refusal::NoProcess => "no-process",
            Refusal::Busy => "busy",
            Refusal::IsDown => "is-down",
            Refusal::NotRunning => "not-running",
            Refusal::NotWaiting => "not-waiting",
            Refusal::AlreadyFailed => "already-failed",
            Refusal::NotDown => "not-down",
            Refusal::CallsFull => "calls-full",
            Refusal::Memory => "memory",
        })
    }
}

impl Stage {
    /// Returns its word.
    pub fn word(self) -> &'static str
        ensures { result.now ≡ stage_word self }
    {
        match self {
            Stage::Idle => "idle",
            Stage::Doorway => "doorway",
            Stage::Waiting => "waiting",
            Stage::Inside => "inside",
            Stage::Leaving => "leaving",
            Stage::Settling => "settling",
            Stage::Down => "down",
        }
    }
}

impl Field {
    /// Returns its word.
    pub fn word(self) -> &'static str
        ensures { result.now ≡ field_word self }
    {
        FIELDS[number_of_field(self)].1
    }
}

/// Returns the line that reports that a call, or another event, of a process is refused.
///
/// # Errors
///
/// Returns [`AllocError`] if an allocation fails.
#[tactic(auto, using(crate::proofs::RefusalLines::refusal_line_is))]
pub fn refusal_line(alloc: Global, process: u8, refusal: &Refusal) -> Result<String, AllocError>
    ensures { IfOk result (λ line. string_bytes line ≡ line_of_refusal process refusal.now) }
{
    format!(in alloc; "- {process} refused {refusal}\n")
}
