//! How laws and refusals are printed.
ghost use Rattle.any_lock.specs.Shown.{access_refusal_text, law_text, mark_refusal_text};

use crate::any_lock_law::AnyLockLaw;
use crate::refusals::{AccessRefusal, MarkRefusal};
use safe_monitor::NamedLaw;
use std::fmt;

impl fmt::Display for AnyLockLaw {
    ghost use Rattle.std.specs.Prelude.{Some};

    ghost output = { λ law. Some (law_text law) };

    fn fmt<W: fmt::Write>(&self, f: &mut fmt::Formatter<W>) -> fmt::Result {
        f.write_str(match self {
            AnyLockLaw::Safe => "safe",
            AnyLockLaw::Access => "access",
            AnyLockLaw::Marks => "marks",
            AnyLockLaw::Together => "together",
            AnyLockLaw::Overtaken => "overtaken",
            AnyLockLaw::History => "history",
        })
    }
}

impl NamedLaw for AnyLockLaw {
    ghost use Rattle.std.specs.Prelude.{refl};

    ghost name = { law_text };

    ghost prints = { λ _. refl };
}

impl fmt::Display for AccessRefusal {
    ghost use Rattle.std.specs.Prelude.{Some};

    ghost output = { λ refusal. Some (access_refusal_text refusal) };

    fn fmt<W: fmt::Write>(&self, f: &mut fmt::Formatter<W>) -> fmt::Result {
        f.write_str(match self {
            AccessRefusal::NoProcess => "no-process",
            AccessRefusal::NoBit => "no-bit",
            AccessRefusal::NotOwner => "not-owner",
            AccessRefusal::NotReader => "not-reader",
            AccessRefusal::NotSettling => "not-settling",
            AccessRefusal::NotRunning => "not-running",
            AccessRefusal::NotOpen => "not-open",
            AccessRefusal::AccessOpen => "access-open",
            AccessRefusal::NotTorn => "not-torn",
            AccessRefusal::Torn => "torn",
        })
    }
}

impl fmt::Display for MarkRefusal {
    ghost use Rattle.std.specs.Prelude.{Some};

    ghost output = { λ refusal. Some (mark_refusal_text refusal) };

    fn fmt<W: fmt::Write>(&self, f: &mut fmt::Formatter<W>) -> fmt::Result {
        f.write_str(match self {
            MarkRefusal::Nothing => "nothing",
            MarkRefusal::NotAlone => "not-alone",
            MarkRefusal::Busy => "busy",
            MarkRefusal::IsDown => "is-down",
            MarkRefusal::CallsFull => "calls-full",
            MarkRefusal::AlreadyFailed => "already-failed",
            MarkRefusal::NotWaiting => "not-waiting",
            MarkRefusal::NotDown => "not-down",
            MarkRefusal::NotInDoorway => "not-in-doorway",
            MarkRefusal::NotInside => "not-inside",
            MarkRefusal::TakenBefore => "taken-before",
            MarkRefusal::NotLeaving => "not-leaving",
            MarkRefusal::WasWithdrawn => "was-withdrawn",
            MarkRefusal::OtherReply => "other-reply",
            MarkRefusal::NotTaken => "not-taken",
            MarkRefusal::NotWithdrawn => "not-withdrawn",
            MarkRefusal::AccessOpen => "access-open",
            MarkRefusal::NotSettling => "not-settling",
            MarkRefusal::Torn => "torn",
            MarkRefusal::StillInside => "still-inside",
        })
    }
}
