//! How stages and refusals of marks are printed.
ghost use Rattle.lock_stages.specs.Shown.{lock_mark_refusal_text, lock_stage_text};

use crate::refusals::LockMarkRefusal;
use crate::states::LockStage;
use std::fmt;

impl fmt::Display for LockStage {
    ghost use Rattle.std.specs.Prelude.{Some};

    ghost output = { λ stage. Some (lock_stage_text stage) };

    fn fmt<W: fmt::Write>(&self, f: &mut fmt::Formatter<W>) -> fmt::Result {
        f.write_str(match self {
            LockStage::Idle => "idle",
            LockStage::Doorway => "doorway",
            LockStage::Waiting => "waiting",
            LockStage::Inside => "inside",
            LockStage::Leaving => "leaving",
        })
    }
}

impl fmt::Display for LockMarkRefusal {
    ghost use Rattle.std.specs.Prelude.{Some};

    ghost output = { λ refusal. Some (lock_mark_refusal_text refusal) };

    fn fmt<W: fmt::Write>(&self, f: &mut fmt::Formatter<W>) -> fmt::Result {
        f.write_str(match self {
            LockMarkRefusal::NotAlone => "not-alone",
            LockMarkRefusal::Busy => "busy",
            LockMarkRefusal::NotInDoorway => "not-in-doorway",
            LockMarkRefusal::NotTrying => "not-trying",
            LockMarkRefusal::NotInside => "not-inside",
            LockMarkRefusal::NotLeaving => "not-leaving",
            LockMarkRefusal::AccessOpen => "access-open",
        })
    }
}
