//! The refusals of marks.
ghost use Rattle.std.specs.Prelude.{◌≡◌};
ghost use Rattle.std.specs.List.{list_any};
ghost use Rattle.lock_stages.specs.Entries.{is_call as begins_call, is_enter as enters_inside};
ghost use Rattle.lock_stages.specs.Refusals.{first_refusal, mark_refusal};
ghost use Rattle.lock_stages.specs.States.{stage_after};
ghost use Rattle.lock_stages.specs.declared.states.LockStage.{LockStage as Stage};
ghost use Rattle.trace.specs.declared.marks.LockMark.TheVariants.{Answer};

use crate::states::LockStage;
use trace::LockMark;

/// Why the marks of an entry are refused: the first refusal of the first refused mark.
#[derive(Clone, Copy, PartialEq, Eq)]
pub enum LockMarkRefusal {
    /// A call with an access or another mark.
    NotAlone,
    /// A call: the process has one.
    Busy,
    /// The end of a doorway: the process is not in its doorway.
    NotInDoorway,
    /// Entering: the process is neither in its doorway nor waiting.
    NotTrying,
    /// Leaving: the process is not inside.
    NotInside,
    /// The end of a call: the process is neither in its doorway nor leaving.
    NotLeaving,
    /// The end of a call: an access is open.
    AccessOpen,
}

/// Returns the refusal of the first refused mark of a process at this stage.
pub(crate) fn first_refusal(
    stage: LockStage,
    is_open: bool,
    marks: &[LockMark],
) -> Option<LockMarkRefusal>
    ensures { result ≡ first_refusal stage is_open marks.now }
{
    let mut at = stage;
    for mark in marks {
        if let Some(refusal) = mark_refusal(at, is_open, *mark) {
            return Some(refusal);
        }
        at = stage_after(*mark);
    }
    None
}

/// Returns the refusal of a mark of a process at this stage.
fn mark_refusal(stage: LockStage, is_open: bool, mark: LockMark) -> Option<LockMarkRefusal>
    ensures { result ≡ mark_refusal stage is_open mark }
{
    match mark {
        LockMark::Call => (!stage.is_idle()).then_some(LockMarkRefusal::Busy),
        LockMark::Wait => (!stage.is_in_doorway()).then_some(LockMarkRefusal::NotInDoorway),
        LockMark::Enter => {
            (!(stage.is_in_doorway() || stage.is_waiting())).then_some(LockMarkRefusal::NotTrying)
        }
        LockMark::Leave => (!stage.is_inside()).then_some(LockMarkRefusal::NotInside),
        LockMark::Answer => answer_refusal(stage, is_open),
    }
}

/// Returns the refusal of the end of a call.
fn answer_refusal(stage: LockStage, is_open: bool) -> Option<LockMarkRefusal>
    ensures { result ≡ mark_refusal stage is_open Answer }
{
    if !(stage.is_in_doorway() || stage.is_leaving()) {
        Some(LockMarkRefusal::NotLeaving)
    } else if is_open {
        Some(LockMarkRefusal::AccessOpen)
    } else {
        None
    }
}

/// Returns the stage after a mark.
pub(crate) fn stage_after(mark: LockMark) -> LockStage
    ensures { (before : Stage) → result ≡ stage_after before mark }
{
    match mark {
        LockMark::Call => LockStage::Doorway,
        LockMark::Wait => LockStage::Waiting,
        LockMark::Enter => LockStage::Inside,
        LockMark::Leave => LockStage::Leaving,
        LockMark::Answer => LockStage::Idle,
    }
}

/// Returns whether a call begins with one of these marks.
pub(crate) fn calls(marks: &[LockMark]) -> bool
    ensures { result ≡ list_any begins_call marks.now }
{
    marks.iter().any(|mark| matches!(mark, LockMark::Call))
}

/// Returns whether a process enters with one of these marks.
pub(crate) fn enters(marks: &[LockMark]) -> bool
    ensures { result ≡ list_any enters_inside marks.now }
{
    marks.iter().any(|mark| matches!(mark, LockMark::Enter))
}
