//! The engine `judge`: the verdict on the record in a file, which is read line by line.
ghost use Rattle.std.specs.Prelude.{◌-◌, ◌^◌, ◌<◌};
ghost use Rattle.any_lock.specs.{IsVerdict as IsAnyLockVerdict, law_text as any_lock_law};
ghost use Rattle.auditor.specs.safe_monitor.{law_text};
ghost use Rattle.auditor.specs.{IsVerdict};
ghost use Rattle.files.specs.{streams};
ghost use Rattle.judge.specs.AnyReasons.{AreAnyLockReasons};
ghost use Rattle.judge.specs.Judgements.{JudgeEnds};
ghost use Rattle.judge.specs.Reasons.{AreReasons};

use crate::engine::run_trial;
use crate::explaining::ExplainingJudge;
use crate::plain::Plain;
use crate::record_judge::RecordJudge;
use crate::this_lock_judge::ThisLockJudge;
use any_lock::AnyLockJudge;
use files::{Fault, Sink, Source};
use std::alloc::Global;

/// Reads a whole record file, line by line, and then writes the verdict on its record by the laws of this project's lock, on
/// one line. If reasons are asked for, they follow a bad verdict. Returns the exit status. It stores a line, a block and
/// the reasons, however long the file is.
///
/// # Errors
///
/// Returns the first fault of the file, with its line, or [`Fault::Read`], [`Fault::Memory`] or [`Fault::Write`]. Only after
/// [`Fault::Write`] may a part of the text be written. A file of 2^64 - 1 lines or more, whose numbers need more than 64 bits,
/// ends with [`Fault::Memory`].
pub fn run_judge<R: Source, W: Sink>(
    alloc: Global,
    input: &mut R,
    output: &mut W,
    asked: bool,
) -> Result<u8, Fault>
    requires reads { R.failures input.old < 2 ^ 64 - 1 }
    requires writes { W.failures output.old < 2 ^ 64 - 1 }
    ensures { JudgeEnds law_text IsVerdict AreReasons asked result
        (streams ⟦<R as Source>⟧ ⟦<W as Sink>⟧ input.old output.old)
        (streams ⟦<R as Source>⟧ ⟦<W as Sink>⟧ input.new output.new) }
{
    run_judged::<ThisLockJudge, R, W>(alloc, input, output, asked)
}

/// Judges a record file as [`run_judge`] does, by the laws of any lock on safe bits.
///
/// # Errors
///
/// Returns the faults of [`run_judge`].
pub fn judge_any_lock<R: Source, W: Sink>(
    alloc: Global,
    input: &mut R,
    output: &mut W,
    asked: bool,
) -> Result<u8, Fault>
    requires reads { R.failures input.old < 2 ^ 64 - 1 }
    requires writes { W.failures output.old < 2 ^ 64 - 1 }
    ensures { JudgeEnds any_lock_law IsAnyLockVerdict AreAnyLockReasons asked result
        (streams ⟦<R as Source>⟧ ⟦<W as Sink>⟧ input.old output.old)
        (streams ⟦<R as Source>⟧ ⟦<W as Sink>⟧ input.new output.new) }
{
    run_judged::<AnyLockJudge, R, W>(alloc, input, output, asked)
}

/// Judges a record file as [`run_judge`] does, by the laws of a judge.
fn run_judged<J: RecordJudge, R: Source, W: Sink>(
    alloc: Global,
    input: &mut R,
    output: &mut W,
    asked: bool,
) -> Result<u8, Fault>
    requires reads { R.failures input.old < 2 ^ 64 - 1 }
    requires writes { W.failures output.old < 2 ^ 64 - 1 }
    ensures { JudgeEnds J.Law.name J.IsVerdict J.AreReasons asked result
        (streams ⟦<R as Source>⟧ ⟦<W as Sink>⟧ input.old output.old)
        (streams ⟦<R as Source>⟧ ⟦<W as Sink>⟧ input.new output.new) }
{
    if asked {
        run_trial::<ExplainingJudge<J>, R, W>(alloc, None, input, output)
    } else {
        run_trial::<Plain<J>, R, W>(alloc, None, input, output)
    }
}
