ghost use Rattle.std.specs.Prelude.{◌≡◌, IfOk, length, true};
ghost use Rattle.trace.specs.{is_trace_setup};
ghost use Rattle.trace_judge.specs.Soundness.{MeansSound};
ghost use Rattle.trace_judge.specs.Verdicts.{verdict_of};

use crate::judge::TraceJudge;
use crate::verdicts::TraceJudged;
use std::alloc::{AllocError, Global};
use trace::{TraceEntry, TraceSetup};

/// Returns the verdict on a trace. If it is good, no two processes were inside together, and none entered while another was
/// ahead of it.
///
/// # Errors
///
/// Returns [`AllocError`] if memory runs out.
pub fn judge_trace_entries(
    alloc: Global,
    setup: &TraceSetup,
    entries: &[TraceEntry],
) -> Result<TraceJudged, AllocError>
    requires { is_trace_setup setup.now ≡ true }
    ensures verdict { IfOk result (λ judged. judged.verdict ≡ verdict_of setup.now entries.now) }
    ensures sound { IfOk result (λ judged. MeansSound judged.verdict entries.now) }
    ensures entries { IfOk result (λ judged. judged.entries ≡ length entries.now) }
{
    let mut judge = TraceJudge::new(alloc, setup)?;
    for entry in entries {
        judge.observe(entry.process, &entry.access, &entry.marks);
    }
    Ok(judge.judged())
}
