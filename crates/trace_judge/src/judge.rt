ghost use Rattle.std.specs.Prelude.{◌≡◌, ◌+◌, ◌-◌, ◌^◌, ◌<◌, [], IfOk, Some, length, true};
ghost use Rattle.trace.specs.{is_trace_setup, trace_entry};
ghost use Rattle.trace_judge.specs.Judging.{HasJudged, IsExplained, JudgesOn, OfJudged};
ghost use Rattle.trace_judge.specs.Keeping.{OfSeen};
ghost use Rattle.trace_judge.specs.Laws.{first_broken};
ghost use Rattle.trace_judge.specs.Reasons.{Explains};
ghost use Rattle.trace_judge.specs.Soundness.{MeansSound};
ghost use Rattle.trace_judge.specs.Verdicts.{verdict_of, verdict_with};

use crate::reasons::TraceReasons;
use crate::state::TraceState;
use crate::verdicts::{TraceJudged, TraceLaw, TraceVerdict};
use std::alloc::{AllocError, Global};
use std::marker::Model;
use trace::{CellAccess, LockMark, TraceSetup};

/// A judge of traces, which observes entries one by one. It keeps the stored value and the open write of each cell. Of
/// each process it keeps the stage, the open access with its allowed values, and four entry numbers. So it needs the same
/// memory however long the trace is.
#[derive(Drop)]
pub struct TraceJudge {
    state: TraceState,
    verdict: TraceVerdict,
    entries: u64,
    reasons: Option<TraceReasons>,
}

impl Model for TraceJudge {
    ghost use Rattle.std.specs.Prelude.{◌≤◌};
    ghost use Rattle.trace_judge.specs.Judging.{JudgeState};

    ghost Value = { JudgeState };

    ghost view = { λ j. record { state = j.state; verdict = j.verdict; entries = j.entries; reasons = j.reasons } };

    ghost invariant = { λ j. j.state.stages.entries ≤ j.entries };
}

impl TraceJudge {
    /// Creates a judge of a trace with this setup, before the first entry. No later call allocates.
    ///
    /// # Errors
    ///
    /// Returns [`AllocError`] if memory runs out.
    pub fn new(alloc: Global, setup: &TraceSetup) -> Result<TraceJudge, AllocError>
        requires { is_trace_setup setup.now ≡ true }
        ensures { IfOk result (λ judge. HasJudged judge setup.now []) }
    {
        Ok(TraceJudge {
            state: TraceState::new(alloc, setup.copy(alloc)?)?,
            verdict: TraceVerdict::Good,
            entries: 0,
            reasons: None,
        })
    }

    /// Observes the next entry, by its parts.
    pub fn observe(&mut self, process: u8, access: &Option<CellAccess>, marks: &[LockMark])
        requires { self.old.entries < 2 ^ 64 - 1 }
        ensures observed { JudgesOn self.old (trace_entry process access.now marks.now) self.new }
        ensures count { self.new.entries ≡ self.old.entries + 1 }
    {
        let number = self.entries;
        self.entries += 1;
        if let TraceVerdict::Bad(..) = self.verdict {
            return;
        }
        if let Some(law) = self.state.broken(process, access, marks) {
            self.explain(law, process, access, marks);
            self.verdict = TraceVerdict::Bad(number, law);
        } else {
            self.state.take(process, access, marks);
        }
    }

    /// Stores the reasons why this entry breaks this law. It is never inlined, because the room in which reasons are made would
    /// otherwise be cleared before each entry.
    #[inline(never)]
    fn explain(
        &mut self,
        law: TraceLaw,
        process: u8,
        access: &Option<CellAccess>,
        marks: &[LockMark],
    )
        ensures state { self.new.state ≡ self.old.state }
        ensures verdict { self.new.verdict ≡ self.old.verdict }
        ensures entries { self.new.entries ≡ self.old.entries }
        ensures reasons { OfSeen self.old.state
            (λ past. first_broken self.old.state.memory.setup past
            (trace_entry process access.now marks.now) ≡ Some law →
            Explains self.old.state.memory.setup past (trace_entry process access.now marks.now) law
            self.new.reasons) }
    {
        self.reasons = Some(self.state.reasons(law, process, access, marks));
    }

    /// Returns the verdict on the entries so far, and their number. If it is good, no two processes were inside together, and
    /// none entered while another was ahead of it.
    pub fn judged(&self) -> TraceJudged
        ensures now { result.verdict ≡ self.now.verdict }
        ensures verdict { OfJudged self.now (λ s entries. result.verdict ≡ verdict_of s entries) }
        ensures sound { OfJudged self.now (λ _ entries. MeansSound result.verdict entries) }
        ensures entries { OfJudged self.now (λ _ entries. result.entries ≡ length entries) }
    {
        TraceJudged {
            verdict: self.verdict,
            entries: self.entries,
        }
    }

    /// Returns the reasons of the verdict on the entries so far; a good one has none.
    pub fn reasons(&self) -> &Option<TraceReasons>
        ensures now { result.now ≡ self.now.reasons }
        ensures explained { OfJudged self.now (IsExplained result.now) }
    {
        &self.reasons
    }
}
