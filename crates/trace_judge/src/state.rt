//! The state that a judge keeps of the entries that it has observed.
ghost use Rattle.std.specs.Prelude.{◌≡◌, ◌<◌, List, ◌+◌, ◌-◌, ◌^◌, ◌∷◌, [], IfOk, IfSome, IsTrue, None, is_some, true};
ghost use Rattle.trace.specs.{LockMark as Mark, is_trace_setup, trace_entry};
ghost use Rattle.trace_memory.specs.{has_cell};
ghost use Rattle.trace_judge.specs.Keeping.{HasSeen, OfSeen};
ghost use Rattle.trace_judge.specs.Laws.{breaks_memory, first_broken, leaves_open, refusal_of_access, refusal_of_marks};

use crate::verdicts::TraceLaw;
use lock_stages::{LockMarkRefusal, LockStages};
use std::alloc::{AllocError, Global};
use std::marker::Model;
use trace::{CellAccess, LockMark, TraceSetup};
use trace_memory::{CellMemory, CellRefusal};

/// The memory of a trace and the stages of its processes. Contracts see both.
#[derive(Drop)]
pub(crate) struct TraceState {
    pub(crate) memory: CellMemory,
    pub(crate) stages: LockStages,
}

impl Model for TraceState {
    ghost use Rattle.trace_judge.specs.Keeping.{IsState, TraceState as Seen};

    ghost Value = { Seen };

    ghost view = { λ k. record { memory = k.memory; stages = k.stages } };

    ghost invariant = { λ k. IsState (record { memory = k.memory; stages = k.stages }) };
}

impl TraceState {
    /// Creates the state before the first entry.
    ///
    /// # Errors
    ///
    /// Returns [`AllocError`] if memory runs out.
    pub fn new(alloc: Global, setup: TraceSetup) -> Result<TraceState, AllocError>
        requires { is_trace_setup setup ≡ true }
        ensures setup { IfOk result (λ k. k.memory.setup ≡ setup) }
        ensures seen { IfOk result (λ k. HasSeen k []) }
    {
        let processes = setup.processes;
        Ok(TraceState {
            memory: CellMemory::new(alloc, setup)?,
            stages: LockStages::new(processes),
        })
    }

    /// Returns the first law that the next entry breaks, if it breaks one.
    pub fn broken(
        &self,
        process: u8,
        access: &Option<CellAccess>,
        marks: &[LockMark],
    ) -> Option<TraceLaw>
        ensures law { OfSeen self.now (λ past. result ≡ first_broken self.now.memory.setup past
            (trace_entry process access.now marks.now)) }
        ensures process { result ≡ None → process < 16 }
        ensures cell { result ≡ None →
            IfSome access.now (λ a. IsTrue (has_cell self.now.memory.setup a.cell)) }
    {
        if let Some(_refusal) = self.refusal_of_access(process, access) {
            return Some(TraceLaw::Access);
        }
        if self.breaks_memory(process, access) {
            return Some(TraceLaw::Memory);
        }
        if let Some(_refusal) = self.refusal_of_marks(process, access, marks) {
            return Some(TraceLaw::Marks);
        }
        if self
            .stages
            .breaks_together(process, access.is_some(), marks)
        {
            Some(TraceLaw::Together)
        } else if self
            .stages
            .breaks_overtaken(process, access.is_some(), marks)
        {
            Some(TraceLaw::Overtaken)
        } else {
            None
        }
    }

    /// Returns why the access of the next entry is refused, if it is.
    pub fn refusal_of_access(&self, process: u8, access: &Option<CellAccess>) -> Option<CellRefusal>
        ensures refusal { (marks : List Mark) → OfSeen self.now (λ past.
            result ≡ refusal_of_access self.now.memory.setup past
            (trace_entry process access.now marks)) }
        ensures process { result ≡ None → process < self.now.memory.setup.processes }
        ensures bounded { result ≡ None → process < 16 }
        ensures cell { result ≡ None →
            IfSome access.now (λ a. IsTrue (has_cell self.now.memory.setup a.cell)) }
    {
        if process >= self.stages.processes() {
            return Some(CellRefusal::NoProcess);
        }
        let Some(access) = access else {
            return None;
        };
        let stage = self.stages.state(process).stage;
        self.memory.refusal(process, stage.is_idle(), access)
    }

    /// Returns whether the next entry, whose access is not refused, reads a value that it may not give.
    fn breaks_memory(&self, process: u8, access: &Option<CellAccess>) -> bool
        requires process { process < 16 }
        requires cell { IfSome access.now (λ a. IsTrue (has_cell self.now.memory.setup a.cell)) }
        ensures { (marks : List Mark) →
            OfSeen self.now
            (λ past. refusal_of_access self.now.memory.setup past
            (trace_entry process access.now marks) ≡ None →
            result
            ≡ breaks_memory self.now.memory.setup past (trace_entry process access.now marks)) }
    {
        match access {
            None => false,
            Some(access) => self.memory.reads_wrongly(process, access),
        }
    }

    /// Returns why the marks of the next entry are refused, if they are.
    pub fn refusal_of_marks(
        &self,
        process: u8,
        access: &Option<CellAccess>,
        marks: &[LockMark],
    ) -> Option<LockMarkRefusal>
        requires { process < 16 }
        ensures { OfSeen self.now (λ past.
            result ≡ refusal_of_marks past (trace_entry process access.now marks.now)) }
    {
        let is_open = self.leaves_open(process, access);
        self.stages
            .refusal(process, access.is_some(), is_open, marks)
    }

    /// Returns whether a process has an access open after this one.
    fn leaves_open(&self, process: u8, access: &Option<CellAccess>) -> bool
        requires { process < 16 }
        ensures { (marks : List Mark) → OfSeen self.now (λ past.
            result ≡ leaves_open past (trace_entry process access.now marks)) }
    {
        match access {
            None => self.memory.opened(process).is_some(),
            Some(access) => access.how.begins(),
        }
    }

    /// Observes the next entry, which breaks no law.
    pub fn take(&mut self, process: u8, access: &Option<CellAccess>, marks: &[LockMark])
        requires process { process < 16 }
        requires cell { IfSome access.now (λ a. IsTrue (has_cell self.old.memory.setup a.cell)) }
        requires bounded { self.old.stages.entries < 2 ^ 64 - 1 }
        ensures setup { self.new.memory.setup ≡ self.old.memory.setup }
        ensures entries { self.new.stages.entries ≡ self.old.stages.entries + 1 }
        ensures seen { OfSeen self.old (λ past.
            HasSeen self.new (trace_entry process access.now marks.now ∷ past)) }
    {
        self.memory.take(process, self.stages.entries(), access);
        self.stages.take(process, access.is_some(), marks);
    }
}
