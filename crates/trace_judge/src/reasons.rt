//! The reasons of a verdict.
ghost use Rattle.std.specs.Prelude.{◌≡◌, ◌<◌, Some, filter, option_to_list};
ghost use Rattle.trace.specs.{TraceEntry as Entry, trace_entry};
ghost use Rattle.trace_judge.specs.Keeping.{OfSeen};
ghost use Rattle.trace_judge.specs.Laws.{first_broken};
ghost use Rattle.trace_memory.specs.{present};
ghost use Rattle.lock_stages.specs.{AreSince};
ghost use Rattle.trace_judge.specs.Reasons.{AreReasons, doorway_by, inside_by, keeps_with, mays_by, opened_at, refused, stage_of, waits_by};

use crate::state::TraceState;
use crate::verdicts::TraceLaw;
use lock_stages::{LockMarkRefusal, LockStage};
use trace::{CellAccess, LockMark};
use trace_memory::CellRefusal;

/// Why an entry is refused: by its access, or else by its marks.
#[derive(Clone, Copy)]
pub enum TraceRefused {
    Access(CellRefusal),
    Marks(LockMarkRefusal),
}

/// The most processes of a trace.
const MOST_PROCESSES: usize = 16;

/// The reasons of an entry that breaks a law. Entries are given by their numbers, from 0.
#[derive(Clone, Copy)]
pub struct TraceReasons {
    /// `Memory`: if at most two values are allowed, those with which the entry keeps all laws, ascending.
    pub may: [Option<u32>; 2],
    /// Why the entry is refused, whatever the law.
    pub refused: Option<TraceRefused>,
    /// The stage of its process; `None` if that does not exist.
    pub stage: Option<LockStage>,
    /// The entry with which the access began that its process has open.
    pub opened: Option<u64>,
    /// `Together`: for each other process that is inside, the entry with which it entered.
    pub inside: [Option<u64>; MOST_PROCESSES],
    /// `Overtaken`: for each process that is ahead, the entry with which it began to wait.
    pub waits: [Option<u64>; MOST_PROCESSES],
    /// `Overtaken`: the entry with which the doorway of its process began, in the past or this one.
    pub doorway: Option<u64>,
}

impl TraceState {
    /// Returns the reasons of an entry that breaks this law first.
    pub(crate) fn reasons(
        &self,
        law: TraceLaw,
        process: u8,
        access: &Option<CellAccess>,
        marks: &[LockMark],
    ) -> TraceReasons
        ensures { OfSeen self.now
            (λ past. first_broken self.now.memory.setup past
            (trace_entry process access.now marks.now) ≡ Some law →
            AreReasons self.now.memory.setup past (trace_entry process access.now marks.now) law
            result) }
    {
        TraceReasons {
            may: self.mays(law, process, access, marks),
            refused: self.refused(process, access, marks),
            stage: self.stage(process),
            opened: self.opened_at(process),
            inside: self.inside(law, process),
            waits: self.waits(law, process),
            doorway: self.doorway(law, process, access),
        }
    }

    /// `Memory`: returns of at most two allowed values those with which the entry keeps all laws.
    fn mays(
        &self,
        law: TraceLaw,
        process: u8,
        access: &Option<CellAccess>,
        marks: &[LockMark],
    ) -> [Option<u32>; 2]
        ensures { OfSeen self.now
            (λ past. first_broken self.now.memory.setup past
            (trace_entry process access.now marks.now) ≡ Some law →
            present result
            ≡ mays_by law self.now.memory.setup past (trace_entry process access.now marks.now)) }
    {
        let (TraceLaw::Memory, Some(access)) = (law, access) else {
            return [None; 2];
        };
        if process >= self.stages.processes() {
            return [None; 2];
        }
        let Some(width) = self.memory.width_of(access.cell) else {
            return [None; 2];
        };
        let (first, second) = self.memory.allowed(process, access).few(width);
        [
            self.may(first, process, access, marks),
            self.may(second, process, access, marks),
        ]
    }

    /// Returns a value, if the entry with an access that reads it keeps all laws.
    fn may(
        &self,
        value: Option<u32>,
        process: u8,
        access: &CellAccess,
        marks: &[LockMark],
    ) -> Option<u32>
        ensures { OfSeen self.now
            (λ past. option_to_list result
            ≡ filter
            (keeps_with self.now.memory.setup past
            (trace_entry process (Some access.now) marks.now)) (option_to_list value)) }
    {
        let value = value?;
        let reading = Some(access.reading(value));
        self.broken(process, &reading, marks)
            .is_none()
            .then_some(value)
    }

    /// Returns why an entry is refused, if it is.
    fn refused(
        &self,
        process: u8,
        access: &Option<CellAccess>,
        marks: &[LockMark],
    ) -> Option<TraceRefused>
        ensures { OfSeen self.now
            (λ past. result
            ≡ refused self.now.memory.setup past (trace_entry process access.now marks.now)) }
    {
        if let Some(refusal) = self.refusal_of_access(process, access) {
            return Some(TraceRefused::Access(refusal));
        }
        let refusal = self.refusal_of_marks(process, access, marks)?;
        Some(TraceRefused::Marks(refusal))
    }

    /// Returns the stage of a process that exists.
    fn stage(&self, process: u8) -> Option<LockStage>
        ensures { OfSeen self.now (λ past. result ≡ stage_of self.now.memory.setup past process) }
    {
        if process >= self.stages.processes() {
            return None;
        }
        Some(self.stages.state(process).stage)
    }

    /// Returns the entry with which the access began that a process has open.
    fn opened_at(&self, process: u8) -> Option<u64>
        ensures { OfSeen self.now (λ past. result ≡ opened_at self.now.memory.setup past process) }
    {
        if process >= self.stages.processes() {
            return None;
        }
        let open = self.memory.opened(process)?;
        Some(open.entry)
    }

    /// `Together`: returns of each other process that is inside the entry with which it entered.
    fn inside(&self, law: TraceLaw, process: u8) -> [Option<u64>; MOST_PROCESSES]
        ensures { (e : Entry) → e.process ≡ process → OfSeen self.now (λ past.
            AreSince result (inside_by law self.now.memory.setup past e)) }
    {
        if law != TraceLaw::Together {
            return [None; MOST_PROCESSES];
        }
        self.stages.inside_since(process)
    }

    /// `Overtaken`: returns of each process that is ahead the entry with which it began to wait.
    fn waits(&self, law: TraceLaw, process: u8) -> [Option<u64>; MOST_PROCESSES]
        ensures { (e : Entry) → e.process ≡ process → OfSeen self.now (λ past.
            first_broken self.now.memory.setup past e ≡ Some law
            → AreSince result (waits_by law self.now.memory.setup past e)) }
    {
        if law != TraceLaw::Overtaken || process >= self.stages.processes() {
            return [None; MOST_PROCESSES];
        }
        self.stages.ahead_since(process)
    }

    /// `Overtaken`: returns the entry with which the doorway of a process began, in the past or with this access.
    fn doorway(&self, law: TraceLaw, process: u8, access: &Option<CellAccess>) -> Option<u64>
        ensures { (e : Entry) → e.process ≡ process → e.access ≡ access.now →
            OfSeen self.now
            (λ past. first_broken self.now.memory.setup past e ≡ Some law →
            result ≡ doorway_by law self.now.memory.setup past e) }
    {
        if law != TraceLaw::Overtaken || process >= self.stages.processes() {
            return None;
        }
        match self.stages.state(process).passage.doorway {
            Some(entry) => Some(entry),
            None if access.is_some() => Some(self.stages.entries()),
            None => None,
        }
    }
}
