//! The reports that the turns of a run make.
ghost use Rattle.std.specs.Prelude.{◌≡◌, ◌≤◌};
ghost use Rattle.scenario_run.specs.Reporting.{entry_made, events_reported, marks_made};

use model::{Access, Act, Entry, Event, Mark, Refusal};
use plain_store::NestedTypes;
use smallvec::SmallVec;
use std::alloc::Global;
use world::{EventOutcome, Image, event_marks};

/// An event that was accepted, the access that it makes, if it makes one, and what it leads to. A command that it takes
/// gets this position in the history.
#[derive(Clone, Copy)]
pub struct Accepted {
    pub event: Event,
    pub place: u64,
    pub access: Option<Access>,
    /// Whether the access ends a read that a write overlapped.
    pub overlapped: bool,
    pub effect: EventOutcome,
}

impl Accepted {
    /// Returns the marks of the event's entry, in their order. They use no allocated memory.
    pub fn marks(&self, alloc: Global) -> SmallVec<Mark, 3>
        ensures { result.items ≡ marks_made self.now }
    {
        let _nested: NestedTypes = None;
        event_marks(alloc, &self.effect, self.place)
    }

    /// Returns the event's entry. It uses no allocated memory.
    pub fn entry(&self, alloc: Global) -> Entry
        ensures { result ≡ entry_made self.now }
    {
        let _nested: NestedTypes = None;
        Entry {
            process: self.event.process(),
            act: Act {
                access: self.access,
                marks: self.marks(alloc),
            },
        }
    }
}

/// A Step that was made and has no mark: its process, its flick and its access.
#[derive(Clone, Copy)]
pub struct UnmarkedStep {
    pub process: u8,
    pub flick: bool,
    pub access: Access,
    /// Whether the access ends a read that a write overlapped.
    pub overlapped: bool,
    /// How much of a number the process had read before it; `None` only for a Step within a register access.
    pub number: Option<u32>,
}

/// The report of a turn of a run.
#[derive(Drop)]
pub enum TurnReport {
    Accepted(Accepted),
    /// An event of this process was refused, or `go` found no such process.
    Refused { process: u8, refusal: Refusal },
    /// This process has made all the Steps of a `go`.
    Tired(u8),
    /// The newest store, or `None` while a process is inside.
    Shown(Option<Image>),
}

impl TurnReport {
    /// Returns 1 for an accepted event, and 0 for any other report.
    pub(crate) fn event_count(&self) -> u32
        ensures events { result ≡ events_reported self.now }
        ensures one { result ≤ 1 }
    {
        let _nested: NestedTypes = None;
        match self {
            TurnReport::Accepted(_) => 1,
            TurnReport::Refused { .. } | TurnReport::Tired(_) | TurnReport::Shown(_) => 0,
        }
    }
}
