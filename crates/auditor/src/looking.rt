//! The reports of an auditor on the entries that it has observed. They leave it unchanged.
ghost use Rattle.std.specs.Prelude.{◌≡◌};
ghost use Rattle.model.specs.{refused};
ghost use Rattle.world.specs.{stage_in};
ghost use Rattle.auditor.specs.Observing.{IsAddedByStep, OfObserved};

use crate::auditor::Auditor;
use model::{Entry, Event, Refusal, Stage};
use plain_store::NestedTypes;
use world::Core;

impl Auditor {
    /// Borrows the core of the world that shows the entries observed.
    pub fn core(&self) -> &Core
        ensures { result.now ≡ self.now.core }
    {
        &self.core
    }

    /// Returns the stage of a process, or `None` if there is no such process.
    pub fn stage(&self, process: u8) -> Option<Stage>
        ensures { OfObserved self.now (λ s past. result ≡ stage_in s past process) }
    {
        self.core.stage(process)
    }

    /// Returns why an event is refused, or `None` if it is accepted.
    pub fn refusal(&self, event: &Event) -> Option<Refusal>
        ensures { OfObserved self.now (λ s past. result ≡ refused s past event.now) }
    {
        self.core.refusal(event)
    }

    /// Returns the entry that a step of a process adds by this flick, or `None` if the step is refused.
    pub fn stepped(&self, process: u8, flick: bool) -> Option<Entry>
        ensures { IsAddedByStep self.now process flick result }
    {
        let _nested: NestedTypes = None;
        let taken = self.taken?;
        self.core.next_entry(self.alloc, process, flick, taken)
    }
}
