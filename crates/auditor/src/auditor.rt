ghost use Rattle.std.specs.Prelude.{◌≡◌, ◌<◌, ◌≤◌, ◌+◌, IfOk, Ok, Some, None, []};
ghost use Rattle.std.specs.List.{list_any};
ghost use Rattle.plain_store.specs.{checked};
ghost use Rattle.safe_monitor.specs.declared.verdicts.Law.{Law as Named};
ghost use Rattle.safe_monitor.specs.declared.verdicts.Law.TheVariants.{Program};
ghost use Rattle.safe_monitor.specs.{entry_by};
ghost use Rattle.world.specs.{remaining_in};
ghost use Rattle.auditor.specs.Observing.{HasObserved, Observes, ObservesBefore, ObservesEvent, ObservesRun, ObservesSteps, ReportsSettling, event_in, law_of_misplaced, law_of_wrong};
ghost use Rattle.auditor.specs.Verdicts.{reports_event};

use crate::matching::{
    are_at, event_in, flick_in, flick_of, is_alike, is_that, more, reports_event,
};
use model::{Access, Event, Mark};
use plain_store::Setup;
use safe_monitor::Law;
use std::alloc::{AllocError, Global};
use std::marker::Model;
use world::{Core, EventOutcome, Flicks, StepOutcome};

/// An audit in progress. It observes the entries of a record one at a time. It keeps what a world keeps, except the history,
/// and how many commands were taken, so it needs the same memory however long the record is. As long as no entry breaks a
/// law, the entries are those of a list of events, and the auditor's core is that of the world that shows them. Each entry
/// determines the one event that it can be of. The auditor makes that event, and compares what it adds with the entry.
#[derive(Drop)]
pub struct Auditor {
    pub(crate) alloc: Global,
    pub(crate) core: Core,
    pub(crate) taken: Option<u64>,
}

impl Model for Auditor {
    ghost use Rattle.auditor.specs.Observing.{AuditorState};

    ghost Value = { AuditorState };

    ghost view = { λ a. record { core = a.core; taken = a.taken } };
}

impl Auditor {
    /// Creates an auditor that has observed nothing.
    ///
    /// # Errors
    ///
    /// Returns [`AllocError`] if there is no memory for the auditor.
    pub fn new(alloc: Global, setup: &Setup) -> Result<Auditor, AllocError>
        requires { checked setup.now ≡ Ok tt }
        ensures setup { IfOk result (λ a. a.core.setup ≡ setup.now) }
        ensures observed { IfOk result (λ a. HasObserved a []) }
    {
        Ok(Auditor {
            alloc,
            core: Core::new(alloc, setup)?,
            taken: Some(0),
        })
    }

    /// Becomes a copy of an auditor of the same setup, so that an audit can continue more than once. It allocates no memory.
    pub fn copy_from(&mut self, other: &Auditor)
        requires setup { self.old.core.setup ≡ other.now.core.setup }
        ensures { self.new ≡ other.now }
    {
        self.core.copy_from(&other.core);
        self.taken = other.taken;
    }

    /// Observes one more entry, by its parts. Returns the first law after `Safe` that it breaks, or `None` if it keeps all
    /// laws. An entry that breaks a law changes nothing, so the auditor has still observed just the entries before it. An entry
    /// that breaks `Safe` breaks `Program` or `Unit` too; a [`SafeMonitor`](safe_monitor::SafeMonitor) decides whether it breaks `Safe`.
    ///
    /// The marks are borrowed. An `Entry` has room for three, all cleared and moved for each step, though few steps have one.
    #[inline]
    pub fn observe(&mut self, process: u8, access: &Option<Access>, marks: &[Mark]) -> Option<Law>
        ensures setup { result ≡ None → self.new.core.setup ≡ self.old.core.setup }
        ensures observed { Observes self.old (entry_by process access.now marks.now) self.new
            result }
        ensures unchanged { (law : Named) → result ≡ Some law → self.new ≡ self.old }
    {
        match access {
            Some(reported) if marks.is_empty() && self.core.remaining(process) > 0 => {
                self.observe_within(process, *reported)
            }
            _ => match event_in(process, access, marks) {
                Some(event) => self.observe_event(&event),
                None => self.observe_step(process, access, marks),
            },
        }
    }

    /// Observes a stretch: `steps` unmarked accesses of a process within one register access, of which `newest` is the last.
    /// The auditor makes the others on its own core, each by the next of `choices`. It then observes `newest` as
    /// [`observe`](Auditor::observe) does.
    ///
    /// Returns what observing each access by itself returns. The accesses before `newest` break no law, because the
    /// process's program makes them. If `newest` breaks a law, the auditor has observed those before it. If the register
    /// access has fewer than `steps` unmarked accesses left, the auditor returns [`Law::Program`] and is unchanged.
    pub fn observe_run(
        &mut self,
        process: u8,
        flicks: &Flicks,
        steps: u32,
        newest: Access,
    ) -> Option<Law>
        requires nonzero { 0 < steps }
        ensures setup { self.new.core.setup ≡ self.old.core.setup }
        ensures observed { ObservesRun self.old flicks.now process steps newest self.new result }
        ensures before { (law : Named) → result ≡ Some law
            → ObservesBefore self.old flicks.now process steps self.new }
        ensures beyond { remaining_in self.old.core.seats process < steps → result ≡ Some Program }
        ensures unchanged { remaining_in self.old.core.seats process < steps → self.new ≡ self.old }
    {
        if self.core.remaining(process) < steps {
            return Some(Law::Program);
        }
        self.advance(process, flicks, steps - 1);
        self.observe_within(process, newest)
    }

    /// Makes `steps` steps of a process within a register access on the auditor's own core.
    #[inline]
    fn advance(&mut self, process: u8, flicks: &Flicks, steps: u32)
        requires within { steps ≤ remaining_in self.old.core.seats process }
        ensures observed { ObservesSteps self.old flicks.now process steps self.new }
        ensures fewer { remaining_in self.old.core.seats process
            ≡ remaining_in self.new.core.seats process + steps }
        ensures setup { self.new.core.setup ≡ self.old.core.setup }
    {
        if steps == 0 {
            return;
        }
        let _made = self.core.run(process, &mut flicks.twin(), steps);
    }

    /// Observes an entry without a mark, of a process within a register access of its call. The process can only make its next
    /// step, and it does not settle, so only the access of that step has to be compared.
    #[inline]
    fn observe_within(&mut self, process: u8, reported: Access) -> Option<Law>
        requires { 0 < remaining_in self.old.core.seats process }
        ensures setup { result ≡ None → self.new.core.setup ≡ self.old.core.setup }
        ensures observed { Observes self.old (entry_by process (Some reported) []) self.new result }
        ensures unchanged { (law : Named) → result ≡ Some law → self.new ≡ self.old }
    {
        let flick = flick_of(reported);
        if !is_that(self.core.next_access(process, flick), reported) {
            return Some(Law::Program);
        }
        let _made = self.core.run(process, &mut Flicks::only(flick), 1);
        None
    }

    /// Observes an entry that is the entry of this event, which is not a step.
    fn observe_event(&mut self, event: &Event) -> Option<Law>
        ensures setup { result ≡ None → self.new.core.setup ≡ self.old.core.setup }
        ensures observed { ObservesEvent self.old event.now self.new result }
        ensures unchanged { (law : Named) → result ≡ Some law → self.new ≡ self.old }
    {
        let mut effect = EventOutcome::Steps(StepOutcome::Nothing);
        let Ok(_access) = self.core.event(event, &mut effect) else {
            return Some(Law::Program);
        };
        None
    }

    /// Observes an entry that can only be of a step.
    #[inline(never)]
    fn observe_step(&mut self, process: u8, access: &Option<Access>, marks: &[Mark]) -> Option<Law>
        requires { event_in (entry_by process access.now marks.now) ≡ None }
        ensures setup { result ≡ None → self.new.core.setup ≡ self.old.core.setup }
        ensures observed { Observes self.old (entry_by process access.now marks.now) self.new
            result }
        ensures unchanged { (law : Named) → result ≡ Some law → self.new ≡ self.old }
    {
        let flick = flick_in(access);
        let Ok((next, reported)) = self.core.next_step(process, flick) else {
            return Some(Law::Program);
        };
        if !is_alike(self.alloc, access, marks, &next, &reported) {
            return Some(wrong(marks, settles(&self.core, process)));
        }
        if !are_at(marks, self.taken) {
            return Some(misplaced(marks));
        }
        let mut made = StepOutcome::Nothing;
        let Ok(_access) = self.core.step(process, flick, &mut made) else {
            return Some(Law::Program);
        };
        self.taken = more(self.taken, &made);
        None
    }
}

/// Returns the law that is broken by an entry with these marks that differs from the entry of its process's step.
fn wrong(marks: &[Mark], settles: bool) -> Law
    ensures { result ≡ law_of_wrong (list_any reports_event marks.now) settles }
{
    if reports_event(marks) || !settles {
        Law::Program
    } else {
        Law::Unit
    }
}

/// Returns the law that is broken by an entry that differs only in the position of the command that is taken.
fn misplaced(marks: &[Mark]) -> Law
    ensures { result ≡ law_of_misplaced (list_any reports_event marks.now) }
{
    if reports_event(marks) {
        Law::Program
    } else {
        Law::History
    }
}

/// Returns whether a process that exists settles.
#[inline]
fn settles(core: &Core, process: u8) -> bool
    ensures { ReportsSettling core.now process result }
{
    match core.stage(process) {
        Some(stage) => stage.is_settling(),
        None => false,
    }
}
