//! An observer that keeps the state of a run.
ghost use Rattle.std.specs.Prelude.{◌≡◌, ◌+◌, ◌-◌, ◌^◌, ◌<◌, ◌≤◌, ◌++◌, [], IfOk, Ok, OnOk, refl, false};
ghost use Rattle.plain_store.specs.{checked};
ghost use Rattle.calls.specs.scenario.files.declared.faults.Fault.TheVariants.{Memory};
ghost use Rattle.calls.specs.scenario_run.{ObservesUnmarked};
ghost use Rattle.calls.specs.scenario_run.declared.reports.TurnReport.TheVariants.{Accepted as IsAccepted};
ghost use Rattle.calls.specs.world.Cores.{InEachCorePast};
ghost use Rattle.run_state.specs.Processes.{newest_line};
ghost use Rattle.run_state.specs.States.{HasSeen, Observes, ObservesReported, entry_reported, head_lines, newest as newest_of, unmarked_entry};
ghost use Rattle.calls.specs.Tables.{fewer};

use crate::observed_run::ObservedRun;
use calls::scenario::Fault;
use calls::scenario_run::{Accepted, Flicks, RunObserver, TurnReport, UnmarkedStep};
use calls::world::Core;
use model::{Access, Act, Entry};
use plain_store::{NestedTypes, Setup};
use smallvec::SmallVec;
use std::alloc::{AllocError, Global};

/// The state of a run, and its newest event.
///
/// Most events are Steps without a mark, so they are stored in small fields of their own. In one enum with the event with marks
/// each of them would write as many bytes as the largest variant has.
#[derive(Drop)]
pub(crate) struct StateObserver {
    alloc: Global,
    pub observed_run: ObservedRun,
    /// The newest event with marks, if there was one.
    marked: Option<Accepted>,
    /// The access of the newest event that was reported, if that was a Step without a mark.
    stepped: Option<Access>,
    /// The process of the newest Step without a mark, which may have passed by.
    process: u8,
    /// The number of events when one was reported last. All later ones are Steps that passed by, within a register access and
    /// without a mark; their accesses are not stored. A flag for this would cost each of them an instruction.
    reported: u64,
}

impl StateObserver {
    /// Creates an observer that has seen no event.
    pub fn new(alloc: Global, setup: &Setup) -> Result<StateObserver, AllocError>
        requires { checked setup.now ≡ Ok tt }
        ensures seen { IfOk result (HasSeen setup.now []) }
        ensures entries { IfOk result (λ observer. observer.observed_run.entries ≡ 0) }
    {
        let observed_run = ObservedRun::new(alloc, setup)?;
        Ok(StateObserver {
            alloc,
            observed_run,
            marked: None,
            stepped: None,
            process: 0,
            reported: 0,
        })
    }

    /// Observes what a turn reports, if it is an event.
    #[inline(never)]
    fn observe_reported(&mut self, reported: &TurnReport)
        requires { self.old.observed_run.entries < 2 ^ 64 - 1 }
        ensures entries { self.new.observed_run.entries ≤ self.old.observed_run.entries + 1 }
        ensures observed { ObservesReported reported.now self.old self.new }
    {
        let _nested: NestedTypes = None;
        match reported {
            TurnReport::Accepted(made) => self.observe_event(*made),
            TurnReport::Refused { .. } => {}
            TurnReport::Tired(_) => {}
            TurnReport::Shown(_) => {}
        }
    }

    /// Observes an event with marks. One without marks is reported as a Step.
    fn observe_event(&mut self, made: Accepted)
        requires { self.old.observed_run.entries < 2 ^ 64 - 1 }
        ensures entries { self.new.observed_run.entries ≤ self.old.observed_run.entries + 1 }
        ensures observed { ObservesReported (IsAccepted made) self.old self.new }
    {
        let _nested: NestedTypes = None;
        let marks = made.marks(self.alloc);
        self.observed_run.observe(
            made.event.process(),
            made.access.is_some(),
            marks.as_slice(),
        );
        self.marked = Some(made);
        self.stepped = None;
        self.reported = self.observed_run.entries();
    }

    /// Observes a Step without a mark. One that is reported without a number ends no register read.
    #[inline(never)]
    fn observe_step(&mut self, made: UnmarkedStep)
        requires { self.old.observed_run.entries < 2 ^ 64 - 1 }
        ensures entries { self.new.observed_run.entries ≡ self.old.observed_run.entries + 1 }
        ensures observed { ObservesUnmarked Observes made self.old self.new }
    {
        let number = made.number.unwrap_or(0);
        self.observed_run.step(made.process, &made.access, number);
        self.stepped = Some(made.access);
        self.process = made.process;
        self.reported = self.observed_run.entries();
    }

    /// Writes how many events there were and the entry of the newest one. The run's world keeps this core.
    pub fn print_head(&self, core: &Core, text: &mut Vec<u8>) -> Result<(), AllocError>
        ensures { OnOk result (InEachCorePast core.now (λ s past. HasSeen s past self.now
            → text.new.items ≡ text.old.items ++ head_lines past)) }
    {
        self.observed_run.print_count(self.alloc, text)?;
        self.print_entry(core, text)
    }

    /// Writes the entry of the newest event, if there is one.
    fn print_entry(&self, core: &Core, text: &mut Vec<u8>) -> Result<(), AllocError>
        ensures { OnOk result (InEachCorePast core.now (λ s past. HasSeen s past self.now
            → text.new.items ≡ text.old.items ++ newest_line past)) }
    {
        let _nested: NestedTypes = None;
        match self.newest_entry(core) {
            None => Ok(()),
            Some(entry) => ObservedRun::print_newest(self.alloc, &entry, text),
        }
    }

    /// Returns the entry of the newest event. It does not allocate.
    fn newest_entry(&self, core: &Core) -> Option<Entry>
        ensures { InEachCorePast core.now
            (λ s past. HasSeen s past self.now → result ≡ newest_of past) }
    {
        let _nested: NestedTypes = None;
        if self.reported == self.observed_run.entries() {
            return self.reported_entry();
        }
        let access = core.last_access(self.process);
        Some(unmarked_entry(self.alloc, self.process, access))
    }

    /// Returns the entry of the newest event that was reported. It does not allocate.
    fn reported_entry(&self) -> Option<Entry>
        ensures { result ≡ entry_reported self.now }
    {
        let _nested: NestedTypes = None;
        if self.stepped.is_some() {
            return Some(unmarked_entry(self.alloc, self.process, self.stepped));
        }
        match &self.marked {
            None => None,
            Some(made) => Some(made.entry(self.alloc)),
        }
    }
}

/// Returns the entry of a Step without a mark. It does not allocate.
fn unmarked_entry(alloc: Global, process: u8, access: Option<Access>) -> Entry
    ensures { result ≡ unmarked_entry process access }
{
    let _nested: NestedTypes = None;
    Entry {
        process,
        act: Act {
            access,
            marks: SmallVec::new(alloc),
        },
    }
}

/// Steps within a register access pass by.
impl RunObserver for StateObserver {
    ghost observes_steps = { λ _. false };

    #[inline(always)]
    fn observes_steps(&self) -> bool {
        false
    }

    fn event_count(&self) -> u64 {
        self.observed_run.entries()
    }

    ghost HasRoom = { λ observer more. observer.observed_run.entries + more < 2 ^ 64 };

    ghost Observes = { Observes };

    ghost Stops = { λ a s x y fault b. fault ≡ Memory };

    fn observe(&mut self, reported: &TurnReport) -> Result<(), Fault> {
        self.observe_reported(reported);
        Ok(())
    }

    #[inline(always)]
    fn step(&mut self, made: UnmarkedStep) -> Result<(), Fault> {
        self.observe_step(made);
        Ok(())
    }

    #[inline(always)]
    fn pass(
        &mut self,
        process: u8,
        _flicks: &Flicks,
        steps: u32,
        _newest: Access,
        _overlapped: u32,
    ) {
        self.observed_run.pass(steps);
        self.process = process;
    }

    ghost room_less = { λ a n k few room. fewer a.observed_run.entries n k few room };

    ghost observes_nothing = { λ a s x seen. seen };

    ghost observes_on = { λ a b c s x y z p q seen. q (p seen) };

    ghost stops_unobserved = { λ a s x. refl };

    ghost stops_before = { λ a b s x y more fault p. p };

    ghost stops_on = { λ a b c s x y z fault p q. q };
}
