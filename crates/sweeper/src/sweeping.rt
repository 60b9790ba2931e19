//! A sweep: one runner takes the events, and after each accepted event another runner continues from there twice.
ghost use Rattle.std.specs.Prelude.{◌≡◌, ◌+◌, ℕ, reverse, IfOk, Ok};
ghost use Rattle.plain_store.specs.{checked};
ghost use Rattle.sweeper.specs.Sweeps.{AreAllGood, AreDownInTime, IsFound, IsSwept, KeepMainTheorem, SweptKeepMainTheorem, cuts};
ghost use Rattle.sweeper.specs.Tallies.{CanRun, CanSweep, CountsRun, OfSweep, RoomAtFirst, SweepsNone, SweepsOn};

use crate::audited_run::AuditedRun;
use crate::known_outcomes::KnownOutcomes;
use crate::swept::Swept;
use model::Event;
use plain_store::{Command, Setup};
use std::alloc::{AllocError, Global};

/// More events or calls than any memory holds. Up to this number no count wraps.
const MOST: usize = 1 << 56;

/// Makes all runs in which a process fails after one accepted event, and returns the result. The process has not failed
/// before and is not down. Its memory unit makes its steps, after which the process is down. It is restarted, all
/// processes continue in rounds, and the calls follow in their order. There is one run for each value that the steps have
/// as their flick. Each entry of each run is good and keeps the main theorem. Each run is audited, but only up to its calls
/// if it takes their outcome from an earlier run whose core behaves alike. The function does not allocate after the first
/// event.
///
/// # Errors
///
/// Returns [`AllocError`] if an allocation fails, and for more than 2^56 events or calls, more than any memory holds.
pub fn sweep(
    alloc: Global,
    setup: &Setup,
    events: &[Event],
    calls: &[(u8, Command)],
) -> Result<Swept, AllocError>
    requires { checked setup.now ≡ Ok tt }
    ensures swept { IfOk result (λ found. IsSwept setup.now events.now calls.now found) }
    ensures good { IfOk result (λ found. AreAllGood found) }
    ensures main_theorem { IfOk result
        (λ found. SweptKeepMainTheorem setup.now events.now calls.now) }
    ensures down { IfOk result (λ found. AreDownInTime setup.now (reverse events.now)) }
{
    if MOST < events.len() || MOST < calls.len() {
        return Err(AllocError);
    }
    let mut sweeper = Sweeper::new(alloc, setup)?;
    for event in events {
        sweeper.event(event, calls);
    }
    Ok(sweeper.found())
}

/// A sweep in progress: one runner takes the events, and another one makes the runs. The sweep takes its events one by
/// one, so its caller does not need a list of them.
/// It keeps the outcomes of a few runs, for later runs whose cores behave alike.
#[derive(Drop)]
pub struct Sweeper {
    walker: AuditedRun,
    runner: AuditedRun,
    known: KnownOutcomes,
    found: Swept,
}

impl Sweeper {
    /// Creates a sweep before its first event. After this the sweep does not allocate.
    ///
    /// # Errors
    ///
    /// Returns [`AllocError`] if an allocation fails; there is no other error.
    pub fn new(alloc: Global, setup: &Setup) -> Result<Sweeper, AllocError>
        requires { checked setup.now ≡ Ok tt }
        ensures swept { IfOk result (SweepsNone setup.now) }
        ensures room { IfOk result RoomAtFirst }
    {
        Ok(Sweeper {
            walker: AuditedRun::new(alloc, setup)?,
            runner: AuditedRun::new(alloc, setup)?,
            known: KnownOutcomes::new(alloc, setup)?,
            found: Swept {
                runs: 0,
                good: 0,
                stuck: 0,
                first_bad: None,
            },
        })
    }

    /// Takes one more event and makes the runs that are cut after it, which these calls end. A refused event changes
    /// nothing.
    pub fn event(&mut self, event: &Event, calls: &[(u8, Command)])
        requires room { CanSweep calls.now 1 self.old }
        ensures swept { SweepsOn calls.now event.now self.old self.new }
        ensures room { (more : ℕ) → CanSweep calls.now (more + 1) self.old
            → CanSweep calls.now more self.new }
    {
        let cut = self.event_count();
        if !self.walker.make(event) {
            return;
        }
        let process = event.process();
        if !self.walker.accepts(&Event::Fail(process)) {
            return;
        }
        self.run(cut, process, false, calls);
        self.run(cut, process, true, calls);
    }

    /// Returns the number of events that were accepted.
    pub fn event_count(&self) -> u64 {
        self.walker.entries()
    }

    /// Returns the result of the runs so far.
    pub fn found(&self) -> Swept
        ensures found { OfSweep self.now
            (λ s calls before. IsFound s (cuts s calls before) result) }
        ensures good { OfSweep self.now (λ s calls before. AreAllGood result) }
        ensures main_theorem { OfSweep self.now
            (λ s calls before. KeepMainTheorem s (cuts s calls before)) }
        ensures down { OfSweep self.now (λ s calls before. AreDownInTime s before) }
    {
        self.found
    }

    /// Makes the run in which the process of the last event fails, and that continues by this flick.
    fn run(&mut self, cut: u64, process: u8, value: bool, calls: &[(u8, Command)])
        requires { CanRun calls.now self.old }
        ensures { CountsRun process value calls.now self.old self.new }
    {
        self.runner.copy_from(&self.walker);
        self.runner.come_to_rest(process, value);
        let stuck = self.known.end(&mut self.runner, value, calls);
        self.found = self.found.with_run(cut, value, stuck, self.runner.bad());
    }
}
