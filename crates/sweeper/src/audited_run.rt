//! A run that is audited while it is made.
ghost use Rattle.std.specs.Prelude.{◌≡◌, ◌+◌, ◌^◌, ◌<◌, ◌≤◌, ◌∷◌, [], true, false, cond, IfOk, None, Ok};
ghost use Rattle.plain_store.specs.{checked};
ghost use Rattle.model.specs.declared.Event.TheVariants.{Step};
ghost use Rattle.model.specs.{is_call, is_event};
ghost use Rattle.world.specs.choices.{flick_of, is_constant};
ghost use Rattle.world.specs.{AreAlikeCores, remaining_in, taking};
ghost use Rattle.auditor.specs.{Observes, step_reported};
ghost use Rattle.sweeper.specs.Runners.{Accepts, Follows, RunsBy, RunsOn, due};
ghost use Rattle.sweeper.specs.Sweeps.{steps_of};

use auditor::{Auditor, Law};
use model::{Access, Event};
use plain_store::{NestedTypes, Setup};
use std::alloc::{AllocError, Global};
use std::marker::Model;
use world::{Core, EventOutcome, Flicks, StepOutcome, event_marks, step_marks};

/// The first entry of a run that breaks a law, counted from 0, and the law.
#[derive(Clone, Copy)]
pub(crate) struct BadEntry {
    pub entry: u64,
    pub law: Law,
}

/// A run in progress: a core, which makes its events, and an auditor, which observes each entry as it is made, and a
/// stretch of steps within a register access as one. The entries are not stored. The entries contain the positions of the
/// commands taken, so the runner counts these commands.
///
/// An auditor returns the first law after `Safe` that an entry breaks. It never returns one, because the records of events
/// are good. If it did, the runner would report this law, because there is no record in which to look for another.
#[derive(Drop)]
pub(crate) struct AuditedRun {
    alloc: Global,
    processes: u8,
    core: Core,
    auditor: Auditor,
    taken: u64,
    entries: u64,
    bad: Option<BadEntry>,
}

impl Model for AuditedRun {
    ghost use Rattle.sweeper.specs.Runners.{KeepsRunner, RunnerState};

    ghost Value = { RunnerState };

    ghost view = { λ r. record { core = r.core; auditor = r.auditor; taken = r.taken } };

    ghost invariant = { λ r. KeepsRunner r.processes r.bad (record { core = r.core; auditor = r.auditor; taken = r.taken }) };
}

impl AuditedRun {
    /// Creates a run in which nothing has happened.
    ///
    /// # Errors
    ///
    /// Returns [`AllocError`] if an allocation fails; there is no other error.
    pub fn new(alloc: Global, setup: &Setup) -> Result<AuditedRun, AllocError>
        requires { checked setup.now ≡ Ok tt }
        ensures setup { IfOk result (λ r. r.core.setup ≡ setup.now) }
        ensures follows { IfOk result (λ r. Follows r []) }
    {
        Ok(AuditedRun {
            alloc,
            processes: setup.processes,
            core: Core::new(alloc, setup)?,
            auditor: Auditor::new(alloc, setup)?,
            taken: 0,
            entries: 0,
            bad: None,
        })
    }

    /// Makes this runner equal to the other one, which has the same setup, so that its run can be continued more than once.
    /// It does not allocate.
    pub fn copy_from(&mut self, other: &AuditedRun)
        requires { self.old.core.setup ≡ other.now.core.setup }
        ensures { self.new ≡ other.now }
    {
        self.core.copy_from(&other.core);
        self.auditor.copy_from(&other.auditor);
        self.taken = other.taken;
        self.entries = other.entries;
        self.bad = other.bad;
    }

    /// Borrows the core.
    pub fn core(&self) -> &Core
        ensures { result.now ≡ self.now.core }
    {
        &self.core
    }

    /// Returns whether all processes are at rest, no bad entry was found, and the auditor's own core behaves like the core.
    pub fn is_as_audited(&self) -> bool
        ensures { result ≡ true → AreAlikeCores self.now.auditor.core self.now.core }
    {
        self.bad.is_none() && self.auditor.core().is_alike(&self.core)
    }

    /// Returns the number of processes.
    pub fn processes(&self) -> u8
        ensures { result ≡ self.now.core.setup.processes }
    {
        self.processes
    }

    /// Returns the number of entries made.
    pub fn entries(&self) -> u64 {
        self.entries
    }

    /// Returns the first bad entry, which is always `None`.
    pub fn bad(&self) -> Option<BadEntry>
        ensures { result ≡ None }
    {
        self.bad
    }

    /// Returns whether an event would be accepted.
    pub fn accepts(&self, event: &Event) -> bool
        ensures { Accepts self.now event.now result }
    {
        self.core.refusal(event).is_none()
    }

    /// Makes an event, unless it is refused, and audits its entry. Returns whether it was made.
    pub fn make(&mut self, event: &Event) -> bool
        requires room { due self.old + 16 < 2 ^ 64 }
        ensures follows { RunsOn self.old self.new (λ events. event.now ∷ events) }
        ensures accepted { Accepts self.old event.now result }
        ensures unchanged { result ≡ false → self.new ≡ self.old }
        ensures bounded { due self.new ≤ due self.old + cond (is_call event.now) 16 0 }
        ensures setup { self.new.core.setup ≡ self.old.core.setup }
    {
        event.command_is_sound();
        let mut effect = EventOutcome::Steps(StepOutcome::Nothing);
        let Ok(access) = self.core.event(event, &mut effect) else {
            return false;
        };
        let marks = event_marks(self.alloc, &effect, self.taken);
        let law = self.auditor.observe(event.process(), &access, &marks);
        self.taken = more(self.taken, &effect);
        self.bad = first_bad(self.bad, self.entries, law);
        self.entries = self.entries.saturating_add(1);
        true
    }

    /// Makes a step, unless it is refused, and audits its entry. Returns whether it was made.
    #[inline]
    pub fn step(&mut self, process: u8, value: bool) -> bool
        requires room { due self.old < 2 ^ 64 }
        ensures follows { RunsOn self.old self.new (λ events. Step process value ∷ events) }
        ensures accepted { Accepts self.old (Step process value) result }
        ensures unchanged { result ≡ false → self.new ≡ self.old }
        ensures bounded { due self.new ≤ due self.old }
        ensures setup { self.new.core.setup ≡ self.old.core.setup }
    {
        let mut reported = StepOutcome::Nothing;
        let Ok(made) = self.core.step(process, value, &mut reported) else {
            return false;
        };
        let law = observe_step(
            &mut self.auditor,
            self.alloc,
            process,
            made.access,
            &reported,
            self.taken,
        );
        self.taken = more(self.taken, &EventOutcome::Steps(reported));
        self.bad = first_bad(self.bad, self.entries, law);
        self.entries = self.entries.saturating_add(1);
        true
    }

    /// Returns the number of the next steps of a process that are within its register access, so that they have no mark.
    #[inline]
    pub fn remaining(&self, process: u8) -> u32
        ensures { result ≡ remaining_in self.now.core.seats process }
    {
        self.core.remaining(process)
    }

    /// Makes `steps` steps of a process within its register access, all by one flick, and audits them as one stretch.
    pub fn run_on(&mut self, process: u8, flicks: &Flicks, steps: u32)
        requires nonzero { 0 < steps }
        requires within { steps ≤ remaining_in self.old.core.seats process }
        requires constant { is_constant flicks.now ≡ true }
        ensures follows { RunsBy self.old self.new
            (λ s. steps_of s process (flick_of flicks.now) steps) }
        ensures bounded { due self.new ≤ due self.old }
        ensures setup { self.new.core.setup ≡ self.old.core.setup }
    {
        let made = self.core.run(process, &mut flicks.twin(), steps);
        let law = self
            .auditor
            .observe_run(process, flicks, steps, made.newest);
        let newest = self.entries.saturating_add(u64::from(steps - 1));
        self.bad = first_bad(self.bad, newest, law);
        self.entries = newest.saturating_add(1);
    }
}

/// Audits the entry of a step, in which a command that is taken gets the position `place`, and returns the broken law, if
/// any. Most steps have no mark, and for these no list of marks is made.
#[inline]
fn observe_step(
    auditor: &mut Auditor,
    alloc: Global,
    process: u8,
    access: Access,
    reported: &StepOutcome,
    place: u64,
) -> Option<Law>
    ensures setup { result ≡ None → auditor.new.core.setup ≡ auditor.old.core.setup }
    ensures observed { Observes auditor.old (step_reported place process access reported.now)
        auditor.new result }
{
    if matches!(reported, StepOutcome::Nothing) {
        return auditor.observe(process, &Some(access), &[]);
    }
    auditor.observe(process, &Some(access), &step_marks(alloc, reported, place))
}

/// Returns the first bad entry, after one more entry with this number, which breaks this law, if any.
#[inline]
fn first_bad(bad: Option<BadEntry>, entry: u64, law: Option<Law>) -> Option<BadEntry>
    ensures { law ≡ None → result ≡ bad }
{
    match law {
        None => bad,
        Some(law) => bad.or(Some(BadEntry { entry, law })),
    }
}

/// Returns the number of commands taken after an event with this effect.
fn more(taken: u64, effect: &EventOutcome) -> u64
    requires { taken + taking effect.now < 2 ^ 64 }
    ensures { result ≡ taken + taking effect.now }
{
    if effect.reply().is_some() {
        taken + 1
    } else {
        taken
    }
}
