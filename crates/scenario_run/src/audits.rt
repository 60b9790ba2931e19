//! An observer, together with an auditor that observes the same run.
ghost use Rattle.std.specs.Prelude.{◌≡◌, ◌<◌, ◌↔◌, ℕ, [], ◌∷◌, List, IfOk, IsTrue, None, Ok, Some};
ghost use Rattle.plain_store.specs.{checked};
ghost use Rattle.plain_store.specs.declared.setups.Setup.{Setup as Given};
ghost use Rattle.model.specs.{Entry as Noted, Past};
ghost use Rattle.auditor.specs.{KeepsAll};
ghost use Rattle.auditor.specs.safe_monitor.declared.verdicts.Verdict.TheVariants.{Good};
ghost use Rattle.scenario_run.specs.Happenings.{Happening, past_after};
ghost use Rattle.scenario_run.specs.Judging.{Audits};
ghost use Rattle.scenario_run.specs.Observing.{Happens, PassBy};

use crate::reports::{TurnReport, UnmarkedStep};
use crate::run_observers::RunObserver;
use auditor::{Auditor, Law, Verdict};
use model::{Access, Mark};
use plain_store::{NestedTypes, Setup};
use scenario::Fault;
use std::alloc::{AllocError, Global};
use world::Flicks;

/// The audit of the entries of a run.
#[derive(Drop)]
pub struct RunAudit {
    alloc: Global,
    auditor: Auditor,
    /// The number of entries that it has observed, or 2^64 - 1 if there were more.
    entries: u64,
    /// The verdict so far. It is proved that a run's entries break no law, and yet the auditor's result decides. The law
    /// of a bad verdict is the first one after `Safe`, because the law `Safe` needs the entries before.
    verdict: Verdict,
}

impl RunAudit {
    /// Creates an audit that has observed nothing.
    ///
    /// # Errors
    ///
    /// Returns [`AllocError`] if there is no memory for the auditor.
    pub fn new(alloc: Global, setup: &Setup) -> Result<RunAudit, AllocError>
        requires { checked setup.now ≡ Ok tt }
        ensures { IfOk result (Audits setup.now []) }
    {
        Ok(RunAudit {
            alloc,
            auditor: Auditor::new(alloc, setup)?,
            entries: 0,
            verdict: Verdict::Good,
        })
    }

    /// Returns the verdict on the entries so far.
    pub fn verdict(&self) -> Verdict
        ensures { (s : Given) (past : Past) → Audits s past self.now → result ≡ Good }
    {
        self.verdict
    }

    /// Observes what a turn reports, if that is an entry.
    #[inline(never)]
    fn observe_reported(&mut self, reported: &TurnReport)
        ensures { (s : Given) (before : List Happening) (this : Happening) →
            Happens s before this reported.now → Audits s (past_after s before) self.old →
            Audits s (past_after s (this ∷ before)) self.new }
    {
        let _nested: NestedTypes = None;
        if let TurnReport::Accepted(made) = reported {
            let marks = made.marks(self.alloc);
            self.observe(made.event.process(), &made.access, marks.as_slice());
        }
    }

    /// Observes an entry, unless one before has broken a law.
    #[inline]
    fn observe(&mut self, process: u8, access: &Option<Access>, marks: &[Mark])
        ensures { (s : Given) (past : Past) →
            let e : Noted = record { process = process; access = access.now; marks = marks.now } in
            KeepsAll s past e → Audits s past self.old → Audits s (e ∷ past) self.new }
    {
        let _nested: NestedTypes = None;
        if !self.is_good() {
            return;
        }
        let law = self.auditor.observe(process, access, marks);
        self.note(law);
    }

    /// Observes a stretch, unless an entry before has broken a law: `steps` unmarked accesses of a process within one
    /// register access, each by the next of `flicks`. The auditor makes all of them on its own core, and compares the last
    /// with `newest`. The contract states what observing each entry by itself leads to.
    #[inline]
    fn observe_run(&mut self, process: u8, flicks: &Flicks, steps: u32, newest: Access)
        requires nonzero { 0 < steps }
        ensures { (s : Given) (overlapped : ℕ) (before after : List Happening) →
            PassBy s process flicks.now steps newest overlapped before after →
            Audits s (past_after s before) self.old → Audits s (past_after s after) self.new }
    {
        if steps == 1 {
            // If several processes take turns, nearly each stretch is one access. `observe` takes fewer instructions for it.
            self.observe(process, &Some(newest), &[]);
            return;
        }
        if !self.is_good() {
            return;
        }
        let law = self.auditor.observe_run(process, flicks, steps, newest);
        self.entries = self.entries.saturating_add(u64::from(steps - 1));
        self.note(law);
    }

    /// Returns whether no entry has broken a law.
    #[inline]
    fn is_good(&self) -> bool
        ensures { IsTrue result ↔ (self.now.verdict ≡ Good) }
    {
        matches!(self.verdict, Verdict::Good)
    }

    /// Records that one more entry was observed, and the law that it breaks, if it breaks one.
    #[inline]
    fn note(&mut self, law: Option<Law>)
        ensures auditor { self.new.auditor ≡ self.old.auditor }
        ensures kept { law ≡ None → self.new.verdict ≡ self.old.verdict }
    {
        match law {
            None => self.entries = self.entries.saturating_add(1),
            Some(law) => self.verdict = Verdict::Bad(self.entries, law),
        }
    }
}

/// An observer, and the audit of what it observes. Steps within a register access are audited as one stretch, unless the
/// observer observes each Step.
#[derive(Drop)]
pub struct WithAudit<L: RunObserver + Drop> {
    pub observer: L,
    pub audit: RunAudit,
}

impl<L: RunObserver + Drop> RunObserver for WithAudit<L> {
    ghost observes_steps = { λ judged. L.observes_steps judged.observer };

    #[inline(always)]
    fn observes_steps(&self) -> bool {
        self.observer.observes_steps()
    }

    fn event_count(&self) -> u64 {
        self.observer.event_count()
    }

    ghost HasRoom = { λ judged more. L.HasRoom judged.observer more };

    ghost Observes = { λ a s x y b. L.Observes a.observer s x y b.observer × (Audits s (past_after s x) a.audit → Audits s (past_after s y) b.audit) };

    ghost Stops = { λ a s x y fault b. L.Stops a.observer s x y fault b.observer };

    fn observe(&mut self, reported: &TurnReport) -> Result<(), Fault> {
        self.audit.observe_reported(reported);
        self.observer.observe(reported)
    }

    #[inline(always)]
    fn step(&mut self, made: UnmarkedStep) -> Result<(), Fault> {
        self.audit.observe(made.process, &Some(made.access), &[]);
        self.observer.step(made)
    }

    #[inline(always)]
    fn pass(&mut self, process: u8, flicks: &Flicks, steps: u32, newest: Access, overlapped: u32) {
        self.audit.observe_run(process, flicks, steps, newest);
        self.observer
            .pass(process, flicks, steps, newest, overlapped);
    }

    ghost room_less = { λ a n k. L.room_less a.observer n k };

    ghost observes_nothing = { λ a s x. (L.observes_nothing a.observer s x, λ audits. audits) };

    ghost observes_on = { λ a b c s x y z p q. (L.observes_on a.observer b.observer c.observer s x y z p.0 q.0, λ audits. q.1 (p.1 audits)) };

    ghost stops_unobserved = { λ a s x. L.stops_unobserved a.observer s x };

    ghost stops_before = { λ a b s x y more fault p. L.stops_before a.observer b.observer s x y more fault p };

    ghost stops_on = { λ a b c s x y z fault p q. L.stops_on a.observer b.observer c.observer s x y z fault p.0 q };
}
