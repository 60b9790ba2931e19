ghost use Rattle.std.specs.Prelude.{◌≡◌, ◌+◌, ◌-◌, ◌^◌, ◌<◌, [], IfOk, Ok, length};
ghost use Rattle.plain_store.specs.{checked};
ghost use Rattle.safe_monitor.specs.{entry_by};
ghost use Rattle.any_lock.specs.MainTheorem.{SaysMainTheorem};
ghost use Rattle.any_lock.specs.Judging.{HasJudged, ObserveOn, IsExplained, JudgesOn, OfJudged, ReportsReasons, Finds};
ghost use Rattle.any_lock.specs.Verdicts.{verdict_of};

use crate::any_lock_law::AnyLockLaw;
use crate::lock_run::LockRun;
use crate::reasons::Reasons;
use model::{Access, Mark};
use plain_store::{NestedTypes, Setup};
use safe_monitor::{Audited, SafeMonitor, Verdict};
use std::alloc::{AllocError, Global};
use std::marker::Model;

/// A judge of the record of any lock, which observes entries one at a time. It stores of each bit what the safe rule
/// looks back at, the state of each process, one store, two counts, the verdict and its reasons. So it needs the same memory
/// however long the record is.
#[derive(Drop)]
pub struct AnyLockJudge {
    monitor: SafeMonitor,
    kept: LockRun,
    verdict: Verdict<AnyLockLaw>,
    entries: u64,
    reasons: Option<Reasons>,
}

impl Model for AnyLockJudge {
    ghost use Rattle.std.specs.Prelude.{◌≤◌};
    ghost use Rattle.any_lock.specs.Judging.{JudgeState};

    ghost Value = { JudgeState };

    ghost view = { λ j. record { monitor = j.monitor; kept = j.kept; verdict = j.verdict; entries = j.entries; reasons = j.reasons } };

    ghost invariant = { λ j. j.kept.entries ≤ j.entries };
}

impl AnyLockJudge {
    /// Creates a judge before the first entry. Fails only if an allocation fails; no later call allocates.
    pub fn new(alloc: Global, setup: &Setup) -> Result<AnyLockJudge, AllocError>
        requires { checked setup.now ≡ Ok tt }
        ensures { IfOk result (λ judge. HasJudged judge setup.now []) }
    {
        Ok(AnyLockJudge {
            monitor: SafeMonitor::new(alloc, setup)?,
            kept: LockRun::new(alloc, setup)?,
            verdict: Verdict::Good,
            entries: 0,
            reasons: None,
        })
    }

    /// Observes one more entry, which may be any, by its parts. It does not allocate.
    pub fn observe(&mut self, process: u8, access: &Option<Access>, marks: &[Mark])
        requires { self.old.entries < 2 ^ 64 - 1 }
        ensures observed { JudgesOn self.old (entry_by process access.now marks.now) self.new }
        ensures count { self.new.entries ≡ self.old.entries + 1 }
    {
        let number = self.entries;
        self.entries += 1;
        if self.verdict.is_good() {
            self.verdict = self.verdict_with(number, process, access, marks);
        }
    }

    /// Returns the verdict with an entry of this number, if that on the entries before it is good.
    fn verdict_with(
        &mut self,
        number: u64,
        process: u8,
        access: &Option<Access>,
        marks: &[Mark],
    ) -> Verdict<AnyLockLaw>
        requires bounded { self.old.kept.entries < self.old.entries }
        ensures verdict { self.new.verdict ≡ self.old.verdict }
        ensures entries { self.new.entries ≡ self.old.entries }
        ensures observed { Finds self.old number (entry_by process access.now marks.now) result }
        ensures reasons { ReportsReasons self.old (entry_by process access.now marks.now) self.new }
        ensures goes_on { ObserveOn self.old (entry_by process access.now marks.now) result
            self.new }
    {
        let _nested: NestedTypes = None;
        let is_safe = self.monitor.observe(access);
        let law = self.kept.observe(is_safe, process, access, marks);
        self.reasons = self.kept.reasons_of(law, process, access, marks);
        Verdict::found(number, law)
    }

    /// Returns the verdict on the entries so far, and their number. The verdict is the lowest entry that breaks a law, and the
    /// first law that it breaks.
    #[inline]
    pub fn judged(&self) -> Audited<AnyLockLaw>
        ensures now { result.verdict ≡ self.now.verdict }
        ensures count { result.entries ≡ self.now.entries }
        ensures verdict { OfJudged self.now (λ s entries. result.verdict ≡ verdict_of s entries) }
        ensures entries { OfJudged self.now (λ _ entries. result.entries ≡ length entries) }
        ensures main_theorem { OfJudged self.now (SaysMainTheorem result.verdict) }
    {
        Audited {
            verdict: self.verdict,
            entries: self.entries,
        }
    }

    /// Returns the reasons of the verdict on the entries so far, which a good verdict does not have.
    pub fn reasons(&self) -> Option<Reasons>
        ensures { OfJudged self.now (IsExplained result) }
    {
        self.reasons
    }
}
