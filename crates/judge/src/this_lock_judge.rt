//! The judge of records of this project's lock.
ghost use Rattle.std.specs.Prelude.{◌≡◌, ◌+◌, ◌-◌, ◌^◌, ◌<◌, ◌∷◌, ◌++◌, [], List};
ghost use Rattle.plain_store.specs.declared.setups.Setup.{Setup as Given};
ghost use Rattle.model.specs.{Entry as Noted};
ghost use Rattle.auditor.specs.safe_monitor.{entry_by};
ghost use Rattle.auditor.specs.{IsVerdict as IsTheVerdict};
ghost use Rattle.auditor.proofs.Unique.{one_verdict};
ghost use Rattle.judge.specs.Judging.{BothObserveOneMore, HasJudged as HasObservedAll, IsNextVerdict, StaysBefore, found as verdict_found};
ghost use Rattle.judge.specs.Reasons.{AreReasons as AreTheReasons};
ghost use Rattle.judge.specs.ThisLockVerdicts.{newest_is_bad, none_is_bad, stays_bad};

use crate::reasons::push_reasons;
use crate::record_judge::RecordJudge;
use any_lock::Audited;
use auditor::{Auditor, Core, Law, SafeMonitor, Verdict};
use model::{Access, Entry, Mark};
use plain_store::{NestedTypes, Setup};
use std::alloc::{AllocError, Global};
use std::marker::Model;

/// The judge of records of this project's lock. It stores a monitor, an auditor, and the verdict so far.
#[derive(Drop)]
pub struct ThisLockJudge {
    monitor: SafeMonitor,
    auditor: Auditor,
    verdict: Verdict,
    entries: u64,
}

impl Model for ThisLockJudge {
    ghost use Rattle.judge.specs.Judging.{JudgeState};

    ghost Value = { JudgeState };

    ghost view = { λ j. record { monitor = j.monitor; auditor = j.auditor; verdict = j.verdict; entries = j.entries } };
}

impl ThisLockJudge {
    /// Borrows the core of the world that shows the entries before the first bad one, or all entries if none is bad.
    pub fn core(&self) -> &Core
        ensures { result.now ≡ self.now.auditor.core }
    {
        self.auditor.core()
    }

    /// Returns the number of entries that it has observed.
    pub fn entries(&self) -> u64
        ensures { result ≡ self.now.entries }
    {
        self.entries
    }

    /// Observes one more entry, which may be any, by its parts. The setup of its core stays.
    #[inline]
    pub fn observe_parts(&mut self, process: u8, access: &Option<Access>, marks: &[Mark])
        requires { self.old.entries < 2 ^ 64 - 1 }
        ensures observed { (s : Given) (entries : List Noted) → HasObservedAll self.old s entries →
            HasObservedAll self.new s (entries ++ entry_by process access.now marks.now ∷ []) }
        ensures entries { self.new.entries ≡ self.old.entries + 1 }
        ensures setup { self.new.auditor.core.setup ≡ self.old.auditor.core.setup }
    {
        if self.verdict.is_good() {
            self.verdict = self.verdict_with(process, access, marks);
        }
        self.entries += 1;
    }

    /// Returns the verdict with one more entry, if that on the entries before it is good.
    #[inline]
    fn verdict_with(&mut self, process: u8, access: &Option<Access>, marks: &[Mark]) -> Verdict
        ensures verdict { self.new.verdict ≡ self.old.verdict }
        ensures entries { self.new.entries ≡ self.old.entries }
        ensures setup { self.new.auditor.core.setup ≡ self.old.auditor.core.setup }
        ensures observed { IsNextVerdict self.old (entry_by process access.now marks.now) result }
        ensures goes_on { BothObserveOneMore self.old (entry_by process access.now marks.now) result
            self.new }
        ensures stays { StaysBefore self.old (entry_by process access.now marks.now) result
            self.new }
    {
        let is_safe = self.monitor.observe(access);
        let law = self.auditor.observe(process, access, marks);
        found(self.entries, is_safe, law)
    }
}

impl RecordJudge for ThisLockJudge {
    type Law = Law;

    ghost IsVerdict = { IsTheVerdict };

    ghost AreReasons = { AreTheReasons };

    ghost HasJudged = { HasObservedAll };

    ghost verdict = { λ judge. judge.verdict };

    ghost count = { λ judge. judge.entries };

    fn begin(alloc: Global, setup: &Setup) -> Result<ThisLockJudge, AllocError> {
        Ok(ThisLockJudge {
            monitor: SafeMonitor::new(alloc, setup)?,
            auditor: Auditor::new(alloc, setup)?,
            verdict: Verdict::Good,
            entries: 0,
        })
    }

    #[inline]
    fn observe(&mut self, process: u8, access: &Option<Access>, marks: &[Mark]) {
        self.observe_parts(process, access, marks);
    }

    fn judged(&self) -> Audited {
        Audited {
            verdict: self.verdict,
            entries: self.entries,
        }
    }

    #[inline]
    fn is_good(&self) -> bool {
        self.verdict.is_good()
    }

    fn reasons(&self, alloc: Global, number: u64, entry: &Entry) -> Result<Vec<u8>, AllocError> {
        let _nested: NestedTypes = None;
        let mut lines = Vec::new(alloc);
        push_reasons(alloc, number, entry, &self.auditor, &mut lines)?;
        Ok(lines)
    }

    ghost counts = { λ judge s entries judged. judged.count };

    ghost finds = { λ judge s entries judged. judged.verdict };

    ghost begins = { none_is_bad };

    ghost one = { one_verdict };

    ghost stays = { stays_bad };

    ghost newest = { newest_is_bad };
}

/// Returns the verdict with an entry, by the findings of a monitor and an auditor.
fn found(entry: u64, is_safe: bool, law: Option<Law>) -> Verdict
    ensures { result ≡ verdict_found entry is_safe law }
{
    if !is_safe {
        return Verdict::Bad(entry, Law::Safe);
    }
    Verdict::found(entry, law)
}
