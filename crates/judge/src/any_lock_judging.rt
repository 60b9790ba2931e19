//! The judge of records of any lock, as one of the judges of records.
ghost use Rattle.any_lock.specs.{HasJudged as HasObservedAll, IsVerdict as IsTheVerdict};
ghost use Rattle.judge.specs.AnyLockVerdicts.{newest_is_bad, none_is_bad, one_verdict, stays_bad};
ghost use Rattle.judge.specs.AnyReasons.{AreAnyLockReasons};

use crate::any_reasons::push_reasons;
use crate::record_judge::RecordJudge;
use any_lock::{AnyLockJudge, AnyLockLaw, Audited};
use model::{Access, Entry, Mark};
use plain_store::{NestedTypes, Setup};
use std::alloc::{AllocError, Global};

impl RecordJudge for AnyLockJudge {
    type Law = AnyLockLaw;

    ghost IsVerdict = { IsTheVerdict };

    ghost AreReasons = { AreAnyLockReasons };

    ghost HasJudged = { HasObservedAll };

    ghost verdict = { λ judge. judge.verdict };

    ghost count = { λ judge. judge.entries };

    fn begin(alloc: Global, setup: &Setup) -> Result<AnyLockJudge, AllocError> {
        AnyLockJudge::new(alloc, setup)
    }

    #[inline]
    fn observe(&mut self, process: u8, access: &Option<Access>, marks: &[Mark]) {
        AnyLockJudge::observe(self, process, access, marks);
    }

    fn judged(&self) -> Audited<AnyLockLaw> {
        AnyLockJudge::judged(self)
    }

    #[inline]
    fn is_good(&self) -> bool {
        AnyLockJudge::judged(self).verdict.is_good()
    }

    fn reasons(&self, alloc: Global, number: u64, entry: &Entry) -> Result<Vec<u8>, AllocError> {
        let _nested: NestedTypes = None;
        let mut lines = Vec::new(alloc);
        let Some(reasons) = AnyLockJudge::reasons(self) else {
            return Ok(lines);
        };
        push_reasons(alloc, number, entry, &reasons, &mut lines)?;
        Ok(lines)
    }

    ghost counts = { λ judge s entries judged. judged.count };

    ghost finds = { λ judge s entries judged. judged.verdict };

    ghost begins = { none_is_bad };

    ghost one = { one_verdict };

    ghost stays = { stays_bad };

    ghost newest = { newest_is_bad };
}
