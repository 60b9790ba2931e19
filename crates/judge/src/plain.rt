//! A judge that reports its verdict alone.
ghost use Rattle.judge.specs.Judgements.{ReportsVerdict};

use crate::entry_observers::{EntryObserver, Reporting};
use crate::record_judge::RecordJudge;
use crate::verdicts::{verdict_line, verdict_status};
use model::{Access, Mark};
use plain_store::Setup;
use std::alloc::{AllocError, Global};

/// A judge whose verdict is reported without reasons.
#[derive(Drop)]
pub(crate) struct Plain<J> {
    pub judge: J,
}

impl<J: RecordJudge> EntryObserver for Plain<J> {
    ghost HasObserved = { λ plain s entries numbers. J.HasJudged plain.judge s entries };

    ghost count = { λ plain. J.count plain.judge };

    ghost Reports = { ReportsVerdict J.Law.name J.IsVerdict };

    fn begin(alloc: Global, setup: &Setup) -> Result<Plain<J>, AllocError> {
        Ok(Plain {
            judge: J::begin(alloc, setup)?,
        })
    }

    #[inline]
    fn take(
        &mut self,
        _alloc: Global,
        _number: u64,
        process: u8,
        access: &Option<Access>,
        marks: &[Mark],
    ) -> Result<(), AllocError> {
        self.judge.observe(process, access, marks);
        Ok(())
    }

    fn entries(&self) -> u64 {
        self.judge.judged().entries
    }

    fn report(&self, alloc: Global) -> Result<Reporting, AllocError> {
        let judged = self.judge.judged();
        Ok(Reporting {
            text: verdict_line(alloc, &judged)?.into_bytes(),
            status: verdict_status(&judged.verdict),
        })
    }

    ghost counts = { λ plain s entries numbers judged. J.counts plain.judge s entries judged };
}
