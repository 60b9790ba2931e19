//! A judge that reports the reasons of a bad verdict too.
ghost use Rattle.std.specs.Prelude.{◌≡◌, IfOk};
ghost use Rattle.auditor.specs.safe_monitor.declared.verdicts.Verdict.TheVariants.{Good};
ghost use Rattle.auditor.specs.safe_monitor.{entry_by, is_good};
ghost use Rattle.judge.specs.Explanations.{GivesReasons, HasExplained};
ghost use Rattle.judge.specs.Judgements.{ReportsReasons};
ghost use Rattle.judge.specs.KeepingLaws.{found_bad, found_good};

use crate::entry_observers::{EntryObserver, Judging, Reporting};
use crate::reason_lines::entry_of_parts;
use crate::record_judge::RecordJudge;
use crate::verdicts::{verdict_line, verdict_status};
use model::{Access, Mark};
use plain_store::Setup;
use std::alloc::{AllocError, Global};

/// A judge, and the lines of its reasons once its verdict is bad.
#[derive(Drop)]
pub struct ExplainingJudge<J> {
    pub(crate) judge: J,
    pub(crate) reasons: Vec<u8>,
}

impl<J: RecordJudge> EntryObserver for ExplainingJudge<J> {
    ghost HasObserved = { λ e s entries numbers. HasExplained J.HasJudged J.verdict J.AreReasons e.judge e.reasons.items s entries numbers };

    ghost count = { λ e. J.count e.judge };

    ghost Reports = { ReportsReasons J.Law.name J.IsVerdict J.AreReasons };

    fn begin(alloc: Global, setup: &Setup) -> Result<ExplainingJudge<J>, AllocError> {
        Ok(ExplainingJudge {
            judge: J::begin(alloc, setup)?,
            reasons: Vec::new(alloc),
        })
    }

    #[inline]
    fn take(
        &mut self,
        alloc: Global,
        number: u64,
        process: u8,
        access: &Option<Access>,
        marks: &[Mark],
    ) -> Result<(), AllocError> {
        let was_good = self.judge.is_good();
        self.judge.observe(process, access, marks);
        if !was_good || self.judge.is_good() {
            return Ok(());
        }
        self.reasons = reasons_of(&self.judge, alloc, number, process, access, marks)?;
        Ok(())
    }

    fn entries(&self) -> u64 {
        self.judge.judged().entries
    }

    fn report(&self, alloc: Global) -> Result<Reporting, AllocError> {
        let judged = self.judge.judged();
        let mut text = verdict_line(alloc, &judged)?.into_bytes();
        text.extend_from_slice(self.reasons.as_slice())?;
        Ok(Reporting {
            text,
            status: verdict_status(&judged.verdict),
        })
    }

    ghost counts = { λ e s entries numbers explained. J.counts e.judge s entries explained.judged };
}

impl<J: RecordJudge> Judging for ExplainingJudge<J> {
    ghost Keeps = { λ s entries. J.IsVerdict s entries Good };

    ghost finds_good = { λ e. is_good (J.verdict e.judge) };

    fn is_good(&self) -> bool {
        self.judge.is_good()
    }

    ghost begins = { J.begins };

    ghost good = { λ e s entries numbers observed good. found_good J.IsVerdict s entries (J.verdict e.judge) (J.finds e.judge s entries observed.judged) good };

    ghost bad = { λ e s entries numbers observed bad keeps. found_bad J.IsVerdict J.one s entries (J.verdict e.judge) (J.finds e.judge s entries observed.judged) bad keeps };
}

/// Returns the lines that explain the bad verdict of a judge on this entry, which is in line `number`. It is a call of its own,
/// because only one entry of a record needs it, and an entry's room for three marks would be cleared for each.
#[inline(never)]
fn reasons_of<J: RecordJudge>(
    judge: &J,
    alloc: Global,
    number: u64,
    process: u8,
    access: &Option<Access>,
    marks: &[Mark],
) -> Result<Vec<u8>, AllocError>
    ensures { IfOk result (λ lines. GivesReasons J.HasJudged J.verdict J.AreReasons judge.now number
        (entry_by process access.now marks.now) lines.items) }
{
    let entry = entry_of_parts(alloc, process, access, marks)?;
    judge.reasons(alloc, number, &entry)
}
