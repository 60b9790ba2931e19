//! A judge, and the lines of its reasons.
ghost use Rattle.std.specs.Prelude.{◌≡◌, ◌-◌, ◌^◌, ◌<◌, ◌∷◌, ◌++◌, ◌&&◌, [], ℕ, Bool, IfOk, List, OnOk, true};
ghost use Rattle.std.specs.String.{string_bytes};
ghost use Rattle.trace.specs.{TraceEntry as Entry, TraceSetup as Setup, is_trace_setup};
ghost use Rattle.trace_engine.specs.Lines.{lines_if, trace_status_of, trace_verdict_line};
ghost use Rattle.trace_engine.specs.Reports.{HasReported, ReportsTrace, is_good as has_good};

use crate::reason_lines::push_reasons;
use files::DONE;
use std::alloc::{AllocError, Global};
use std::marker::Model;
use trace::{TraceEntry, TraceRegister, TraceSetup};
use trace_judge::{TraceJudge, TraceJudged, TraceReasons, TraceVerdict};

/// The exit status of a bad verdict.
const BAD: u8 = 3;

/// The report on a trace: a text and an exit status.
#[derive(Drop)]
pub struct TraceReport {
    pub text: Vec<u8>,
    pub status: u8,
}

/// A judge, and the lines of its reasons once its verdict is bad, if they are asked for.
#[derive(Drop)]
pub struct TraceReporter {
    judge: TraceJudge,
    why: bool,
    lines: Vec<u8>,
}

impl Model for TraceReporter {
    ghost use Rattle.trace_engine.specs.Reports.{ReporterState};

    ghost Value = { ReporterState };

    ghost view = { λ t. record { judge = t.judge; why = t.why; lines = t.lines.items } };
}

impl TraceReporter {
    /// Creates the reporter of a trace with this setup, before the first entry.
    ///
    /// # Errors
    ///
    /// Returns [`AllocError`] if memory runs out.
    pub fn new(alloc: Global, setup: &TraceSetup, why: bool) -> Result<TraceReporter, AllocError>
        requires { is_trace_setup setup.now ≡ true }
        ensures { IfOk result (λ reporter. HasReported why reporter setup.now [] []) }
    {
        Ok(TraceReporter {
            judge: TraceJudge::new(alloc, setup)?,
            why,
            lines: Vec::new(alloc),
        })
    }

    /// Returns whether the verdict on the entries so far is good.
    pub fn is_good(&self) -> bool
        ensures { result ≡ has_good self.now.judge.verdict }
    {
        matches!(self.judge.judged().verdict, TraceVerdict::Good)
    }

    /// Observes the next entry, of a line with this number.
    ///
    /// # Errors
    ///
    /// Returns [`AllocError`] if memory runs out. Then no more is observed.
    pub fn take(
        &mut self,
        alloc: Global,
        setup: &TraceSetup,
        number: u64,
        entry: &TraceEntry,
    ) -> Result<(), AllocError>
        requires { self.old.judge.entries < 2 ^ 64 - 1 }
        ensures { OnOk result
            ((why : Bool) (entries : List Entry) (numbers : List ℕ) →
            HasReported why self.old setup.now entries numbers →
            HasReported why self.new setup.now (entries ++ entry.now ∷ [])
            (numbers ++ number ∷ [])) }
    {
        let asks = self.asks_reasons();
        self.judge
            .observe(entry.process, &entry.access, &entry.marks);
        push_if(
            asks,
            alloc,
            number,
            &setup.registers,
            entry,
            self.judge.reasons(),
            &mut self.lines,
        )
    }

    /// Returns whether reasons are asked for, and the verdict so far is good.
    fn asks_reasons(&self) -> bool
        ensures { result ≡ (self.now.why && has_good self.now.judge.verdict) }
    {
        self.why && self.is_good()
    }

    /// Returns the report on the entries so far.
    ///
    /// # Errors
    ///
    /// Returns [`AllocError`] if memory runs out.
    pub fn report(&self, alloc: Global) -> Result<TraceReport, AllocError>
        ensures { IfOk result
            (λ report. (why : Bool) (s : Setup) (entries : List Entry) (numbers : List ℕ) →
            HasReported why self.now s entries numbers →
            ReportsTrace why s entries numbers report.text.items report.status) }
    {
        let judged = self.judge.judged();
        let mut text = verdict_line(alloc, &judged)?.into_bytes();
        text.extend_from_slice(self.lines.as_slice())?;
        Ok(TraceReport {
            text,
            status: status_of(&judged.verdict),
        })
    }
}

/// Writes the reasons of a bad entry of this line, if there are any and they are asked for.
#[tactic(auto, using(crate::proofs::Texts::none))]
fn push_if(
    asks: bool,
    alloc: Global,
    number: u64,
    registers: &[TraceRegister],
    entry: &TraceEntry,
    reasons: &Option<TraceReasons>,
    text: &mut Vec<u8>,
) -> Result<(), AllocError>
    ensures { OnOk result (text.new.items ≡ text.old.items
        ++ lines_if asks number registers.now entry.now reasons.now) }
{
    if !asks {
        return Ok(());
    }
    match reasons {
        None => Ok(()),
        Some(reasons) => push_reasons(alloc, number, registers, entry, reasons, text),
    }
}

/// Returns the exit status of a verdict: 0 of a good one, 3 of a bad one.
fn status_of(verdict: &TraceVerdict) -> u8
    ensures { result ≡ trace_status_of verdict.now }
{
    match verdict {
        TraceVerdict::Good => DONE,
        TraceVerdict::Bad(..) => BAD,
    }
}

/// Returns the line of a verdict.
fn verdict_line(alloc: Global, judged: &TraceJudged) -> Result<String, AllocError>
    ensures { IfOk result
        (λ line. string_bytes line ≡ trace_verdict_line judged.now.entries judged.now.verdict) }
{
    format!(in alloc; "{judged}\n")
}
