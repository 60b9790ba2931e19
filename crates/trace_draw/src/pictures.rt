//! A judge, and the picture of the entries that it has observed.
ghost use Rattle.std.specs.Prelude.{◌≡◌, ◌-◌, ◌^◌, ◌<◌, ◌∷◌, ◌++◌, ◌||◌, [], ℕ, not, IfOk, List, OnOk, Option, true};
ghost use Rattle.trace_engine.specs.{HasReported, is_good};
ghost use Rattle.draw.specs.{FailsAsWriting};
ghost use Rattle.trace.specs.{TraceEntry as Entry, TraceSetup as Setup, is_trace_setup};
ghost use Rattle.trace_draw.specs.Showing.{EndsTrace, HasShown, IsReported, ReportsIfJudged, count_of};

use crate::drawing::DrawnBands;
use crate::headings::title;
use crate::held::ShownEntries;
use crate::views::TraceView;
use files::{DONE, Fault, Sink};
use std::alloc::{AllocError, Global};
use trace::{TraceEntry, TraceSetup};
use trace_engine::{TraceReport, TraceReporter};

/// A judge, and the picture of the entries that it has observed.
#[derive(Drop)]
pub(crate) struct TracePicture {
    reporter: TraceReporter,
    entries: ShownEntries,
}

/// The title of a trace, the bands that were drawn, and the exit status.
#[derive(Drop)]
pub(crate) struct DrawnTrace {
    pub title: Vec<u8>,
    pub bands: DrawnBands,
    pub status: u8,
}

impl TracePicture {
    /// Begins the picture of a trace, before its first entry. It writes the start of a page if all accesses are asked for or the
    /// window is short.
    ///
    /// # Errors
    ///
    /// Returns [`Fault::Write`] if a call of the sink fails, and [`Fault::Memory`] if memory is lacking.
    pub fn begin<W: Sink>(
        view: TraceView,
        setup: &TraceSetup,
        output: &mut W,
    ) -> Result<TracePicture, Fault>
        requires good { is_trace_setup setup.now ≡ true }
        requires writes { W.failures output.old < 2 ^ 64 - 1 }
        ensures shown { IfOk result (λ picture.
            HasShown view (W.taken output.old) (picture, W.taken output.new) setup.now [] []) }
        ensures count { IfOk result (λ picture. count_of picture ≡ 0) }
        ensures fails { FailsAsWriting W.failures result output.old output.new }
    {
        let reporter = TraceReporter::new(view.alloc, setup, view.judged)?;
        let entries = ShownEntries::begin(view, setup, output)?;
        Ok(TracePicture { reporter, entries })
    }

    /// Observes the next entry, of a line with this number, and draws it, or stores it as long as the picture may be short. If
    /// the trace is judged, nothing is drawn after a bad entry.
    ///
    /// # Errors
    ///
    /// Returns [`Fault::Write`] if a call of the sink fails, and [`Fault::Memory`] if memory is lacking.
    pub fn take<W: Sink>(
        &mut self,
        view: TraceView,
        setup: &TraceSetup,
        number: u64,
        entry: &TraceEntry,
        output: &mut W,
    ) -> Result<(), Fault>
        requires good { is_trace_setup setup.now ≡ true }
        requires bounded { count_of self.old < 2 ^ 64 - 1 }
        requires writes { W.failures output.old < 2 ^ 64 - 1 }
        ensures shown { OnOk result (
            (first : Option (List ℕ)) (entries : List Entry) (numbers : List ℕ) →
            HasShown view first (self.old, W.taken output.old) setup.now entries numbers →
            HasShown view first (self.new, W.taken output.new) setup.now
            (entries ++ entry.now ∷ []) (numbers ++ number ∷ [])) }
        ensures fails { FailsAsWriting W.failures result output.old output.new }
    {
        let shows = self.shows_next(view.judged);
        self.reporter.take(view.alloc, setup, number, entry)?;
        if !shows {
            return Ok(());
        }
        self.entries.take(view, setup, entry, output)
    }

    /// Returns whether the next entry is drawn: of a trace that is judged, no entry after a bad one.
    fn shows_next(&self, judged: bool) -> bool
        ensures { result ≡ (not judged || is_good self.now.reporter.judge.verdict) }
    {
        !judged || self.reporter.is_good()
    }

    /// Draws the entries that are stored, the lines of the judge if they are asked for, and the last line. Writes what is held
    /// back.
    ///
    /// # Errors
    ///
    /// Returns [`Fault::Write`] if a call of the sink fails, and [`Fault::Memory`] if memory is lacking.
    pub fn end<W: Sink>(
        &mut self,
        view: TraceView,
        setup: &TraceSetup,
        output: &mut W,
    ) -> Result<DrawnTrace, Fault>
        requires good { is_trace_setup setup.now ≡ true }
        requires writes { W.failures output.old < 2 ^ 64 - 1 }
        ensures drawn { IfOk result (λ drawn.
            (first : Option (List ℕ)) (entries : List Entry) (numbers : List ℕ) →
            HasShown view first (self.old, W.taken output.old) setup.now entries numbers →
            IsReported view.judged (λ s shown reported.
            EndsTrace view.form view.options drawn s shown reported first (W.taken output.new))
            drawn.status setup.now entries numbers) }
        ensures fails { FailsAsWriting W.failures result output.old output.new }
    {
        let title = title(view.alloc, setup)?;
        let reported = reported_by(view.alloc, view.judged, &self.reporter)?;
        let bands = self
            .entries
            .end(view, setup, reported.text.as_slice(), output)?;
        Ok(DrawnTrace {
            title,
            bands,
            status: reported.status,
        })
    }
}

/// Returns a judge's report on the entries that it has observed, and its exit status; nothing and 0 without a judge.
fn reported_by(
    alloc: Global,
    judged: bool,
    reporter: &TraceReporter,
) -> Result<TraceReport, AllocError>
    ensures { IfOk result (λ reported. (s : Setup) (entries : List Entry) (numbers : List ℕ) →
        HasReported judged reporter.now s entries numbers →
        ReportsIfJudged judged s entries numbers reported.text.items reported.status) }
{
    if judged {
        return reporter.report(alloc);
    }
    Ok(TraceReport {
        text: Vec::new(alloc),
        status: DONE,
    })
}
