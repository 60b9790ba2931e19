//! A trace file that is read, judged and drawn line by line.
ghost use Rattle.std.specs.Prelude.{◌≡◌, ◌+◌, ◌-◌, ◌^◌, ◌<◌, ◌≤◌, ◌∷◌, ◌++◌, [], ℕ, Err, IfErr, IfOk, IfSome, IsSome, List, None, OnOk, Option, Some, length, true};
ghost use Rattle.draw.specs.{FailsAsWriting, LineStops, failed_write};
ghost use Rattle.trace.specs.{TraceEntry as Entry, is_trace_setup};
ghost use Rattle.trace_engine.specs.{Observes, count_by};
ghost use Rattle.trace_engine.specs.trace_file.TraceFiles.{TraceProgress, line_read};
ghost use Rattle.trace_draw.specs.Showing.{EndsTrace, HasShown, IsReported, count_of};
ghost use Rattle.trace_draw.specs.Sheets.{DrawsLine, EndsSheet, NothingYet, Corresponds, with_output};

use crate::pictures::{DrawnTrace, TracePicture};
use crate::views::TraceView;
use files::{Fault, FaultKind, LineFault, Sink};
use trace::{TraceEntry, TraceSetup};
use trace_engine::trace_file::{TraceReader, read_trace_line};

/// A trace file that is read, judged and drawn line by line: what was read, and a picture once there is an entry.
#[derive(Drop)]
pub(crate) struct TraceSheet {
    view: TraceView,
    reader: Option<TraceReader>,
    picture: Option<TracePicture>,
}

impl TraceSheet {
    /// Creates a sheet of which no line was read.
    pub fn new(view: TraceView) -> TraceSheet
        ensures view { result.view ≡ view }
        ensures corresponds { (taken : Option (List ℕ)) →
            Corresponds view result.reader result.picture taken taken None [] [] }
    {
        TraceSheet {
            view,
            reader: None,
            picture: None,
        }
    }

    /// Reads, judges and draws one more line, which has this number and is not too long.
    ///
    /// # Errors
    ///
    /// Returns the fault of the line, if it has one. Returns [`Fault::Write`] if a call of the sink fails, and
    /// [`Fault::Memory`] if memory is lacking.
    pub fn read<W: Sink>(&mut self, number: u64, line: &[u8], output: &mut W) -> Result<(), Fault>
        requires short { length line.now ≤ 128 }
        requires bounded { count_by count_of self.old.picture < 2 ^ 64 - 1 }
        requires writes { W.failures output.old < 2 ^ 64 - 1 }
        ensures view { self.new.view ≡ self.old.view }
        ensures drawn { OnOk result (DrawsLine self.old.view
            self.old.reader self.old.picture (W.taken output.old)
            self.new.reader self.new.picture (W.taken output.new) number line.now) }
        ensures fault { IfErr result (λ fault. LineStops fault number (λ kind.
            (before : Option TraceProgress) → self.old.reader ≡ before →
            line_read line.now before ≡ Err kind)) }
        ensures failures { W.failures output.new ≡ W.failures output.old + failed_write result }
    {
        let view = self.view;
        match read_trace_line(view.alloc, line, &mut self.reader) {
            Ok(()) => {}
            Err(kind) => return Err(fault_at(number, kind)),
        }
        if let Some(reader) = &mut self.reader {
            if let Some(entry) = reader.last_entry() {
                view.draw_entry(reader.setup(), number, entry, &mut self.picture, output)?;
                reader.forget_entry();
            }
        }
        Ok(())
    }

    /// Draws the judge's lines and the end of the trace, and returns what was drawn, or `None` if all lines were skipped.
    ///
    /// # Errors
    ///
    /// Returns [`Fault::Write`] if a call of the sink fails, and [`Fault::Memory`] if memory is lacking.
    pub fn end<W: Sink>(&mut self, output: &mut W) -> Result<Option<DrawnTrace>, Fault>
        requires { W.failures output.old < 2 ^ 64 - 1 }
        ensures none { IfOk result (λ drawn. drawn ≡ None → self.old.reader ≡ None) }
        ensures present { IfOk result (λ drawn. IfSome drawn (λ _. IsSome self.old.reader)) }
        ensures drawn { IfOk result (λ drawn. IfSome drawn (λ d. EndsSheet self.old.view d
            self.old.reader self.old.picture (W.taken output.old) (W.taken output.new))) }
        ensures fails { FailsAsWriting W.failures result output.old output.new }
    {
        let view = self.view;
        let Some(reader) = &self.reader else {
            return Ok(None);
        };
        let drawn = view.draw_end(reader.setup(), &mut self.picture, output)?;
        Ok(Some(drawn))
    }
}

impl TraceView {
    /// Judges and draws one more entry, of a line with this number. The first entry begins the picture.
    fn draw_entry<W: Sink>(
        self,
        setup: &TraceSetup,
        number: u64,
        entry: &TraceEntry,
        picture: &mut Option<TracePicture>,
        output: &mut W,
    ) -> Result<(), Fault>
        requires good { is_trace_setup setup.now ≡ true }
        requires bounded { count_by count_of picture.old < 2 ^ 64 - 1 }
        requires writes { W.failures output.old < 2 ^ 64 - 1 }
        ensures present { OnOk result (IsSome picture.new) }
        ensures drawn { OnOk result (
            (first : Option (List ℕ)) (entries : List Entry) (numbers : List ℕ) →
            NothingYet picture.old first (W.taken output.old) →
            Observes (HasShown self first) (with_output (W.taken output.old) picture.old)
            setup.now entries numbers →
            Observes (HasShown self first) (with_output (W.taken output.new) picture.new)
            setup.now (entries ++ entry.now ∷ []) (numbers ++ number ∷ [])) }
        ensures fails { FailsAsWriting W.failures result output.old output.new }
    {
        match picture {
            Some(picture) => picture.take(self, setup, number, entry, output),
            None => {
                *picture = Some(self.begin_with(setup, number, entry, output)?);
                Ok(())
            }
        }
    }

    /// Draws the judge's lines and the end.
    fn draw_end<W: Sink>(
        self,
        setup: &TraceSetup,
        picture: &mut Option<TracePicture>,
        output: &mut W,
    ) -> Result<DrawnTrace, Fault>
        requires good { is_trace_setup setup.now ≡ true }
        requires writes { W.failures output.old < 2 ^ 64 - 1 }
        ensures drawn { IfOk result (λ d.
            (first : Option (List ℕ)) (entries : List Entry) (numbers : List ℕ) →
            NothingYet picture.old first (W.taken output.old) →
            Observes (HasShown self first) (with_output (W.taken output.old) picture.old)
            setup.now entries numbers →
            IsReported self.judged (λ s shown reported.
            EndsTrace self.form self.options d s shown reported first (W.taken output.new))
            d.status setup.now entries numbers) }
        ensures fails { FailsAsWriting W.failures result output.old output.new }
    {
        match picture {
            Some(picture) => picture.end(self, setup, output),
            None => {
                let mut begun = TracePicture::begin(self, setup, output)?;
                begun.end(self, setup, output)
            }
        }
    }

    /// Begins the picture, with its first entry. It is never inlined, because the room in which a picture is made would
    /// otherwise be cleared before each entry.
    #[inline(never)]
    fn begin_with<W: Sink>(
        self,
        setup: &TraceSetup,
        number: u64,
        entry: &TraceEntry,
        output: &mut W,
    ) -> Result<TracePicture, Fault>
        requires good { is_trace_setup setup.now ≡ true }
        requires writes { W.failures output.old < 2 ^ 64 - 1 }
        ensures shown { IfOk result (λ picture.
            HasShown self (W.taken output.old) (picture, W.taken output.new) setup.now
            (entry.now ∷ []) (number ∷ [])) }
        ensures fails { FailsAsWriting W.failures result output.old output.new }
    {
        let mut picture = TracePicture::begin(self, setup, output)?;
        picture.take(self, setup, number, entry, output)?;
        Ok(picture)
    }
}

/// Returns the fault of the line with this number.
fn fault_at(line: u64, kind: FaultKind) -> Fault
    ensures { result ≡ Fault.Line (record { line = line; kind = kind }) }
{
    Fault::Line(LineFault { line, kind })
}
