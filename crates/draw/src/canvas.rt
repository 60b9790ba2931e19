//! The canvas of a picture: a page that shows a window and writes each band as soon as the band is full, and the overlapped
//! reads that it shows.
ghost use Rattle.std.specs.Prelude.{◌≡◌, ◌-◌, ◌^◌, ◌<◌, List, [], ◌∷◌, ◌++◌, is_some, length, map, IfOk, None, OnOk, Ok};
ghost use Rattle.model.specs.plain_store.{checked};
ghost use Rattle.model.specs.plain_store.declared.setups.Setup.{Setup as Given};
ghost use Rattle.model.specs.{Entry, Mark as Marked, Past};
ghost use Rattle.record_accesses.specs.{HasMonitored, WaveLimit as Limit, drops, entry_with, shown_access};
ghost use Rattle.picture.specs.picture_layout.{given_access};
ghost use Rattle.picture.specs.picture_layout.declared.reads.OverlappedRead.{OverlappedRead as Ended};
ghost use Rattle.picture.specs.declared.reads.Reads.{Reads as Mode};
ghost use Rattle.draw.specs.Canvases.{DrawsLast, DrawsLines, DrawsMarks, DrawsOn, DrawsUpToVerdict, kept, kept_at_first, plan_of, trace_plan};
ghost use Rattle.draw.specs.Items.{GivesAccess, GivesRead, gives_access, says_of};
ghost use Rattle.draw.specs.Overlaps.{ObservesAll, ReportsEnd, overlapped_by, shown_of};
ghost use Rattle.draw.specs.TakenStores.{IsAfterMarks};
ghost use Rattle.scenario.specs.files.{FailsAsWriting};

use crate::overlaps::{OverlapsObserved, take_ended};
use crate::store_changes::words_by_pairs;
use crate::taken_store::TakenStore;
use crate::writing::{write_band, write_last};
use model::{Access, Mark};
use picture::{
    Form, LineContent, OverlappedRead, Reads, RunLine, ShownAccess, ShownVerdict, Subject, Window,
    WindowedPage, verdict_of,
};
use record_accesses::RecordAccessMonitor;
use record_accesses::plain_store::{NestedTypes, Setup};
use scenario::{Fault, Sink};
use std::alloc::{AllocError, Global};

/// The page of a picture so far, with the overlapped reads that it shows.
#[derive(Drop)]
pub struct Canvas {
    alloc: Global,
    page: WindowedPage,
    /// The overlapped reads, if they are shown.
    overlaps: Option<OverlapsObserved>,
}

impl Canvas {
    /// Creates a canvas without lines that shows a window, where `store` is the opening store.
    ///
    /// # Errors
    ///
    /// Returns [`AllocError`] if memory is lacking.
    pub fn new(
        alloc: Global,
        setup: &Setup,
        store: &TakenStore,
        form: Form,
        reads: Reads,
        window: Window,
    ) -> Result<Canvas, AllocError>
        requires { checked setup.now ≡ Ok tt }
        ensures kept { IsAfterMarks setup.now [] store.now →
            IfOk result (λ canvas. kept canvas ≡ kept_at_first (plan_of form window setup.now)) }
        ensures observes { IfOk result
            (λ canvas. ObservesAll reads setup.now [] [] canvas.overlaps) }
    {
        let overlaps = OverlapsObserved::new(alloc, setup, reads)?;
        let opening = words_by_pairs(alloc, &store.store)?;
        let page = WindowedPage::new(
            alloc,
            form,
            Subject::Run,
            setup.processes,
            opening.as_slice(),
            window,
        )?;
        Ok(Canvas {
            alloc,
            page,
            overlaps,
        })
    }

    /// Creates a canvas without lines for a trace of `processes`, of which it shows a window. A trace has no store, and its reads
    /// are not shown.
    ///
    /// # Errors
    ///
    /// Returns [`AllocError`] if memory is lacking.
    pub fn of_trace(
        alloc: Global,
        form: Form,
        processes: u8,
        window: Window,
    ) -> Result<Canvas, AllocError>
        ensures kept { IfOk result
            (λ canvas. kept canvas ≡ kept_at_first (trace_plan form processes window)) }
        ensures observes { IfOk result (λ canvas. canvas.overlaps ≡ None) }
    {
        let page = WindowedPage::new(alloc, form, Subject::Trace, processes, b"", window)?;
        Ok(Canvas {
            alloc,
            page,
            overlaps: None,
        })
    }

    /// Returns whether overlapped reads are shown.
    #[inline(always)]
    pub fn shows_reads(&self) -> bool
        ensures { result ≡ is_some self.now.overlaps }
    {
        self.overlaps.is_some()
    }

    /// Observes the entry with this number by its access. If reads are shown, `overlapped` is whether the access ends an
    /// overlapped read. Nothing is drawn.
    ///
    /// # Errors
    ///
    /// Returns [`AllocError`] if memory is lacking.
    #[inline(always)]
    pub fn observe(
        &mut self,
        number: u64,
        access: Option<Access>,
        overlapped: bool,
    ) -> Result<(), AllocError>
        ensures kept { kept self.new ≡ kept self.old }
        ensures observes { OnOk result
            ((mode : Mode) (s : Given) (past : Past) (reads : List Ended) (e : Entry) →
            e.access ≡ access → ObservesAll mode s past reads self.old.overlaps →
            number ≡ length past → ReportsEnd mode s past access overlapped →
            ObservesAll mode s (e ∷ past) (reads ++ overlapped_by s past e) self.new.overlaps) }
    {
        match &mut self.overlaps {
            Some(overlaps) => overlaps.observe(number, access, overlapped),
            None => Ok(()),
        }
    }

    /// Draws the marks of an entry of a process, in their order, with what their commands change in the store. The line
    /// `source` of the list makes them, after `at` entries.
    ///
    /// # Errors
    ///
    /// Returns [`Fault::Write`] if a call of the sink fails, and [`Fault::Memory`] if memory is lacking.
    pub fn draw_marks<W: Sink>(
        &mut self,
        store: &mut TakenStore,
        source: u64,
        at: u64,
        process: u8,
        marks: &[Mark],
        output: &mut W,
    ) -> Result<(), Fault>
        requires { W.failures output.old < 2 ^ 64 - 1 }
        ensures drawn { OnOk result (DrawsMarks self.old self.new store.old store.new
            (W.taken output.old) (W.taken output.new) source at process marks.now) }
        ensures fails { FailsAsWriting W.failures result output.old output.new }
    {
        for mark in marks {
            self.draw_mark(store, source, at, process, mark, output)?;
        }
        Ok(())
    }

    /// Draws one mark of an entry.
    fn draw_mark<W: Sink>(
        &mut self,
        store: &mut TakenStore,
        source: u64,
        at: u64,
        process: u8,
        mark: &Mark,
        output: &mut W,
    ) -> Result<(), Fault>
        requires { W.failures output.old < 2 ^ 64 - 1 }
        ensures drawn { OnOk result (DrawsMarks self.old self.new store.old store.new
            (W.taken output.old) (W.taken output.new) source at process (mark.now ∷ [])) }
        ensures fails { FailsAsWriting W.failures result output.old output.new }
    {
        let _nested: NestedTypes = None;
        let change = store.mark(process, mark)?;
        let line_content = LineContent::Marked {
            process,
            mark: *mark,
            change,
        };
        self.draw(
            RunLine {
                source,
                at,
                line_content,
            },
            output,
        )
    }

    /// Draws the overlapped reads that have ended since the last line and then a line, and writes each band that is full.
    pub fn draw<W: Sink>(&mut self, line: RunLine, output: &mut W) -> Result<(), Fault>
        requires { W.failures output.old < 2 ^ 64 - 1 }
        ensures drawn { OnOk result
            (DrawsLines self.old self.new (W.taken output.old) (W.taken output.new) line.source
            line.at (says_of line.line_content ∷ [])) }
        ensures fails { FailsAsWriting W.failures result output.old output.new }
    {
        self.draw_reads(output)?;
        let full = self.page.take(line)?;
        write_band(&full, output)
    }

    /// Draws the overlapped reads that have ended since the last line. A read is not a line.
    fn draw_reads<W: Sink>(&mut self, output: &mut W) -> Result<(), Fault>
        requires { W.failures output.old < 2 ^ 64 - 1 }
        ensures drawn { OnOk result
            ((mode : Mode) (s : Given) (past : Past) (reads : List Ended) →
            ObservesAll mode s past reads self.old.overlaps →
            DrawsOn (kept self.old) (kept self.new) (W.taken output.old) (W.taken output.new)
            (map GivesRead (shown_of mode reads)) × ObservesAll mode s past [] self.new.overlaps) }
        ensures fails { FailsAsWriting W.failures result output.old output.new }
    {
        let ended = take_ended(self.alloc, &mut self.overlaps);
        for read in &ended {
            self.draw_read(read, output)?;
        }
        Ok(())
    }

    /// Draws a read, and writes the band before it if the band has no room for the read.
    fn draw_read<W: Sink>(&mut self, read: &OverlappedRead, output: &mut W) -> Result<(), Fault>
        requires { W.failures output.old < 2 ^ 64 - 1 }
        ensures drawn { OnOk result
            (DrawsOn (kept self.old) (kept self.new) (W.taken output.old) (W.taken output.new)
            (GivesRead read.now ∷ [])) }
        ensures overlaps { self.new.overlaps ≡ self.old.overlaps }
        ensures fails { FailsAsWriting W.failures result output.old output.new }
    {
        let full = self.page.take_read(*read)?;
        write_band(&full, output)
    }

    /// Draws the part of an access that an entry makes, and writes the band before it if the band has no room for the
    /// access. An access is not a line. The marks of its entry are drawn after it, and join its column.
    ///
    /// # Errors
    ///
    /// Returns [`Fault::Write`] if a call of the sink fails, and [`Fault::Memory`] if memory is lacking.
    pub fn draw_access<W: Sink>(&mut self, access: ShownAccess, output: &mut W) -> Result<(), Fault>
        requires { W.failures output.old < 2 ^ 64 - 1 }
        ensures drawn { OnOk result (DrawsOn (kept self.old) (kept self.new)
            (W.taken output.old) (W.taken output.new) (GivesAccess (given_access access) ∷ [])) }
        ensures overlaps { self.new.overlaps ≡ self.old.overlaps }
        ensures fails { FailsAsWriting W.failures result output.old output.new }
    {
        let full = self.page.take_access(access)?;
        write_band(&full, output)
    }

    /// Observes the access of the entry with this number, and draws what is shown of it. The entry's marks drop the read that
    /// its process has open, or not. The function is never inlined, because the room in which an access is made would otherwise
    /// be cleared before each entry.
    ///
    /// # Errors
    ///
    /// Returns [`Fault::Write`] if a call of the sink fails, and [`Fault::Memory`] if memory is lacking.
    #[inline(never)]
    pub(crate) fn draw_monitored<W: Sink>(
        &mut self,
        monitor: &mut RecordAccessMonitor,
        number: u64,
        process: u8,
        access: &Option<Access>,
        drops_read: bool,
        output: &mut W,
    ) -> Result<(), Fault>
        requires { W.failures output.old < 2 ^ 64 - 1 }
        ensures drawn { OnOk result
            ((s : Given) (limit : Limit) (past : Past) (marks : List Marked) →
            HasMonitored monitor.old s limit past → number ≡ length past →
            drops marks ≡ drops_read →
            DrawsOn (kept self.old) (kept self.new) (W.taken output.old) (W.taken output.new)
            (gives_access (shown_access s limit past (entry_with process access.now marks)))
            × HasMonitored monitor.new s limit (entry_with process access.now marks ∷ past)) }
        ensures overlaps { self.new.overlaps ≡ self.old.overlaps }
        ensures fails { FailsAsWriting W.failures result output.old output.new }
    {
        let alloc = self.alloc;
        match monitor.observe_access(alloc, number, process, access, drops_read)? {
            None => Ok(()),
            Some(shown) => self.draw_access(shown, output),
        }
    }

    /// Draws the end of the picture, writes what is held back, and returns the heights of all bands, with 16 more for each. If
    /// `reported` has lines of a judge, the picture ends with the verdict that has them and `line`, and otherwise with `line` alone.
    /// The end is shown if no entry comes after the window.
    ///
    /// # Errors
    ///
    /// Returns [`Fault::Write`] if a call of the sink fails, and [`Fault::Memory`] if memory is lacking.
    pub fn end<W: Sink>(
        &mut self,
        line: RunLine,
        reported: &[u8],
        output: &mut W,
    ) -> Result<u64, Fault>
        requires { W.failures output.old < 2 ^ 64 - 1 }
        ensures drawn { IfOk result
            (λ height. DrawsLast self.old (W.taken output.old) (W.taken output.new) line.source
            line.at reported.now (says_of line.line_content) height) }
        ensures fails { FailsAsWriting W.failures result output.old output.new }
    {
        let at = line.at;
        let verdict = self.draw_up_to_verdict(line, reported, output)?;
        let (full, last) = self.page.end(verdict, at)?;
        write_last(&full, &last, output)?;
        Ok(self.page.height())
    }

    /// Draws all up to the end of the picture, and returns the verdict with which it ends, if `reported` has lines of a judge.
    fn draw_up_to_verdict<W: Sink>(
        &mut self,
        line: RunLine,
        reported: &[u8],
        output: &mut W,
    ) -> Result<Option<ShownVerdict>, Fault>
        requires { W.failures output.old < 2 ^ 64 - 1 }
        ensures drawn { IfOk result
            (λ verdict. DrawsUpToVerdict self.old self.new (W.taken output.old) (W.taken output.new)
            line.source line.at reported.now (says_of line.line_content) verdict) }
        ensures fails { FailsAsWriting W.failures result output.old output.new }
    {
        if reported.is_empty() {
            self.draw(line, output)?;
            return Ok(None);
        }
        self.draw_reads(output)?;
        let last = line.text(self.alloc)?;
        let verdict = verdict_of(self.alloc, line.source, reported, last.as_slice())?;
        Ok(Some(verdict))
    }
}
