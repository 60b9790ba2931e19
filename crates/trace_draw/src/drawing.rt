//! The picture of a trace so far.
ghost use Rattle.std.specs.Prelude.{◌≡◌, ◌+◌, ◌-◌, ◌^◌, ◌<◌, ◌∷◌, [], IfOk, None, OnOk, map, true};
ghost use Rattle.draw.specs.{DrawsLast, DrawsLines, DrawsOn, FailsAsWriting, SaysLockEnd, SaysLockMark, kept, kept_at_first, trace_plan};
ghost use Rattle.picture.specs.declared.reads.Reads.{Reads as View};
ghost use Rattle.trace.specs.{TracePast as Past, TraceSetup as Setup, is_trace_setup};
ghost use Rattle.trace_accesses.specs.{HasMonitored, WaveLimit as Limit, shown_access};
ghost use Rattle.trace_draw.specs.Headings.{source_of};
ghost use Rattle.trace_draw.specs.Items.{given_access_of, gives_access};
ghost use Rattle.trace_draw.specs.Showing.{ComesAfter, DrawsEntry, Monitors, drawn_count, monitored};
ghost use Rattle.trace_draw.specs.Views.{limit_of};

use crate::headings::line_of_entries;
use crate::views::TraceView;
use draw::Canvas;
use files::{Fault, Sink};
use picture::{LineContent, Reads, RunLine};
use std::alloc::{AllocError, Global};
use trace::{LockMark, TraceEntry, TraceSetup};
use trace_accesses::AccessMonitor;

/// Which accesses a picture shows, and the heights of the bands that were drawn.
#[derive(Clone, Copy)]
pub(crate) struct DrawnBands {
    pub shows: Reads,
    pub height: u64,
}

/// The picture of a trace so far.
#[derive(Drop)]
pub(crate) struct TraceDrawing {
    alloc: Global,
    canvas: Canvas,
    /// Which accesses are shown: all or none.
    shows: Reads,
    /// The observer of accesses, if they are shown.
    monitor: Option<AccessMonitor>,
    /// The number of entries that are drawn.
    entries: u64,
    /// The number of the line in the page's list that represents all entries.
    source: u64,
}

impl TraceDrawing {
    /// Creates a picture without entries, which shows these accesses in the window of the view.
    ///
    /// # Errors
    ///
    /// Returns [`AllocError`] if memory is lacking.
    pub fn new(
        view: TraceView,
        setup: &TraceSetup,
        shows: Reads,
    ) -> Result<TraceDrawing, AllocError>
        requires { is_trace_setup setup.now ≡ true }
        ensures kept { IfOk result (λ d.
            kept d.canvas
            ≡ kept_at_first (trace_plan view.form setup.now.processes view.options.window)) }
        ensures after { IfOk result (ComesAfter shows (limit_of view.options) setup.now []) }
    {
        Ok(TraceDrawing {
            alloc: view.alloc,
            canvas: Canvas::of_trace(view.alloc, view.form, setup.processes, view.options.window)?,
            shows,
            monitor: monitor_of(view, setup, shows)?,
            entries: 0,
            source: line_of_entries(setup),
        })
    }

    /// Draws the next entry: its access if accesses are shown, and then its marks, which join the column of the access.
    ///
    /// # Errors
    ///
    /// Returns [`Fault::Write`] if a call of the sink fails, and [`Fault::Memory`] if memory is lacking.
    pub fn draw_entry<W: Sink>(&mut self, entry: &TraceEntry, output: &mut W) -> Result<(), Fault>
        requires writes { W.failures output.old < 2 ^ 64 - 1 }
        requires room { drawn_count self.old < 2 ^ 64 - 1 }
        ensures drawn { OnOk result (DrawsEntry self.old self.new
            (W.taken output.old) (W.taken output.new) entry.now) }
        ensures fails { FailsAsWriting W.failures result output.old output.new }
    {
        self.draw_access(entry, output)?;
        self.draw_marks(entry.process, &entry.marks, output)?;
        self.entries += 1;
        Ok(())
    }

    /// Draws the access of the next entry, if accesses are shown.
    fn draw_access<W: Sink>(&mut self, entry: &TraceEntry, output: &mut W) -> Result<(), Fault>
        requires writes { W.failures output.old < 2 ^ 64 - 1 }
        requires room { monitored self.old.monitor < 2 ^ 64 - 1 }
        ensures drawn { OnOk result ((mode : View) (limit : Limit) (s : Setup) (past : Past) →
            Monitors mode limit s past self.old.monitor →
            DrawsOn (kept self.old.canvas) (kept self.new.canvas)
            (W.taken output.old) (W.taken output.new)
            (given_access_of mode limit s past entry.now)) }
        ensures monitors { (mode : View) (limit : Limit) (s : Setup) (past : Past) →
            Monitors mode limit s past self.old.monitor →
            Monitors mode limit s (entry.now ∷ past) self.new.monitor }
        ensures overlaps { self.new.canvas.overlaps ≡ self.old.canvas.overlaps }
        ensures rest { self.new
            ≡ record self.old { canvas = self.new.canvas; monitor = self.new.monitor } }
        ensures fails { FailsAsWriting W.failures result output.old output.new }
    {
        match &mut self.monitor {
            None => Ok(()),
            Some(monitor) => draw_monitored(self.alloc, monitor, &mut self.canvas, entry, output),
        }
    }

    /// Draws the marks of an entry of a process, in their order.
    fn draw_marks<W: Sink>(
        &mut self,
        process: u8,
        marks: &[LockMark],
        output: &mut W,
    ) -> Result<(), Fault>
        requires { W.failures output.old < 2 ^ 64 - 1 }
        ensures drawn { OnOk result (DrawsLines self.old.canvas self.new.canvas
            (W.taken output.old) (W.taken output.new) self.old.source self.old.entries
            (map (SaysLockMark process) marks.now)) }
        ensures rest { self.new ≡ record self.old { canvas = self.new.canvas } }
        ensures fails { FailsAsWriting W.failures result output.old output.new }
    {
        for mark in marks {
            self.draw_mark(process, mark, output)?;
        }
        Ok(())
    }

    /// Draws a mark of an entry of a process.
    fn draw_mark<W: Sink>(
        &mut self,
        process: u8,
        mark: &LockMark,
        output: &mut W,
    ) -> Result<(), Fault>
        requires { W.failures output.old < 2 ^ 64 - 1 }
        ensures drawn { OnOk result (DrawsLines self.old.canvas self.new.canvas
            (W.taken output.old) (W.taken output.new) self.old.source self.old.entries
            (SaysLockMark process mark.now ∷ [])) }
        ensures rest { self.new ≡ record self.old { canvas = self.new.canvas } }
        ensures fails { FailsAsWriting W.failures result output.old output.new }
    {
        let line = RunLine {
            source: self.source,
            at: self.entries,
            line_content: LineContent::LockMarked {
                process,
                mark: *mark,
            },
        };
        self.canvas.draw(line, output)
    }

    /// Draws the last line, or the verdict with it if `reported` has lines of a judge, writes what is held back, and returns what
    /// was drawn.
    ///
    /// # Errors
    ///
    /// Returns [`Fault::Write`] if a call of the sink fails, and [`Fault::Memory`] if memory is lacking.
    pub fn end<W: Sink>(
        &mut self,
        setup: &TraceSetup,
        reported: &[u8],
        output: &mut W,
    ) -> Result<DrawnBands, Fault>
        requires { W.failures output.old < 2 ^ 64 - 1 }
        ensures drawn { IfOk result (λ bands. DrawsLast self.old.canvas
            (W.taken output.old) (W.taken output.new) (source_of setup.now + 1) self.old.entries
            reported.now (SaysLockEnd self.old.entries) bands.height) }
        ensures shows { IfOk result (λ bands. bands.shows ≡ self.old.shows) }
        ensures fails { FailsAsWriting W.failures result output.old output.new }
    {
        let source = line_of_entries(setup) + 1;
        let at = self.entries;
        let line_content = LineContent::LockEnded { entries: at };
        let height = self.canvas.end(
            RunLine {
                source,
                at,
                line_content,
            },
            reported,
            output,
        )?;
        Ok(DrawnBands {
            shows: self.shows,
            height,
        })
    }
}

/// Returns an observer of accesses before the first entry, if accesses are shown.
fn monitor_of(
    view: TraceView,
    setup: &TraceSetup,
    shows: Reads,
) -> Result<Option<AccessMonitor>, AllocError>
    requires { is_trace_setup setup.now ≡ true }
    ensures { IfOk result (Monitors shows (limit_of view.options) setup.now []) }
{
    match shows {
        Reads::All => Ok(Some(AccessMonitor::new(view.alloc, setup, view.limit())?)),
        Reads::Hidden | Reads::Shown => Ok(None),
    }
}

/// Observes the access of the next entry, and draws what is shown of it. It is never inlined, because the room in which an
/// access is made would otherwise be cleared before each entry.
#[inline(never)]
fn draw_monitored<W: Sink>(
    alloc: Global,
    monitor: &mut AccessMonitor,
    canvas: &mut Canvas,
    entry: &TraceEntry,
    output: &mut W,
) -> Result<(), Fault>
    requires writes { W.failures output.old < 2 ^ 64 - 1 }
    requires room { monitor.old.entries < 2 ^ 64 - 1 }
    ensures drawn { OnOk result ((s : Setup) (limit : Limit) (past : Past) →
        HasMonitored monitor.old s limit past →
        DrawsOn (kept canvas.old) (kept canvas.new) (W.taken output.old) (W.taken output.new)
        (gives_access (shown_access s limit past entry.now))) }
    ensures monitored { (s : Setup) (limit : Limit) (past : Past) →
        HasMonitored monitor.old s limit past →
        HasMonitored monitor.new s limit (entry.now ∷ past) }
    ensures overlaps { canvas.new.overlaps ≡ canvas.old.overlaps }
    ensures fails { FailsAsWriting W.failures result output.old output.new }
{
    match monitor.observe(alloc, entry)? {
        None => Ok(()),
        Some(access) => canvas.draw_access(access, output),
    }
}
