//! The picture of a run or of a record, which is drawn part by part.
ghost use Rattle.std.specs.Prelude.{◌≡◌, ◌+◌, ◌-◌, ◌^◌, ◌<◌, [], ◌∷◌, IfOk, List, Ok, OnOk, Some, is_some, length};
ghost use Rattle.model.specs.plain_store.{checked};
ghost use Rattle.model.specs.plain_store.declared.setups.Setup.{Setup as Given};
ghost use Rattle.model.specs.{Entry, Mark as Marked, Past};
ghost use Rattle.record_accesses.specs.{drops, entry_with};
ghost use Rattle.judge.specs.safe_monitor.{entry_by};
ghost use Rattle.draw.specs.Canvases.{DrawsLast, DrawsLines, DrawsOn, kept, kept_at_first, plan_of};
ghost use Rattle.draw.specs.Drawings.{DrawsPart, HasOpening, Recalls, MonitorsAccesses, observes as is_observing};
ghost use Rattle.draw.specs.Items.{Part, PartEntry, PartLine, entries_among, given_access_of, says_of};
ghost use Rattle.draw.specs.Overlaps.{ReportsEnd};
ghost use Rattle.scenario.specs.files.{FailsAsWriting};
ghost use Rattle.draw.specs.declared.views.AccessView.{AccessView as Seen};

use crate::canvas::Canvas;
use crate::store_before::StoreBefore;
use crate::taken_store::TakenStore;
use crate::views::AccessView;
use model::{Access, Mark};
use picture::{Form, LineContent, Reads, RunLine};
use record_accesses::plain_store::{NestedTypes, Setup};
use record_accesses::{RecordAccessMonitor, drops_open_read};
use scenario::{Fault, Sink};
use std::alloc::{AllocError, Global};

/// The picture of a run or of a record so far.
#[derive(Drop)]
pub(crate) struct Drawing {
    alloc: Global,
    canvas: Canvas,
    /// The observer of accesses, if all accesses are shown.
    accesses: Option<RecordAccessMonitor>,
    pub store: TakenStore,
    before: StoreBefore,
    /// The number of entries.
    pub entries: u64,
    /// The line of the page's list that makes what is drawn next.
    pub source: u64,
}

/// The number of lines before the opening pairs of a printed scenario or of a record.
const HEADINGS: u64 = 5;

/// Returns the number of lines that a printed scenario or a record begins with: its headings and opening pairs.
pub(crate) fn lines_of_setup(setup: &Setup) -> u64
    ensures lines { result ≡ length setup.now.opening + 5 }
    ensures room { result < 2 ^ 64 - 2 }
{
    setup.opening.len() as u64 + HEADINGS
}

impl Drawing {
    /// Creates a picture without parts.
    ///
    /// # Errors
    ///
    /// Returns [`AllocError`] if memory is lacking.
    pub fn new(
        alloc: Global,
        setup: &Setup,
        form: Form,
        view: AccessView,
        source: u64,
    ) -> Result<Drawing, AllocError>
        requires { checked setup.now ≡ Ok tt }
        ensures recalls { IfOk result (Recalls view setup.now []) }
        ensures first { IfOk result
            (λ d. kept d.canvas ≡ kept_at_first (plan_of form view.window setup.now)) }
        ensures source { IfOk result (λ d. d.source ≡ source) }
    {
        let store = TakenStore::new(alloc, setup)?;
        let canvas = Canvas::new(alloc, setup, &store, form, view.reads, view.window)?;
        let accesses = monitor_of(alloc, setup, view)?;
        let before = StoreBefore::new(alloc, view.window.from);
        Ok(Drawing {
            alloc,
            canvas,
            accesses,
            store,
            before,
            entries: 0,
            source,
        })
    }

    /// Returns whether overlapped reads are shown.
    #[inline(always)]
    pub fn shows_reads(&self) -> bool
        ensures { result ≡ is_some self.now.canvas.overlaps }
    {
        self.canvas.shows_reads()
    }

    /// Returns whether each access is observed, because overlapped reads are shown, or all accesses.
    #[inline(always)]
    pub fn observes(&self) -> bool
        ensures { result ≡ is_observing self.now }
    {
        self.canvas.shows_reads() || self.accesses.is_some()
    }

    /// Draws an entry, which has these parts: its access, if all accesses are shown, and then its marks, which join the column of
    /// the access. If overlapped reads are shown, `overlapped` is whether the access ends one.
    ///
    /// # Errors
    ///
    /// Returns [`Fault::Write`] if a call of the sink fails, and [`Fault::Memory`] if memory is lacking.
    pub fn draw_entry<W: Sink>(
        &mut self,
        process: u8,
        access: Option<Access>,
        marks: &[Mark],
        overlapped: bool,
        output: &mut W,
    ) -> Result<(), Fault>
        requires writes { W.failures output.old < 2 ^ 64 - 1 }
        requires room { self.old.entries < 2 ^ 64 - 1 }
        ensures drawn { OnOk result ((view : Seen) (s : Given) (parts : List Part) →
            (e : Entry) → e.process ≡ process → e.access ≡ access → e.marks ≡ marks.now →
            ReportsEnd view.reads s (entries_among parts) access overlapped →
            Recalls view s parts self.old → DrawsPart view s parts (PartEntry e) self.old self.new
            (W.taken output.old) (W.taken output.new)) }
        ensures source { self.new.source ≡ self.old.source }
        ensures entries { OnOk result (self.new.entries ≡ self.old.entries + 1) }
        ensures fails { FailsAsWriting W.failures result output.old output.new }
    {
        let _nested: NestedTypes = None;
        let at = self.entries;
        self.before.keep(self.alloc, at, &self.store)?;
        self.canvas.observe(at, access, overlapped)?;
        self.draw_access(process, &access, drops_open_read(marks), output)?;
        self.canvas
            .draw_marks(&mut self.store, self.source, at, process, marks, output)?;
        self.entries += 1;
        Ok(())
    }

    /// Draws an entry of a process that has this access and no mark: its access, if all accesses are shown, and otherwise
    /// nothing.
    ///
    /// # Errors
    ///
    /// Returns [`Fault::Write`] if a call of the sink fails, and [`Fault::Memory`] if memory is lacking.
    #[inline(always)]
    pub fn step<W: Sink>(
        &mut self,
        process: u8,
        access: Access,
        overlapped: bool,
        output: &mut W,
    ) -> Result<(), Fault>
        requires writes { W.failures output.old < 2 ^ 64 - 1 }
        requires room { self.old.entries < 2 ^ 64 - 1 }
        ensures drawn { OnOk result ((view : Seen) (s : Given) (parts : List Part) →
            ReportsEnd view.reads s (entries_among parts) (Some access) overlapped →
            Recalls view s parts self.old →
            DrawsPart view s parts (PartEntry (entry_by process (Some access) [])) self.old self.new
            (W.taken output.old) (W.taken output.new)) }
        ensures source { self.new.source ≡ self.old.source }
        ensures entries { OnOk result (self.new.entries ≡ self.old.entries + 1) }
        ensures fails { FailsAsWriting W.failures result output.old output.new }
    {
        let access = Some(access);
        self.canvas.observe(self.entries, access, overlapped)?;
        self.draw_access(process, &access, false, output)?;
        self.entries += 1;
        Ok(())
    }

    /// Draws the access of the next entry, if all accesses are shown. The entry's marks drop the read that its process has open,
    /// or not.
    #[inline(always)]
    fn draw_access<W: Sink>(
        &mut self,
        process: u8,
        access: &Option<Access>,
        drops_read: bool,
        output: &mut W,
    ) -> Result<(), Fault>
        requires { W.failures output.old < 2 ^ 64 - 1 }
        ensures drawn { OnOk result ((view : Seen) (s : Given) (past : Past) (marks : List Marked) →
            self.old.entries ≡ length past → drops marks ≡ drops_read →
            MonitorsAccesses view.reads view.limit s past self.old.accesses →
            DrawsOn (kept self.old.canvas) (kept self.new.canvas)
            (W.taken output.old) (W.taken output.new)
            (given_access_of view.reads view.limit s past (entry_with process access.now marks))
            × MonitorsAccesses view.reads view.limit s
            (entry_with process access.now marks ∷ past) self.new.accesses) }
        ensures overlaps { self.new.canvas.overlaps ≡ self.old.canvas.overlaps }
        ensures store { self.new.store ≡ self.old.store }
        ensures before { self.new.before ≡ self.old.before }
        ensures entries { self.new.entries ≡ self.old.entries }
        ensures source { self.new.source ≡ self.old.source }
        ensures fails { FailsAsWriting W.failures result output.old output.new }
    {
        let number = self.entries;
        match &mut self.accesses {
            None => Ok(()),
            Some(monitor) => self
                .canvas
                .draw_monitored(monitor, number, process, access, drops_read, output),
        }
    }

    /// Counts `steps` entries without a mark. Their accesses are not needed, because none is observed.
    #[inline(always)]
    pub fn pass(&mut self, steps: u32)
        requires { self.old.entries + steps < 2 ^ 64 }
        ensures { self.new ≡ record self.old { entries = self.old.entries + steps } }
    {
        self.entries += u64::from(steps);
    }

    /// Draws a line that comes from no entry.
    ///
    /// # Errors
    ///
    /// Returns [`Fault::Write`] if a call of the sink fails, and [`Fault::Memory`] if memory is lacking.
    pub fn draw_line<W: Sink>(
        &mut self,
        line_content: LineContent,
        output: &mut W,
    ) -> Result<(), Fault>
        requires { W.failures output.old < 2 ^ 64 - 1 }
        ensures drawn { OnOk result
            (DrawsLines self.old.canvas self.new.canvas (W.taken output.old) (W.taken output.new)
            self.old.source self.old.entries (says_of line_content ∷ [])) }
        ensures part { OnOk result
            ((view : Seen) (s : Given) (parts : List Part) → Recalls view s parts self.old →
            DrawsPart view s parts (PartLine (says_of line_content)) self.old self.new
            (W.taken output.old) (W.taken output.new)) }
        ensures store { self.new.store ≡ self.old.store }
        ensures entries { self.new.entries ≡ self.old.entries }
        ensures source { self.new.source ≡ self.old.source }
        ensures fails { FailsAsWriting W.failures result output.old output.new }
    {
        let line = self.line(line_content);
        self.canvas.draw(line, output)
    }

    /// Draws the last line, or the verdict with it if `reported` has lines of a judge, writes what is held back, and returns the
    /// heights of the bands.
    ///
    /// # Errors
    ///
    /// Returns [`Fault::Write`] if a call of the sink fails, and [`Fault::Memory`] if memory is lacking.
    pub fn end<W: Sink>(
        &mut self,
        line_content: LineContent,
        reported: &[u8],
        output: &mut W,
    ) -> Result<u64, Fault>
        requires { W.failures output.old < 2 ^ 64 - 1 }
        ensures drawn { IfOk result
            (DrawsLast self.old.canvas (W.taken output.old) (W.taken output.new) self.old.source
            self.old.entries reported.now (says_of line_content)) }
        ensures fails { FailsAsWriting W.failures result output.old output.new }
    {
        let line = self.line(line_content);
        self.canvas.end(line, reported, output)
    }

    /// Returns the words of the store before the window, once all entries are drawn.
    ///
    /// # Errors
    ///
    /// Returns [`AllocError`] if memory is lacking.
    pub fn opening(&self) -> Result<Vec<u8>, AllocError>
        ensures { IfOk result (λ words. HasOpening self.now words.items) }
    {
        self.before.words(self.alloc, &self.store)
    }

    /// Returns the next line.
    fn line(&self, line_content: LineContent) -> RunLine
        ensures { result
            ≡ record {
              source = self.now.source;
              at = self.now.entries;
              line_content = line_content;
            } }
    {
        RunLine {
            source: self.source,
            at: self.entries,
            line_content,
        }
    }
}

/// Returns an observer of accesses before the first entry, if all accesses are shown.
fn monitor_of(
    alloc: Global,
    setup: &Setup,
    view: AccessView,
) -> Result<Option<RecordAccessMonitor>, AllocError>
    requires { checked setup.now ≡ Ok tt }
    ensures { IfOk result (MonitorsAccesses view.reads view.limit setup.now []) }
{
    match view.reads {
        Reads::All => Ok(Some(RecordAccessMonitor::new(alloc, setup, view.limit)?)),
        Reads::Hidden | Reads::Shown => Ok(None),
    }
}
