//! The record of a file as it is drawn.
ghost use Rattle.std.specs.Prelude.{◌≡◌, ◌+◌, ◌-◌, ◌^◌, ◌<◌, [], ◌∷◌, ◌++◌, is_some, not, IfErr, IfOk, List, None, Ok, OnOk, Option};
ghost use Rattle.model.specs.plain_store.{checked};
ghost use Rattle.model.specs.plain_store.declared.setups.Setup.{Setup as Given};
ghost use Rattle.model.specs.{Entry as Noted};
ghost use Rattle.judge.specs.record_file.{step_entry};
ghost use Rattle.draw.specs.Canvases.{DrawsLast, kept, kept_at_first, plan_of};
ghost use Rattle.draw.specs.Items.{Part, SaysEnd, entries_among};
ghost use Rattle.draw.specs.Overlaps.{ReportsEnd, Monitors};
ghost use Rattle.draw.specs.RecordDrawings.{DrawsEntry, RecordRecalls};
ghost use Rattle.draw.specs.RecordItems.{source_of};
ghost use Rattle.draw.specs.Drawings.{HasOpening};
ghost use Rattle.scenario.specs.files.{FailsAsWriting, IsWriteFault, failed_write};
ghost use Rattle.draw.specs.declared.views.AccessView.{AccessView as Seen};

use crate::drawing::{Drawing, lines_of_setup};
use crate::read_monitor::ReadMonitor;
use crate::views::AccessView;
use model::{Access, Entry};
use picture::{Form, LineContent};
use record_accesses::plain_store::{NestedTypes, Setup};
use scenario::{Fault, Sink};
use std::alloc::{AllocError, Global};

/// The picture of a record so far.
#[derive(Drop)]
pub(crate) struct RecordDrawing {
    pub drawing: Drawing,
    monitor: ReadMonitor,
}

/// Returns the number of the line in the page's list that represents all entries of a record.
fn line_of_entries(setup: &Setup) -> u64
    ensures line { result ≡ source_of setup.now }
    ensures room { result < 2 ^ 64 - 1 }
{
    lines_of_setup(setup) + 1
}

impl RecordDrawing {
    /// Creates the picture of a record without entries.
    pub fn new(
        alloc: Global,
        setup: &Setup,
        form: Form,
        view: AccessView,
    ) -> Result<RecordDrawing, Fault>
        requires { checked setup.now ≡ Ok tt }
        ensures recalls { IfOk result (RecordRecalls view setup.now []) }
        ensures first { IfOk result
            (λ d. kept d.drawing.canvas ≡ kept_at_first (plan_of form view.window setup.now)) }
        ensures source { IfOk result (λ d. d.drawing.source ≡ source_of setup.now) }
        ensures fault { IfErr result IsWriteFault }
        ensures failures { failed_write result ≡ 0 }
    {
        let monitor = ReadMonitor::new(alloc, setup, view.reads)?;
        Ok(RecordDrawing {
            drawing: Drawing::new(alloc, setup, form, view, line_of_entries(setup))?,
            monitor,
        })
    }

    /// Draws the next entry: its access, if all accesses are shown, and its marks.
    ///
    /// # Errors
    ///
    /// Returns [`Fault::Write`] if a call of the sink fails, and [`Fault::Memory`] if memory is lacking.
    pub fn draw_entry<W: Sink>(&mut self, entry: &Entry, output: &mut W) -> Result<(), Fault>
        requires writes { W.failures output.old < 2 ^ 64 - 1 }
        requires room { self.old.drawing.entries < 2 ^ 64 - 1 }
        ensures drawn { OnOk result (DrawsEntry self.old self.new
            (W.taken output.old) (W.taken output.new) entry.now) }
        ensures source { self.new.drawing.source ≡ self.old.drawing.source }
        ensures entries { OnOk result (self.new.drawing.entries ≡ self.old.drawing.entries + 1) }
        ensures fails { FailsAsWriting W.failures result output.old output.new }
    {
        let _nested: NestedTypes = None;
        let access = entry.act.access;
        let overlapped = self.ends_overlapped(access);
        self.drawing.draw_entry(entry.process, access, &entry.act.marks, overlapped, output)
    }

    /// Draws the next entry, which is of this process and has this access and no mark: its access, if all accesses are shown, and
    /// otherwise nothing.
    ///
    /// # Errors
    ///
    /// Returns [`Fault::Write`] if a call of the sink fails, and [`Fault::Memory`] if memory is lacking.
    #[inline(always)]
    pub fn step<W: Sink>(
        &mut self,
        process: u8,
        access: Access,
        output: &mut W,
    ) -> Result<(), Fault>
        requires writes { W.failures output.old < 2 ^ 64 - 1 }
        requires room { self.old.drawing.entries < 2 ^ 64 - 1 }
        ensures drawn { OnOk result (DrawsEntry self.old self.new
            (W.taken output.old) (W.taken output.new) (step_entry process access)) }
        ensures source { self.new.drawing.source ≡ self.old.drawing.source }
        ensures entries { OnOk result (self.new.drawing.entries ≡ self.old.drawing.entries + 1) }
        ensures fails { FailsAsWriting W.failures result output.old output.new }
    {
        let overlapped = self.ends_overlapped(Some(access));
        self.drawing.step(process, access, overlapped, output)
    }

    /// Returns whether the access of the next entry ends an overlapped read, if reads are shown. Otherwise the monitor
    /// is not asked, so that the compiler drops the access of a Step that it has read.
    #[inline(always)]
    fn ends_overlapped(&mut self, access: Option<Access>) -> bool
        ensures overlapped { (view : Seen) (s : Given) (parts : List Part) (e : Noted) →
            e.access ≡ access → RecordRecalls view s parts self.old →
            ReportsEnd view.reads s (entries_among parts) access result
            × Monitors view.reads s (e ∷ entries_among parts) self.new.monitor.monitor }
        ensures drawing { self.new.drawing ≡ self.old.drawing }
    {
        if !self.drawing.shows_reads() {
            return false;
        }
        self.monitor.observe(access)
    }

    /// Draws the last line, or the verdict with it if `reported` has lines of a judge, writes what is held back, and returns the
    /// heights of the bands.
    ///
    /// # Errors
    ///
    /// Returns [`Fault::Write`] if a call of the sink fails, and [`Fault::Memory`] if memory is lacking.
    pub fn end<W: Sink>(
        &mut self,
        setup: &Setup,
        reported: &[u8],
        output: &mut W,
    ) -> Result<u64, Fault>
        requires { W.failures output.old < 2 ^ 64 - 1 }
        ensures drawn { IfOk result
            (DrawsLast self.old.drawing.canvas (W.taken output.old) (W.taken output.new)
            (source_of setup.now + 1) self.old.drawing.entries reported.now
            (SaysEnd self.old.drawing.entries self.old.drawing.store.taken 0)) }
        ensures fails { FailsAsWriting W.failures result output.old output.new }
    {
        self.drawing.source = line_of_entries(setup) + 1;
        let line_content = LineContent::Ended {
            events: self.drawing.entries,
            taken: self.drawing.store.taken(),
            refused: 0,
        };
        self.drawing.end(line_content, reported, output)
    }

    /// Returns the words of the store before the window, once all entries are drawn.
    ///
    /// # Errors
    ///
    /// Returns [`AllocError`] if memory is lacking.
    pub fn opening(&self) -> Result<Vec<u8>, AllocError>
        ensures { IfOk result (λ words. HasOpening self.now.drawing words.items) }
    {
        self.drawing.opening()
    }
}
