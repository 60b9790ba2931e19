//! The entries of a record, which are stored until it is decided whether their accesses are shown.
ghost use Rattle.std.specs.Prelude.{◌≡◌, ◌+◌, ◌-◌, ◌^◌, ◌<◌, ◌∷◌, ◌++◌, [], ℕ, IfOk, List, None, Ok, OnOk, Option, reverse};
ghost use Rattle.model.specs.plain_store.{checked};
ghost use Rattle.model.specs.{Past};
ghost use Rattle.draw.specs.Canvases.{DrawsLast};
ghost use Rattle.draw.specs.Drawings.{HasOpening};
ghost use Rattle.draw.specs.Items.{SaysEnd};
ghost use Rattle.draw.specs.RecordItems.{source_of};
ghost use Rattle.draw.specs.Sheets.{AreStored, DrawsPast, EndsAsked, IsDrawn, entries_of};
ghost use Rattle.draw.specs.Views.{most_asked, most_stored};
ghost use Rattle.scenario.specs.files.{FailsAsWriting};

use crate::records::around::PictureForm;
use crate::records::drawing::RecordDrawing;
use crate::views::{AccessView, is_short};
use judge::{entry_of_parts, parts};
use model::Entry;
use picture::{PictureOptions, Reads};
use record_accesses::plain_store::{NestedTypes, Setup};
use scenario::{Fault, Sink};
use std::alloc::{AllocError, Global};

/// The entries of a record. They are stored as long as the picture may be short, and nothing is written before it is decided
/// whether their accesses are shown.
#[derive(Drop)]
pub(crate) struct RecordEntries {
    /// All entries so far, unless they are drawn.
    stored: Vec<Entry>,
    /// The picture of all entries so far, once it is decided that it shows what that of a long record shows.
    pub drawing: Option<RecordDrawing>,
}

/// Which accesses a picture shows, the words of the store before its window, and the heights of its bands.
#[derive(Drop)]
pub(crate) struct RecordBands {
    pub shows: Reads,
    pub opening: Vec<u8>,
    pub height: u64,
}

impl RecordEntries {
    /// Returns no entries.
    pub fn new(alloc: Global) -> RecordEntries
        ensures stored { result.stored.items ≡ [] }
        ensures drawing { result.drawing ≡ None }
    {
        RecordEntries {
            stored: Vec::new(alloc),
            drawing: None,
        }
    }

    /// Draws the next entry, or stores it as long as the picture may be short.
    ///
    /// # Errors
    ///
    /// Returns [`Fault::Write`] if a call of the sink fails, and [`Fault::Memory`] if memory is lacking.
    pub fn take<W: Sink>(
        &mut self,
        around: PictureForm,
        setup: &Setup,
        entry: &Entry,
        output: &mut W,
    ) -> Result<(), Fault>
        requires good { checked setup.now ≡ Ok tt }
        requires bounded { entries_of self.old < 2 ^ 64 - 1 }
        requires writes { W.failures output.old < 2 ^ 64 - 1 }
        ensures drawn { OnOk result ((past : Past) (first : Option (List ℕ)) →
            DrawsPast around.asked around.form self.old setup.now past first (W.taken output.old) →
            DrawsPast around.asked around.form self.new setup.now (entry.now ∷ past)
            first (W.taken output.new)) }
        ensures fails { FailsAsWriting W.failures result output.old output.new }
    {
        let _nested: NestedTypes = None;
        match &mut self.drawing {
            Some(drawing) => drawing.draw_entry(entry, output),
            None => self.store_or_draw(around, setup, entry, output),
        }
    }

    /// Stores the next entry. If the picture may not be short any more, draws all entries that are stored, and this one. It is
    /// never inlined, because the room in which a picture is made would otherwise be cleared before each entry.
    #[inline(never)]
    fn store_or_draw<W: Sink>(
        &mut self,
        around: PictureForm,
        setup: &Setup,
        entry: &Entry,
        output: &mut W,
    ) -> Result<(), Fault>
        requires good { checked setup.now ≡ Ok tt }
        requires undecided { self.old.drawing ≡ None }
        requires writes { W.failures output.old < 2 ^ 64 - 1 }
        ensures drawn { OnOk result ((past : Past) (first : Option (List ℕ)) →
            AreStored around.asked past self.old.stored.items first (W.taken output.old) →
            DrawsPast around.asked around.form self.new setup.now (entry.now ∷ past)
            first (W.taken output.new)) }
        ensures fails { FailsAsWriting W.failures result output.old output.new }
    {
        let _nested: NestedTypes = None;
        if self.stored.len() < most(around.asked) {
            store(around.alloc, entry, &mut self.stored)?;
            return Ok(());
        }
        let view = AccessView::long(around.asked);
        let mut drawing = draw_stored(around, setup, view, &self.stored, output)?;
        drawing.draw_entry(entry, output)?;
        self.stored = Vec::new(around.alloc);
        self.drawing = Some(drawing);
        Ok(())
    }

    /// Draws the entries that are stored, which are few, with their accesses. Then draws the last line, or the verdict with it
    /// if `reported` has lines of a judge, and writes what is held back. Returns what was drawn.
    ///
    /// # Errors
    ///
    /// Returns [`Fault::Write`] if a call of the sink fails, and [`Fault::Memory`] if memory is lacking.
    pub fn end<W: Sink>(
        &mut self,
        around: PictureForm,
        setup: &Setup,
        reported: &[u8],
        output: &mut W,
    ) -> Result<RecordBands, Fault>
        requires good { checked setup.now ≡ Ok tt }
        requires writes { W.failures output.old < 2 ^ 64 - 1 }
        ensures drawn { IfOk result (λ bands. (past : Past) (first : Option (List ℕ)) →
            DrawsPast around.asked around.form self.old setup.now past first (W.taken output.old) →
            EndsAsked around.asked around.form setup.now past reported.now
            bands.shows bands.opening.items bands.height first (W.taken output.new)) }
        ensures fails { FailsAsWriting W.failures result output.old output.new }
    {
        match &mut self.drawing {
            Some(drawing) => {
                let view = AccessView::long(around.asked);
                end_drawn(drawing, setup, view.reads, reported, output)
            }
            None => {
                let view = AccessView::short(around.asked);
                let mut drawing = draw_stored(around, setup, view, &self.stored, output)?;
                end_drawn(&mut drawing, setup, view.reads, reported, output)
            }
        }
    }
}

/// Draws the end of a picture that shows these accesses, writes what is held back, and returns what was drawn.
fn end_drawn<W: Sink>(
    drawing: &mut RecordDrawing,
    setup: &Setup,
    shows: Reads,
    reported: &[u8],
    output: &mut W,
) -> Result<RecordBands, Fault>
    requires { W.failures output.old < 2 ^ 64 - 1 }
    ensures drawn { IfOk result (λ bands. DrawsLast drawing.old.drawing.canvas
        (W.taken output.old) (W.taken output.new) (source_of setup.now + 1)
        drawing.old.drawing.entries reported.now
        (SaysEnd drawing.old.drawing.entries drawing.old.drawing.store.taken 0) bands.height) }
    ensures shows { IfOk result (λ bands. bands.shows ≡ shows) }
    ensures opening { IfOk result (λ bands. HasOpening drawing.old.drawing bands.opening.items) }
    ensures fails { FailsAsWriting W.failures result output.old output.new }
{
    let opening = drawing.opening()?;
    let height = drawing.end(setup, reported, output)?;
    Ok(RecordBands {
        shows,
        opening,
        height,
    })
}

/// Draws entries in their order, after the start of a page.
fn draw_stored<W: Sink>(
    around: PictureForm,
    setup: &Setup,
    view: AccessView,
    stored: &[Entry],
    output: &mut W,
) -> Result<RecordDrawing, Fault>
    requires good { checked setup.now ≡ Ok tt }
    requires writes { W.failures output.old < 2 ^ 64 - 1 }
    ensures drawn { IfOk result (λ d. IsDrawn view around.form setup.now (reverse stored.now) d
        (W.taken output.old) (W.taken output.new)) }
    ensures fails { FailsAsWriting W.failures result output.old output.new }
{
    let _nested: NestedTypes = None;
    let mut drawing = around.begin(setup, view, output)?;
    for entry in stored {
        drawing.draw_entry(entry, output)?;
    }
    Ok(drawing)
}

/// Returns the most entries that are stored until it is decided what is shown: none if all accesses are asked for or the
/// window is short.
fn most(options: PictureOptions) -> usize
    ensures { result ≡ most_stored options }
{
    if is_short(options.window) {
        return 0;
    }
    most_of(options.reads)
}

/// Returns the most entries that are stored if the window is not short.
fn most_of(asked: Reads) -> usize
    ensures { result ≡ most_asked asked }
{
    match asked {
        Reads::All => 0,
        Reads::Hidden | Reads::Shown => 400,
    }
}

/// Adds a copy of an entry.
fn store(alloc: Global, entry: &Entry, stored: &mut Vec<Entry>) -> Result<(), AllocError>
    ensures { OnOk result (stored.new.items ≡ stored.old.items ++ entry.now ∷ []) }
{
    let _nested: NestedTypes = None;
    let (process, access, marks) = parts(entry);
    let copy = entry_of_parts(alloc, process, access, marks)?;
    stored.push(copy)?;
    Ok(())
}
