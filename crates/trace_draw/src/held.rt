//! The entries that a picture shows, which are stored until it is decided whether their accesses are shown.
ghost use Rattle.std.specs.Prelude.{◌≡◌, ◌-◌, ◌^◌, ◌<◌, ◌∷◌, ◌++◌, [], ℕ, IfOk, List, None, OnOk, Option, reverse, true};
ghost use Rattle.draw.specs.{FailsAsWriting};
ghost use Rattle.trace.specs.{TracePast as Past, is_trace_setup, trace_entry};
ghost use Rattle.trace_engine.specs.{count_by};
ghost use Rattle.trace_draw.specs.Showing.{AreHeld, AreShown, EndsBands, IsDrawn, drawn_count};

use crate::drawing::{DrawnBands, TraceDrawing};
use crate::headings::write_head;
use crate::views::TraceView;
use files::{Fault, Sink};
use picture::Reads;
use smallvec::SmallVec;
use std::alloc::{AllocError, Global};
use trace::{CellAccess, LockMark, TraceEntry, TraceSetup};

/// The most entries of a picture that shows all accesses although they are not asked for.
const MOST_ENTRIES: usize = 400;

/// The entries of a picture, all of which are drawn; the window shows a part of them. They are stored as long as the number of
/// entries decides whether accesses are shown, and nothing is written before that is decided.
#[derive(Drop)]
pub(crate) struct ShownEntries {
    /// All entries so far, unless they are drawn.
    held: Vec<TraceEntry>,
    /// The picture of all entries so far, once it is decided which accesses it shows.
    drawing: Option<TraceDrawing>,
}

impl ShownEntries {
    /// Begins a picture without entries. It writes the start of a page if all accesses are asked for or the window is short.
    ///
    /// # Errors
    ///
    /// Returns [`Fault::Write`] if a call of the sink fails, and [`Fault::Memory`] if memory is lacking.
    pub fn begin<W: Sink>(
        view: TraceView,
        setup: &TraceSetup,
        output: &mut W,
    ) -> Result<ShownEntries, Fault>
        requires good { is_trace_setup setup.now ≡ true }
        requires writes { W.failures output.old < 2 ^ 64 - 1 }
        ensures shown { IfOk result (λ shown. AreShown view.form view.options setup.now [] shown
            (W.taken output.old) (W.taken output.new)) }
        ensures fails { FailsAsWriting W.failures result output.old output.new }
    {
        if view.shows_all() {
            let drawing = begin_drawing(view, setup, Reads::All, output)?;
            return Ok(ShownEntries {
                held: Vec::new(view.alloc),
                drawing: Some(drawing),
            });
        }
        Ok(ShownEntries {
            held: Vec::new(view.alloc),
            drawing: None,
        })
    }

    /// Draws the next entry, or stores it as long as the picture may be short.
    ///
    /// # Errors
    ///
    /// Returns [`Fault::Write`] if a call of the sink fails, and [`Fault::Memory`] if memory is lacking.
    pub fn take<W: Sink>(
        &mut self,
        view: TraceView,
        setup: &TraceSetup,
        entry: &TraceEntry,
        output: &mut W,
    ) -> Result<(), Fault>
        requires good { is_trace_setup setup.now ≡ true }
        requires room { count_by drawn_count self.old.drawing < 2 ^ 64 - 1 }
        requires writes { W.failures output.old < 2 ^ 64 - 1 }
        ensures shown { OnOk result ((past : Past) (first : Option (List ℕ)) →
            AreShown view.form view.options setup.now past self.old first (W.taken output.old) →
            AreShown view.form view.options setup.now (entry.now ∷ past) self.new
            first (W.taken output.new)) }
        ensures fails { FailsAsWriting W.failures result output.old output.new }
    {
        match &mut self.drawing {
            Some(drawing) => drawing.draw_entry(entry, output),
            None => self.hold_or_draw(view, setup, entry, output),
        }
    }

    /// Stores the next entry. If the picture is not short any more, draws all entries that are stored, and this one. It is never
    /// inlined, because the room in which a picture is made would otherwise be cleared before each entry.
    #[inline(never)]
    fn hold_or_draw<W: Sink>(
        &mut self,
        view: TraceView,
        setup: &TraceSetup,
        entry: &TraceEntry,
        output: &mut W,
    ) -> Result<(), Fault>
        requires good { is_trace_setup setup.now ≡ true }
        requires undecided { self.old.drawing ≡ None }
        requires writes { W.failures output.old < 2 ^ 64 - 1 }
        ensures shown { OnOk result ((past : Past) (first : Option (List ℕ)) →
            AreHeld view.options past self.old.held.items first (W.taken output.old) →
            AreShown view.form view.options setup.now (entry.now ∷ past) self.new
            first (W.taken output.new)) }
        ensures fails { FailsAsWriting W.failures result output.old output.new }
    {
        if self.held.len() < MOST_ENTRIES {
            hold(view.alloc, entry, &mut self.held)?;
            return Ok(());
        }
        let mut drawing = draw_held(view, setup, Reads::Hidden, &self.held, output)?;
        drawing.draw_entry(entry, output)?;
        self.held = Vec::new(view.alloc);
        self.drawing = Some(drawing);
        Ok(())
    }

    /// Draws the entries that are stored, which are few, with their accesses. Then draws the lines of the judge and the last
    /// line, and writes what is held back.
    ///
    /// # Errors
    ///
    /// Returns [`Fault::Write`] if a call of the sink fails, and [`Fault::Memory`] if memory is lacking.
    pub fn end<W: Sink>(
        &mut self,
        view: TraceView,
        setup: &TraceSetup,
        reported: &[u8],
        output: &mut W,
    ) -> Result<DrawnBands, Fault>
        requires good { is_trace_setup setup.now ≡ true }
        requires writes { W.failures output.old < 2 ^ 64 - 1 }
        ensures drawn { IfOk result (λ bands. (past : Past) (first : Option (List ℕ)) →
            AreShown view.form view.options setup.now past self.old first (W.taken output.old) →
            EndsBands view.form view.options bands setup.now past reported.now
            first (W.taken output.new)) }
        ensures fails { FailsAsWriting W.failures result output.old output.new }
    {
        match &mut self.drawing {
            Some(drawing) => drawing.end(setup, reported, output),
            None => {
                let mut drawing = draw_held(view, setup, Reads::All, &self.held, output)?;
                drawing.end(setup, reported, output)
            }
        }
    }
}

/// Draws entries in their order, after the start of a page.
fn draw_held<W: Sink>(
    view: TraceView,
    setup: &TraceSetup,
    shows: Reads,
    held: &[TraceEntry],
    output: &mut W,
) -> Result<TraceDrawing, Fault>
    requires good { is_trace_setup setup.now ≡ true }
    requires writes { W.failures output.old < 2 ^ 64 - 1 }
    ensures drawn { IfOk result (λ d. IsDrawn view.form view.options shows setup.now
        (reverse held.now) d (W.taken output.old) (W.taken output.new)) }
    ensures fails { FailsAsWriting W.failures result output.old output.new }
{
    let mut drawing = begin_drawing(view, setup, shows, output)?;
    for entry in held {
        drawing.draw_entry(entry, output)?;
    }
    Ok(drawing)
}

/// Creates a picture without entries that shows these accesses, and writes the start of a page.
fn begin_drawing<W: Sink>(
    view: TraceView,
    setup: &TraceSetup,
    shows: Reads,
    output: &mut W,
) -> Result<TraceDrawing, Fault>
    requires good { is_trace_setup setup.now ≡ true }
    requires writes { W.failures output.old < 2 ^ 64 - 1 }
    ensures drawn { IfOk result (λ d. IsDrawn view.form view.options shows setup.now
        [] d (W.taken output.old) (W.taken output.new)) }
    ensures fails { FailsAsWriting W.failures result output.old output.new }
{
    let drawing = TraceDrawing::new(view, setup, shows)?;
    write_head(view.alloc, setup, view.form, shows, output)?;
    Ok(drawing)
}

/// Adds a copy of an entry.
fn hold(alloc: Global, entry: &TraceEntry, held: &mut Vec<TraceEntry>) -> Result<(), AllocError>
    ensures { OnOk result (held.new.items ≡ held.old.items ++ entry.now ∷ []) }
{
    let copy = entry_of(alloc, entry.process, &entry.access, &entry.marks)?;
    held.push(copy)?;
    Ok(())
}

/// Returns the entry that has these parts.
fn entry_of(
    alloc: Global,
    process: u8,
    access: &Option<CellAccess>,
    marks: &[LockMark],
) -> Result<TraceEntry, AllocError>
    ensures { IfOk result (λ entry. entry ≡ trace_entry process access.now marks.now) }
{
    Ok(TraceEntry {
        process,
        access: *access,
        marks: SmallVec::from_slice(alloc, marks)?,
    })
}
