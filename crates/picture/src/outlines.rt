//! The outlines of a verdict in its band: the column of the bad entry, and the bars and boxes that its lines name.
ghost use Rattle.std.specs.Prelude.{◌≡◌, ◌<◌, ◌^◌, [], ◌∷◌, flat_map, map, OnOk};
ghost use Rattle.markup.specs.{reading};
ghost use Rattle.picture_layout.specs.{seen, seen_accesses, shows_access};
ghost use Rattle.picture.specs.Adding.{Draws};
ghost use Rattle.picture.specs.Bars.{point};
ghost use Rattle.picture.specs.Drawings.{seen_band};
ghost use Rattle.picture.specs.Verdicts.{bad_column, bad_place, because, blame, edge_of, edge_without, named_bar, named_boxes, outline_of, outline, outline_from, outline_if, shows_accesses, words_begin as start_of_words};
ghost use Rattle.shown_verdict.specs.{seen_line};

use crate::bands::Band;
use crate::links::draw_arrow_to;
use markup::{Markup, Point};
use picture_layout::{AXIS, AccessState, Column, DIGIT, LEFT, Lane, event_place, room};
use shown_verdict::{FirstBadEntry, Pointer, PointerKind, ShownVerdict};
use std::alloc::{AllocError, Global};

impl Band {
    /// Returns the right edge of all outlines: the column of the bad entry, or the right end of the lanes. A window after the
    /// bad entry has no columns, and nothing in it is outlined.
    pub(crate) fn edge(&self, bad: Option<FirstBadEntry>) -> u16
        ensures { result ≡ edge_of bad (seen_band self.now) }
    {
        match self.bad_place(bad) {
            Some(x) => x,
            None => self.edge_without(bad),
        }
    }

    /// Returns where the outlines end if the band does not have the bad entry.
    fn edge_without(&self, bad: Option<FirstBadEntry>) -> u16
        ensures { result ≡ edge_without bad self.now.layout.end (map seen self.now.columns.items) }
    {
        if bad.is_some() && self.columns.is_empty() {
            LEFT
        } else {
            self.layout.end
        }
    }

    /// Returns the place of the last column, if it is that of the bad entry.
    fn bad_place(&self, bad: Option<FirstBadEntry>) -> Option<u16>
        ensures { result ≡ bad_place bad (map seen self.now.columns.items) }
    {
        let Some(bad) = bad else {
            return None;
        };
        match self.columns.last() {
            Some(column) if column.event == Some(bad.entry) => Some(column.x),
            _ => None,
        }
    }

    /// Draws the column of the bad entry, if the band has it.
    pub(crate) fn draw_bad_column(
        &self,
        bad: Option<FirstBadEntry>,
        markup: &mut Markup,
    ) -> Result<(), AllocError>
        ensures draws { Draws result markup.old markup.new
            (bad_column self.now.layout (bad_place bad (map seen self.now.columns.items))) }
        ensures read { OnOk result (reading markup.new ≡ reading markup.old) }
    {
        let Some(x) = self.bad_place(bad) else {
            return Ok(());
        };
        let corner = Point::at(u32::from(x).saturating_sub(3), u32::from(AXIS));
        let height = u32::from(self.layout.height.saturating_sub(AXIS));
        markup.block("bad", corner, 14, height)
    }

    /// Draws the outlines of all lines of a verdict.
    pub(crate) fn draw_pointers(
        &self,
        alloc: Global,
        accesses: &AccessState,
        verdict: &ShownVerdict,
        edge: u16,
        markup: &mut Markup,
    ) -> Result<(), AllocError>
        ensures draws { Draws result markup.old markup.new
            (flat_map
            (outline_of (seen_band self.now) (seen_accesses accesses.now) verdict.now.bad edge)
            (map seen_line verdict.now.lines.items)) }
        ensures read { OnOk result (reading markup.new ≡ reading markup.old) }
    {
        for line in &verdict.lines {
            self.draw_pointer(alloc, accesses, verdict.bad, edge, line.points, markup)?;
        }
        Ok(())
    }

    /// Draws the outline of a line, if it names anything left of the edge.
    fn draw_pointer(
        &self,
        alloc: Global,
        accesses: &AccessState,
        bad: Option<FirstBadEntry>,
        edge: u16,
        points: Option<Pointer>,
        markup: &mut Markup,
    ) -> Result<(), AllocError>
        ensures draws { Draws result markup.old markup.new
            (outline_if (seen_band self.now) (seen_accesses accesses.now) bad edge points) }
        ensures read { OnOk result (reading markup.new ≡ reading markup.old) }
    {
        let Some(pointer) = points else {
            return Ok(());
        };
        let from = event_place(self.columns.as_slice(), self.before_at, pointer.since);
        if from >= edge {
            return Ok(());
        }
        self.draw_outline(alloc, accesses, bad, pointer, from, edge, markup)
    }

    /// Draws the outline that a pointer asks for from one place to another.
    fn draw_outline(
        &self,
        alloc: Global,
        accesses: &AccessState,
        bad: Option<FirstBadEntry>,
        pointer: Pointer,
        from: u16,
        to: u16,
        markup: &mut Markup,
    ) -> Result<(), AllocError>
        requires { from < to }
        ensures draws { Draws result markup.old markup.new
            (outline (seen_band self.now) (seen_accesses accesses.now) bad pointer pointer.kind from
            to) }
        ensures read { OnOk result (reading markup.new ≡ reading markup.old) }
    {
        let lane = self.layout.lane(pointer.process);
        match pointer.kind {
            PointerKind::Waits | PointerKind::Inside => {
                draw_named_bar(alloc, lane, pointer, from, to, markup)?;
                self.draw_blame(
                    bad,
                    pointer.process,
                    u32::from(to).saturating_sub(4),
                    markup,
                )
            }
            PointerKind::Doorway => draw_named_bar(alloc, lane, pointer, from, to, markup),
            PointerKind::Open | PointerKind::Torn => {
                if !self.shows_accesses(accesses, pointer.process) {
                    return Ok(());
                }
                draw_named_boxes(alloc, lane, pointer, from, to, markup)
            }
        }
    }

    /// Draws the arrow from the bar of a process to the lane of the bad one, if that is another one.
    fn draw_blame(
        &self,
        bad: Option<FirstBadEntry>,
        process: u8,
        x: u32,
        markup: &mut Markup,
    ) -> Result<(), AllocError>
        ensures draws { Draws result markup.old markup.new (blame self.now.layout bad process x) }
        ensures read { OnOk result (reading markup.new ≡ reading markup.old) }
    {
        let Some(bad) = bad else {
            return Ok(());
        };
        if bad.process == process {
            return Ok(());
        }
        let from = Point::at(x, self.layout.lane(process).bar());
        let lane = self.layout.lane(bad.process);
        draw_arrow_to("blame", "blame-tip", from, lane, markup)
    }

    /// Returns whether the band shows accesses in the lane of a process.
    fn shows_accesses(&self, accesses: &AccessState, process: u8) -> bool
        ensures { result
            ≡ shows_accesses (seen_band self.now) (seen_accesses accesses.now) process }
    {
        let is_open = accesses.open_access(process).is_some();
        is_open || has_access(self.columns.as_slice(), process)
    }
}

/// Returns whether a column shows an access in the lane of a process.
fn has_access(columns: &[Column], process: u8) -> bool
    ensures { result ≡ shows_access (map seen columns.now) process }
{
    for column in columns {
        if column.lane == Some(process) && column.access.is_some() {
            return true;
        }
    }
    false
}

/// Outlines the bar of a lane from one place to another, with words.
fn draw_named_bar(
    alloc: Global,
    lane: Lane,
    pointer: Pointer,
    from: u16,
    to: u16,
    markup: &mut Markup,
) -> Result<(), AllocError>
    requires { from < to }
    ensures draws { Draws result markup.old markup.new (named_bar lane pointer from to) }
    ensures read { OnOk result (reading markup.new ≡ reading markup.old) }
{
    let bar = lane.bar();
    let x = u32::from(from);
    let width = u32::from(to - from);
    if lane.is_full {
        markup.block("named", Point::at(x, bar.saturating_sub(14)), width, 28)?;
        draw_because(alloc, pointer, Point::at(x + 2, bar + 23), markup)
    } else {
        markup.block("named", Point::at(x, bar.saturating_sub(6)), width, 12)?;
        draw_because(alloc, pointer, Point::at(x + 4, bar + 3), markup)
    }
}

/// Outlines the boxes of accesses of a lane from one place to another, with words.
fn draw_named_boxes(
    alloc: Global,
    lane: Lane,
    pointer: Pointer,
    from: u16,
    to: u16,
    markup: &mut Markup,
) -> Result<(), AllocError>
    requires { from < to }
    ensures draws { Draws result markup.old markup.new (named_boxes lane pointer from to) }
    ensures read { OnOk result (reading markup.new ≡ reading markup.old) }
{
    let top = lane.boxes();
    let x = u32::from(from);
    let width = u32::from(to - from);
    markup.block("named", Point::at(x, top.saturating_sub(2)), width, 32)?;
    draw_because(alloc, pointer, Point::at(x + 2, top + 38), markup)
}

/// Draws the words at an outline.
fn draw_because(
    alloc: Global,
    pointer: Pointer,
    at: Point,
    markup: &mut Markup,
) -> Result<(), AllocError>
    ensures draws { Draws result markup.old markup.new (because pointer at ∷ []) }
    ensures read { OnOk result (reading markup.new ≡ reading markup.old) }
{
    let words = pointer.words(alloc)?;
    let x = words_begin(at.x, words.len());
    markup.label("because", Point::at(x, at.y), words.as_bytes())
}

/// Returns where words of this number of characters begin: at a place, or further left, so that they end in the picture.
fn words_begin(x: u32, characters: usize) -> u32
    ensures { result ≡ start_of_words x characters }
{
    x.min(1194_u32.saturating_sub(u32::from(room(characters, DIGIT))))
}
