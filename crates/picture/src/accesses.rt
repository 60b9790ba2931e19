//! The accesses in the lanes of their processes: guides, boxes and words.
ghost use Rattle.std.specs.Prelude.{◌≡◌, OnOk, option_copied};
ghost use Rattle.picture.specs.Adding.{Draws};
ghost use Rattle.markup.specs.{reading};
ghost use Rattle.picture_layout.specs.{seen, seen_accesses};
ghost use Rattle.picture.specs.AccessShapes.{access_shapes, begins_overlapped as overlapped_first, begun, begun_shapes, box_style, ended_box, ended_shapes, from_next, guide, made_by, open_style, shapes_if, styled_words, unended_box, value_by, value_style, value_words, whole_shapes, whole_style};
ghost use Rattle.picture.specs.Drawings.{lane_accesses, seen_band};

use crate::bands::Band;
use markup::{Markup, Point};
use picture_layout::{
    AXIS, AccessKind, AccessState, AccessStep, Column, LEFT, Lane, ShownAccess, UnendedAccess,
};
use std::alloc::{AllocError, Global};

/// How high the box of an access is.
const BOX: u32 = 28;

impl Band {
    /// Draws the guide of a column, if it shows an access.
    pub(crate) fn draw_guide(&self, column: &Column, markup: &mut Markup) -> Result<(), AllocError>
        ensures draws { Draws result markup.old markup.new
            (guide self.now.layout (seen column.now)) }
        ensures read { OnOk result (reading markup.new ≡ reading markup.old) }
    {
        if column.access.is_none() {
            return Ok(());
        }
        let x = u32::from(column.x);
        let foot = Point::at(x, u32::from(self.layout.height));
        markup.line("guide", Point::at(x, u32::from(AXIS)), foot)
    }

    /// Draws the accesses of a process.
    pub(crate) fn draw_accesses(
        &self,
        alloc: Global,
        accesses: &AccessState,
        process: u8,
        markup: &mut Markup,
    ) -> Result<(), AllocError>
        ensures draws { Draws result markup.old markup.new
            (lane_accesses (seen_band self.now) (seen_accesses accesses.now) process) }
        ensures read { OnOk result (reading markup.new ≡ reading markup.old) }
    {
        let lane = self.layout.lane(process);
        let mut before = accesses.open_access(process);
        let mut from = LEFT;
        for column in &self.columns {
            draw_column_access(alloc, lane, process, before, from, column, markup)?;
            before = column.open_next(process, before);
            from = next_from(process, from, column);
        }
        draw_unended(lane, before, from, self.layout.end, markup)
    }

    /// Draws the words of the access that a column begins, if it begins one.
    pub(crate) fn draw_begun_by(
        &self,
        alloc: Global,
        column: &Column,
        markup: &mut Markup,
    ) -> Result<(), AllocError>
        ensures draws { Draws result markup.old markup.new
            (begun self.now.layout (seen column.now)) }
        ensures read { OnOk result (reading markup.new ≡ reading markup.old) }
    {
        match &column.access {
            Some(access) if access.step == AccessStep::Begin => {
                let lane = self.layout.lane(access.process);
                draw_begin(alloc, lane, access, column.x, markup)
            }
            _ => Ok(()),
        }
    }
}

/// Returns the access of a column, if a process makes it.
fn access_made(process: u8, column: &Column) -> Option<&ShownAccess>
    ensures { option_copied result ≡ made_by process column.now.access }
{
    match &column.access {
        Some(access) if access.process == process => Some(access),
        _ => None,
    }
}

/// Returns where the access of a process began that is open after a column.
fn next_from(process: u8, from: u16, column: &Column) -> u16
    ensures { result ≡ from_next process from (seen column.now) }
{
    if access_made(process, column).is_some() {
        column.x
    } else {
        from
    }
}

/// Draws the access that a column shows, if the process makes it.
fn draw_column_access(
    alloc: Global,
    lane: Lane,
    process: u8,
    before: Option<UnendedAccess>,
    from: u16,
    column: &Column,
    markup: &mut Markup,
) -> Result<(), AllocError>
    ensures draws { Draws result markup.old markup.new
        (shapes_if lane before from column.now.x (made_by process column.now.access)) }
    ensures read { OnOk result (reading markup.new ≡ reading markup.old) }
{
    match access_made(process, column) {
        Some(access) => draw_access(alloc, lane, before, from, access, column.x, markup),
        None => Ok(()),
    }
}

/// Draws the box of an access that an entry ends or that is whole, and its words. If the entry begins an access while another one
/// of its process is open, which therefore never ends, draws the box of that one.
fn draw_access(
    alloc: Global,
    lane: Lane,
    before: Option<UnendedAccess>,
    from: u16,
    access: &ShownAccess,
    x: u16,
    markup: &mut Markup,
) -> Result<(), AllocError>
    ensures draws { Draws result markup.old markup.new
        (access_shapes lane before from access.now x access.now.step) }
    ensures read { OnOk result (reading markup.new ≡ reading markup.old) }
{
    match access.step {
        AccessStep::Begin => draw_unended(lane, before, from, x, markup),
        AccessStep::End => draw_end(alloc, lane, before, from, access, x, markup),
        AccessStep::Whole => {
            draw_unended(lane, before, from, x, markup)?;
            draw_whole(alloc, lane, access, x, markup)
        }
    }
}

/// Draws the box of an access that ends, and what it gives.
fn draw_end(
    alloc: Global,
    lane: Lane,
    before: Option<UnendedAccess>,
    from: u16,
    access: &ShownAccess,
    x: u16,
    markup: &mut Markup,
) -> Result<(), AllocError>
    ensures draws { Draws result markup.old markup.new
        (ended_shapes lane before from access.now x) }
    ensures read { OnOk result (reading markup.new ≡ reading markup.old) }
{
    let title = access.title(alloc)?;
    markup.note(title.as_slice())?;
    draw_ended(lane, before, from, x, markup)?;
    draw_value(
        lane,
        u32::from(x) + 4,
        before,
        access.words.as_slice(),
        markup,
    )?;
    markup.end_group()
}

/// Draws the box of a whole access, and its words.
fn draw_whole(
    alloc: Global,
    lane: Lane,
    access: &ShownAccess,
    x: u16,
    markup: &mut Markup,
) -> Result<(), AllocError>
    ensures draws { Draws result markup.old markup.new (whole_shapes lane access.now x) }
    ensures read { OnOk result (reading markup.new ≡ reading markup.old) }
{
    let title = access.title(alloc)?;
    markup.note(title.as_slice())?;
    let corner = Point::at(u32::from(x), lane.boxes());
    let is_overlapped = begins_overlapped(access);
    let style = style_of_whole(access.kind, is_overlapped);
    markup.block(style, corner, 4, BOX)?;
    let words = style_of_words(access.kind, is_overlapped);
    draw_move(words, lane, u32::from(x) + 7, access, markup)?;
    markup.end_group()
}

/// Draws the words of an access that begins.
fn draw_begin(
    alloc: Global,
    lane: Lane,
    access: &ShownAccess,
    x: u16,
    markup: &mut Markup,
) -> Result<(), AllocError>
    ensures draws { Draws result markup.old markup.new (begun_shapes lane access.now x) }
    ensures read { OnOk result (reading markup.new ≡ reading markup.old) }
{
    let title = access.title(alloc)?;
    markup.note(title.as_slice())?;
    draw_move("move", lane, u32::from(x) + 4, access, markup)?;
    markup.end_group()
}

/// Draws the words of an access and its cell.
fn draw_move(
    style: &'static str,
    lane: Lane,
    x: u32,
    access: &ShownAccess,
    markup: &mut Markup,
) -> Result<(), AllocError>
    ensures draws { Draws result markup.old markup.new (styled_words style.now lane x access.now) }
    ensures read { OnOk result (reading markup.new ≡ reading markup.old) }
{
    let top = lane.boxes();
    markup.label(style, Point::at(x, top + 12), access.words.as_slice())?;
    markup.label("cell", Point::at(x, top + 24), access.cell.as_slice())
}

/// Draws the box of an access that ends, if one was open.
fn draw_ended(
    lane: Lane,
    before: Option<UnendedAccess>,
    from: u16,
    to: u16,
    markup: &mut Markup,
) -> Result<(), AllocError>
    ensures draws { Draws result markup.old markup.new (ended_box lane before from to) }
    ensures read { OnOk result (reading markup.new ≡ reading markup.old) }
{
    let Some(access) = before else {
        return Ok(());
    };
    let corner = Point::at(u32::from(from), lane.boxes());
    let style = style_of_box(access.kind, access.is_overlapped);
    markup.block(style, corner, u32::from(to.saturating_sub(from)), BOX)
}

/// Draws the box of an access that is open up to a place, if one is.
fn draw_unended(
    lane: Lane,
    before: Option<UnendedAccess>,
    from: u16,
    to: u16,
    markup: &mut Markup,
) -> Result<(), AllocError>
    ensures draws { Draws result markup.old markup.new (unended_box lane before from to) }
    ensures read { OnOk result (reading markup.new ≡ reading markup.old) }
{
    let Some(access) = before else {
        return Ok(());
    };
    let corner = Point::at(u32::from(from), lane.boxes());
    let style = style_of_open_box(access.kind, access.is_overlapped);
    markup.block(style, corner, u32::from(to.saturating_sub(from)), BOX)
}

/// Draws the words of an access that ends, if it has any.
fn draw_value(
    lane: Lane,
    x: u32,
    before: Option<UnendedAccess>,
    words: &[u8],
    markup: &mut Markup,
) -> Result<(), AllocError>
    ensures draws { Draws result markup.old markup.new (value_words lane x before words.now) }
    ensures read { OnOk result (reading markup.new ≡ reading markup.old) }
{
    if words.is_empty() {
        return Ok(());
    }
    markup.label(
        style_of_value(before),
        Point::at(x, lane.boxes() + 12),
        words,
    )
}

/// Returns the style of a box.
fn style_of_box(kind: AccessKind, is_overlapped: bool) -> &'static str
    ensures { result.now ≡ box_style kind is_overlapped }
{
    match kind {
        AccessKind::Read if is_overlapped => "overlapped",
        AccessKind::Read => "read",
        AccessKind::Write => "write",
        AccessKind::Update => "update",
    }
}

/// Returns the style of the box of an access that does not end in its band.
fn style_of_open_box(kind: AccessKind, is_overlapped: bool) -> &'static str
    ensures { result.now ≡ open_style kind is_overlapped }
{
    match kind {
        AccessKind::Read if is_overlapped => "overlapped unended",
        AccessKind::Read => "read unended",
        AccessKind::Write => "write unended",
        AccessKind::Update => "update unended",
    }
}

/// Returns the style of the box of a whole access.
fn style_of_whole(kind: AccessKind, is_overlapped: bool) -> &'static str
    ensures { result.now ≡ whole_style kind is_overlapped }
{
    match kind {
        AccessKind::Read if is_overlapped => "overlapped whole",
        AccessKind::Read => "read whole",
        AccessKind::Write => "write whole",
        AccessKind::Update => "update whole",
    }
}

/// Returns the style of what an access gives.
fn style_of_value(before: Option<UnendedAccess>) -> &'static str
    ensures { result.now ≡ value_style before }
{
    match before {
        Some(access) => style_of_words(access.kind, access.is_overlapped),
        None => "move",
    }
}

/// Returns the style of the words of an access: those of a read that a write overlapped are bold.
fn style_of_words(kind: AccessKind, is_overlapped: bool) -> &'static str
    ensures { result.now ≡ value_by kind is_overlapped }
{
    match kind {
        AccessKind::Read if is_overlapped => "saw",
        _ => "move",
    }
}

/// Returns whether an access overlaps an open one as it begins, and one of the two writes.
fn begins_overlapped(access: &ShownAccess) -> bool
    ensures { result ≡ overlapped_first access.now }
{
    access.overlaps.iter().any(|is_over| *is_over)
}
