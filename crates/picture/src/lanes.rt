//! The background of a band: shades, the axis, and the history.
ghost use Rattle.std.specs.Prelude.{◌≡◌, [], ◌∷◌, map, OnOk};
ghost use Rattle.picture.specs.Adding.{Draws};
ghost use Rattle.markup.specs.{reading};
ghost use Rattle.picture_layout.specs.{knot_of, seen};
ghost use Rattle.picture.specs.Drawings.{axis, axis_line, axis_up_to, chain_shapes, first_inside, gap_words, history_name, inside_since, opening_words, places_behind, seen_band, shade_of, shade_up_to, shades, tick};
ghost use Rattle.picture.specs.Subjects.{has_history};

use crate::bands::Band;
use markup::{Markup, Point};
use picture_layout::{AXIS, Column, DIGIT, LEFT, RIGHT, room};
use std::alloc::{AllocError, Global};

/// The height of the axis.
const MIDDLE: u32 = 14;

impl Band {
    /// Shades all lanes while a process is inside.
    pub(crate) fn draw_shades(&self, markup: &mut Markup) -> Result<(), AllocError>
        ensures draws { Draws result markup.old markup.new
            (shades self.now.layout.chain self.now.layout.end (first_inside self.now.before)
            (map seen self.now.columns.items)) }
        ensures read { OnOk result (reading markup.new ≡ reading markup.old) }
    {
        let mut from = self.shade_start();
        for column in &self.columns {
            let is_inside = column.after.inside.is_some();
            self.shade_before(from, is_inside, column.x, markup)?;
            from = inside_from(from, is_inside, column.x);
        }
        self.shade_before(from, false, self.layout.end, markup)
    }

    /// Returns the left end of the first shade, if a process is inside before the band.
    fn shade_start(&self) -> Option<u16>
        ensures { result ≡ first_inside self.now.before }
    {
        match self.before.inside {
            Some(_) => Some(LEFT),
            None => None,
        }
    }

    /// Shades all lanes up to the place where a process leaves, if one was inside.
    fn shade_before(
        &self,
        from: Option<u16>,
        is_inside: bool,
        to: u16,
        markup: &mut Markup,
    ) -> Result<(), AllocError>
        ensures draws { Draws result markup.old markup.new
            (shade_up_to self.now.layout.chain from is_inside to) }
        ensures read { OnOk result (reading markup.new ≡ reading markup.old) }
    {
        match from {
            Some(x) if !is_inside => self.shade(x, to, markup),
            _ => Ok(()),
        }
    }

    fn shade(&self, from: u16, to: u16, markup: &mut Markup) -> Result<(), AllocError>
        ensures draws { Draws result markup.old markup.new
            (shade_of self.now.layout.chain from to ∷ []) }
        ensures read { OnOk result (reading markup.new ≡ reading markup.old) }
    {
        let corner = Point::at(u32::from(from), u32::from(AXIS));
        let width = u32::from(to.saturating_sub(from));
        let height = u32::from(self.layout.chain.saturating_sub(AXIS));
        markup.block("shade", corner, width, height)
    }

    /// Draws the axis, with the numbers of events between columns, and what it counts.
    pub(crate) fn draw_axis(&self, alloc: Global, markup: &mut Markup) -> Result<(), AllocError>
        ensures draws { Draws result markup.old markup.new
            (axis self.now.subject self.now.layout.end 52 (map seen self.now.columns.items)) }
        ensures read { OnOk result (reading markup.new ≡ reading markup.old) }
    {
        let mut from = LEFT;
        for column in &self.columns {
            draw_stretch(alloc, from, column, markup)?;
            from = column.x;
        }
        let end = Point::at(u32::from(self.layout.end), MIDDLE);
        markup.line("axis", Point::at(u32::from(from), MIDDLE), end)?;
        markup.label("name", Point::at(8, MIDDLE + 3), self.subject.time_unit())
    }

    /// Draws the chain of the history.
    pub(crate) fn draw_chain(&self, markup: &mut Markup) -> Result<(), AllocError>
        ensures draws { Draws result markup.old markup.new (chain_shapes (seen_band self.now)) }
        ensures read { OnOk result (reading markup.new ≡ reading markup.old) }
    {
        let ground = u32::from(self.layout.chain.saturating_sub(3));
        let knot = self.layout.knot();
        markup.line(
            "ground",
            Point::at(8, ground),
            Point::at(u32::from(RIGHT), ground),
        )?;
        self.draw_name(markup)?;
        self.draw_opening(markup)?;
        let places = self.places_behind();
        let ends = self
            .layout
            .chain_ends(places, self.columns.as_slice(), self.is_last);
        let Some((from, to)) = ends else {
            return Ok(());
        };
        let from = Point::at(u32::from(from), knot);
        markup.line("chain", from, Point::at(u32::from(to), knot))
    }

    /// Returns after how many positions of the history its chain goes on at the left edge: none where the words of the store
    /// begin it.
    fn places_behind(&self) -> u64
        ensures { result ≡ places_behind self.now.opens.items self.now.before.places }
    {
        if self.opens.is_empty() {
            self.before.places
        } else {
            0
        }
    }

    /// Draws the name of the lowest lane, if it is a history.
    fn draw_name(&self, markup: &mut Markup) -> Result<(), AllocError>
        ensures draws { Draws result markup.old markup.new
            (history_name (has_history self.now.subject) (knot_of self.now.layout)) }
        ensures read { OnOk result (reading markup.new ≡ reading markup.old) }
    {
        if !self.subject.has_history() {
            return Ok(());
        }
        markup.label("name", Point::at(8, self.layout.knot() + 3), b"history")
    }

    /// Draws the words of the opening store.
    fn draw_opening(&self, markup: &mut Markup) -> Result<(), AllocError>
        ensures draws { Draws result markup.old markup.new
            (opening_words (knot_of self.now.layout) self.now.opens.items) }
        ensures read { OnOk result (reading markup.new ≡ reading markup.old) }
    {
        if self.opens.is_empty() {
            return Ok(());
        }
        let at = Point::at(62, self.layout.knot() + 4);
        markup.label("store", at, self.opens.as_slice())
    }
}

/// Draws the axis up to a column.
fn draw_stretch(
    alloc: Global,
    from: u16,
    column: &Column,
    markup: &mut Markup,
) -> Result<(), AllocError>
    ensures draws { Draws result markup.old markup.new (axis_up_to from (seen column.now)) }
    ensures read { OnOk result (reading markup.new ≡ reading markup.old) }
{
    draw_axis_line(from, column, markup)?;
    draw_tick(column, markup)?;
    draw_gap(alloc, from, column, markup)
}

/// Draws the axis up to a column, dotted where there are more events than pixels.
fn draw_axis_line(from: u16, column: &Column, markup: &mut Markup) -> Result<(), AllocError>
    ensures draws { Draws result markup.old markup.new (axis_line from (seen column.now) ∷ []) }
    ensures read { OnOk result (reading markup.new ≡ reading markup.old) }
{
    let pixels = column.x.saturating_sub(from);
    let start = Point::at(u32::from(from), MIDDLE);
    let end = Point::at(u32::from(column.x), MIDDLE);
    if column.gap > u64::from(pixels) {
        markup.line("far", start, end)
    } else {
        markup.line("axis", start, end)
    }
}

/// Draws the tick of a column that has an event.
fn draw_tick(column: &Column, markup: &mut Markup) -> Result<(), AllocError>
    ensures draws { Draws result markup.old markup.new (tick (seen column.now)) }
    ensures read { OnOk result (reading markup.new ≡ reading markup.old) }
{
    if column.event.is_none() {
        return Ok(());
    }
    let x = u32::from(column.x);
    markup.line("axis", Point::at(x, MIDDLE - 3), Point::at(x, MIDDLE + 3))
}

/// Draws the number of events before a column, if they are more than one and it has room.
fn draw_gap(
    alloc: Global,
    from: u16,
    column: &Column,
    markup: &mut Markup,
) -> Result<(), AllocError>
    ensures draws { Draws result markup.old markup.new (gap_words from (seen column.now)) }
    ensures read { OnOk result (reading markup.new ≡ reading markup.old) }
{
    if column.gap <= 1 {
        return Ok(());
    }
    let pixels = column.x.saturating_sub(from);
    let digits = column.gap.to_string(alloc)?;
    if room(digits.len(), DIGIT).saturating_add(8) > pixels {
        return Ok(());
    }
    let x = (u32::from(from) + u32::from(column.x)) / 2;
    markup.label("gap", Point::at(x, MIDDLE - 3), digits.as_bytes())
}

/// Returns the place since which a process has been inside, after a column.
fn inside_from(from: Option<u16>, is_inside: bool, x: u16) -> Option<u16>
    ensures { result ≡ inside_since from is_inside x }
{
    if is_inside { from.or(Some(x)) } else { None }
}
