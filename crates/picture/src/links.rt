//! The links from one lane to another.
ghost use Rattle.std.specs.Prelude.{◌≡◌, ◌≤◌, OnOk};
ghost use Rattle.picture.specs.Adding.{Draws};
ghost use Rattle.markup.specs.{reading};
ghost use Rattle.picture_layout.specs.{seen};
ghost use Rattle.picture.specs.Drawings.{arrow, arrow_by, distance_of_tip, drop_line, freed_arrow, links, seen_band};

use crate::bands::Band;
use markup::{Markup, Point};
use picture_layout::{Column, Lane};
use std::alloc::{AllocError, Global};

impl Band {
    /// Draws the arrow to the process that a column's process frees, the line to its knot, and the bracket of its read.
    pub(crate) fn draw_links(
        &self,
        alloc: Global,
        column: &Column,
        markup: &mut Markup,
    ) -> Result<(), AllocError>
        ensures draws { Draws result markup.old markup.new
            (links (seen_band self.now) (seen column.now)) }
        ensures read { OnOk result (reading markup.new ≡ reading markup.old) }
    {
        let Some(process) = column.lane else {
            return Ok(());
        };
        let x = u32::from(column.x);
        let from = Point::at(x, self.layout.lane(process).bar());
        self.draw_freed(from, column.frees, markup)?;
        self.draw_drop(from, column, markup)?;
        match &column.read {
            Some(read) => self.draw_open(alloc, read, x, markup),
            None => Ok(()),
        }
    }

    /// Draws the line from a column to its knot, if it has one.
    fn draw_drop(&self, from: Point, column: &Column, markup: &mut Markup) -> Result<(), AllocError>
        ensures draws { Draws result markup.old markup.new
            (drop_line self.now.layout from (seen column.now)) }
        ensures read { OnOk result (reading markup.new ≡ reading markup.old) }
    {
        if column.taken().is_none() {
            return Ok(());
        }
        markup.line("drop", from, Point::at(from.x, self.layout.knot()))
    }

    /// Draws an arrow to the lane of the process that is freed, if one is, from above or from below.
    fn draw_freed(
        &self,
        from: Point,
        frees: Option<u8>,
        markup: &mut Markup,
    ) -> Result<(), AllocError>
        ensures draws { Draws result markup.old markup.new
            (freed_arrow self.now.layout from frees) }
        ensures read { OnOk result (reading markup.new ≡ reading markup.old) }
    {
        let Some(freed) = frees else {
            return Ok(());
        };
        draw_arrow_to("frees", "tip", from, self.layout.lane(freed), markup)
    }
}

/// Draws an arrow to a lane, from above or from below, by the styles of its line and of its tip.
pub(crate) fn draw_arrow_to(
    line_style: &str,
    tip_style: &str,
    from: Point,
    lane: Lane,
    markup: &mut Markup,
) -> Result<(), AllocError>
    ensures draws { Draws result markup.old markup.new
        (arrow line_style.now tip_style.now from lane) }
    ensures read { OnOk result (reading markup.new ≡ reading markup.old) }
{
    let bar = lane.bar();
    if bar > from.y {
        let tip = bar.saturating_sub(tip_distance(lane));
        let end = tip.saturating_sub(5);
        draw_arrow(line_style, tip_style, from, end, tip, "l-4 -7h8z", markup)
    } else {
        let tip = bar + tip_distance(lane);
        draw_arrow(
            line_style,
            tip_style,
            from,
            tip + 5,
            tip,
            "l-4 7h8z",
            markup,
        )
    }
}

/// Returns the distance from the middle line of a lane to the tip of an arrow.
fn tip_distance(lane: Lane) -> u32
    ensures small { result ≤ 9 }
    ensures exact { result ≡ distance_of_tip lane }
{
    if lane.is_full { 9 } else { 5 }
}

/// Draws an arrow: its line down or up to a place, and its head from its tip on.
fn draw_arrow(
    line_style: &str,
    tip_style: &str,
    from: Point,
    end: u32,
    tip: u32,
    head: &str,
    markup: &mut Markup,
) -> Result<(), AllocError>
    ensures draws { Draws result markup.old markup.new
        (arrow_by line_style.now tip_style.now from end tip head.now) }
    ensures read { OnOk result (reading markup.new ≡ reading markup.old) }
{
    markup.line(line_style, from, Point::at(from.x, end))?;
    markup.path(tip_style, Point::at(from.x, tip), head)
}
