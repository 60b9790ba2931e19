//! The bars of a lane: the stages of its process.
ghost use Rattle.std.specs.Prelude.{◌≡◌, OnOk};
ghost use Rattle.picture.specs.Adding.{Draws};
ghost use Rattle.markup.specs.{reading};
ghost use Rattle.picture.specs.Bars.{bar, height_of, is_stage, lane_name, lane_rule};
ghost use Rattle.picture.specs.Drawings.{lane_shapes, seen_band};

use crate::bands::Band;
use markup::{Markup, Point};
use model::Stage;
use picture_layout::{LEFT, Lane, RIGHT};
use std::alloc::{AllocError, Global};

impl Band {
    /// Draws the name of a lane and its bars.
    pub(crate) fn draw_lane(
        &self,
        alloc: Global,
        process: u8,
        markup: &mut Markup,
    ) -> Result<(), AllocError>
        ensures draws { Draws result markup.old markup.new
            (lane_shapes (seen_band self.now) process) }
        ensures read { OnOk result (reading markup.new ≡ reading markup.old) }
    {
        let lane = self.layout.lane(process);
        draw_name(alloc, process, lane, markup)?;
        let mut from = LEFT;
        let mut stage = self.before.stage(process);
        for column in &self.columns {
            let next = column.after.stage(process);
            if is_same(next, stage) {
                continue;
            }
            draw_bar(lane, stage, from, column.x, markup)?;
            from = column.x;
            stage = next;
        }
        draw_bar(lane, stage, from, self.layout.end, markup)
    }
}

/// Returns whether two stages are equal.
fn is_same(stage: Stage, other: Stage) -> bool
    ensures { result ≡ is_stage stage other }
{
    stage == other
}

/// Draws the name of a lane, and the rule above it.
fn draw_name(alloc: Global, process: u8, lane: Lane, markup: &mut Markup) -> Result<(), AllocError>
    ensures draws { Draws result markup.old markup.new (lane_name lane process) }
    ensures read { OnOk result (reading markup.new ≡ reading markup.old) }
{
    draw_rule(process, lane, markup)?;
    let name = format!(in alloc; "P{process}")?;
    let at = Point::at(8, lane.bar() + 4);
    if lane.is_full {
        markup.label("lane", at, name.as_bytes())
    } else {
        markup.label("thin", at, name.as_bytes())
    }
}

/// Draws the rule between a lane and the one above it.
fn draw_rule(process: u8, lane: Lane, markup: &mut Markup) -> Result<(), AllocError>
    ensures draws { Draws result markup.old markup.new (lane_rule lane process) }
    ensures read { OnOk result (reading markup.new ≡ reading markup.old) }
{
    if process == 0 {
        return Ok(());
    }
    let top = u32::from(lane.top);
    markup.line("rule", Point::at(8, top), Point::at(u32::from(RIGHT), top))
}

/// Draws a stage from one place to another.
fn draw_bar(
    lane: Lane,
    stage: Stage,
    from: u16,
    to: u16,
    markup: &mut Markup,
) -> Result<(), AllocError>
    ensures draws { Draws result markup.old markup.new (bar lane stage from to) }
    ensures read { OnOk result (reading markup.new ≡ reading markup.old) }
{
    let middle = lane.bar();
    let x = u32::from(from);
    if stage == Stage::Idle {
        let end = Point::at(u32::from(to), middle);
        return markup.line("idle", Point::at(x, middle), end);
    }
    if to <= from {
        return Ok(());
    }
    let height = bar_height(lane, stage);
    let corner = Point::at(x, middle.saturating_sub(height / 2));
    markup.block(stage.word(), corner, u32::from(to - from), height)
}

/// Returns the height of the bar of a stage.
fn bar_height(lane: Lane, stage: Stage) -> u32
    ensures { result ≡ height_of lane stage }
{
    let full = match stage {
        Stage::Inside => 24,
        Stage::Leaving => 8,
        _ => 14,
    };
    if lane.is_full { full } else { full / 2 }
}
