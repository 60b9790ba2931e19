//! The ties between accesses that overlap.
ghost use Rattle.std.specs.Prelude.{◌≡◌, ◌<◌, ◌^◌, [], ◌∷◌, OnOk};
ghost use Rattle.picture.specs.Adding.{Draws};
ghost use Rattle.markup.specs.{reading};
ghost use Rattle.picture_layout.specs.{seen};
ghost use Rattle.picture.specs.AccessShapes.{dot, tie, tie_between, tie_to, ties, ties_to};

use crate::bands::Band;
use crate::signs::moved;
use markup::{Markup, Point};
use picture_layout::{Column, Layout, ShownAccess};
use std::alloc::AllocError;

impl Band {
    /// Draws the ties of a column, if it shows an access.
    pub(crate) fn draw_ties_of(
        &self,
        column: &Column,
        markup: &mut Markup,
    ) -> Result<(), AllocError>
        ensures draws { Draws result markup.old markup.new
            (ties self.now.layout (seen column.now)) }
        ensures read { OnOk result (reading markup.new ≡ reading markup.old) }
    {
        match &column.access {
            Some(access) => draw_ties_to(&self.layout, column.x, access, markup),
            None => Ok(()),
        }
    }
}

/// Draws the ties from an access to those of all processes that it overlaps.
fn draw_ties_to(
    layout: &Layout,
    x: u16,
    access: &ShownAccess,
    markup: &mut Markup,
) -> Result<(), AllocError>
    ensures draws { Draws result markup.old markup.new (ties_to layout.now x access.now 16) }
    ensures read { OnOk result (reading markup.new ≡ reading markup.old) }
{
    for process in 0..16 {
        draw_tie_to(layout, x, access, process, markup)?;
    }
    Ok(())
}

/// Draws the tie from an access to that of a process, if it overlaps it.
fn draw_tie_to(
    layout: &Layout,
    x: u16,
    access: &ShownAccess,
    process: u8,
    markup: &mut Markup,
) -> Result<(), AllocError>
    ensures draws { Draws result markup.old markup.new (tie_to layout.now x access.now process) }
    ensures read { OnOk result (reading markup.new ≡ reading markup.old) }
{
    if !access.is_over(process) {
        return Ok(());
    }
    let own = layout.lane(access.process).boxes();
    let other = layout.lane(process).boxes();
    if own < other {
        draw_tie(u32::from(x), own, other, markup)
    } else {
        draw_tie(u32::from(x), other, own, markup)
    }
}

/// Draws a tie from a box to one below it.
fn draw_tie(x: u32, upper: u32, lower: u32, markup: &mut Markup) -> Result<(), AllocError>
    requires { upper < 2 ^ 17 }
    ensures draws { Draws result markup.old markup.new (tie x upper lower) }
    ensures read { OnOk result (reading markup.new ≡ reading markup.old) }
{
    let foot = upper + 28;
    markup.line("tie", Point::at(x, foot), Point::at(x, lower))?;
    draw_dot(x, foot, markup)?;
    draw_dot(x, lower, markup)
}

/// Draws a dot.
fn draw_dot(x: u32, y: u32, markup: &mut Markup) -> Result<(), AllocError>
    ensures draws { Draws result markup.old markup.new (dot x y ∷ []) }
    ensures read { OnOk result (reading markup.new ≡ reading markup.old) }
{
    let rest = "a3 3 0 1 0 6 0a3 3 0 1 0 -6 0";
    markup.path("dot", moved(Point::at(x, y), 3, 0), rest)
}
