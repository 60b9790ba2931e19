//! The signs at the foot of a column.
ghost use Rattle.std.specs.Prelude.{◌≤◌, ◌≡◌, OnOk};
ghost use Rattle.picture.specs.Adding.{Draws};
ghost use Rattle.markup.specs.{reading};
ghost use Rattle.picture.specs.Signs.{down_by, mark_sign, moved_by, settled_sign, sign, taken_sign};

use markup::{Markup, Point};
use model::Mark;
use picture_layout::{DIGIT, LineContent, RunLine, drawn_like, room};
use std::alloc::{AllocError, Global};

/// Draws the sign of a line at a place.
pub(crate) fn draw_sign(
    alloc: Global,
    line: &RunLine,
    at: Point,
    markup: &mut Markup,
) -> Result<(), AllocError>
    ensures draws { Draws result markup.old markup.new (sign line.now.line_content at) }
    ensures read { OnOk result (reading markup.new ≡ reading markup.old) }
{
    match &line.line_content {
        LineContent::Marked { mark, change, .. } => {
            draw_mark(alloc, mark, change.is_some(), at, markup)
        }
        LineContent::LockMarked { mark, .. } => {
            draw_mark(alloc, &drawn_like(*mark), false, at, markup)
        }
        LineContent::Refused { .. } => {
            let rest = "a6 6 0 1 0 12 0a6 6 0 1 0 -12 0m2 4l8 -8";
            markup.path("no-sign", moved(at, 6, 0), rest)
        }
        LineContent::Tired(_) => markup.path("glass", moved(at, 6, 7), "h12l-12 14h12z"),
        LineContent::Shown(_) | LineContent::Ended { .. } | LineContent::LockEnded { .. } => {
            markup.block("sign", moved(at, 2, 5), 4, 10)
        }
    }
}

/// Draws the sign of a mark. `changed` is whether its command changed the store.
fn draw_mark(
    alloc: Global,
    mark: &Mark,
    changed: bool,
    at: Point,
    markup: &mut Markup,
) -> Result<(), AllocError>
    ensures draws { Draws result markup.old markup.new (mark_sign mark.now changed at) }
    ensures read { OnOk result (reading markup.new ≡ reading markup.old) }
{
    match mark {
        Mark::Called(_) => markup.path("sign", moved(at, 0, 5), "l8 5l-8 5z"),
        Mark::Answered(_) => markup.block("sign", moved(at, 3, 4), 7, 8),
        Mark::Failed => markup.path("cross", moved(at, 6, 6), "l12 12m0 -12l-12 12"),
        Mark::Settled(value) => draw_settled(*value, at, markup),
        Mark::Taken(place, _) => draw_taken(alloc, *place, changed, at, markup),
        Mark::Down => markup.block("sign", moved(at, 2, 9), 4, 18),
        Mark::Restarted => markup.ring("ring", at),
        Mark::Withdrew => markup.path("back", moved(at, 5, 0), "l9 -6v12z"),
        Mark::Waiting(_) | Mark::Entered | Mark::Left => Ok(()),
    }
}

fn draw_settled(value: bool, at: Point, markup: &mut Markup) -> Result<(), AllocError>
    ensures draws { Draws result markup.old markup.new (settled_sign value at) }
    ensures read { OnOk result (reading markup.new ≡ reading markup.old) }
{
    markup.path("diamond", moved(at, 0, 9), "l9 9l-9 9l-9 -9z")?;
    let digit: &[u8] = if value { b"1" } else { b"0" };
    markup.label("in", below(at, 3), digit)
}

/// Draws a position of the history.
fn draw_taken(
    alloc: Global,
    place: u64,
    changed: bool,
    at: Point,
    markup: &mut Markup,
) -> Result<(), AllocError>
    ensures draws { Draws result markup.old markup.new (taken_sign changed place at) }
    ensures read { OnOk result (reading markup.new ≡ reading markup.old) }
{
    let digits = place.to_string(alloc)?;
    let width = u32::from(room(digits.len(), DIGIT).saturating_add(10));
    let corner = moved(at, width / 2, 8);
    markup.pill(if changed { "pill" } else { "pill-o" }, corner, width)?;
    let style = if changed { "in-w" } else { "in" };
    markup.label(style, below(at, 3), digits.as_bytes())
}

/// Returns the place at this distance to the left of another and above it.
pub(crate) fn moved(at: Point, left: u32, up: u32) -> Point
    ensures place { result ≡ moved_by at left up }
    ensures x { result.x ≤ at.x }
    ensures y { result.y ≤ at.y }
{
    Point::at(at.x.saturating_sub(left), at.y.saturating_sub(up))
}

/// Returns the place at this distance below another.
pub(crate) fn below(at: Point, down: u32) -> Point
    ensures { result ≡ down_by at down }
{
    Point::at(at.x, at.y.saturating_add(down))
}
