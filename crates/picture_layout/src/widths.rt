//! The number of pixels that the words of a column take.
ghost use Rattle.std.specs.Prelude.{◌≡◌, map, IfOk};
ghost use Rattle.picture_layout.specs.Columns.{digits_of, knot_width, longest_row, pair_of, wording};
ghost use Rattle.picture_layout.specs.Reported.{change_reported};

use crate::line_contents::RunLine;
use crate::measures::{CHARACTER, DIGIT, PAD, room};
use crate::rows::TextRow;
use std::alloc::{AllocError, Global};

/// Returns the number of digits of a number, or 0 if there is none.
pub(crate) fn digits(alloc: Global, number: Option<u64>) -> Result<usize, AllocError>
    ensures { IfOk result (λ digits. digits ≡ digits_of number) }
{
    match number {
        Some(number) => Ok(number.to_string(alloc)?.len()),
        None => Ok(0),
    }
}

/// Returns the number of characters of the longest of these rows.
pub(crate) fn longest(rows: &[TextRow]) -> usize
    ensures { result ≡ longest_row (map wording rows.now) }
{
    let mut longest: usize = 0;
    for row in rows {
        longest = longest.max(row.characters);
    }
    longest
}

/// Returns the number of characters of the pair that the command of a line changed.
fn pair_length(line: &RunLine) -> usize
    ensures { result ≡ pair_of (change_reported line.now.line_content) }
{
    match line.change() {
        Some(change) => change.pair.len(),
        None => 0,
    }
}

/// Returns the number of pixels that a line with a place in the history takes in its lane.
pub(crate) fn width_of_knot(alloc: Global, line: &RunLine) -> Result<u16, AllocError>
    ensures { IfOk result (λ width. width ≡ knot_width line.now) }
{
    let knot = room(digits(alloc, line.place())?, DIGIT).saturating_add(14);
    let words = room(pair_length(line), CHARACTER).saturating_add(2);
    Ok(knot.max(words).saturating_add(PAD))
}
