//! The positions of the columns of a band.
ghost use Rattle.std.specs.Prelude.{◌≡◌, ◌≤◌, ◌+◌, ◌-◌, ◌*◌, ◌/◌, ◌<◌, flat_map, IfOk, map, OnOk};
ghost use Rattle.picture_layout.specs.Columns.{capped, seen};
ghost use Rattle.picture_layout.specs.Overlaps.{between};
ghost use Rattle.picture_layout.specs.Placings.{doublings, drawn_apart, end_in, end_of_words, event_position, has_room_at, lanes_ended, last_of, left_of, moved_to, place_of, placing_at_first, put_at, room_of, stretched_all};
ghost use Rattle.picture_layout.specs.Reported.{reported_in};

use crate::columns::Column;
use crate::measures::{CHARACTER, LEFT, RIGHT, room};
use std::alloc::{AllocError, Global};

/// The right ends of the words in each lane of a band so far.
#[derive(Clone, Copy)]
pub struct WordEnds {
    /// The position of the last column, or `None` at the beginning of a band.
    last: Option<u16>,
    lanes: [u16; 16],
    below: u16,
}

/// The position of a column, and the right end of its words.
#[derive(Clone, Copy)]
pub struct ColumnPosition {
    /// Its left edge.
    pub x: u16,
    /// The right end of its words.
    pub end: u16,
}

impl WordEnds {
    /// Returns the placing at the beginning of a band. In the first band the opening store has `opening` characters, otherwise 0.
    pub fn new(opening: usize) -> WordEnds
        ensures { result ≡ placing_at_first opening }
    {
        let below = if opening == 0 {
            0
        } else {
            room(opening, CHARACTER).saturating_add(LEFT + 20)
        };
        WordEnds {
            last: None,
            lanes: [0; 16],
            below,
        }
    }

    /// Returns the position of a column, after the words in its lanes.
    ///
    /// # Errors
    ///
    /// Returns [`AllocError`] if an allocation fails.
    pub fn place(&self, alloc: Global, column: &Column) -> Result<ColumnPosition, AllocError>
        ensures { IfOk result (λ place. place ≡ place_of self.now (seen column.now)) }
    {
        let x = self.left(alloc, column)?;
        let room = room_needed(alloc, column)?;
        Ok(ColumnPosition {
            x,
            end: x.saturating_add(room),
        })
    }

    /// Returns the left edge of a column.
    fn left(&self, alloc: Global, column: &Column) -> Result<u16, AllocError>
        ensures { IfOk result (λ x. x ≡ left_of self.now (seen column.now)) }
    {
        let last = self.last.unwrap_or(LEFT);
        let behind = last.saturating_add(12 + 4 * binary_digits(column.gap));
        let in_lane = self.words_in(column.lane);
        match column.width_below(alloc)? {
            Some(_) => Ok(behind.max(in_lane).max(self.below)),
            None => Ok(behind.max(in_lane)),
        }
    }

    /// Returns the right end of the words in a lane so far.
    fn words_in(&self, lane: Option<u8>) -> u16
        ensures { result ≡ end_in self.now.lanes lane }
    {
        let Some(process) = lane else {
            return 0;
        };
        match self.lanes.get(usize::from(process)) {
            Some(end) => *end,
            None => 0,
        }
    }

    /// Returns whether the band has room for it. An empty band always has.
    pub fn has_room(&self, place: ColumnPosition) -> bool
        ensures { result ≡ has_room_at self.now place }
    {
        self.last.is_none() || place.end <= RIGHT
    }

    /// Puts a column at its position.
    ///
    /// # Errors
    ///
    /// Returns [`AllocError`] if an allocation fails.
    pub fn put(
        &mut self,
        alloc: Global,
        column: &mut Column,
        place: ColumnPosition,
    ) -> Result<(), AllocError>
        ensures reported { OnOk result (reported_in column.new ≡ reported_in column.old) }
        ensures moved { OnOk result (seen column.new ≡ moved_to (seen column.old) place.x) }
        ensures placed { OnOk result (self.new ≡ put_at self.old (seen column.old) place.x) }
    {
        let width = column.width(alloc)?;
        let below = column.width_below(alloc)?;
        self.lanes = with_end(self.lanes, column.lane, place.x.saturating_add(width));
        if let Some(width) = below {
            self.below = place.x.saturating_add(width);
        }
        column.x = place.x;
        self.last = Some(place.x);
        Ok(())
    }
}

/// Returns the right ends of the words in lanes, after those of one lane changed.
fn with_end(lanes: [u16; 16], lane: Option<u8>, end: u16) -> [u16; 16]
    ensures { result ≡ lanes_ended lanes lane end }
{
    let mut lanes = lanes;
    if let Some(process) = lane {
        if usize::from(process) < lanes.len() {
            lanes[usize::from(process)] = end;
        }
    }
    lanes
}

/// Returns the number of binary digits of a number.
fn binary_digits(number: u64) -> u16
    ensures exact { result ≡ doublings number }
    ensures small { result ≤ 64 }
{
    u16::try_from(64u32.saturating_sub(number.leading_zeros())).unwrap_or(64)
}

/// Returns the widths that the words of a column need, in its lane and in that of the history.
fn room_needed(alloc: Global, column: &Column) -> Result<u16, AllocError>
    ensures { IfOk result (λ room. room ≡ room_of (seen column.now)) }
{
    let below = column.width_below(alloc)?.unwrap_or(0);
    match column.lane {
        Some(_) => Ok(column.width(alloc)?.max(below)),
        None => Ok(below),
    }
}

/// Returns the right end of the words of a placed column.
fn words_end(alloc: Global, column: &Column) -> Result<u16, AllocError>
    ensures { IfOk result (λ end. end ≡ capped (column.now.x + room_of (seen column.now))) }
{
    let room = room_needed(alloc, column)?;
    Ok(column.x.saturating_add(room))
}

/// Returns the position of the last column of a band, or the left edge if it has none.
pub(crate) fn last_place(columns: &[Column]) -> u16
    ensures { result ≡ last_of (map seen columns.now) }
{
    let mut last = LEFT;
    for column in columns {
        last = column.x;
    }
    last
}

/// Returns the position of an event among the columns of a band, before which `before_at` events were accepted.
pub fn event_place(columns: &[Column], before_at: u64, event: u64) -> u16
    ensures { result ≡ event_position event (52, before_at) (map seen columns.now) }
{
    let mut left = LEFT;
    let mut at = before_at;
    for column in columns {
        if event <= column.at {
            return place_between(event, (left, at), (column.x, column.at));
        }
        left = column.x;
        at = column.at;
    }
    left
}

/// Returns the position of an event between two positions, each with the number of its event.
fn place_between(event: u64, left: (u16, u64), right: (u16, u64)) -> u16
    requires { event ≤ right.1 }
    ensures { result ≡ between event left right }
{
    if event <= left.1 {
        return left.0;
    }
    let whole = u128::from(right.0.saturating_sub(left.0));
    let pixels = whole * u128::from(event - left.1) / u128::from(right.1 - left.1);
    u16::try_from(u128::from(left.0) + pixels).unwrap_or(u16::MAX)
}

/// Spreads the columns of a band over its width, at most to half as much again. Distances never shrink.
///
/// # Errors
///
/// Returns [`AllocError`] if an allocation fails.
pub fn stretch(alloc: Global, columns: &mut [Column]) -> Result<(), AllocError>
    ensures reported { OnOk result
        (flat_map reported_in columns.new ≡ flat_map reported_in columns.old) }
    ensures apart { OnOk result (map seen columns.new ≡ stretched_all (map seen columns.old)) }
{
    let last = last_place(columns);
    let end = widest_end(alloc, columns)?;
    let old = u32::from(last.saturating_sub(LEFT));
    let free = u32::from((RIGHT - LEFT).saturating_sub(end.saturating_sub(last)));
    let new = free.min(old * 3 / 2);
    if 0 < old && old < new {
        draw_apart(columns, old, new);
    }
    Ok(())
}

/// Returns the right end of the last words of a band.
fn widest_end(alloc: Global, columns: &[Column]) -> Result<u16, AllocError>
    ensures { IfOk result (λ end. end ≡ end_of_words (map seen columns.now)) }
{
    let mut end = 0u16;
    for column in columns {
        end = end.max(words_end(alloc, column)?);
    }
    Ok(end)
}

/// Stretches the positions of columns in this ratio of two widths.
fn draw_apart(columns: &mut [Column], old: u32, new: u32)
    requires { 0 < old }
    ensures reported { flat_map reported_in columns.new ≡ flat_map reported_in columns.old }
    ensures apart { map seen columns.new ≡ map (drawn_apart old new) (map seen columns.old) }
{
    for column in columns.iter_mut() {
        column.x = stretched(column.x, old, new);
    }
}

/// Returns the position of a column after stretching.
fn stretched(x: u16, old: u32, new: u32) -> u16
    requires { 0 < old }
    ensures { result ≡ capped (52 + (x - 52) * new / old) }
{
    let from_left = u64::from(x.saturating_sub(LEFT)) * u64::from(new) / u64::from(old);
    u16::try_from(from_left + u64::from(LEFT)).unwrap_or(u16::MAX)
}
