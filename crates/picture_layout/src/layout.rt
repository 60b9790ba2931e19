//! The heights of the lanes of a band, and the position of its waves.
ghost use Rattle.std.specs.Prelude.{◌≡◌, ◌<◌, ◌≤◌, ◌^◌, map, None, Some};
ghost use Rattle.picture_layout.specs.AccessStates.{seen_accesses};
ghost use Rattle.picture_layout.specs.Columns.{seen};
ghost use Rattle.picture_layout.specs.Layouts.{access_room, bar_of, boxes_of, chain_ends_of, changes, first_lanes, has_column, knot_of, knots_from, lane_height, lane_in, lanes_end, layout_of, room_below_of, shows_access, top_of, wave_row, waves_top, with_knot};

use crate::access_state::AccessState;
use crate::columns::Column;
use crate::measures::{LEFT, RIGHT, room};
use crate::placing::last_place;

/// The height of the axis.
pub const AXIS: u16 = 20;

/// The position of the lanes of a band.
#[derive(Clone, Copy)]
pub struct Layout {
    lanes: [Lane; 16],
    /// The top of the lane of the history.
    pub chain: u16,
    /// The top of the waves.
    pub waves: u16,
    /// The height of the band.
    pub height: u16,
    /// The right end of the lanes.
    pub end: u16,
}

/// The position of a lane.
#[derive(Clone, Copy)]
pub struct Lane {
    /// Its top.
    pub top: u16,
    /// Whether a column is in it.
    pub is_full: bool,
}

impl Lane {
    /// Returns its middle line.
    pub fn bar(&self) -> u32
        ensures small { result < 2 ^ 17 }
        ensures exact { result ≡ bar_of self.now }
    {
        u32::from(self.top) + if self.is_full { 49 } else { 9 }
    }

    /// Returns the top of the boxes of accesses.
    pub fn boxes(&self) -> u32
        ensures small { result < 2 ^ 17 }
        ensures exact { result ≡ boxes_of self.now }
    {
        u32::from(self.top) + if self.is_full { 74 } else { 22 }
    }
}

impl Layout {
    /// Returns the lanes and waves of a band of these columns, before which these accesses are open.
    pub fn new(processes: u8, accesses: &AccessState, columns: &[Column], is_last: bool) -> Layout
        ensures { result ≡
            layout_of processes (seen_accesses accesses.now) (map seen columns.now) is_last }
    {
        let chain = top_below(accesses, columns, processes.min(16)) + 6;
        let waves = chain + 30 + room_below(columns);
        Layout {
            lanes: lanes(processes, accesses, columns),
            chain,
            waves,
            height: waves.saturating_add(room(accesses.waves.len(), 30)),
            end: lanes_right(columns, is_last),
        }
    }

    /// Returns the top of the row of a wave.
    pub fn wave_row(&self, row: usize) -> u16
        ensures { result ≡ wave_row self.now row }
    {
        self.waves.saturating_add(room(row, 30))
    }

    /// Returns the lane of a process.
    pub fn lane(&self, process: u8) -> Lane
        ensures { result ≡ lane_in self.now process }
    {
        match self.lanes.get(usize::from(process)) {
            Some(lane) => *lane,
            None => Lane {
                top: AXIS,
                is_full: false,
            },
        }
    }

    /// Returns the middle line of the lane of the history.
    pub fn knot(&self) -> u32
        ensures small { result < 2 ^ 17 }
        ensures exact { result ≡ knot_of self.now }
    {
        u32::from(self.chain) + 16
    }

    /// Returns the left and the right end of the chain of the history, if there is a knot among these columns, or one of the
    /// `places` before them.
    pub fn chain_ends(&self, places: u64, columns: &[Column], is_last: bool) -> Option<(u16, u16)>
        ensures { result ≡ chain_ends_of places is_last self.now.end (map seen columns.now) }
    {
        match knots(columns) {
            Some((first, last)) => Some((
                if places == 0 { first } else { LEFT },
                if is_last { last } else { self.end },
            )),
            None if places == 0 => None,
            None => Some((LEFT, self.end)),
        }
    }
}

/// Returns the positions of the first and the last knot of these columns.
fn knots(columns: &[Column]) -> Option<(u16, u16)>
    ensures { result ≡ knots_from None (map seen columns.now) }
{
    let mut ends = None;
    for column in columns {
        if column.taken().is_some() {
            ends = Some(with_last(ends, column.x));
        }
    }
    ends
}

/// Returns the first and the last of some knots, with one more knot.
fn with_last(ends: Option<(u16, u16)>, x: u16) -> (u16, u16)
    ensures { Some result ≡ with_knot ends x }
{
    match ends {
        Some((first, _)) => (first, x),
        None => (x, x),
    }
}

/// Returns the lanes of a band of these columns.
fn lanes(processes: u8, accesses: &AccessState, columns: &[Column]) -> [Lane; 16]
    ensures { result ≡
        first_lanes processes (seen_accesses accesses.now) (map seen columns.now) 16 }
{
    let mut lanes = [Lane {
        top: 0,
        is_full: false,
    }; 16];
    for process in 0..16 {
        lanes[usize::from(process)] = Lane {
            top: if process < processes {
                top_below(accesses, columns, process)
            } else {
                0
            },
            is_full: lies_in_lane(columns, process),
        };
    }
    lanes
}

/// Returns the top of the lane of a process, which is below those of lower numbers.
fn top_below(accesses: &AccessState, columns: &[Column], process: u8) -> u16
    requires { process ≤ 16 }
    ensures exact { result ≡ top_of (seen_accesses accesses.now) (map seen columns.now) process }
    ensures small { result ≤ 1780 }
{
    let mut top = AXIS;
    for other in 0..process {
        top += height(lies_in_lane(columns, other)) + room_for_accesses(accesses, columns, other);
    }
    top
}

/// Returns the height of a lane.
fn height(is_full: bool) -> u16
    ensures exact { result ≡ lane_height is_full }
    ensures small { result ≤ 70 }
{
    if is_full { 70 } else { 18 }
}

/// Returns the height of the room for accesses in the lane of a process.
fn room_for_accesses(accesses: &AccessState, columns: &[Column], process: u8) -> u16
    ensures exact { result ≡
        access_room (seen_accesses accesses.now) (map seen columns.now) process }
    ensures small { result ≤ 40 }
{
    let is_open = accesses.open_access(process).is_some();
    if is_open || shows_access_in_lane(columns, process) {
        40
    } else {
        0
    }
}

/// Returns whether a column shows an access in the lane of a process.
fn shows_access_in_lane(columns: &[Column], process: u8) -> bool
    ensures { result ≡ shows_access (map seen columns.now) process }
{
    for column in columns {
        if column.lane == Some(process) && column.access.is_some() {
            return true;
        }
    }
    false
}

/// Returns whether a column is in the lane of a process.
fn lies_in_lane(columns: &[Column], process: u8) -> bool
    ensures { result ≡ has_column (map seen columns.now) process }
{
    for column in columns {
        if column.lane == Some(process) {
            return true;
        }
    }
    false
}

/// Returns the right end of the lanes.
fn lanes_right(columns: &[Column], is_last: bool) -> u16
    ensures { result ≡ lanes_end (map seen columns.now) is_last }
{
    if is_last && !columns.is_empty() {
        last_place(columns).saturating_add(8)
    } else {
        RIGHT
    }
}

/// Returns the height that the lane of the history needs below its knots, for a line of the run or for a pair.
fn room_below(columns: &[Column]) -> u16
    ensures exact { result ≡ room_below_of (map seen columns.now) }
    ensures small { result ≤ 28 }
{
    let mut room = 0;
    for column in columns {
        if column.lane.is_none() {
            return 28;
        }
        if changes_the_store(column) {
            room = 14;
        }
    }
    room
}

/// Returns whether a column has a command that changed the store.
fn changes_the_store(column: &Column) -> bool
    ensures { result ≡ changes (seen column.now) }
{
    match column.taken() {
        Some(line) => line.change().is_some(),
        None => false,
    }
}
