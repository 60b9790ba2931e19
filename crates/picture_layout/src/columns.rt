//! A column: an event with its marks and its access, a line without an event, or a read that a write overlapped.
ghost use Rattle.std.specs.Prelude.{◌≡◌, ◌++◌, [], ◌∷◌, IfOk, OnOk, is_some, option_copied};
ghost use Rattle.picture_layout.specs.Columns.{GivesRows, alone, column_of_access, column_of_read, joined, joins, lane_among, rows_of_lines, seen, settles_and_takes_in, taken_in, width_below_of, width_of};
ghost use Rattle.picture_layout.specs.Accesses.{access_characters};
ghost use Rattle.picture_layout.specs.Reported.{text_of, reported_in};

use crate::accesses::ShownAccess;
use crate::line_contents::RunLine;
use crate::measures::{CHARACTER, DIGIT, PAD, room};
use crate::reads::OverlappedRead;
use crate::rows::{TextRow, rows_alone, rows_shared};
use crate::state::State;
use crate::widths::{digits, longest, width_of_knot};
use std::alloc::{AllocError, Global};

/// A column of a band.
#[derive(Drop)]
pub struct Column {
    /// The number of events that were accepted before it.
    pub at: u64,
    /// The number of its event.
    pub event: Option<u64>,
    /// The process in whose lane it is, or `None` for the lane of the history.
    pub lane: Option<u8>,
    /// The number of events since the column before.
    pub gap: u64,
    /// One line, or the two marks of an event. A read has none, and neither has an access without a mark.
    pub lines: Vec<RunLine>,
    /// The read that it shows, if it shows one.
    pub read: Option<OverlappedRead>,
    /// The access that it shows, if it shows one.
    pub access: Option<ShownAccess>,
    /// One row or two.
    pub rows: Vec<TextRow>,
    /// The process that its process frees.
    pub frees: Option<u8>,
    /// The state after its last line.
    pub after: State,
    /// Its left edge.
    pub x: u16,
}

impl Column {
    /// Returns the column of a line alone, before it is placed.
    ///
    /// # Errors
    ///
    /// Returns [`AllocError`] if an allocation fails.
    pub fn new(
        alloc: Global,
        line: RunLine,
        gap: u64,
        frees: Option<u8>,
        after: State,
    ) -> Result<Column, AllocError>
        ensures reported { IfOk result (λ column. reported_in column ≡ text_of line ∷ []) }
        ensures whole { IfOk result (λ column. seen column ≡ alone line gap frees after) }
    {
        let lane = lane_below(after.processes, line.process());
        let rows = rows_alone(alloc, &line, lane.is_some())?;
        let at = line.at;
        let event = line.event();
        let mut lines = Vec::new(alloc);
        lines.push(line)?;
        Ok(Column {
            at,
            event,
            lane,
            gap,
            lines,
            read: None,
            access: None,
            rows,
            frees,
            after,
            x: 0,
        })
    }

    /// Returns the column of a read, before it is placed.
    ///
    /// # Errors
    ///
    /// Returns [`AllocError`] if an allocation fails.
    pub fn of_read(
        alloc: Global,
        read: OverlappedRead,
        gap: u64,
        after: State,
    ) -> Result<Column, AllocError>
        ensures reported { IfOk result (λ column. reported_in column ≡ []) }
        ensures whole { IfOk result (λ column. seen column ≡ column_of_read read gap after) }
    {
        Ok(Column {
            at: read.end,
            event: Some(read.end),
            lane: lane_below(after.processes, Some(read.reader)),
            gap,
            lines: Vec::new(alloc),
            read: Some(read),
            access: None,
            rows: read.rows(alloc)?,
            frees: None,
            after,
            x: 0,
        })
    }

    /// Returns the column of an access, before it is placed.
    pub fn of_access(alloc: Global, access: ShownAccess, gap: u64, after: State) -> Column
        ensures reported { reported_in result ≡ [] }
        ensures whole { seen result ≡ column_of_access access gap after }
    {
        Column {
            at: access.event,
            event: Some(access.event),
            lane: lane_below(after.processes, Some(access.process)),
            gap,
            lines: Vec::new(alloc),
            read: None,
            access: Some(access),
            rows: Vec::new(alloc),
            frees: None,
            after,
            x: 0,
        }
    }

    /// Returns whether a line is a mark of this column's event, for which the column has a row.
    pub fn has_room_for(&self, line: &RunLine) -> bool
        ensures { result ≡ joins (seen self.now) line.now }
    {
        let has_row = !line.is_lock_mark() || self.lines.len() < 2;
        self.read.is_none() && self.event.is_some() && self.event == line.event() && has_row
    }

    /// Adds a mark of the event. Each of two marks has a row.
    ///
    /// # Errors
    ///
    /// Returns [`AllocError`] if an allocation fails.
    pub fn join(
        &mut self,
        alloc: Global,
        line: RunLine,
        frees: Option<u8>,
        after: State,
    ) -> Result<(), AllocError>
        ensures reported { OnOk result
            (reported_in self.new ≡ reported_in self.old ++ text_of line ∷ []) }
        ensures whole { OnOk result (seen self.new ≡ joined (seen self.old) line frees after) }
    {
        self.lines.push(line)?;
        self.rows = self.rows_now(alloc)?;
        self.frees = frees.or(self.frees);
        self.after = after;
        Ok(())
    }

    /// Returns the rows of its lines.
    fn rows_now(&self, alloc: Global) -> Result<Vec<TextRow>, AllocError>
        ensures { GivesRows result (rows_of_lines (is_some self.now.lane) self.now.lines.items) }
    {
        match self.lines.as_slice() {
            [line] => rows_alone(alloc, line, self.lane.is_some()),
            lines => rows_shared(alloc, lines),
        }
    }

    /// Returns the line with a position in the history, if one has it.
    pub fn taken(&self) -> Option<&RunLine>
        ensures { option_copied result ≡ taken_in (seen self.now) }
    {
        self.lines.iter().find(|line| line.place().is_some())
    }

    /// Returns the width of its words in its lane, in pixels.
    pub(crate) fn width(&self, alloc: Global) -> Result<u16, AllocError>
        ensures { IfOk result (λ width. width ≡ width_of (seen self.now)) }
    {
        let number = room(digits(alloc, self.event)?, DIGIT);
        let words = longest(self.rows.as_slice()).max(self.access_length());
        Ok(number.max(room(words, CHARACTER)).saturating_add(PAD))
    }

    /// Returns the number of characters of the longest row of its access.
    fn access_length(&self) -> usize
        ensures { result ≡ access_characters self.now.access }
    {
        match &self.access {
            Some(access) => access.characters(),
            None => 0,
        }
    }

    /// Returns its width in the lane of the history, in pixels, or 0 if it is in another lane.
    pub(crate) fn width_below(&self, alloc: Global) -> Result<Option<u16>, AllocError>
        ensures { IfOk result (λ width. width ≡ width_below_of (seen self.now)) }
    {
        if self.lane.is_none() {
            return Ok(Some(self.width(alloc)?.saturating_add(4)));
        }
        match self.taken() {
            Some(line) => Ok(Some(width_of_knot(alloc, line)?)),
            None => Ok(None),
        }
    }

    /// Returns whether its event settled a torn bit and took a command.
    pub fn settles_and_takes(&self) -> bool
        ensures { result ≡ settles_and_takes_in (seen self.now) }
    {
        self.lines.len() == 2 && self.taken().is_some()
    }
}

/// Returns the lane of a process, if its number is below `processes`.
fn lane_below(processes: u8, process: Option<u8>) -> Option<u8>
    ensures { result ≡ lane_among processes process }
{
    match process {
        Some(process) if process < processes => Some(process),
        _ => None,
    }
}
