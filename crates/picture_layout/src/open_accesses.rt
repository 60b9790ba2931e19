//! The accesses that are open after columns.
ghost use Rattle.std.specs.Prelude.{◌≡◌, map, option_copied};
ghost use Rattle.picture_layout.specs.Accesses.{is_any, is_over};
ghost use Rattle.picture_layout.specs.Columns.{seen};
ghost use Rattle.picture_layout.specs.OpenAccesses.{first_open, open_after, open_behind, open_by, open_next, open_of, overlapped_if};

use crate::accesses::{AccessKind, AccessStep, ShownAccess};
use crate::columns::Column;

/// An access that is open.
#[derive(Clone, Copy, PartialEq, Eq)]
pub struct UnendedAccess {
    /// Its kind.
    pub kind: AccessKind,
    /// Whether another access overlaps it, and one of the two writes.
    pub is_overlapped: bool,
}

impl ShownAccess {
    /// Returns the access of its process that is open after it, if one is.
    fn left_open(&self) -> Option<UnendedAccess>
        ensures { result ≡ open_by self.now.step self.now.kind (is_any self.now.overlaps) }
    {
        if self.step == AccessStep::Begin {
            Some(UnendedAccess {
                kind: self.kind,
                is_overlapped: has_any(&self.overlaps),
            })
        } else {
            None
        }
    }

    /// Returns whether it overlaps the access that a process has open.
    pub fn is_over(&self, process: u8) -> bool
        ensures { result ≡ is_over self.now process }
    {
        match self.overlaps.get(usize::from(process)) {
            Some(is_over) => *is_over,
            None => false,
        }
    }

    /// Returns the access that a process has open after this entry.
    fn open_after(&self, process: u8, before: Option<UnendedAccess>) -> Option<UnendedAccess>
        ensures { result ≡ open_behind process before self.now }
    {
        if self.process == process {
            return self.left_open();
        }
        let is_over = self.is_over(process);
        match before {
            Some(access) => Some(access.overlapped_if(is_over)),
            None => None,
        }
    }
}

impl UnendedAccess {
    /// Returns this access, which one more access may overlap.
    fn overlapped_if(self, is_over: bool) -> UnendedAccess
        ensures { result ≡ overlapped_if is_over self }
    {
        UnendedAccess {
            kind: self.kind,
            is_overlapped: self.is_overlapped || is_over,
        }
    }
}

impl Column {
    /// Returns the access that a process has open after this column.
    pub fn open_next(&self, process: u8, before: Option<UnendedAccess>) -> Option<UnendedAccess>
        ensures { result ≡ open_next process before (seen self.now) }
    {
        match &self.access {
            Some(access) => access.open_after(process, before),
            None => before,
        }
    }
}

/// Returns the access of a process among those of all.
pub(crate) fn open_of(all: [Option<UnendedAccess>; 16], process: u8) -> Option<UnendedAccess>
    ensures { result ≡ open_of all process }
{
    match all.get(usize::from(process)) {
        Some(access) => *access,
        None => None,
    }
}

/// Returns the open accesses of all processes after columns.
pub(crate) fn open_after_columns(
    before: [Option<UnendedAccess>; 16],
    columns: &[Column],
) -> [Option<UnendedAccess>; 16]
    ensures { result ≡ first_open before (map seen columns.now) 16 }
{
    let mut after = [None; 16];
    for process in 0..16 {
        after[usize::from(process)] = process_after(process, open_of(before, process), columns);
    }
    after
}

/// Returns the access that a process has open after columns.
fn process_after(
    process: u8,
    before: Option<UnendedAccess>,
    columns: &[Column],
) -> Option<UnendedAccess>
    ensures { result ≡ open_after process before (map seen columns.now) }
{
    let mut now = before;
    for column in columns {
        now = column.open_next(process, now);
    }
    now
}

/// Returns whether one of these holds.
fn has_any(flags: &[bool]) -> bool
    ensures { result ≡ is_any flags.now }
{
    for flag in flags {
        if *flag {
            return true;
        }
    }
    false
}
