//! Which accesses write a cell, and which marks an entry has.
ghost use Rattle.std.specs.Prelude.{◌≡◌, is_some};
ghost use Rattle.std.specs.List.{list_any};
ghost use Rattle.trace_calls.specs.Calls.{is_answer, is_leave};
ghost use Rattle.trace_calls.specs.Overlaps.{writes_on as is_write_on};
ghost use Rattle.trace_engine.specs.trace_judge.lock_stages.{is_call, is_enter, is_wait};

use trace::{Cell, CellAccess, LockMark};
use trace_memory::same_cell;

/// Returns whether an access begins a write of a cell.
pub(crate) fn writes_on(cell: Cell, access: &CellAccess) -> bool
    ensures { result ≡ is_write_on cell access.now }
{
    same_cell(access.cell, cell) && access.how.value_written().is_some()
}

/// Returns whether a call begins with one of these marks.
pub(crate) fn has_call(marks: &[LockMark]) -> bool
    ensures { result ≡ list_any is_call marks.now }
{
    marks.iter().any(|mark| matches!(mark, LockMark::Call))
}

/// Returns whether a doorway ends with one of these marks.
pub(crate) fn has_wait(marks: &[LockMark]) -> bool
    ensures { result ≡ list_any is_wait marks.now }
{
    marks.iter().any(|mark| matches!(mark, LockMark::Wait))
}

/// Returns whether a process enters with one of these marks.
pub(crate) fn has_enter(marks: &[LockMark]) -> bool
    ensures { result ≡ list_any is_enter marks.now }
{
    marks.iter().any(|mark| matches!(mark, LockMark::Enter))
}

/// Returns whether a process leaves with one of these marks.
pub(crate) fn has_leave(marks: &[LockMark]) -> bool
    ensures { result ≡ list_any is_leave marks.now }
{
    marks.iter().any(|mark| matches!(mark, LockMark::Leave))
}

/// Returns whether a call ends with one of these marks.
pub(crate) fn has_answer(marks: &[LockMark]) -> bool
    ensures { result ≡ list_any is_answer marks.now }
{
    marks.iter().any(|mark| matches!(mark, LockMark::Answer))
}
