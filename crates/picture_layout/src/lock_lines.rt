//! The lines of a trace, and the marks of a record that look like its marks.
ghost use Rattle.std.specs.Prelude.{◌≡◌, IfOk};
ghost use Rattle.picture_layout.specs.LockLines.{like, lock_ended_text, lock_marked_text};

use model::Mark;
use plain_store::{Answer, Command};
use std::alloc::{AllocError, Global};
use trace::LockMark;

/// Returns the mark of a record that leads to the same stage as a mark of a trace, and has the same sign.
pub fn drawn_like(mark: LockMark) -> Mark
    ensures { result ≡ like mark }
{
    match mark {
        LockMark::Call => Mark::Called(Command::Ask),
        LockMark::Wait => Mark::Waiting(0),
        LockMark::Enter => Mark::Entered,
        LockMark::Leave => Mark::Left,
        LockMark::Answer => Mark::Answered(Answer::Withdrawn),
    }
}

/// Returns the line of a mark of the entry with this number, without its end.
pub(crate) fn marked_line(
    alloc: Global,
    entry: u64,
    process: u8,
    mark: LockMark,
) -> Result<Vec<u8>, AllocError>
    ensures { IfOk result (λ line. line.items ≡ lock_marked_text entry process mark) }
{
    let line = format!(in alloc; "{entry} {process} {mark}")?;
    Ok(line.into_bytes())
}

/// Returns the last line of a trace, without its end.
pub(crate) fn ended_line(alloc: Global, entries: u64) -> Result<Vec<u8>, AllocError>
    ensures { IfOk result (λ line. line.items ≡ lock_ended_text entries) }
{
    let line = format!(in alloc; "end entries {entries}")?;
    Ok(line.into_bytes())
}
