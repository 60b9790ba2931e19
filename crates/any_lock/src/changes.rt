//! Entries with the change after which they keep all laws.
ghost use Rattle.std.specs.Prelude.{◌≡◌, IfOk, map};
ghost use Rattle.any_lock.specs.Changes.{access_with, changed as entry_with, mark_with};

use crate::reasons::Remedy;
use model::{Access, Act, Entry, Mark, Move};
use plain_store::{Answer, NestedTypes};
use smallvec::SmallVec;
use std::alloc::{AllocError, Global};

/// Returns an entry with a change.
///
/// # Errors
///
/// Returns [`AllocError`] if an allocation fails.
pub fn changed(alloc: Global, entry: &Entry, change: &Remedy) -> Result<Entry, AllocError>
    ensures { IfOk result (λ with. with ≡ entry_with change.now entry.now) }
{
    let _nested: NestedTypes = None;
    Ok(Entry {
        process: entry.process,
        act: Act {
            access: changed_access(&entry.act.access, change),
            marks: changed_marks(alloc, &entry.act.marks, change)?,
        },
    })
}

/// Returns its access with a change.
fn changed_access(access: &Option<Access>, change: &Remedy) -> Option<Access>
    ensures { result ≡ access_with change.now access.now }
{
    let _nested: NestedTypes = None;
    match (access, change) {
        (Some(access), Remedy::Value(value)) => Some(Access {
            how: Move::EndRead(*value),
            ..*access
        }),
        (access, _) => *access,
    }
}

/// Returns its marks with a change.
fn changed_marks(
    alloc: Global,
    marks: &[Mark],
    change: &Remedy,
) -> Result<SmallVec<Mark, 3>, AllocError>
    ensures { IfOk result (λ with. with.items ≡ map (mark_with change.now) marks.now) }
{
    let _nested: NestedTypes = None;
    let mut with = SmallVec::new(alloc);
    for mark in marks {
        with.push(changed_mark(mark, change))?;
    }
    Ok(with)
}

/// Returns a mark with a change.
fn changed_mark(mark: &Mark, change: &Remedy) -> Mark
    ensures { result ≡ mark_with change.now mark.now }
{
    let _nested: NestedTypes = None;
    match (mark, change) {
        (Mark::Taken(..), Remedy::Taking(place, reply)) => Mark::Taken(*place, *reply),
        (Mark::Answered(Answer::Reply(_)), Remedy::Taking(_, reply)) => {
            Mark::Answered(Answer::Reply(*reply))
        }
        (mark, _) => *mark,
    }
}
