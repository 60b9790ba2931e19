//! An entry by its parts.
ghost use Rattle.std.specs.Prelude.{◌≡◌};
ghost use Rattle.safe_monitor.specs.Entries.{entry_by};

use model::{Access, Entry, Mark};

/// Returns the process of an entry, its access and its marks. Observers take these parts, because a run stores no entries.
#[inline]
pub fn parts(entry: &Entry) -> (u8, &Option<Access>, &[Mark])
    ensures { entry_by result.0 result.1.now result.2.now ≡ entry.now }
{
    (entry.process, &entry.act.access, &entry.act.marks)
}
