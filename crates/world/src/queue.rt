//! The processes ahead of a process, as a list.
ghost use Rattle.std.specs.Prelude.{◌≡◌};
ghost use Rattle.world.specs.Queue.{listed};

use smallvec::SmallVec;
use std::alloc::Global;

/// Returns the indices of the trues, ascending. It does not allocate.
pub(crate) fn listed(alloc: Global, before: &[bool; 16]) -> SmallVec<u8, 16>
    ensures { result.items ≡ listed before.now }
{
    let mut all = SmallVec::new(alloc);
    for process in 0..16_u8 {
        if before[usize::from(process)] {
            all.push_reserved(process);
        }
    }
    all
}
