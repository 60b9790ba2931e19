//! The values that a read may give.
ghost use Rattle.std.specs.Prelude.{◌≡◌, ◌≤◌, ◌∷◌, [], option_to_list};
ghost use Rattle.trace_memory.specs.AllowedValues.{allowed_of, allows, if_few, overlapped, present, values_in};
ghost use Rattle.trace_memory.specs.declared.allowed.Allowed.TheVariants.{Among};

use crate::cells::CellState;
use crate::memories::{AtomicMemory, RegularMemory, SafeMemory, SharedMemory};
use crate::value_set::ValueSet;
use trace::{TraceMemory, values_of_width};

/// The values that a read may give.
#[derive(Clone, Copy)]
pub enum Allowed {
    /// Any value of the width.
    Any,
    /// One value.
    Only(u32),
    /// The values of a set.
    Among(ValueSet),
}

impl Allowed {
    /// Returns what a read may give that begins at this state of its cell.
    pub(crate) fn begin(memory: TraceMemory, cell: &CellState) -> Allowed
        ensures { result ≡ allowed_of memory cell.now.stored (option_to_list cell.now.writing) }
    {
        match memory {
            TraceMemory::Safe => SafeMemory::begin(cell),
            TraceMemory::Regular => RegularMemory::begin(cell),
            TraceMemory::Atomic => AtomicMemory::begin(cell),
        }
    }

    /// Adds what a read may give because a write of this value overlaps it.
    pub(crate) fn overlap(&mut self, memory: TraceMemory, value: u32)
        ensures { self.new ≡ overlapped memory value self.old }
    {
        match memory {
            TraceMemory::Safe => SafeMemory::overlap(self, value),
            TraceMemory::Regular => RegularMemory::overlap(self, value),
            TraceMemory::Atomic => AtomicMemory::overlap(self, value),
        }
    }

    /// Returns whether a value is allowed.
    pub fn allows(&self, value: u32) -> bool
        ensures { result ≡ allows self.now value }
    {
        match self {
            Allowed::Any => true,
            Allowed::Only(only) => *only == value,
            Allowed::Among(set) => set.has(value),
        }
    }

    /// Returns the allowed values of a width, ascending, if they are at most two; none if any value is allowed.
    pub fn few(&self, width: u8) -> (Option<u32>, Option<u32>)
        requires { width ≤ 32 }
        ensures { present (result.0 ∷ result.1 ∷ []) ≡ if_few (values_in width self.now) }
    {
        match self {
            Allowed::Any => (None, None),
            Allowed::Only(only) => (Some(*only), None),
            Allowed::Among(set) => few_of(width, set),
        }
    }
}

/// Returns the values of a width in a set, ascending, if they are at most two.
fn few_of(width: u8, set: &ValueSet) -> (Option<u32>, Option<u32>)
    requires { width ≤ 32 }
    ensures { present (result.0 ∷ result.1 ∷ []) ≡ if_few (values_in width (Among set.now)) }
{
    let mut first = None;
    let mut second = None;
    for number in 0..values_of_width(width) {
        let value = number as u32;
        if set.has(value) {
            match (first, second) {
                (None, _) => first = Some(value),
                (Some(_), None) => second = Some(value),
                (Some(_), Some(_)) => return (None, None),
            }
        }
    }
    (first, second)
}
