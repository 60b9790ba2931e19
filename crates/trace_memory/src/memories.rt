//! The three memories: what the reads of a cell may give.
ghost use Rattle.std.specs.Prelude.{◌≡◌, ◌++◌, ◌∷◌, [], option_to_list};
ghost use Rattle.trace_memory.specs.AllowedValues.{allowed_of, overlapped};
ghost use Rattle.trace_memory.specs.Sets.{set_of};

use crate::allowed::Allowed;
use crate::cells::CellState;
use crate::value_set::ValueSet;

/// A shared memory: what the reads of its cells may give.
pub trait SharedMemory {
    ghost use Rattle.trace.specs.{TraceMemory as Kind};

    /// Which memory it is.
    ghost kind: { Kind };

    /// Returns what a read may give that begins at this state of its cell.
    fn begin(cell: &CellState) -> Allowed
        ensures { result ≡ allowed_of kind cell.now.stored (option_to_list cell.now.writing) };

    /// Adds what a read may give because a write of this value overlaps it.
    fn overlap(allowed: &mut Allowed, value: u32)
        ensures { allowed.new ≡ overlapped kind value allowed.old };
}

/// A read gives the stored value, or any value if a write overlaps it.
pub struct SafeMemory;

/// A read gives the value stored when it began, or that of a write that overlaps it.
pub struct RegularMemory;

/// A read gives the stored value.
pub struct AtomicMemory;

impl SharedMemory for SafeMemory {
    ghost use Rattle.trace.specs.declared.setups.TraceMemory.TheVariants.{Safe};

    ghost kind = { Safe };

    fn begin(cell: &CellState) -> Allowed {
        match cell.writing {
            None => Allowed::Only(cell.stored),
            Some(_) => Allowed::Any,
        }
    }

    fn overlap(allowed: &mut Allowed, _value: u32) {
        *allowed = Allowed::Any;
    }
}

impl SharedMemory for RegularMemory {
    ghost use Rattle.trace.specs.declared.setups.TraceMemory.TheVariants.{Regular};

    ghost kind = { Regular };

    fn begin(cell: &CellState) -> Allowed {
        Allowed::Among(old_and_new(cell))
    }

    fn overlap(allowed: &mut Allowed, value: u32) {
        if let Allowed::Among(set) = allowed {
            set.insert(value);
        }
    }
}

impl SharedMemory for AtomicMemory {
    ghost use Rattle.trace.specs.declared.setups.TraceMemory.TheVariants.{Atomic};

    ghost kind = { Atomic };

    fn begin(cell: &CellState) -> Allowed {
        Allowed::Only(cell.stored)
    }

    fn overlap(_allowed: &mut Allowed, _value: u32) {}
}

/// Returns the value that a cell stores, and that of the write that is open.
fn old_and_new(cell: &CellState) -> ValueSet
    ensures { result ≡ set_of (option_to_list cell.now.writing ++ cell.now.stored ∷ []) }
{
    let mut set = ValueSet::none();
    set.insert(cell.stored);
    if let Some(value) = cell.writing {
        set.insert(value);
    }
    set
}
