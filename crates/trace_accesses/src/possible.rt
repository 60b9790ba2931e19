//! Which accesses are shown: those of a process that exists to a cell that exists.
ghost use Rattle.std.specs.Prelude.{◌≡◌};
ghost use Rattle.trace_accesses.specs.Accesses.{is_possible as is_possible_access, possible_access};

use trace::CellAccess;
use trace_memory::CellMemory;

/// Returns an access of a process, if it is possible.
pub(crate) fn possible(
    memory: &CellMemory,
    process: u8,
    access: &Option<CellAccess>,
) -> Option<CellAccess>
    ensures { result ≡ possible_access memory.now.setup process access.now }
{
    match access {
        Some(access) => {
            if is_possible(memory, process, access) {
                Some(*access)
            } else {
                None
            }
        }
        None => None,
    }
}

/// Returns whether the process of an access and its cell exist.
fn is_possible(memory: &CellMemory, process: u8, access: &CellAccess) -> bool
    ensures { result ≡ is_possible_access memory.now.setup process access.now }
{
    process < memory.processes() && memory.width_of(access.cell).is_some()
}
