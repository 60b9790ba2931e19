//! The position of a bit's look: the register, and the index in the register.
ghost use Rattle.std.specs.Prelude.{◌≡◌, ◌↔◌, ◌≤◌, ◌<◌, IsTrue, Ok};
ghost use Rattle.plain_store.specs.{checked};
ghost use Rattle.laws.specs.{IsThere};
ghost use Rattle.safe_monitor.specs.Monitoring.{copy_of, register_of};

use model::{Access, number_of_field, width_of};
use plain_store::Setup;

/// The number of registers of a process.
pub(crate) const REGISTERS: usize = 7;

/// Returns whether an access is of a bit in range.
#[inline]
pub(crate) fn is_there(setup: &Setup, access: &Access) -> bool
    requires { checked setup.now ≡ Ok tt }
    ensures { IsTrue result ↔ IsThere setup.now access.now }
{
    access.owner < setup.processes
        && access.reader < setup.processes
        && access.bit < width_of(access.field, setup)
}

/// Returns the register of an access, among those of all processes.
#[inline]
pub(crate) fn register_of(access: &Access) -> usize
    ensures { result ≡ register_of access.now }
{
    usize::from(access.owner) * REGISTERS + number_of_field(access.field)
}

/// Returns the bit of an access, among the copies of all readers.
#[inline]
pub(crate) fn copy_of(setup: &Setup, access: &Access) -> usize
    requires { checked setup.now ≡ Ok tt }
    ensures { result ≡ copy_of setup.now access.now }
{
    usize::from(access.reader) * usize::from(width_of(access.field, setup))
        + usize::from(access.bit)
}
