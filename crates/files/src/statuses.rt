//! The statuses that a program of engines ends with.
ghost use Rattle.std.specs.Prelude.{◌≡◌, Err, MatchResult, Ok};
ghost use Rattle.files.specs.Statuses.{status_of_fault};

use crate::faults::{Fault, FaultKind};

/// The exit status of a program that did everything that was asked for.
pub const DONE: u8 = 0;

/// The value that an engine returns if it has met no fault. The value decides the exit status, so each type that an engine
/// may return defines the status of its values.
pub trait Ending {
    ghost use Rattle.std.specs.Prelude.{ℕ, ◌≡◌};

    // The status that a value means.
    ghost status_of_end: { Self → ℕ };

    /// Returns the exit status.
    fn status(&self) -> u8
        ensures { result ≡ status_of_end self.now };
}

/// An engine that returns no value has done everything that was asked for.
impl Ending for () {
    ghost status_of_end = { λ _. 0 };

    fn status(&self) -> u8 {
        DONE
    }
}

/// Returns the exit status of an engine that has met no fault, or its fault.
pub fn exit_status<E: Ending + Drop>(ran: Result<E, Fault>) -> Result<u8, Fault>
    ensures { MatchResult ran (λ end. result ≡ Ok (E.status_of_end end)) (λ e. result ≡ Err e) }
{
    match ran {
        Ok(end) => Ok(end.status()),
        Err(fault) => Err(fault),
    }
}

/// Returns the exit status for a fault: 4 if memory ran out, in a line too, otherwise 1.
pub fn fault_status(fault: &Fault) -> u8
    ensures { result ≡ status_of_fault fault.now }
{
    match fault {
        Fault::Memory => 4,
        Fault::Line(line) if line.kind == FaultKind::Memory => 4,
        Fault::Line(_) | Fault::Read | Fault::Write => 1,
    }
}
