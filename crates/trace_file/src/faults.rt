//! The order of the faults of a line.
ghost use Rattle.std.specs.Prelude.{◌≡◌, Ok, IfOk};
ghost use Rattle.trace_file.specs.Faults.{both as both_of, first_of, rank as rank_of};

use files::FaultKind;

/// Returns the position of a fault in the order in which the faults of a line are reported.
fn rank(kind: FaultKind) -> u8
    ensures { result ≡ rank_of kind }
{
    match kind {
        FaultKind::TooLong => 0,
        FaultKind::Unknown => 1,
        FaultKind::NotFirst => 2,
        FaultKind::Words => 3,
        FaultKind::Number => 4,
        FaultKind::BadName => 5,
        FaultKind::BadValue => 6,
        FaultKind::BadSetup => 7,
        FaultKind::Memory => 8,
    }
}

/// Returns the fault that is reported if a line has these two.
fn first(one: FaultKind, other: FaultKind) -> FaultKind
    ensures { result ≡ first_of one other }
{
    if rank(one) <= rank(other) { one } else { other }
}

/// Returns the values of two parts of a line.
///
/// # Errors
///
/// Returns the fault of the part that has one. If both have a fault, it is the first in the order of faults.
pub fn both<A: Drop, B: Drop>(
    one: Result<A, FaultKind>,
    other: Result<B, FaultKind>,
) -> Result<(A, B), FaultKind>
    ensures value { result ≡ both_of one other }
    ensures one { IfOk result (λ read. one ≡ Ok read.0) }
    ensures other { IfOk result (λ read. other ≡ Ok read.1) }
{
    match one {
        Ok(a) => match other {
            Ok(b) => Ok((a, b)),
            Err(fault) => Err(fault),
        },
        Err(fault) => match other {
            Ok(_) => Err(fault),
            Err(further) => Err(first(fault, further)),
        },
    }
}
