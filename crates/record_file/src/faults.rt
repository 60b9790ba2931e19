//! The order of the faults of a line.
ghost use Rattle.std.specs.Prelude.{◌≡◌, Ok, IfOk};
ghost use Rattle.record_file.specs.Faults.{both as both_of, rank as rank_of, reported_of};

use files::FaultKind;

/// Returns the position of a fault in the order in which the faults of a line are reported: the lowest is reported.
fn rank(kind: FaultKind) -> u8
    ensures { result ≡ rank_of kind }
{
    match kind {
        FaultKind::TooLong => 0,
        FaultKind::Unknown => 1,
        FaultKind::NotFirst => 2,
        FaultKind::Words => 3,
        FaultKind::Number => 4,
        FaultKind::BadName => 5,
        FaultKind::BadValue => 6,
        FaultKind::BadSetup => 7,
        FaultKind::Memory => 8,
    }
}

fn reported(one: FaultKind, other: FaultKind) -> FaultKind
    ensures { result ≡ reported_of one other }
{
    if rank(one) <= rank(other) { one } else { other }
}

/// Returns the values of two parts of a line. If both have a fault, the fault that comes first in the order is reported.
///
/// # Errors
///
/// Returns the fault of a part, or of two faults the first one in the order.
pub fn both<A: Drop, B: Drop>(
    one: Result<A, FaultKind>,
    other: Result<B, FaultKind>,
) -> Result<(A, B), FaultKind>
    ensures value { result ≡ both_of one other }
    ensures one { IfOk result (λ read. one ≡ Ok read.0) }
    ensures other { IfOk result (λ read. other ≡ Ok read.1) }
{
    match one {
        Ok(a) => match other {
            Ok(b) => Ok((a, b)),
            Err(fault) => Err(fault),
        },
        Err(fault) => match other {
            Ok(_) => Err(fault),
            Err(further) => Err(reported(fault, further)),
        },
    }
}
