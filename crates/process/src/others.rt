//! The other processes, in their order.
ghost use Rattle.std.specs.Prelude.{◌≡◌, ◌<◌, ◌≤◌};
ghost use Rattle.process.specs.Others.{first_other, other_numbered, others_below};

use crate::part::ProcessCall;

/// Returns the first of the others from `first` on.
#[inline]
pub(crate) fn first_other(call: &ProcessCall, first: u8) -> Option<u8>
    requires { first ≤ 16 }
    ensures { result ≡ first_other call.now.setup.processes call.now.process first }
{
    let other = if first == call.process {
        first + 1
    } else {
        first
    };
    (other < call.setup.processes).then_some(other)
}

/// Returns the number of the others below a process.
#[inline]
pub(crate) fn others_below(call: &ProcessCall, owner: u8) -> usize
    ensures { result ≡ others_below call.now.process owner }
{
    if call.process < owner {
        usize::from(owner) - 1
    } else {
        usize::from(owner)
    }
}

/// Returns one of the others by its number, counted from 0.
pub(crate) fn other_numbered(call: &ProcessCall, number: usize) -> u8
    requires { number < 16 }
    ensures { result ≡ other_numbered call.now.process number }
{
    let number = number as u8;
    if number < call.process {
        number
    } else {
        number + 1
    }
}
