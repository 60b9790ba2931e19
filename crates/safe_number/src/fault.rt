ghost use Rattle.std.specs.Prelude.{◌≡◌};
ghost use Rattle.safe_number.specs.declared.fault.NumberFault.TheVariants.{Memory};

use std::alloc::AllocError;
use thiserror::Error;

/// The reason why a register or a read was not made.
#[derive(Clone, Copy, Debug, Error)]
pub enum NumberFault {
    /// The width is 0 or above the greatest.
    #[error("the width is 0 or too great")]
    Width,
    /// An allocation failed.
    #[error("out of memory")]
    Memory,
}

impl From<AllocError> for NumberFault {
    ghost from_gives = { λ _ e. e ≡ Memory };

    fn from(_error: AllocError) -> NumberFault {
        NumberFault::Memory
    }
}
