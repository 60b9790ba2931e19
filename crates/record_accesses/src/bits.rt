//! What the moves of one bit leave.
ghost use Rattle.std.specs.Prelude.{◌≡◌};
ghost use Rattle.record_accesses.specs.Bits.{bit_after, new_bit};

use model::Move;

/// What the moves of one bit leave, as far as a picture shows it.
#[derive(Clone, Copy)]
pub struct BitState {
    /// The value of the write that began last.
    pub begun: bool,
    /// The value that was last written or settled.
    pub written: bool,
    /// The process whose write of the bit is open.
    pub writer: Option<u8>,
}

impl BitState {
    /// Returns the state of a bit that opens at a value, before its first move.
    pub fn opening(value: bool) -> BitState
        ensures { result ≡ new_bit value }
    {
        BitState {
            begun: value,
            written: value,
            writer: None,
        }
    }

    /// Returns the state after one more move, which a process makes.
    pub fn after(self, process: u8, how: Move) -> BitState
        ensures { result ≡ bit_after process how self }
    {
        match how {
            Move::BeginWrite(value) => BitState {
                begun: value,
                written: self.written,
                writer: Some(process),
            },
            Move::EndWrite => BitState {
                begun: self.begun,
                written: self.begun,
                writer: None,
            },
            Move::Settle(value) => BitState {
                begun: self.begun,
                written: value,
                writer: None,
            },
            Move::BeginRead | Move::EndRead(_) => self,
        }
    }
}
