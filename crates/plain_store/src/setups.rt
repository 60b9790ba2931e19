//! The setup of a world. Versions and ranges are this project's own profile.
ghost use Rattle.std.specs.Prelude.{◌≡◌};
ghost use Rattle.std.specs.Int.{is_in_range};

use crate::openings::Opening;
use thiserror::Error;

/// A world's processes, the bits of its tickets and stamps, and its store.
#[derive(Clone, Copy)]
pub struct Setup {
    /// 1, or 2 with larger ranges, opening pairs and call numbers.
    pub version: u8,
    /// The number of processes: 1 to 8, in version 2 1 to 16. They are numbered from 0.
    pub processes: u8,
    /// The bits of a ticket: 1 to 16, in version 2 1 to 32.
    pub ticket_bits: u8,
    /// The bits of a stamp: 1 to 16, in version 2 1 to 32.
    pub stamp_bits: u8,
    /// The number of names for which the store has room: 1 to 8.
    pub slots: u8,
    /// The pairs with which the store opens: none in version 1, in version 2 at most `slots`.
    pub opening: Opening,
}

/// The first field of a setup that is out of its range.
#[derive(Clone, Copy, Debug, Error)]
pub enum BadSetup {
    #[error("the version is neither 1 nor 2")]
    Version,
    #[error("processes are 1 to 8, in version 2 1 to 16")]
    Processes,
    #[error("ticket bits are 1 to 16, in version 2 1 to 32")]
    TicketBits,
    #[error("stamp bits are 1 to 16, in version 2 1 to 32")]
    StampBits,
    #[error("slots are 1 to 8")]
    Slots,
    #[error("opening pairs are none in version 1, in version 2 at most one a slot")]
    Opening,
}

impl Setup {
    ghost use Rattle.plain_store.specs.Setups.{checked, callers_of, version_one};

    /// Creates a setup of version 1, whose store opens empty. It may be out of range; `check` finds that out.
    pub fn one(processes: u8, ticket_bits: u8, stamp_bits: u8, slots: u8) -> Setup
        ensures { result ≡ version_one processes ticket_bits stamp_bits slots }
    {
        Setup {
            version: 1,
            processes,
            ticket_bits,
            stamp_bits,
            slots,
            opening: Opening::empty(),
        }
    }

    /// Returns the number of processes that have a number in a store of this setup: none in version 1, otherwise all.
    pub fn callers(&self) -> u8
        ensures { result ≡ callers_of self.now }
    {
        if self.version == 1 { 0 } else { self.processes }
    }

    /// Checks that each field is in its range.
    ///
    /// # Errors
    ///
    /// Returns the first field that is out of its range, in the order of the fields.
    pub fn check(&self) -> Result<(), BadSetup>
        ensures { result ≡ checked self.now }
    {
        if !(1..=2).contains(&self.version) {
            return Err(BadSetup::Version);
        }
        let (processes, bits) = if self.version == 1 { (8, 16) } else { (16, 32) };
        if !is_within(self.processes, processes) {
            return Err(BadSetup::Processes);
        }
        if !is_within(self.ticket_bits, bits) {
            return Err(BadSetup::TicketBits);
        }
        if !is_within(self.stamp_bits, bits) {
            return Err(BadSetup::StampBits);
        }
        if !is_within(self.slots, 8) {
            return Err(BadSetup::Slots);
        }
        let most = if self.version == 1 {
            0
        } else {
            usize::from(self.slots)
        };
        if self.opening.len() > most {
            return Err(BadSetup::Opening);
        }
        Ok(())
    }
}

/// Returns whether a number is from 1 to `most`.
fn is_within(n: u8, most: u8) -> bool
    ensures { result ≡ is_in_range 1 most n }
{
    1 <= n && n <= most
}
