//! The headings of a file.
ghost use Rattle.std.specs.Prelude.{◌≡◌};
ghost use Rattle.scenario.specs.Setting.{none_given, is_given, and_given, most_of, default_setup as the_default, with_heading};

use crate::keywords::Heading;
use plain_store::{Opening, Setup};

/// The headings that were given.
#[derive(Clone, Copy)]
pub struct Given {
    pub processes: bool,
    pub tickets: bool,
    pub stamps: bool,
    pub slots: bool,
}

impl Given {
    /// Creates the value in which no heading was given.
    pub fn none() -> Given
        ensures { result ≡ none_given }
    {
        Given {
            processes: false,
            tickets: false,
            stamps: false,
            slots: false,
        }
    }

    /// Returns whether the heading was given.
    pub fn has(&self, heading: Heading) -> bool
        ensures { result ≡ is_given heading self.now }
    {
        match heading {
            Heading::Processes => self.processes,
            Heading::Tickets => self.tickets,
            Heading::Stamps => self.stamps,
            Heading::Slots => self.slots,
        }
    }

    /// Notes that the heading was given.
    pub fn add(&mut self, heading: Heading)
        ensures { self.new ≡ and_given heading self.old }
    {
        match heading {
            Heading::Processes => self.processes = true,
            Heading::Tickets => self.tickets = true,
            Heading::Stamps => self.stamps = true,
            Heading::Slots => self.slots = true,
        }
    }
}

impl Heading {
    /// Returns the greatest number that the heading may have.
    pub fn most(self, version: u8) -> u8
        ensures { result ≡ most_of self version }
    {
        match self {
            Heading::Processes if version == 1 => 8,
            Heading::Processes => 16,
            Heading::Tickets | Heading::Stamps if version == 1 => 16,
            Heading::Tickets | Heading::Stamps => 32,
            Heading::Slots => 8,
        }
    }

    /// Puts the heading's number into a setup.
    pub fn set(self, setup: &mut Setup, n: u8)
        ensures { setup.new ≡ with_heading self n setup.old }
    {
        match self {
            Heading::Processes => setup.processes = n,
            Heading::Tickets => setup.ticket_bits = n,
            Heading::Stamps => setup.stamp_bits = n,
            Heading::Slots => setup.slots = n,
        }
    }
}

/// Returns the setup of a file without headings.
pub fn default_setup(version: u8) -> Setup
    ensures { result ≡ the_default version }
{
    Setup {
        version,
        processes: 2,
        ticket_bits: 4,
        stamp_bits: 4,
        slots: 1,
        opening: Opening::empty(),
    }
}
