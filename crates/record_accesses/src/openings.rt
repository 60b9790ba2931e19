//! Which bits exist, and what they open at.
ghost use Rattle.std.specs.Prelude.{◌≡◌, ◌≤◌, IfOk, Ok, nat_lt};
ghost use Rattle.laws.specs.{IsThere};
ghost use Rattle.plain_store.specs.{checked};
ghost use Rattle.model.specs.{opening_bit};
ghost use Rattle.record_accesses.specs.Accesses.{is_there as exists, possible_access};

use model::{Access, Field, bit_of, width_of};
use plain_store::{Setup, opened};
use std::alloc::AllocError;
use std::marker::Model;
use store_image::Image;

/// The setup of a record, and the image with which the first register of process 0 opens. Contracts see the setup.
#[derive(Drop)]
pub(crate) struct Openings {
    setup: Setup,
    image: Image,
}

impl Model for Openings {
    ghost use Rattle.std.specs.Prelude.{◌≡◌, Ok};
    ghost use Rattle.plain_store.specs.{checked, opening_store};
    ghost use Rattle.plain_store.specs.declared.setups.Setup.{Setup as Given};

    ghost Value = { Given };

    ghost view = { λ o. o.setup };

    ghost invariant = { λ o. (checked o.setup ≡ Ok tt) × (o.image ≡ opening_store o.setup) };
}

impl Openings {
    /// Creates the openings of the bits of a record with this setup.
    ///
    /// # Errors
    ///
    /// Returns [`AllocError`] if memory runs out.
    pub fn new(setup: &Setup) -> Result<Openings, AllocError>
        requires { checked setup.now ≡ Ok tt }
        ensures { IfOk result (λ openings. openings ≡ setup.now) }
    {
        let image = opened(Image::empty(setup.slots, setup.callers()), setup)?;
        Ok(Openings {
            setup: *setup,
            image,
        })
    }

    /// Returns an access of a process, if the process and the bit exist.
    pub fn possible(&self, process: u8, access: &Option<Access>) -> Option<Access>
        ensures access { result ≡ possible_access self.now process access.now }
        ensures bounded { self.now.processes ≤ 16 }
    {
        let exists = self.has_process(process);
        match access {
            Some(access) if exists && self.has_bit(access) => Some(*access),
            _ => None,
        }
    }

    /// Returns whether a process exists.
    pub fn has_process(&self, process: u8) -> bool
        ensures exists { result ≡ nat_lt process self.now.processes }
        ensures bounded { self.now.processes ≤ 16 }
    {
        process < self.setup.processes
    }

    /// Returns whether the bit of an access exists.
    fn has_bit(&self, access: &Access) -> bool
        ensures { result ≡ exists self.now access.now }
    {
        access.owner < self.setup.processes
            && access.reader < self.setup.processes
            && access.bit < width_of(access.field, &self.setup)
    }

    /// Returns what the bit of an access opens at.
    pub fn value(&self, access: &Access) -> bool
        requires { IsThere self.now access.now }
        ensures { result ≡ opening_bit self.now access.now }
    {
        match access.field {
            Field::Image0 if access.owner == 0 => bit_of(self.image.bytes(), access.bit),
            _ => false,
        }
    }
}
