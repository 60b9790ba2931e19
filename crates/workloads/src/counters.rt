//! Stores with one counter.
ghost use Rattle.std.specs.Prelude.{◌≡◌, Ok, IfOk};
ghost use Rattle.plain_store.specs.{checked};

use anyhow::Result;
use plain_store::{Name, Setup, Value};

/// Returns the counter's name.
pub fn counter() -> Name {
    Name::new(b"a").unwrap()
}

/// Returns a setup with `bits` ticket bits and stamp bits, whose store opens with the counter at 0 in version 2, and without it
/// in version 1.
///
/// # Errors
///
/// Returns an error if a number is out of its range.
pub fn counting(version: u8, processes: u8, bits: u8, slots: u8) -> Result<Setup>
    ensures { IfOk result (λ setup. checked setup ≡ Ok tt) }
{
    let mut setup = Setup::one(processes, bits, bits, slots);
    if version == 2 {
        setup.version = 2;
        setup.opening.add(counter(), Value::Count(0))?;
    }
    setup.check()?;
    Ok(setup)
}
