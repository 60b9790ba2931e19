//! The bits of a register as text, and the state of one of them.
ghost use Rattle.std.specs.Prelude.{◌≡◌, ◌<◌, ◌≤◌, ◌*◌, ℕ, Bool, false, IfOk, List, Ok, codes, length, slice_index_or};
ghost use Rattle.std.specs.Fmt.{decimal};
ghost use Rattle.plain_store.specs.{checked};
ghost use Rattle.model.specs.{Past, image_bytes, width};
ghost use Rattle.model.specs.safe_number.{bit_in, bits_in, number_of_bits};
ghost use Rattle.calls.specs.world.laws.{IsThere};
ghost use Rattle.run_state.specs.Knowing.{CoreShows};
ghost use Rattle.run_state.specs.Copies.{bit_at, image_text, shown};

use crate::stores::push_store;
use calls::world::{BitCopy, CopyState, Core, Image};
use model::{Access, Field, image_bytes, width_of};
use plain_store::Setup;
use safe_number::number_of;
use std::alloc::{AllocError, Global};

/// Returns the text of a register by its bits, with which `bytes` begin: a number, the store whose image they are, or
/// `no-image`.
pub(crate) fn shown(
    alloc: Global,
    setup: &Setup,
    field: Field,
    bytes: &[u8; 216],
) -> Result<Vec<u8>, AllocError>
    requires good { checked setup.now ≡ Ok tt }
    ensures { IfOk result (λ text. (bits : List Bool) → length bits ≡ width setup.now field
        → ((k : ℕ) → k < length bits → bit_in bytes.now k ≡ slice_index_or bits k false)
        → text.items ≡ shown setup.now field bits) }
{
    match field {
        Field::Image0 | Field::Image1 => {
            let length = usize::from(image_bytes(setup));
            image_text(alloc, setup, &bytes[..length])
        }
        _ => number_text(alloc, number_in(bytes, width_of(field, setup))),
    }
}

/// Returns the store whose image bytes are as text, or `no-image`.
fn image_text(alloc: Global, setup: &Setup, bytes: &[u8]) -> Result<Vec<u8>, AllocError>
    requires good { checked setup.now ≡ Ok tt }
    requires length { length bytes.now ≡ image_bytes setup.now }
    ensures { IfOk result (λ text. text.items ≡ image_text setup.now bytes.now) }
{
    let store = Image::read_or_empty(setup, bytes);
    let mut text = Vec::new(alloc);
    if store.bytes() == bytes {
        push_store(alloc, setup.callers(), &store, &mut text)?;
    } else {
        text.extend_from_slice(b"no-image")?;
    }
    Ok(text)
}

/// Returns the number that the first bits of a register's bytes make.
fn number_in(bytes: &[u8; 216], width: u16) -> u64
    requires { width ≤ 32 }
    ensures { result ≡ number_of_bits (bits_in bytes.now width) }
{
    number_of(&bytes[..8]) % (1u64 << width)
}

/// Returns a number as text.
fn number_text(alloc: Global, number: u64) -> Result<Vec<u8>, AllocError>
    ensures { IfOk result (λ text. text.items ≡ decimal number) }
{
    let digits = format!(in alloc; "{number}")?;
    Vec::from_slice(alloc, digits.as_bytes())
}

/// Returns the state of the copy of a bit to which an access is made, if there is one.
pub(crate) fn bit_at(core: &Core, setup: &Setup, access: &Access) -> CopyState
    requires good { checked setup.now ≡ Ok tt }
    requires setup { core.now.setup ≡ setup.now }
    ensures { (past : Past) → CoreShows core.now past → IsThere setup.now access.now
        → result ≡ bit_at setup.now past access.now }
{
    let there = access.owner < setup.processes
        && access.reader < setup.processes
        && access.bit < width_of(access.field, setup);
    if !there {
        return CopyState {
            value: false,
            writing: false,
            touched: false,
        };
    }
    core.copy_state(BitCopy::of(access))
}
