//! The copies of a register: their bytes, their texts, and whether one has changed.
ghost use Rattle.std.specs.Prelude.{◌≡◌, ◌↔◌, ◌<◌, ◌≤◌, ◌*◌, IfOk, IsTrue, Ok, codes, length, map};
ghost use Rattle.std.specs.List.{list_any};
ghost use Rattle.plain_store.specs.{checked};
ghost use Rattle.model.specs.{Past, opening_bits, processes, width};
ghost use Rattle.model.specs.declared.access.Field.TheVariants.{Image0};
ghost use Rattle.model.specs.safe_number.{bits_in};
ghost use Rattle.run_state.specs.Knowing.{CoreShows};
ghost use Rattle.run_state.specs.Copies.{are_other, bits_read, bits_text, texts_in};
ghost use Rattle.calls.specs.world.{cells_held};
ghost use Rattle.calls.specs.world.process.registers.{copy_bytes, register_bytes};

use crate::register_text::shown;
use calls::world::{Core, Image, RegisterName};
use model::Field;
use plain_store::{Setup, opened, pad};
use std::alloc::{AllocError, Global};

/// Returns the copies of a register as bytes, by reader; `None` while a write of one of a copy's bits is open.
pub(crate) fn copies_held(
    alloc: Global,
    setup: &Setup,
    core: &Core,
    register: RegisterName,
) -> Result<Vec<Option<[u8; 216]>>, AllocError>
    requires setup { core.now.setup ≡ setup.now }
    requires owner { register.owner < setup.now.processes }
    ensures copies { IfOk result (λ copies. (past : Past) → CoreShows core.now past
        → copies.items ≡ map (λ reader. copy_bytes (cells_held setup.now past register reader))
        (processes setup.now)) }
    ensures length { IfOk result (λ copies. length copies.items ≡ setup.now.processes) }
{
    let mut copies = Vec::new(alloc);
    for reader in 0..setup.processes {
        let copy = core.copy_bytes(register, reader);
        copies.push(copy)?;
    }
    Ok(copies)
}

/// Returns the texts of a register's copies, by reader. A copy that is equal to the first one has the same text, which is then
/// not made anew: most copies are equal, and the text of an image is expensive.
pub(crate) fn copy_texts(
    alloc: Global,
    setup: &Setup,
    field: Field,
    copies: &[Option<[u8; 216]>],
) -> Result<Vec<Vec<u8>>, AllocError>
    requires good { checked setup.now ≡ Ok tt }
    ensures { IfOk result (λ texts. texts_in texts.items
        ≡ map (λ copy. bits_text setup.now field
        (bits_read (width setup.now field) copy)) copies.now) }
{
    let mut texts = Vec::new(alloc);
    let Some(first) = copies.first() else {
        return Ok(texts);
    };
    let shown = copy_text(alloc, setup, field, first)?;
    for copy in copies {
        let text = text_by_first(alloc, setup, field, copy, first, shown.as_slice())?;
        texts.push(text)?;
    }
    Ok(texts)
}

/// Returns the text of a copy, where `text` is that of the copy `first`.
fn text_by_first(
    alloc: Global,
    setup: &Setup,
    field: Field,
    copy: &Option<[u8; 216]>,
    first: &Option<[u8; 216]>,
    text: &[u8],
) -> Result<Vec<u8>, AllocError>
    requires good { checked setup.now ≡ Ok tt }
    requires text { text.now
        ≡ bits_text setup.now field (bits_read (width setup.now field) first.now) }
    ensures { IfOk result (λ text. text.items
        ≡ bits_text setup.now field (bits_read (width setup.now field) copy.now)) }
{
    if are_same(copy, first) {
        return Vec::from_slice(alloc, text);
    }
    copy_text(alloc, setup, field, copy)
}

/// Returns whether two copies hold the same bytes, or a bit of each is being written.
fn are_same(copy: &Option<[u8; 216]>, other: &Option<[u8; 216]>) -> bool
    ensures { IsTrue result ↔ (copy.now ≡ other.now) }
{
    match other {
        None => copy.is_none(),
        Some(bytes) => !are_other(copy, bytes),
    }
}

/// Returns the text of a copy: `flickers` while a write of one of its bits is open, otherwise what its bits show.
fn copy_text(
    alloc: Global,
    setup: &Setup,
    field: Field,
    copy: &Option<[u8; 216]>,
) -> Result<Vec<u8>, AllocError>
    requires good { checked setup.now ≡ Ok tt }
    ensures { IfOk result (λ text. text.items
        ≡ bits_text setup.now field (bits_read (width setup.now field) copy.now)) }
{
    match copy {
        None => Vec::from_slice(alloc, b"flickers"),
        Some(bytes) => shown(alloc, setup, field, bytes),
    }
}

/// Returns whether a copy does not hold these bytes, or a write of one of its bits is open.
pub(crate) fn are_changed(copies: &[Option<[u8; 216]>], opening: &[u8; 216]) -> bool
    ensures { result ≡ list_any (are_other opening.now) copies.now }
{
    copies.iter().any(|copy| are_other(copy, opening))
}

/// Returns whether bytes are not these, or there are none.
fn are_other(bytes: &Option<[u8; 216]>, these: &[u8; 216]) -> bool
    ensures { result ≡ are_other these.now bytes.now }
{
    match bytes {
        None => true,
        Some(bytes) => bytes[..] != these[..],
    }
}

/// Returns the bytes with which a register opens.
pub(crate) fn opening_bytes(setup: &Setup, register: RegisterName) -> Result<[u8; 216], AllocError>
    requires good { checked setup.now ≡ Ok tt }
    ensures { IfOk result (λ bytes. bytes
        ≡ register_bytes (opening_bits setup.now register.owner register.field)) }
{
    if register.owner > 0 {
        return Ok([0; 216]);
    }
    match register.field {
        Field::Image0 => opening_image(setup),
        _ => Ok([0; 216]),
    }
}

/// Returns the image of the opening store as the bytes of a register.
fn opening_image(setup: &Setup) -> Result<[u8; 216], AllocError>
    requires good { checked setup.now ≡ Ok tt }
    ensures { IfOk result (λ bytes. bytes ≡ register_bytes (opening_bits setup.now 0 Image0)) }
{
    let image = opened(Image::empty(setup.slots, setup.callers()), setup)?;
    Ok(register_image(image.bytes()))
}

/// Returns the bytes of an image as those of a register.
fn register_image(image: &[u8]) -> [u8; 216]
    requires { length image.now ≤ 216 }
    ensures { result ≡ register_bytes (bits_in image.now (8 * length image.now)) }
{
    pad(image)
}
