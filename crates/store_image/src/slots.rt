//! The layout of a pair in the 23 bytes of a slot.
ghost use Rattle.std.specs.Prelude.{◌≡◌, length, IsTrue, Some, None, if◌then◌else◌};
ghost use Rattle.std.specs.Str.{bytes_eq};
ghost use Rattle.plain_store.specs.{fits_i64, is_name, is_pair, is_text, is_value, padded};
ghost use Rattle.store_image.specs.Slots.{count_bytes, count_in, kind_of, value_bytes, slot_of, name_in, text_in, value_in, is_unused, is_used, pair_in};

use plain_store::{Name, Text, Value, pad};

/// The bytes of a slot.
pub const SLOT_BYTES: usize = 23;

/// Returns the slot of a pair: the kind (1 a counter, 2 a text), the name's length, the name and zeros up to 8
/// bytes. The value's length follows, and then the value and zeros up to 12 bytes.
pub fn slot_of(name: &Name, value: &Value) -> [u8; SLOT_BYTES]
    ensures bytes { result ≡ slot_of (name.now, value.now) }
    ensures valid { IsTrue (is_pair (name.now, value.now)) }
{
    let (length, bytes) = value_part(value);
    let mut slot = [0; SLOT_BYTES];
    slot[11..].copy_from_slice(&bytes);
    slot[10] = length;
    slot[2..10].copy_from_slice(&padded_name(name));
    slot[1] = name.bytes().len() as u8;
    slot[0] = kind_of(value);
    slot
}

fn padded_name(name: &Name) -> [u8; 8]
    ensures bytes { result ≡ padded 8 name.now }
    ensures valid { IsTrue (is_name name.now) }
{
    pad(name.bytes())
}

fn kind_of(value: &Value) -> u8
    ensures { result ≡ kind_of value.now }
{
    match value {
        Value::Count(_) => 1,
        Value::Text(_) => 2,
    }
}

/// Returns the length of a value and its padded bytes. A count is in two's complement, the highest byte first.
fn value_part(value: &Value) -> (u8, [u8; 12])
    ensures length { result.0 ≡ length (value_bytes value.now) }
    ensures bytes { result.1 ≡ padded 12 (value_bytes value.now) }
    ensures valid { IsTrue (is_value value.now) }
{
    match value {
        Value::Count(count) => (8, pad(&count_bytes(*count))),
        Value::Text(text) => (text.bytes().len() as u8, pad(text.bytes())),
    }
}

#[tactic(auto, unfolding(crate::specs::Slots::count_bytes))]
fn count_bytes(count: i64) -> [u8; 8]
    ensures bytes { result ≡ count_bytes count }
    ensures valid { IsTrue (fits_i64 count) }
{
    count.to_be_bytes()
}

#[tactic(auto, unfolding(crate::specs::Slots::count_in))]
fn count_in(bytes: [u8; 8]) -> i64
    ensures value { result ≡ count_in bytes }
    ensures valid { IsTrue (fits_i64 (count_in bytes)) }
{
    i64::from_be_bytes(bytes)
}

/// Returns the bytes of the name in a slot.
#[tactic(auto, unfolding(crate::specs::Slots::name_in))]
pub fn name_in(slot: &[u8]) -> &[u8]
    requires { length slot.now ≡ 23 }
    ensures { result.now ≡ name_in slot.now }
{
    let length = usize::from(slot[1]).min(8);
    &slot[2..2 + length]
}

/// Returns whether the name in a slot is this one.
pub fn has_name(slot: &[u8], name: &[u8]) -> bool
    requires { length slot.now ≡ 23 }
    ensures { result ≡ bytes_eq name.now (name_in slot.now) }
{
    name == name_in(slot)
}

/// Returns the value in a slot, if it is one.
#[tactic(auto, unfolding(crate::specs::Slots::value_in))]
pub fn value_in(slot: &[u8]) -> Option<Value>
    requires { length slot.now ≡ 23 }
    ensures { result ≡ (if is_value (value_in slot.now) then Some (value_in slot.now) else None) }
{
    if slot[0] == 1 {
        Some(Value::Count(count_in(pad(&slot[11..19]))))
    } else {
        text_in(slot).map(Value::Text)
    }
}

fn text_in(slot: &[u8]) -> Option<Text>
    requires { length slot.now ≡ 23 }
    ensures { result ≡ (if is_text (text_in slot.now) then Some (text_in slot.now) else None) }
{
    let length = usize::from(slot[10]).min(12);
    Text::new(&slot[11..11 + length]).ok()
}

/// Returns whether a slot is unused.
#[tactic(auto, unfolding(crate::specs::Slots::unused_slot))]
pub fn is_unused(slot: &[u8]) -> bool
    ensures { result ≡ is_unused slot.now }
{
    slot == [0; SLOT_BYTES].as_slice()
}

/// Returns the pair whose slot the bytes are, if there is one.
pub fn pair_in(slot: &[u8]) -> Option<(Name, Value)>
    requires { length slot.now ≡ 23 }
    ensures { result ≡ (if is_used slot.now then Some (pair_in slot.now) else None) }
{
    let name = Name::new(name_in(slot)).ok()?;
    let value = value_in(slot)?;
    if slot_of(&name, &value).as_slice() == slot {
        Some((name, value))
    } else {
        None
    }
}

/// Returns whether the bytes are the slot of a pair.
pub fn is_used(slot: &[u8]) -> bool
    requires { length slot.now ≡ 23 }
    ensures { result ≡ is_used slot.now }
{
    pair_in(slot).is_some()
}
