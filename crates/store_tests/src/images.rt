ghost use Rattle.std.specs.Prelude.{◌≤◌};

use plain_store::{Caller, Command, Name, Store, Text, Value};
use std::process::Abort;
use std::test::Fail;
use store_image::{BadImage, Image};

/// The number of bytes of the longest image.
const MOST_BYTES: usize = 216;

/// A counter `a` with 5 in one slot, no callers.
const COUNTER: [u8; 23] = [
    1, 1, 0x61, 0, 0, 0, 0, 0, 0, 0, 8, 0, 0, 0, 0, 0, 0, 0, 5, 0, 0, 0, 0,
];

/// Returns the image of two slots.
fn of_two(first: &[u8; 23], second: &[u8; 23]) -> [u8; 46] {
    let mut bytes = [0; 46];
    bytes[..23].copy_from_slice(first);
    bytes[23..].copy_from_slice(second);
    bytes
}

// Bytes of another length are refused, and bytes of which a slot breaks a rule.
#[test]
fn readers_refuse_bytes_that_are_no_image(rt: HostRuntime) {
    let cases: [(&[u8], u8); 5] = [
        (&COUNTER[..22], 0),
        (&[], 0),
        (&[0; 31], 16),
        (&[0; 32], 16),
        (&[0; 207], 0),
    ];
    for (bytes, callers) in cases {
        assert!(rt; matches!(Image::read(bytes, callers), Err(BadImage::Length)));
    }
    let mut unclean = COUNTER;
    unclean[22] = 1;
    assert!(rt; matches!(Image::read(&unclean, 0), Err(BadImage::Slot(0))));
    // An image of two slots that has the counter after an unused slot, and one that has it twice.
    for first in [[0; 23], COUNTER] {
        let bytes = of_two(&first, &COUNTER);
        assert!(rt; matches!(Image::read(&bytes, 0), Err(BadImage::Slot(1))));
    }
}

fn are_zeros(bytes: &[u8]) -> bool {
    for byte in bytes {
        if *byte != 0 {
            return false;
        }
    }
    true
}

fn is_within(byte: u8, least: u8, greatest: u8) -> bool {
    least <= byte && byte <= greatest
}

fn is_of_name(byte: u8) -> bool {
    is_within(byte, b'a', b'z') || is_within(byte, b'0', b'9') || byte == b'_'
}

fn are_of_name(bytes: &[u8]) -> bool {
    for byte in bytes {
        if !is_of_name(*byte) {
            return false;
        }
    }
    true
}

fn are_of_text(bytes: &[u8]) -> bool {
    for byte in bytes {
        if !is_within(*byte, 0x21, 0x7e) {
            return false;
        }
    }
    true
}

/// Returns the name in a slot, by the table of its bytes: `Some(None)` for an unused slot, and `None` for a bad one.
fn table(slot: &[u8]) -> Option<Option<&[u8]>> {
    if slot.len() != 23 {
        return None;
    }
    if slot[0] == 0 {
        return if are_zeros(slot) { Some(None) } else { None };
    }
    let name_length = usize::from(slot[1]);
    let value_length = usize::from(slot[10]);
    if name_length < 1 || name_length > 8 || value_length > 12 {
        return None;
    }
    let name = &slot[2..2 + name_length];
    let value = &slot[11..11 + value_length];
    let good_value = (slot[0] == 1 && value_length == 8) || (slot[0] == 2 && are_of_text(value));
    let clean = are_zeros(&slot[2 + name_length..10]) && are_zeros(&slot[11 + value_length..]);
    if are_of_name(name) && good_value && clean {
        Some(Some(name))
    } else {
        None
    }
}

/// Returns whether one of the first `slots` slots has this name.
fn has_name(bytes: &[u8], slots: usize, name: &[u8]) -> bool {
    for slot in bytes.chunks_exact(23).take(slots) {
        if let Some(Some(other)) = table(slot)
            && other == name
        {
            return true;
        }
    }
    false
}

/// Returns the first of `slots` slots that is bad, by the table or because of a slot before it.
fn first_fault(bytes: &[u8], slots: usize) -> Option<usize> {
    let mut unused_before = false;
    for (place, slot) in bytes.chunks_exact(23).take(slots).enumerate() {
        let Some(name) = table(slot) else {
            return Some(place);
        };
        let Some(name) = name else {
            unused_before = true;
            continue;
        };
        if unused_before || has_name(bytes, place, name) {
            return Some(place);
        }
    }
    None
}

/// Returns whether these bytes are read as the table states.
fn is_read_by_the_table(bytes: &[u8], slots: usize, callers: u8) -> bool
    requires { callers ≤ 16 }
{
    let read = Image::read(bytes, callers);
    match first_fault(bytes, slots) {
        Some(place) => matches!(read, Err(BadImage::Slot(reported)) if reported == place),
        None => matches!(read, Ok(image) if image.bytes() == bytes),
    }
}

/// Changes each byte of an image to some others, and compares each result with that of the table.
fn each_byte_counts(rt: &impl Abort, image: &Image, slots: u8, callers: u8)
    requires { callers ≤ 16 }
{
    let mut bytes = [0; MOST_BYTES];
    let length = image.bytes().len();
    let slots = usize::from(slots);
    assert!(rt; slots * 23 <= length && length <= MOST_BYTES);
    bytes[..length].copy_from_slice(image.bytes());
    for at in 0..length {
        let kept = bytes[at];
        for other in [0, 1, 2, kept.wrapping_add(1), 0x20, b'a', 0x80, 0xff] {
            bytes[at] = other;
            let is_so = is_read_by_the_table(&bytes[..length], slots, callers);
            assert!(rt; is_so, "changed at {at}");
        }
        bytes[at] = kept;
    }
}

/// Returns the image of a store in which these pairs were written.
fn written(slots: u8, callers: u8, pairs: &[(&[u8], Value)]) -> Result<Image, Fail>
    requires some_slots { 1 ≤ slots }
    requires few_slots { slots ≤ 8 }
    requires few_callers { callers ≤ 16 }
{
    let mut image = Image::empty(slots, callers);
    let caller = Caller {
        process: 0,
        number: 0x0102,
    };
    for (name, value) in pairs {
        image.apply(&Command::Write(Name::new(name)?, *value), caller)?;
    }
    Ok(image)
}

// Bytes are changed in names, in lengths, in values and in the zeros after them.
#[test]
fn changed_bytes_are_read_by_the_table(rt: HostRuntime) -> Result<(), Fail> {
    let long = Value::Text(Text::new(b"Twelve_bytes").unwrap());
    let image = written(3, 0, &[(b"a", Value::Count(5)), (b"b", long)])?;
    each_byte_counts(&rt, &image, 3, 0);
    let short = Value::Text(Text::new(b"!~").unwrap());
    let least = Value::Count(i64::MIN);
    let image = written(4, 2, &[(b"y_456789", short), (b"y_45678", least)])?;
    each_byte_counts(&rt, &image, 4, 2);
    each_byte_counts(&rt, &Image::empty(8, 16), 8, 16);
    Ok(())
}
