//! Attributes of tags, as bytes.
ghost use Rattle.std.specs.Prelude.{◌≡◌, ◌++◌, OnOk};
ghost use Rattle.markup.specs.Escaping.{escaped};
ghost use Rattle.markup.specs.Markup.{attribute_text, attributes_text, meant, said_text};
ghost use Rattle.std.specs.Fmt.{decimal};
ghost use Rattle.markup.specs.declared.names.Key.TheVariants as key_variants;

use crate::escaping::push_escaped;
use crate::names::Key;
use std::alloc::{AllocError, Global};

/// The meaning of an attribute.
#[derive(Clone, Copy)]
pub enum Meaning<'a> {
    Words(&'a [u8]),
    Number(u64),
}

/// An attribute of a tag, and its meaning.
#[derive(Clone, Copy)]
pub struct Attribute<'a> {
    pub key: Key,
    pub meaning: Meaning<'a>,
}

/// Creates an attribute whose value is these words.
pub fn words<'a>(key: Key, words: &'a [u8]) -> Attribute<'a>
    ensures { attribute_text result ≡ said_text (key, words.now) }
{
    Attribute {
        key,
        meaning: Meaning::Words(words),
    }
}

/// Creates an attribute whose value is a number.
pub fn number<'a>(key: Key, number: u64) -> Attribute<'a>
    ensures { attribute_text result ≡ said_text (key, decimal number) }
{
    Attribute {
        key,
        meaning: Meaning::Number(number),
    }
}

/// Creates the attribute that chooses a style.
pub fn class<'a>(style: &'a str) -> Attribute<'a>
    ensures { attribute_text result ≡ said_text (key_variants.Class, style.now) }
{
    words(Key::Class, style.as_bytes())
}

/// Adds an attribute to a tag.
fn push_attribute(
    alloc: Global,
    bytes: &mut Vec<u8>,
    attribute: &Attribute,
) -> Result<(), AllocError>
    ensures { OnOk result (bytes.new.items ≡ bytes.old.items ++ attribute_text attribute.now) }
{
    bytes.extend_from_slice(b" ")?;
    bytes.extend_from_slice(attribute.key.name().as_bytes())?;
    bytes.extend_from_slice(b"=\"")?;
    push_meaning(alloc, bytes, &attribute.meaning)?;
    bytes.extend_from_slice(b"\"")
}

fn push_meaning(alloc: Global, bytes: &mut Vec<u8>, meaning: &Meaning) -> Result<(), AllocError>
    ensures { OnOk result (bytes.new.items ≡ bytes.old.items ++ escaped (meant meaning.now)) }
{
    match meaning {
        Meaning::Words(words) => push_escaped(bytes, words),
        Meaning::Number(number) => {
            let digits = number.to_string(alloc)?;
            push_escaped(bytes, digits.as_bytes())
        }
    }
}

/// Adds attributes to a tag.
pub(crate) fn push_attributes(
    alloc: Global,
    bytes: &mut Vec<u8>,
    attributes: &[Attribute],
) -> Result<(), AllocError>
    ensures { OnOk result (bytes.new.items ≡ bytes.old.items ++ attributes_text attributes.now) }
{
    for attribute in attributes {
        push_attribute(alloc, bytes, attribute)?;
    }
    Ok(())
}
