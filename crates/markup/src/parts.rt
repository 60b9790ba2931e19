//! Tags, part by part.
ghost use Rattle.std.specs.Prelude.{◌≡◌, ◌++◌, OnOk};
ghost use Rattle.markup.specs.Markup.{part_text, parts_text};

use crate::attributes::{Attribute, push_attributes};
use crate::escaping::push_escaped;
use crate::names::Tag;
use std::alloc::{AllocError, Global};

/// A part of a tag, or of the text between two tags.
#[derive(Clone, Copy)]
pub(crate) enum TagPart<'a, 't> {
    /// Markup that is not escaped.
    Plain(&'static str),
    Name(Tag),
    Attributes(&'a [Attribute<'a>]),
    /// A text, to be escaped.
    Text(&'t [u8]),
}

/// Adds parts, one after the other.
pub(crate) fn push_parts(
    alloc: Global,
    bytes: &mut Vec<u8>,
    parts: &[TagPart],
) -> Result<(), AllocError>
    ensures { OnOk result (bytes.new.items ≡ bytes.old.items ++ parts_text parts.now) }
{
    for part in parts {
        push_part(alloc, bytes, part)?;
    }
    Ok(())
}

fn push_part(alloc: Global, bytes: &mut Vec<u8>, part: &TagPart) -> Result<(), AllocError>
    ensures { OnOk result (bytes.new.items ≡ bytes.old.items ++ part_text part.now) }
{
    match part {
        TagPart::Plain(markup) => bytes.extend_from_slice(markup.as_bytes()),
        TagPart::Name(tag) => bytes.extend_from_slice(tag.name().as_bytes()),
        TagPart::Attributes(attributes) => push_attributes(alloc, bytes, attributes),
        TagPart::Text(text) => push_escaped(bytes, text),
    }
}
