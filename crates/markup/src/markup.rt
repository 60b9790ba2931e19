//! Markup that grows.
ghost use Rattle.std.specs.Prelude.{◌≡◌, ◌++◌, [], true, OnOk};
ghost use Rattle.markup.specs.Elements.{is_even};
ghost use Rattle.markup.specs.Figures.{AddsShape, Note};
ghost use Rattle.markup.specs.Markup.{entering, input_field, marking, parts_text, empty_element, tag_name, text_element};
ghost use Rattle.markup.specs.Readings.{followed_by, group, reading, with_begun, with_entered, with_mark, with_tags_of};
ghost use Rattle.markup.specs.Titles.{is_at_rest, is_no_mark, lines_in, tags_of};

use crate::attributes::Attribute;
use crate::names::Tag;
use crate::parts::{TagPart, push_parts};
use std::alloc::{AllocError, Global};
use std::marker::Model;

/// Markup that grows. Contracts see its bytes, and their reading: the titles of its marks, which only `mark`
/// adds, and which elements are open. Each tag is added whole, so the reading of earlier markup stays the same.
#[derive(Drop)]
pub struct Markup {
    alloc: Global,
    bytes: Vec<u8>,
}

impl Model for Markup {
    ghost use Rattle.std.specs.Prelude.{◌≡◌, ℕ, List, true};
    ghost use Rattle.markup.specs.Titles.{is_at_rest, tags_of};

    ghost Value = { List ℕ };

    ghost view = { λ m. m.bytes.items };

    ghost invariant = { λ m. is_at_rest (tags_of m.bytes.items) ≡ true };
}

impl Markup {
    /// Creates empty markup.
    pub fn new(alloc: Global) -> Markup
        ensures { result ≡ [] }
    {
        Markup {
            alloc,
            bytes: Vec::new(alloc),
        }
    }

    /// Returns the bytes of the markup.
    pub fn as_slice(&self) -> &[u8]
        ensures bytes { result.now ≡ self.now }
        ensures rests { is_at_rest (tags_of self.now) ≡ true }
    {
        self.bytes.as_slice()
    }

    /// Returns the allocator of the markup.
    pub fn alloc(&self) -> Global {
        self.alloc
    }

    /// Adds a tag with nothing in it, and ends the line.
    ///
    /// # Errors
    ///
    /// Returns [`AllocError`] if memory runs out.
    pub fn add_empty_element(
        &mut self,
        tag: Tag,
        attributes: &[Attribute],
    ) -> Result<(), AllocError>
        requires { is_no_mark (tag_name tag) ≡ true }
        ensures draws { OnOk result (self.new ≡ self.old ++ empty_element tag attributes.now) }
        ensures read { OnOk result (reading self.new ≡ reading self.old) }
    {
        self.add_parts(&[
            TagPart::Plain("<"),
            TagPart::Name(tag),
            TagPart::Attributes(attributes),
            TagPart::Plain("/>\n"),
        ])
    }

    /// Adds a tag whose content follows: an element begins.
    ///
    /// # Errors
    ///
    /// Returns [`AllocError`] if memory runs out.
    pub fn enter(&mut self, tag: Tag, attributes: &[Attribute]) -> Result<(), AllocError>
        requires { is_no_mark (tag_name tag) ≡ true }
        ensures draws { OnOk result (self.new ≡ self.old ++ entering tag attributes.now) }
        ensures read { OnOk result (reading self.new ≡ with_entered tag (reading self.old)) }
    {
        self.add_parts(&[
            TagPart::Plain("<"),
            TagPart::Name(tag),
            TagPart::Attributes(attributes),
            TagPart::Plain(">"),
        ])
    }

    /// Adds a tag around a text.
    ///
    /// # Errors
    ///
    /// Returns [`AllocError`] if memory runs out.
    pub fn add_text_element(
        &mut self,
        tag: Tag,
        attributes: &[Attribute],
        text: &[u8],
    ) -> Result<(), AllocError>
        ensures draws { OnOk result
            (self.new ≡ self.old ++ text_element tag attributes.now text.now) }
        ensures read { OnOk result (reading self.new ≡ reading self.old) }
    {
        self.add_parts(&[
            TagPart::Plain("<"),
            TagPart::Name(tag),
            TagPart::Attributes(attributes),
            TagPart::Plain(">"),
            TagPart::Text(text),
            TagPart::Plain("</"),
            TagPart::Name(tag),
            TagPart::Plain(">"),
        ])
    }

    /// Adds a field for input, which has no content and, in HTML, no end.
    ///
    /// # Errors
    ///
    /// Returns [`AllocError`] if memory runs out.
    pub fn input(&mut self, attributes: &[Attribute]) -> Result<(), AllocError>
        ensures draws { OnOk result (self.new ≡ self.old ++ input_field attributes.now) }
        ensures read { OnOk result (reading self.new ≡ reading self.old) }
    {
        self.add_parts(&[
            TagPart::Plain("<input"),
            TagPart::Attributes(attributes),
            TagPart::Plain(">"),
        ])
    }

    /// Begins a mark, which has a line of the run as its title.
    ///
    /// # Errors
    ///
    /// Returns [`AllocError`] if memory runs out.
    pub fn mark(&mut self, attributes: &[Attribute], line: &[u8]) -> Result<(), AllocError>
        ensures draws { OnOk result (self.new ≡ self.old ++ marking attributes.now line.now) }
        ensures read { OnOk result (reading self.new ≡ with_mark line.now (reading self.old)) }
    {
        self.add_parts(&[
            TagPart::Plain("<g class=\"m\" role=\"img\""),
            TagPart::Attributes(attributes),
            TagPart::Plain("><title>"),
            TagPart::Text(line),
            TagPart::Plain("</title>\n"),
        ])
    }

    /// Begins a group other than a mark, with a title that is not a line of the run.
    ///
    /// # Errors
    ///
    /// Returns [`AllocError`] if memory runs out.
    #[tactic(auto, unfolding(crate::specs::Figures::drawn))]
    pub fn note(&mut self, title: &[u8]) -> Result<(), AllocError>
        ensures draws { AddsShape result self.old (Note title.now) self.new }
        ensures read { OnOk result (reading self.new ≡ with_begun group (reading self.old)) }
    {
        self.add_parts(&[
            TagPart::Plain("<g class=\"r\"><title>"),
            TagPart::Text(title),
            TagPart::Plain("</title>\n"),
        ])
    }

    /// Adds markup of the program's source, in which there is no mark, and each element that begins ends.
    ///
    /// # Errors
    ///
    /// Returns [`AllocError`] if memory runs out.
    pub fn constant(&mut self, markup: &str) -> Result<(), AllocError>
        requires rests { is_at_rest (tags_of markup.now) ≡ true }
        requires lines { lines_in markup.now ≡ [] }
        requires even { is_even markup.now ≡ true }
        ensures draws { OnOk result (self.new ≡ self.old ++ markup.now) }
        ensures read { OnOk result (reading self.new ≡ reading self.old) }
    {
        self.add(markup.as_bytes())
    }

    /// Adds markup of the program's source, in which there is no mark. Elements may begin and end in it.
    ///
    /// # Errors
    ///
    /// Returns [`AllocError`] if memory runs out.
    pub fn frame(&mut self, markup: &str) -> Result<(), AllocError>
        requires rests { is_at_rest (tags_of markup.now) ≡ true }
        requires lines { lines_in markup.now ≡ [] }
        ensures draws { OnOk result (self.new ≡ self.old ++ markup.now) }
        ensures read { OnOk result (reading self.new ≡ with_tags_of markup.now (reading self.old)) }
    {
        self.add(markup.as_bytes())
    }

    /// Adds parts that are at rest together: all of them, or none if memory runs out.
    pub(crate) fn add_parts(&mut self, parts: &[TagPart]) -> Result<(), AllocError>
        requires { is_at_rest (tags_of (parts_text parts.now)) ≡ true }
        ensures draws { OnOk result (self.new ≡ self.old ++ parts_text parts.now) }
        ensures read { OnOk result
            (reading self.new ≡ followed_by (parts_text parts.now) (reading self.old)) }
    {
        let mut bytes = Vec::new(self.alloc);
        push_parts(self.alloc, &mut bytes, parts)?;
        self.add(bytes.as_slice())
    }

    /// Adds bytes that are at rest.
    #[tactic(auto, using(crate::proofs::Lines::rests_after, crate::proofs::Readings::reading_after))]
    fn add(&mut self, bytes: &[u8]) -> Result<(), AllocError>
        requires { is_at_rest (tags_of bytes.now) ≡ true }
        ensures draws { OnOk result (self.new ≡ self.old ++ bytes.now) }
        ensures read { OnOk result (reading self.new ≡ followed_by bytes.now (reading self.old)) }
    {
        self.bytes.extend_from_slice(bytes)
    }
}
