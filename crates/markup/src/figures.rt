//! Lines, boxes, paths and words, each on a line of its own.
ghost use Rattle.std.specs.Prelude.{◌≡◌, OnOk};
ghost use Rattle.std.specs.Fmt.{decimal};
ghost use Rattle.markup.specs.Figures.{AddsShape, Block, Label, Pill, Ring, line_from, path_from};
ghost use Rattle.markup.specs.Readings.{reading};

use crate::attributes::{class, number, words};
use crate::markup::Markup;
use crate::names::{Key, Tag};
use std::alloc::AllocError;

/// A place in a picture, in pixels from its upper left corner.
#[derive(Clone, Copy)]
pub struct Point {
    pub x: u32,
    pub y: u32,
}

impl Point {
    /// Returns the place with these two coordinates.
    pub fn at(x: u32, y: u32) -> Point
        ensures { result ≡ record { x = x; y = y } }
    {
        Point { x, y }
    }
}

impl Markup {
    /// Adds a line from one place to another.
    ///
    /// # Errors
    ///
    /// Returns [`AllocError`] if memory runs out.
    #[tactic(auto, using(crate::proofs::Runs::line_is), unfolding(crate::specs::Figures::line_from))]
    pub fn line(&mut self, style: &str, from: Point, to: Point) -> Result<(), AllocError>
        ensures draws { AddsShape result self.old (line_from style.now from to) self.new }
        ensures read { OnOk result (reading self.new ≡ reading self.old) }
    {
        let Point { x, y } = to;
        let rest = format!(in self.alloc(); "L{x} {y}")?;
        self.path(style, from, rest.as_str())
    }

    /// Adds a path from a place on, by the rest of its description.
    ///
    /// # Errors
    ///
    /// Returns [`AllocError`] if memory runs out.
    #[tactic(auto, using(crate::proofs::Runs::path_is), unfolding(crate::specs::Figures::drawn, crate::specs::Figures::path_from))]
    pub fn path(&mut self, style: &str, from: Point, rest: &str) -> Result<(), AllocError>
        ensures draws { AddsShape result self.old (path_from style.now from rest.now) self.new }
        ensures read { OnOk result (reading self.new ≡ reading self.old) }
    {
        let Point { x, y } = from;
        let path = format!(in self.alloc(); "M{x} {y}{rest}")?;
        self.add_empty_element(
            Tag::Path,
            &[class(style), words(Key::Path, path.as_bytes())],
        )
    }

    /// Adds a box, by its upper left corner.
    ///
    /// # Errors
    ///
    /// Returns [`AllocError`] if memory runs out.
    #[tactic(auto, unfolding(crate::specs::Figures::drawn))]
    pub fn block(
        &mut self,
        style: &str,
        corner: Point,
        width: u32,
        height: u32,
    ) -> Result<(), AllocError>
        ensures draws { AddsShape result self.old (Block style.now corner width height) self.new }
        ensures read { OnOk result (reading self.new ≡ reading self.old) }
    {
        self.add_empty_element(
            Tag::Rect,
            &[
                class(style),
                number(Key::X, u64::from(corner.x)),
                number(Key::Y, u64::from(corner.y)),
                number(Key::Width, u64::from(width)),
                number(Key::Height, u64::from(height)),
            ],
        )
    }

    /// Adds a box 16 pixels high with round ends.
    ///
    /// # Errors
    ///
    /// Returns [`AllocError`] if memory runs out.
    #[tactic(auto, unfolding(crate::specs::Figures::drawn))]
    pub fn pill(&mut self, style: &str, corner: Point, width: u32) -> Result<(), AllocError>
        ensures draws { AddsShape result self.old (Pill style.now corner width) self.new }
        ensures read { OnOk result (reading self.new ≡ reading self.old) }
    {
        self.add_empty_element(
            Tag::Rect,
            &[
                class(style),
                number(Key::X, u64::from(corner.x)),
                number(Key::Y, u64::from(corner.y)),
                number(Key::Width, u64::from(width)),
                number(Key::Height, 16),
                number(Key::Rx, 8),
            ],
        )
    }

    /// Adds a ring of 5 pixels round a place.
    ///
    /// # Errors
    ///
    /// Returns [`AllocError`] if memory runs out.
    #[tactic(auto, unfolding(crate::specs::Figures::drawn))]
    pub fn ring(&mut self, style: &str, middle: Point) -> Result<(), AllocError>
        ensures draws { AddsShape result self.old (Ring style.now middle) self.new }
        ensures read { OnOk result (reading self.new ≡ reading self.old) }
    {
        self.add_empty_element(
            Tag::Circle,
            &[
                class(style),
                number(Key::Cx, u64::from(middle.x)),
                number(Key::Cy, u64::from(middle.y)),
                number(Key::R, 5),
            ],
        )
    }

    /// Adds words that begin at a place.
    ///
    /// # Errors
    ///
    /// Returns [`AllocError`] if memory runs out.
    #[tactic(auto, unfolding(crate::specs::Figures::drawn))]
    pub fn label(&mut self, style: &str, at: Point, text: &[u8]) -> Result<(), AllocError>
        ensures draws { AddsShape result self.old (Label style.now at text.now) self.new }
        ensures read { OnOk result (reading self.new ≡ reading self.old) }
    {
        let attributes = [
            class(style),
            number(Key::X, u64::from(at.x)),
            number(Key::Y, u64::from(at.y)),
        ];
        self.add_text_element(Tag::Text, &attributes, text)?;
        self.constant("\n")
    }

    /// Adds a number that begins at a place.
    ///
    /// # Errors
    ///
    /// Returns [`AllocError`] if memory runs out.
    pub fn numeral(&mut self, style: &str, at: Point, numeral: u64) -> Result<(), AllocError>
        ensures draws { AddsShape result self.old (Label style.now at (decimal numeral)) self.new }
        ensures read { OnOk result (reading self.new ≡ reading self.old) }
    {
        let digits = numeral.to_string(self.alloc())?;
        self.label(style, at, digits.as_bytes())
    }
}
