//! Groups of shapes.
ghost use Rattle.std.specs.Prelude.{◌≡◌, ◌++◌, OnOk};
ghost use Rattle.markup.specs.Figures.{End, drawn};
ghost use Rattle.markup.specs.Markup.{lowering};
ghost use Rattle.markup.specs.Readings.{group, reading, with_begun, with_ended};

use crate::markup::Markup;
use crate::parts::TagPart;
use std::alloc::AllocError;

impl Markup {
    /// Begins a group of shapes that are moved down by `by` pixels.
    ///
    /// # Errors
    ///
    /// Returns [`AllocError`] if memory runs out.
    pub fn lower(&mut self, by: u64) -> Result<(), AllocError>
        ensures draws { OnOk result (self.new ≡ self.old ++ lowering by) }
        ensures read { OnOk result (reading self.new ≡ with_begun group (reading self.old)) }
    {
        let digits = by.to_string(self.alloc())?;
        self.add_parts(&[
            TagPart::Plain("<g transform=\"translate(0,"),
            TagPart::Text(digits.as_bytes()),
            TagPart::Plain(")\">\n"),
        ])
    }

    /// Ends a group.
    ///
    /// # Errors
    ///
    /// Returns [`AllocError`] if memory runs out.
    #[tactic(auto, unfolding(crate::specs::Figures::drawn))]
    pub fn end_group(&mut self) -> Result<(), AllocError>
        ensures draws { OnOk result (self.new ≡ self.old ++ drawn End) }
        ensures read { OnOk result (reading self.new ≡ with_ended group (reading self.old)) }
    {
        self.frame("</g>\n")
    }
}
