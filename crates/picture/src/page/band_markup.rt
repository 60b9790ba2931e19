//! The bands of a page as markup: each is a picture of its own, or a group of one picture.
ghost use Rattle.std.specs.Prelude.{◌≡◌, ◌++◌, codes, IfOk, OnOk};
ghost use Rattle.picture.specs.Adding.{Begins, FramesBand, all_reported};
ghost use Rattle.markup.specs.{EndsAll, lines_in};
ghost use Rattle.picture.specs.Bandings.{band_tag};
ghost use Rattle.picture.specs.Verdicts.{titles_if};
ghost use Rattle.picture.specs.declared.page.Form.TheVariants as form_variants;

use super::{Form, Page};
use crate::bands::Band;
use crate::sheets::view;
use markup::{Key, Markup, Tag, class, words};
use std::alloc::AllocError;

impl Page {
    /// Returns a band as a picture or as a group.
    pub(super) fn markup_of(&self, band: &Band) -> Result<Markup, AllocError>
        ensures draws { FramesBand result self.now.form self.now band.now }
        ensures lines { IfOk result
            (λ markup. lines_in markup
            ≡ all_reported band.now.columns.items ++ titles_if band.now.verdict) }
        ensures ended { IfOk result EndsAll }
    {
        match self.form {
            Form::Page => self.picture_of(band),
            Form::Picture(top) => self.group_of(band, top),
        }
    }

    /// Returns a band as a picture of its own.
    fn picture_of(&self, band: &Band) -> Result<Markup, AllocError>
        ensures draws { FramesBand result form_variants.Page self.now band.now }
        ensures lines { IfOk result
            (λ markup. lines_in markup
            ≡ all_reported band.now.columns.items ++ titles_if band.now.verdict) }
        ensures ended { IfOk result EndsAll }
    {
        let mut markup = Markup::new(self.alloc);
        enter_band(self.bands, band.height(), &mut markup)?;
        markup.constant("\n")?;
        band.draw_judged(self.alloc, &self.accesses, &mut markup)?;
        markup.frame("</svg>\n")?;
        Ok(markup)
    }

    /// Returns a band as a group of one picture, whose bands begin at this height.
    fn group_of(&self, band: &Band, top: u64) -> Result<Markup, AllocError>
        ensures draws { FramesBand result (form_variants.Picture top) self.now band.now }
        ensures lines { IfOk result
            (λ markup. lines_in markup
            ≡ all_reported band.now.columns.items ++ titles_if band.now.verdict) }
        ensures ended { IfOk result EndsAll }
    {
        let mut markup = Markup::new(self.alloc);
        markup.lower(top.saturating_add(self.height))?;
        band.draw_judged(self.alloc, &self.accesses, &mut markup)?;
        markup.end_group()?;
        Ok(markup)
    }
}

/// Adds the tag of the picture of the band with this number and height.
fn enter_band(number: u64, height: u32, markup: &mut Markup) -> Result<(), AllocError>
    ensures draws { OnOk result (markup.new ≡ markup.old ++ band_tag number height) }
    ensures read { Begins result markup.old markup.new (codes "svg") }
{
    let view = view(markup.alloc(), u64::from(height))?;
    let label = format!(in markup.alloc(); "Part {number} of the run")?;
    markup.enter(
        Tag::Svg,
        &[
            class("band"),
            words(Key::ViewBox, view.as_bytes()),
            words(Key::Role, b"group"),
            words(Key::Label, label.as_bytes()),
        ],
    )
}
