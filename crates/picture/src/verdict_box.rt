//! The box of a verdict below the last band.
ghost use Rattle.std.specs.Prelude.{◌≡◌, ◌≤◌, ◌<◌, ◌^◌, ◌++◌, [], ◌∷◌, length, map, OnOk};
ghost use Rattle.markup.specs.{Mark, reading, with_mark};
ghost use Rattle.picture_layout.specs.{seen_accesses};
ghost use Rattle.picture.specs.Adding.{Draws, ReportsLines, all_reported};
ghost use Rattle.picture.specs.Drawings.{seen_band};
ghost use Rattle.picture.specs.Verdicts.{box_at, height_with, judged_shapes, key_of, keys_at, keys_if, line_said, lines_from, lines_height as height_of_lines, ruling_style as style_of_ruling, sentence_at, titles_if, verdict_line, verdict_shapes};
ghost use Rattle.shown_verdict.specs.{seen_line, seen_verdict, title_of, verdict_titles};

use crate::bands::Band;
use markup::{Key, Markup, Point, number};
use picture_layout::{AccessState, room};
use shown_verdict::{FirstBadEntry, ShownVerdict, VerdictLine};
use std::alloc::{AllocError, Global};

impl Band {
    /// Returns the height of the band, with its verdict, if it has one.
    pub(crate) fn height(&self) -> u32
        ensures { result ≡ height_with self.now.verdict self.now.layout.height }
    {
        let height = u32::from(self.layout.height);
        match &self.verdict {
            Some(verdict) => height + (lines_height(verdict) + 46),
            None => height,
        }
    }

    /// Draws the band, and then its verdict, if it has one.
    pub(crate) fn draw_judged(
        &self,
        alloc: Global,
        accesses: &AccessState,
        markup: &mut Markup,
    ) -> Result<(), AllocError>
        ensures draws { Draws result markup.old markup.new
            (judged_shapes self.now.verdict (seen_band self.now) (seen_accesses accesses.now)) }
        ensures read { ReportsLines result markup.old markup.new
            (all_reported self.now.columns.items ++ titles_if self.now.verdict) }
    {
        self.draw(alloc, accesses, markup)?;
        match &self.verdict {
            Some(verdict) => self.draw_verdict(alloc, accesses, verdict, markup),
            None => Ok(()),
        }
    }

    /// Draws the outlines of a verdict in the band, and its box below the band.
    fn draw_verdict(
        &self,
        alloc: Global,
        accesses: &AccessState,
        verdict: &ShownVerdict,
        markup: &mut Markup,
    ) -> Result<(), AllocError>
        ensures draws { Draws result markup.old markup.new
            (verdict_shapes (seen_verdict verdict.now) (seen_band self.now)
            (seen_accesses accesses.now)) }
        ensures read { ReportsLines result markup.old markup.new
            (verdict_titles (seen_verdict verdict.now)) }
    {
        let edge = self.edge(verdict.bad);
        let top = u32::from(self.layout.height) + 8;
        self.draw_bad_column(verdict.bad, markup)?;
        self.draw_pointers(alloc, accesses, verdict, edge, markup)?;
        draw_box(verdict, top, markup)?;
        draw_lines(verdict, edge, top, markup)
    }
}

/// Draws the box of a verdict without its lines.
fn draw_box(verdict: &ShownVerdict, top: u32, markup: &mut Markup) -> Result<(), AllocError>
    requires { top < 2 ^ 17 }
    ensures draws { Draws result markup.old markup.new (box_at top (seen_verdict verdict.now)) }
    ensures read { OnOk result (reading markup.new ≡ reading markup.old) }
{
    let height = lines_height(verdict) + 34;
    markup.block(ruling_style(verdict.bad), Point::at(8, top), 1180, height)?;
    draw_sentence(verdict.sentence.as_slice(), top, markup)?;
    draw_keys(verdict.bad, top, markup)
}

/// Returns the style of the box. That of a verdict without a bad entry is not red.
fn ruling_style(bad: Option<FirstBadEntry>) -> &'static str
    ensures { result.now ≡ style_of_ruling bad }
{
    match bad {
        Some(_) => "ruling",
        None => "ruling kept",
    }
}

/// Draws the sentence of a verdict, if it has one.
fn draw_sentence(sentence: &[u8], top: u32, markup: &mut Markup) -> Result<(), AllocError>
    requires { top < 2 ^ 17 }
    ensures draws { Draws result markup.old markup.new (sentence_at top sentence.now) }
    ensures read { OnOk result (reading markup.new ≡ reading markup.old) }
{
    if sentence.is_empty() {
        return Ok(());
    }
    markup.label("sentence", Point::at(18, top + 18), sentence)
}

/// Draws the keys of the shapes in the band, if there is a bad entry.
fn draw_keys(bad: Option<FirstBadEntry>, top: u32, markup: &mut Markup) -> Result<(), AllocError>
    requires { top < 2 ^ 17 }
    ensures draws { Draws result markup.old markup.new (keys_if top bad) }
    ensures read { OnOk result (reading markup.new ≡ reading markup.old) }
{
    match bad {
        Some(_) => draw_both_keys(top, markup),
        None => Ok(()),
    }
}

/// Draws the key of the bad entry and that of the outlines.
fn draw_both_keys(top: u32, markup: &mut Markup) -> Result<(), AllocError>
    requires { top < 2 ^ 17 }
    ensures draws { Draws result markup.old markup.new (keys_at top) }
    ensures read { OnOk result (reading markup.new ≡ reading markup.old) }
{
    draw_key("bad", top, 600, 14, b"the bad entry", markup)?;
    let named = b"what the verdict names; an arrow leads to who breaks the law";
    draw_key("named", top, 715, 24, named, markup)
}

/// Draws the key of the shapes of a style.
fn draw_key(
    style: &str,
    top: u32,
    x: u16,
    width: u16,
    words: &[u8],
    markup: &mut Markup,
) -> Result<(), AllocError>
    requires { top < 2 ^ 17 }
    ensures draws { Draws result markup.old markup.new (key_of style.now top x width words.now) }
    ensures read { OnOk result (reading markup.new ≡ reading markup.old) }
{
    let left = u32::from(x);
    let width = u32::from(width);
    markup.block(style, Point::at(left, top + 6), width, 16)?;
    markup.label("key", Point::at(left + width + 6, top + 18), words)
}

/// Draws the lines of a verdict.
fn draw_lines(
    verdict: &ShownVerdict,
    edge: u16,
    top: u32,
    markup: &mut Markup,
) -> Result<(), AllocError>
    requires { top < 2 ^ 17 }
    ensures draws { Draws result markup.old markup.new
        (lines_from edge verdict.now.source top 0 (map seen_line verdict.now.lines.items)) }
    ensures read { ReportsLines result markup.old markup.new
        (verdict_titles (seen_verdict verdict.now)) }
{
    for (place, line) in verdict.lines.iter().enumerate() {
        let y = top + 36 + u32::from(room(place, 13));
        draw_line(edge, verdict.source, y, line, markup)?;
    }
    Ok(())
}

/// Draws a line of a verdict: a mark that has the line as its title, and its words.
fn draw_line(
    edge: u16,
    source: u64,
    y: u32,
    line: &VerdictLine,
    markup: &mut Markup,
) -> Result<(), AllocError>
    ensures draws { Draws result markup.old markup.new
        (verdict_line edge source y (seen_line line.now)) }
    ensures read { ReportsLines result markup.old markup.new (title_of (seen_line line.now) ∷ []) }
{
    begin_line(edge, source, line.title.as_slice(), markup)?;
    markup.label("rest", Point::at(18, y), line.words.as_slice())?;
    markup.end_group()
}

/// Begins the mark of a line by its place, the line that it comes from, and its title.
fn begin_line(edge: u16, source: u64, title: &[u8], markup: &mut Markup) -> Result<(), AllocError>
    ensures draws { Draws result markup.old markup.new
        (Mark (line_said edge source) title.now ∷ []) }
    ensures read { OnOk result (reading markup.new ≡ with_mark title.now (reading markup.old)) }
{
    let place = number(Key::Place, u64::from(edge));
    let source = number(Key::Source, source);
    markup.mark(&[place, source], title)
}

/// Returns the height of the lines in the box of a verdict.
fn lines_height(verdict: &ShownVerdict) -> u32
    ensures exact { result ≡ height_of_lines (length (seen_verdict verdict.now).lines) }
    ensures small { result ≤ 65535 }
{
    u32::from(room(verdict.lines.len(), 13))
}
