//! The marks of a band: for each line of the run a group that has the line as its title.
ghost use Rattle.std.specs.Prelude.{◌≡◌, [], ◌∷◌, IfOk, OnOk, string_bytes};
ghost use Rattle.picture.specs.Adding.{Draws, ReportsLines};
ghost use Rattle.markup.specs.{Mark, reading, with_mark};
ghost use Rattle.picture_layout.specs.{change_reported, seen, text_of, texts};
ghost use Rattle.picture.specs.Drawings.{column_shapes, foot_shapes, head_shapes, line_shapes, lines_shapes, mark_said, mark_shape, note_shapes, notes_shapes, number_words, pair_words, place_of_row, right_by, rows_of_line, rows_place, seen_band};
ghost use Rattle.picture.specs.Words.{queue_text, row_class};

use crate::bands::Band;
use crate::reads::draw_read;
use crate::signs::{below, draw_sign, moved};
use crate::words::listed;
use markup::{Key, Markup, Point, number, words};
use picture_layout::{Column, RunLine, TextRow};
use std::alloc::{AllocError, Global};

impl Band {
    /// Draws a column: its pole, its number, its read, and its lines.
    pub(crate) fn draw_column(
        &self,
        alloc: Global,
        column: &Column,
        markup: &mut Markup,
    ) -> Result<(), AllocError>
        ensures draws { Draws result markup.old markup.new
            (column_shapes (seen_band self.now) (seen column.now)) }
        ensures read { ReportsLines result markup.old markup.new (texts column.now.lines.items) }
    {
        let Some(process) = column.lane else {
            return self.draw_notes(column, markup);
        };
        let lane = self.layout.lane(process);
        let foot = Point::at(u32::from(column.x), lane.bar());
        let head = Point::at(foot.x, u32::from(lane.top));
        draw_head(alloc, column, head, foot, markup)?;
        self.draw_lines(column, head, foot, markup)
    }

    /// Draws the lines of a column in the lane of a process.
    fn draw_lines(
        &self,
        column: &Column,
        head: Point,
        foot: Point,
        markup: &mut Markup,
    ) -> Result<(), AllocError>
        ensures draws { Draws result markup.old markup.new
            (lines_shapes (seen_band self.now) (seen column.now) head foot 0
            column.now.lines.items) }
        ensures read { ReportsLines result markup.old markup.new (texts column.now.lines.items) }
    {
        for (place, line) in column.lines.iter().enumerate() {
            self.draw_line(column, place, line, head, foot, markup)?;
        }
        Ok(())
    }

    /// Draws the group of a line of such a column, by its index in the column.
    fn draw_line(
        &self,
        column: &Column,
        place: usize,
        line: &RunLine,
        head: Point,
        foot: Point,
        markup: &mut Markup,
    ) -> Result<(), AllocError>
        ensures draws { Draws result markup.old markup.new
            (line_shapes (seen_band self.now) (seen column.now) head foot place line.now) }
        ensures read { ReportsLines result markup.old markup.new (text_of line.now ∷ []) }
    {
        let alloc = markup.alloc();
        let last = column.lines.len().saturating_sub(1);
        begin_mark(alloc, column, line, place == last, markup)?;
        draw_rows(column, place, line.is_refusal(), rows_below(head), markup)?;
        self.draw_foot(alloc, column, line, foot, markup)?;
        markup.end_group()
    }

    /// Draws the sign of a line, and its knot if it has a position in the history.
    fn draw_foot(
        &self,
        alloc: Global,
        column: &Column,
        line: &RunLine,
        foot: Point,
        markup: &mut Markup,
    ) -> Result<(), AllocError>
        ensures draws { Draws result markup.old markup.new
            (foot_shapes (seen_band self.now) (seen column.now) line.now foot) }
        ensures read { OnOk result (reading markup.new ≡ reading markup.old) }
    {
        if line.place().is_none() {
            let left = if column.settles_and_takes() { 15 } else { 0 };
            return draw_sign(alloc, line, moved(foot, left, 0), markup);
        }
        let knot = Point::at(foot.x, self.layout.knot());
        draw_sign(alloc, line, foot, markup)?;
        draw_sign(alloc, line, knot, markup)?;
        draw_pair(line, knot, markup)
    }

    /// Draws the lines of a column in the lane of the history.
    fn draw_notes(&self, column: &Column, markup: &mut Markup) -> Result<(), AllocError>
        ensures draws { Draws result markup.old markup.new
            (notes_shapes (seen_band self.now) (seen column.now) 0 column.now.lines.items) }
        ensures read { ReportsLines result markup.old markup.new (texts column.now.lines.items) }
    {
        for (place, line) in column.lines.iter().enumerate() {
            self.draw_note(column, place, line, markup)?;
        }
        Ok(())
    }

    /// Draws the group of such a line, by its index in the column.
    fn draw_note(
        &self,
        column: &Column,
        place: usize,
        line: &RunLine,
        markup: &mut Markup,
    ) -> Result<(), AllocError>
        ensures draws { Draws result markup.old markup.new
            (note_shapes (seen_band self.now) (seen column.now) place line.now) }
        ensures read { ReportsLines result markup.old markup.new (text_of line.now ∷ []) }
    {
        let alloc = markup.alloc();
        let knot = Point::at(u32::from(column.x), self.layout.knot());
        let last = column.lines.len().saturating_sub(1);
        begin_mark(alloc, column, line, place == last, markup)?;
        markup.line("pole", knot, below(knot, 36))?;
        draw_sign(alloc, line, knot, markup)?;
        let at = Point::at(knot.x + 4, knot.y + 23);
        draw_rows(column, place, false, at, markup)?;
        markup.end_group()
    }
}

/// Draws the pair that the command of a line changed, below its knot.
fn draw_pair(line: &RunLine, knot: Point, markup: &mut Markup) -> Result<(), AllocError>
    ensures draws { Draws result markup.old markup.new
        (pair_words (change_reported line.now.line_content) knot) }
    ensures read { OnOk result (reading markup.new ≡ reading markup.old) }
{
    match line.change() {
        Some(change) => {
            let at = below(moved(knot, 6, 0), 22);
            markup.label("store", at, change.pair.as_bytes())
        }
        None => Ok(()),
    }
}

/// Draws the pole, the number and the read of a column.
fn draw_head(
    alloc: Global,
    column: &Column,
    head: Point,
    foot: Point,
    markup: &mut Markup,
) -> Result<(), AllocError>
    ensures draws { Draws result markup.old markup.new (head_shapes (seen column.now) head foot) }
    ensures read { OnOk result (reading markup.new ≡ reading markup.old) }
{
    markup.line("pole", below(head, 5), foot)?;
    draw_number(column.event, head, markup)?;
    match &column.read {
        Some(read) => draw_read(alloc, read, rows_below(head), markup),
        None => Ok(()),
    }
}

/// Draws the number of an event, if there is one.
fn draw_number(event: Option<u64>, head: Point, markup: &mut Markup) -> Result<(), AllocError>
    ensures draws { Draws result markup.old markup.new (number_words event head) }
    ensures read { OnOk result (reading markup.new ≡ reading markup.old) }
{
    match event {
        Some(event) => markup.numeral("event", below(right(head, 3), 12), event),
        None => Ok(()),
    }
}

/// Returns the top of the rows of a column.
fn rows_below(head: Point) -> Point
    ensures { result ≡ rows_place head }
{
    below(right(head, 3), 23)
}

/// Returns the place at this distance to the right of another.
fn right(at: Point, by: u32) -> Point
    ensures { result ≡ right_by at by }
{
    Point::at(at.x.saturating_add(by), at.y)
}

/// Begins the mark of a line, which has the line as its title.
fn begin_mark(
    alloc: Global,
    column: &Column,
    line: &RunLine,
    is_last: bool,
    markup: &mut Markup,
) -> Result<(), AllocError>
    ensures draws { Draws result markup.old markup.new
        (mark_shape (seen column.now) line.now is_last ∷ []) }
    ensures read { OnOk result
        (reading markup.new ≡ with_mark (text_of line.now) (reading markup.old)) }
{
    let queue = numbers(alloc, column)?;
    let text = line.text(alloc)?;
    mark_line(
        column.x,
        line,
        is_last,
        queue.as_bytes(),
        text.as_slice(),
        markup,
    )
}

/// Begins the mark of a line by its place, its title, and the processes that are in line after it.
fn mark_line(
    x: u16,
    line: &RunLine,
    is_last: bool,
    queue: &[u8],
    title: &[u8],
    markup: &mut Markup,
) -> Result<(), AllocError>
    ensures draws { Draws result markup.old markup.new
        (Mark (mark_said x line.now is_last queue.now) title.now ∷ []) }
    ensures read { OnOk result (reading markup.new ≡ with_mark title.now (reading markup.old)) }
{
    let place = number(Key::Place, u64::from(x));
    let source = number(Key::Source, line.source);
    let queue = words(Key::Queue, queue);
    match line.change() {
        Some(change) => {
            let store = words(Key::Store, change.store.as_slice());
            if is_last {
                markup.mark(&[place, source, store, queue], title)
            } else {
                markup.mark(&[place, source, store], title)
            }
        }
        None if is_last => markup.mark(&[place, source, queue], title),
        None => markup.mark(&[place, source], title),
    }
}

/// Returns the processes that are in line after a column, with single spaces.
fn numbers(alloc: Global, column: &Column) -> Result<String, AllocError>
    ensures { IfOk result (λ text. string_bytes text ≡ queue_text column.now.after) }
{
    let queue = column.after.queue(alloc)?;
    listed(alloc, queue.as_slice(), " ")
}

/// Draws the rows of a line: all of its column or, of two lines, the one at its index.
fn draw_rows(
    column: &Column,
    place: usize,
    is_refusal: bool,
    at: Point,
    markup: &mut Markup,
) -> Result<(), AllocError>
    ensures draws { Draws result markup.old markup.new
        (rows_of_line (seen column.now) place is_refusal at) }
    ensures read { OnOk result (reading markup.new ≡ reading markup.old) }
{
    let is_alone = column.lines.len() == 1;
    for (number, row) in column.rows.iter().enumerate() {
        let is_drawn = is_alone || number == place;
        if !is_drawn {
            continue;
        }
        let at = row_place(at, number);
        markup.label(row_style(row, is_refusal), at, row.text.as_slice())?;
    }
    Ok(())
}

/// Returns the place of a row: the first one is at `at`, and any other below it.
fn row_place(at: Point, number: usize) -> Point
    ensures { result ≡ place_of_row at number }
{
    if number == 0 { at } else { below(at, 11) }
}

/// Returns the style of a row.
fn row_style(row: &TextRow, is_refusal: bool) -> &'static str
    ensures { result.now ≡ row_class row.now.is_verb is_refusal }
{
    if row.is_verb {
        if is_refusal { "verb no" } else { "verb" }
    } else if is_refusal {
        "rest no"
    } else {
        "rest"
    }
}
