//! The words in the bars of a lane.
ghost use Rattle.std.specs.Prelude.{◌≡◌, ◌+◌, ◌*◌, ◌++◌, ◌&&◌, ◌||◌, not, [], codes, cond, IfOk, length, OnOk, option_map, string_bytes};
ghost use Rattle.picture.specs.Adding.{Draws};
ghost use Rattle.std.specs.Fmt.{decimal};
ghost use Rattle.markup.specs.{drawings, reading};
ghost use Rattle.picture.specs.Bars.{free_left, is_word, says_word, stretch_at, stretch_word, style_of_word};
ghost use Rattle.picture_layout.specs.{capped, seen, lies_in};
ghost use Rattle.picture.specs.Words.{group_text, left_reach_of, listed_with, mark_reach, right_reach_of, word_text};
ghost use Rattle.picture.specs.Drawings.{seen_band, words_of_lane};

use crate::bands::Band;
use markup::{Markup, Point};
use model::{Mark, Stage};
use picture_layout::{BarWord, Column, DIGIT, LEFT, ProcessGroup, room};
use std::alloc::{AllocError, Global};

/// A stretch of a bar in which one word may be drawn.
#[derive(Clone, Copy)]
struct Stretch {
    from: u16,
    /// The room that is left free at its beginning, in pixels.
    pad: u16,
    word: BarWord,
    /// Whether its word was drawn before it, and has not changed since.
    is_said: bool,
}

impl Band {
    /// Draws each word of a process where it first has room.
    pub(crate) fn draw_words(
        &self,
        alloc: Global,
        process: u8,
        markup: &mut Markup,
    ) -> Result<(), AllocError>
        ensures draws { Draws result markup.old markup.new
            (words_of_lane (seen_band self.now) process) }
        ensures read { OnOk result (reading markup.new ≡ reading markup.old) }
    {
        let middle = self.layout.lane(process).bar() + 3;
        let mut stretch = Stretch {
            from: LEFT,
            pad: 5,
            word: self.before.word(alloc, process)?,
            is_said: false,
        };
        for column in &self.columns {
            let next = Stretch::at(alloc, process, column)?;
            if !stretch.ends(process, column, next.word) {
                continue;
            }
            let free = free_before(alloc, process, column)?;
            let is_said = stretch.draw(alloc, column.x, free, middle, markup)?;
            stretch = next.behind(stretch.word, is_said);
        }
        stretch.draw(alloc, self.layout.end, 0, middle, markup)?;
        Ok(())
    }
}

impl Stretch {
    /// Returns the stretch that begins at a column, whose signs are there in its own lane.
    fn at(alloc: Global, process: u8, column: &Column) -> Result<Stretch, AllocError>
        ensures { IfOk result (λ stretch. stretch ≡ stretch_at process (seen column.now)) }
    {
        let pad = if column.lane == Some(process) {
            right_reach(alloc, column)?.saturating_add(4)
        } else {
            5
        };
        Ok(Stretch {
            from: column.x,
            pad,
            word: column.after.word(alloc, process)?,
            is_said: false,
        })
    }

    /// Returns whether it ends at a column, because the column is in its lane or the word changes after it.
    fn ends(&self, process: u8, column: &Column, word: BarWord) -> bool
        ensures { result ≡ (lies_in process column.now.lane || not (is_word word self.now.word)) }
    {
        column.lane == Some(process) || word != self.word
    }

    /// Returns the next stretch with the same word, which was drawn or not.
    fn behind(self, word: BarWord, is_said: bool) -> Stretch
        ensures { result ≡ record self { is_said = is_word self.word word && is_said } }
    {
        Stretch {
            is_said: self.word == word && is_said,
            ..self
        }
    }

    /// Draws its word up to a place with this free room before it, if there is a word, it has room, and it was not
    /// drawn yet. Returns whether it is drawn now.
    fn draw(
        &self,
        alloc: Global,
        to: u16,
        free: u16,
        middle: u32,
        markup: &mut Markup,
    ) -> Result<bool, AllocError>
        ensures draws { IfOk result
            (λ said. markup.new ≡ markup.old ++ drawings (stretch_word middle free to self.now)) }
        ensures says { IfOk result (λ said. said ≡ says_word free to self.now) }
        ensures read { OnOk result (reading markup.new ≡ reading markup.old) }
    {
        if self.is_said {
            return Ok(true);
        }
        let Some(text) = words_of(alloc, &self.word)? else {
            return Ok(false);
        };
        let needed = room(text.len(), DIGIT)
            .saturating_add(self.pad)
            .saturating_add(free)
            .saturating_add(3);
        if needed > to.saturating_sub(self.from) {
            return Ok(false);
        }
        let x = u32::from(self.from) + u32::from(self.pad);
        markup.label(word_style(self.word), Point::at(x, middle), text.as_bytes())?;
        Ok(true)
    }
}

/// Returns the word in the bar of a process, if it has one.
fn words_of(alloc: Global, word: &BarWord) -> Result<Option<String>, AllocError>
    ensures { IfOk result (λ text. option_map string_bytes text ≡ word_text word.now) }
{
    match word {
        BarWord::Nothing => Ok(None),
        BarWord::Is(stage) => Ok(Some(String::from_str(alloc, stage.word())?)),
        BarWord::Behind(group) => Ok(Some(behind(alloc, group)?)),
        BarWord::Awaits(group) => Ok(Some(awaits(alloc, group)?)),
    }
}

fn behind(alloc: Global, group: &ProcessGroup) -> Result<String, AllocError>
    ensures { IfOk result
        (λ text. string_bytes text ≡ codes "behind " ++ group_text group.now) }
{
    let mut text = String::from_str(alloc, "behind ")?;
    let group = group_words(alloc, group)?;
    text.push_str(group.as_str())?;
    Ok(text)
}

fn awaits(alloc: Global, group: &ProcessGroup) -> Result<String, AllocError>
    ensures { IfOk result
        (λ text. string_bytes text ≡ group_text group.now ++ codes " choosing") }
{
    let mut text = group_words(alloc, group)?;
    text.push_str(" choosing")?;
    Ok(text)
}

/// Returns the numbers of up to three processes, or how many there are.
fn group_words(alloc: Global, group: &ProcessGroup) -> Result<String, AllocError>
    ensures { IfOk result (λ text. string_bytes text ≡ group_text group.now) }
{
    let count = group.count;
    if count > 3 {
        format!(in alloc; "{count} others")
    } else {
        listed(alloc, &group.first[..usize::from(count)], ",")
    }
}

/// Returns numbers, with a separator between them.
pub(crate) fn listed(alloc: Global, numbers: &[u8], between: &str) -> Result<String, AllocError>
    ensures { IfOk result (λ text. string_bytes text ≡ listed_with between.now numbers.now) }
{
    let mut text = String::new(alloc);
    for (place, number) in numbers.iter().enumerate() {
        push_number(alloc, &mut text, place == 0, between, *number)?;
    }
    Ok(text)
}

/// Returns the style of a word, which is light in the dark bar of a process that is inside.
fn word_style(word: BarWord) -> &'static str
    ensures { result.now ≡ style_of_word word }
{
    match word {
        BarWord::Is(Stage::Inside) => "white",
        _ => "stage",
    }
}

/// Returns the free room before a column in the bar of a process.
fn free_before(alloc: Global, process: u8, column: &Column) -> Result<u16, AllocError>
    ensures { IfOk result (λ free. free ≡ free_left process (seen column.now)) }
{
    if column.lane == Some(process) {
        left_reach(alloc, column)
    } else {
        Ok(0)
    }
}

/// Appends a number, after a separator unless it is the first.
fn push_number(
    alloc: Global,
    text: &mut String,
    is_first: bool,
    between: &str,
    number: u8,
) -> Result<(), AllocError>
    ensures { OnOk result
        (string_bytes text.new
        ≡ string_bytes text.old ++ cond is_first [] between.now ++ decimal number) }
{
    if !is_first {
        text.push_str(between)?;
    }
    let digits = number.to_string(alloc)?;
    text.push_str(digits.as_str())
}

/// Returns how far the signs at the foot of a column reach to its right.
fn right_reach(alloc: Global, column: &Column) -> Result<u16, AllocError>
    ensures { IfOk result (λ reach. reach ≡ right_reach_of (seen column.now)) }
{
    let mut reach = 1;
    for line in &column.lines {
        reach = reach.max(match &line.mark() {
            Some(mark) => reach_of(alloc, mark)?,
            None => 6,
        });
    }
    Ok(reach)
}

/// Returns how far they reach to its left.
fn left_reach(alloc: Global, column: &Column) -> Result<u16, AllocError>
    ensures { IfOk result (λ reach. reach ≡ left_reach_of (seen column.now)) }
{
    if column.settles_and_takes() {
        return Ok(24);
    }
    right_reach(alloc, column)
}

fn reach_of(alloc: Global, mark: &Mark) -> Result<u16, AllocError>
    ensures { IfOk result (λ reach. reach ≡ mark_reach mark.now) }
{
    Ok(match mark {
        Mark::Called(_) => 8,
        Mark::Answered(_) => 4,
        Mark::Failed => 6,
        Mark::Settled(_) => 9,
        Mark::Down => 2,
        Mark::Restarted | Mark::Withdrew => 5,
        Mark::Taken(place, _) => pill_reach(alloc, *place)?,
        Mark::Waiting(_) | Mark::Entered | Mark::Left => 1,
    })
}

/// Returns how far the sign of a taken command reaches, by its position in the history.
fn pill_reach(alloc: Global, place: u64) -> Result<u16, AllocError>
    ensures { IfOk result (λ reach. reach ≡ capped (5 + 3 * length (decimal place))) }
{
    let digits = place.to_string(alloc)?;
    Ok(room(digits.len(), 3).saturating_add(5))
}
