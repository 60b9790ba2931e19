//! The words of a column: one row or two.
ghost use Rattle.std.specs.Prelude.{◌≡◌, ◌++◌, [], ◌∷◌, true, filter_map, IfOk, OnOk, string_bytes};
ghost use Rattle.picture_layout.specs.Columns.{GivesRows, counts_text, row_if_marked, row_shared, row_shortened, rows_marked, rows_named, rows_reported, shortened, verb_and_rest, verb_refused, worded, wording, wordings};

use crate::line_contents::{LineContent, RunLine};
use crate::measures::LONGEST;
use model::Mark;
use std::alloc::{AllocError, Global};

/// One row of the words of a column.
#[derive(Drop)]
pub struct TextRow {
    /// Whether it is bold.
    pub is_verb: bool,
    /// Its bytes.
    pub text: Vec<u8>,
    /// The number of its characters.
    pub characters: usize,
}

impl TextRow {
    /// Returns a row of words that is drawn whole: each byte is a character.
    pub(crate) fn new(is_verb: bool, text: String) -> TextRow
        ensures { wording result ≡ worded is_verb (string_bytes text) }
    {
        TextRow {
            is_verb,
            characters: text.len(),
            text: text.into_bytes(),
        }
    }
}

/// Returns the rows of lines that share a column: each mark has one.
pub(crate) fn rows_shared(alloc: Global, lines: &[RunLine]) -> Result<Vec<TextRow>, AllocError>
    ensures { GivesRows result (filter_map row_shared lines.now) }
{
    let mut rows = Vec::new(alloc);
    for line in lines {
        push_shared(alloc, line, &mut rows)?;
    }
    Ok(rows)
}

/// Returns the row of one more of them, if it is a mark.
fn push_shared(alloc: Global, line: &RunLine, rows: &mut Vec<TextRow>) -> Result<(), AllocError>
    ensures { OnOk result (wordings rows.new ≡ wordings rows.old ++ row_if_marked line.now) }
{
    match &line.line_content {
        LineContent::Marked { mark, .. } => Ok(rows.push(TextRow::new(
            true,
            mark.to_string(alloc)?,
        ))?),
        LineContent::LockMarked { mark, .. } => {
            Ok(rows.push(TextRow::new(true, mark.to_string(alloc)?))?)
        }
        _ => Ok(()),
    }
}

/// Returns the rows of a line alone in its column, in the lane of its process or in that of the history.
pub(crate) fn rows_alone(
    alloc: Global,
    line: &RunLine,
    in_lane: bool,
) -> Result<Vec<TextRow>, AllocError>
    ensures { GivesRows result (rows_reported in_lane line.now.line_content) }
{
    match &line.line_content {
        LineContent::Marked { mark, .. } => mark_rows(alloc, mark),
        LineContent::Refused { process, refusal } => two_rows(
            alloc,
            refused_verb(alloc, *process, in_lane)?,
            refusal.to_string(alloc)?,
        ),
        LineContent::Tired(_) => one_row(alloc, String::from_str(alloc, "turns")?),
        LineContent::Shown(words) => named_rows(alloc, "show", words.as_bytes()),
        LineContent::Ended {
            events,
            taken,
            refused,
        } => two_rows(
            alloc,
            format!(in alloc; "end events {events}")?,
            counts(alloc, *taken, *refused)?,
        ),
        LineContent::LockMarked { mark, .. } => one_row(alloc, mark.to_string(alloc)?),
        LineContent::LockEnded { entries } => one_row(
            alloc,
            format!(in alloc; "end entries {entries}")?,
        ),
    }
}

/// Returns the bold words of a refusal.
fn refused_verb(alloc: Global, process: u8, in_lane: bool) -> Result<String, AllocError>
    ensures { IfOk result (λ verb. string_bytes verb ≡ verb_refused in_lane process) }
{
    if in_lane {
        return Ok(String::from_str(alloc, "refused")?);
    }
    format!(in alloc; "{process} refused")
}

/// Returns in words the number of commands taken and that of refused events.
#[tactic(auto, using(crate::proofs::Texts::counts_are))]
fn counts(alloc: Global, taken: u64, refused: u64) -> Result<String, AllocError>
    ensures { IfOk result (λ text. string_bytes text ≡ counts_text taken refused) }
{
    format!(in alloc; "taken {taken} refused {refused}")
}

/// Returns a bold name, and below it words, as far as they are drawn.
fn named_rows(alloc: Global, name: &str, words: &[u8]) -> Result<Vec<TextRow>, AllocError>
    ensures { GivesRows result (rows_named name.now words.now) }
{
    let rest = cut_row(alloc, words)?;
    rows_above(alloc, String::from_str(alloc, name)?, rest)
}

/// Returns a bold name, and below it words that are drawn whole.
fn named_text(alloc: Global, name: &str, words: String) -> Result<Vec<TextRow>, AllocError>
    ensures { GivesRows result (verb_and_rest name.now (string_bytes words)) }
{
    two_rows(alloc, String::from_str(alloc, name)?, words)
}

/// Returns bold words, and others below them.
pub(crate) fn two_rows(
    alloc: Global,
    verb: String,
    rest: String,
) -> Result<Vec<TextRow>, AllocError>
    ensures { GivesRows result (verb_and_rest (string_bytes verb) (string_bytes rest)) }
{
    rows_above(alloc, verb, TextRow::new(false, rest))
}

/// Returns bold words, and a row below them.
fn rows_above(alloc: Global, verb: String, rest: TextRow) -> Result<Vec<TextRow>, AllocError>
    ensures { GivesRows result (worded true (string_bytes verb) ∷ wording rest ∷ []) }
{
    let mut rows = Vec::new(alloc);
    rows.push(TextRow::new(true, verb))?;
    rows.push(rest)?;
    Ok(rows)
}

/// Returns bold words alone.
fn one_row(alloc: Global, verb: String) -> Result<Vec<TextRow>, AllocError>
    ensures { GivesRows result (worded true (string_bytes verb) ∷ []) }
{
    let mut rows = Vec::new(alloc);
    rows.push(TextRow::new(true, verb))?;
    Ok(rows)
}

/// Returns the rows of a mark alone in its column.
fn mark_rows(alloc: Global, mark: &Mark) -> Result<Vec<TextRow>, AllocError>
    ensures { GivesRows result (rows_marked mark.now) }
{
    match mark {
        Mark::Called(command) => named_text(alloc, "call", command.to_string(alloc)?),
        Mark::Taken(place, reply) => two_rows(
            alloc,
            format!(in alloc; "taken {place}")?,
            reply.to_string(alloc)?,
        ),
        Mark::Answered(answer) => named_text(alloc, "answer", answer.to_string(alloc)?),
        _ => one_row(alloc, mark.to_string(alloc)?),
    }
}

/// Returns a row of words, of which at most [`LONGEST`] characters are drawn.
fn cut_row(alloc: Global, words: &[u8]) -> Result<TextRow, AllocError>
    ensures { IfOk result (λ row. wording row ≡ row_shortened words.now) }
{
    Ok(TextRow {
        is_verb: false,
        characters: words.len().min(LONGEST),
        text: cut(alloc, words)?,
    })
}

/// Returns the words or, if they are too long, the first of them and three dots.
///
/// # Errors
///
/// Returns [`AllocError`] if an allocation fails.
pub fn cut(alloc: Global, words: &[u8]) -> Result<Vec<u8>, AllocError>
    ensures { IfOk result (λ text. text.items ≡ shortened words.now) }
{
    let mut text = Vec::new(alloc);
    if words.len() <= LONGEST {
        text.extend_from_slice(words)?;
    } else {
        text.extend_from_slice(&words[..LONGEST - 1])?;
        text.extend_from_slice("\u{2026}".as_bytes())?;
    }
    Ok(text)
}
