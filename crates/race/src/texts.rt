//! The text of a race.
ghost use Rattle.std.specs.Prelude.{◌≡◌, ◌++◌, IsOkAnd, None, OnOk, Some};
ghost use Rattle.std.specs.String.{string_bytes};
ghost use Rattle.scenario.specs.files.{GivesText};
ghost use Rattle.scenario.specs.{script};
ghost use Rattle.model.specs.{lists_of};
ghost use Rattle.race.specs.Texts.{answer_line as line_of_answer, answers_from, call_text, list_text, raced_text, refused_lines as lines_of_refused, refused_text, verdict_line as line_of_verdict};

use board::Image;
use call_check::Weighed;
use model::{Placed, Refusal, refusal_line};
use plain_store::{Answer, NestedTypes, Setup, show_line};
use scenario::{Line, Scenario};
use std::alloc::{AllocError, Global};

/// Returns the text of a race of the scenario that ended with these lists and this image, with this verdict on them.
pub(crate) fn race_text(
    alloc: Global,
    scenario: &Scenario,
    lists: &[Vec<Placed>],
    image: &Image,
    verdict: &Weighed,
) -> Result<String, AllocError>
    ensures { GivesText result (raced_text (script scenario.now) lists.now image.now verdict.now) }
{
    let mut text = refused_lines(alloc, &scenario.setup, scenario.lines.as_slice())?;
    push_text(&mut text, answer_lines(alloc, lists))?;
    push_text(&mut text, show_line(alloc, image))?;
    push_text(&mut text, verdict_line(alloc, verdict))?;
    Ok(text)
}

/// Appends another text, if there is one.
fn push_text(text: &mut String, more: Result<String, AllocError>) -> Result<(), AllocError>
    ensures { OnOk result (IsOkAnd more
        (λ more. string_bytes text.new ≡ string_bytes text.old ++ string_bytes more)) }
{
    text.push_str(more?.as_str())
}

/// Returns the lines of the calls of processes that do not exist.
fn refused_lines(alloc: Global, setup: &Setup, lines: &[Line]) -> Result<String, AllocError>
    ensures { GivesText result (lines_of_refused setup.now lines.now) }
{
    let mut text = String::new(alloc);
    for line in lines {
        push_text(&mut text, refused_line(alloc, setup, line))?;
    }
    Ok(text)
}

/// Returns the text for a line.
fn refused_line(alloc: Global, setup: &Setup, line: &Line) -> Result<String, AllocError>
    ensures { GivesText result (refused_text setup.now line.now) }
{
    match line {
        Line::Call(process, _) if *process >= setup.processes => {
            refusal_line(alloc, *process, &Refusal::NoProcess)
        }
        _ => Ok(String::new(alloc)),
    }
}

/// Returns the answers of all lists.
fn answer_lines(alloc: Global, lists: &[Vec<Placed>]) -> Result<String, AllocError>
    ensures { GivesText result (answers_from 0 (lists_of lists.now)) }
{
    let mut text = String::new(alloc);
    for (process, calls) in lists.iter().enumerate() {
        push_text(&mut text, list_lines(alloc, process, calls))?;
    }
    Ok(text)
}

/// Returns the answers to one process.
fn list_lines(alloc: Global, process: usize, calls: &[Placed]) -> Result<String, AllocError>
    ensures { GivesText result (list_text process calls.now) }
{
    let mut text = String::new(alloc);
    for call in calls {
        push_text(&mut text, call_line(alloc, process, call))?;
    }
    Ok(text)
}

/// Returns the text for a call: it is empty if the call was not answered.
fn call_line(alloc: Global, process: usize, call: &Placed) -> Result<String, AllocError>
    ensures { GivesText result (call_text process call.now) }
{
    let _nested: NestedTypes = None;
    match &call.answer {
        None => Ok(String::new(alloc)),
        Some(answer) => answer_line(alloc, process, call.place, answer),
    }
}

/// Returns the line of an answer.
fn answer_line(
    alloc: Global,
    process: usize,
    place: Option<u32>,
    answer: &Answer,
) -> Result<String, AllocError>
    ensures { GivesText result (line_of_answer process place answer.now) }
{
    match place {
        Some(place) => placed_line(alloc, process, place, answer),
        None => unplaced_line(alloc, process, answer),
    }
}

/// Returns the line of an answer to a call that was taken.
#[tactic(auto, using(crate::proofs::Parts::placed_line_is))]
fn placed_line(
    alloc: Global,
    process: usize,
    place: u32,
    answer: &Answer,
) -> Result<String, AllocError>
    ensures { GivesText result (line_of_answer process (Some place) answer.now) }
{
    format!(in alloc; "{process} {place} {answer}\n")
}

/// Returns the line of an answer to a call that was not taken.
#[tactic(auto, using(crate::proofs::Parts::unplaced_line_is))]
fn unplaced_line(alloc: Global, process: usize, answer: &Answer) -> Result<String, AllocError>
    ensures { GivesText result (line_of_answer process None answer.now) }
{
    format!(in alloc; "{process} - {answer}\n")
}

/// Returns the line of the verdict.
fn verdict_line(alloc: Global, verdict: &Weighed) -> Result<String, AllocError>
    ensures { GivesText result (line_of_verdict verdict.now) }
{
    format!(in alloc; "{verdict}\n")
}
