//! The engine `state`: it writes the state after the first events of a scenario's run.
ghost use Rattle.std.specs.Prelude.{◌≡◌, ◌-◌, ◌^◌, ◌<◌, [], IfOk, IfSome, OnOk, length};
ghost use Rattle.calls.specs.scenario.files.Engines.{Ran, streams};
ghost use Rattle.calls.specs.scenario.files.{ReadsFront};
ghost use Rattle.calls.specs.scenario.{script};
ghost use Rattle.calls.specs.scenario_run.{Follows, run_at_start};
ghost use Rattle.run_state.specs.Making.{WritesMade};
ghost use Rattle.run_state.specs.States.{HasSeen, events_said as said_by, state_text, stated};

use crate::observer::StateObserver;
use calls::scenario::operands::number;
use calls::scenario::progress::ProgressObserver;
use calls::scenario::{Fault, Scenario, Sink, Source, read_input, read_scenario, write_all};
use calls::scenario_run::{LineMade, PlayLimit, ScenarioRun};
use plain_store::NestedTypes;
use std::alloc::{AllocError, Global};

/// Returns after how many events a word asks for the state: a number below 2^64 without leading zeros, or `end`, which
/// is more than a run can have.
pub fn events_said(word: &str) -> Option<u64>
    ensures { result ≡ said_by word.now }
{
    if word == "end" {
        return Some(u64::MAX);
    }
    match number(word.as_bytes(), u64::MAX) {
        Ok(events) => Some(events),
        Err(_) => None,
    }
}

/// Reads a whole scenario file, makes the first `events` events of its run, or all if there are fewer, and then writes the
/// state. It takes at most `INPUT_LIMIT` bytes from the start of the input, even if it fails. It reports its progress to the
/// progress observer; `NoObserver` ignores the reports.
///
/// # Errors
///
/// Returns [`Fault::Read`] or [`Fault::Memory`] if the file cannot be read, [`Fault::Line`] for its first fault, and
/// [`Fault::Memory`] if an allocation fails later; nothing is written then. Returns [`Fault::Write`] if the output fails; a
/// prefix of the text may be written then.
pub fn run_state<R: Source, W: Sink, L: ProgressObserver>(
    alloc: Global,
    events: u64,
    input: &mut R,
    output: &mut W,
    progress_observer: &mut L,
) -> Result<(), Fault>
    requires reads { R.failures input.old < 2 ^ 64 - 1 }
    requires writes { W.failures output.old < 2 ^ 64 - 1 }
    ensures ran { Ran (state_text events) result
        (streams ⟦<R as Source>⟧ ⟦<W as Sink>⟧ input.old output.old)
        (streams ⟦<R as Source>⟧ ⟦<W as Sink>⟧ input.new output.new) }
    ensures input { ReadsFront (R.to_come input.old) (R.to_come input.new) }
{
    let file = read_input(alloc, input)?;
    let scenario = read_scenario(alloc, file.as_slice())?;
    let text = state_text(alloc, events, &scenario, progress_observer)?;
    write_all(output, text.as_slice())
}

/// Returns the state after the first `events` events of a scenario's run.
fn state_text<L: ProgressObserver>(
    alloc: Global,
    events: u64,
    scenario: &Scenario,
    progress_observer: &mut L,
) -> Result<Vec<u8>, AllocError>
    ensures { IfOk result (λ text.
        text.items ≡ stated events scenario.now.numbers.items (script scenario.now)) }
{
    let mut scenario_run = ScenarioRun::new(alloc, &scenario.setup)?;
    let mut observer = StateObserver::new(alloc, &scenario.setup)?;
    played_text(
        alloc,
        events,
        scenario,
        &mut scenario_run,
        &mut observer,
        progress_observer,
    )
}

/// Plays the first events of a scenario's run on a new scenario run, and returns the state after them. It is a function of its
/// own because values that are dropped at each return of a function are costly to prove.
fn played_text<L: ProgressObserver>(
    alloc: Global,
    events: u64,
    scenario: &Scenario,
    scenario_run: &mut ScenarioRun,
    observer: &mut StateObserver,
    progress_observer: &mut L,
) -> Result<Vec<u8>, AllocError>
    requires scenario_run { Follows scenario_run.old run_at_start }
    requires setup { scenario_run.old.world.setup ≡ scenario.now.setup }
    requires seen { HasSeen scenario.now.setup [] observer.old }
    ensures { IfOk result (λ text.
        text.items ≡ stated events scenario.now.numbers.items (script scenario.now)) }
{
    let until = PlayLimit::Event(events);
    let Ok(newest) = scenario_run.play_all(scenario, until, observer, progress_observer) else {
        return Err(AllocError);
    };
    let core = scenario_run.core();
    let observed_run = &observer.observed_run;
    let mut text = Vec::new(alloc);
    observer.print_head(core, &mut text)?;
    push_made(alloc, scenario, newest, observed_run.entries(), &mut text)?;
    observed_run.print(alloc, core, scenario_run.history(), &mut text)?;
    Ok(text)
}

/// Writes the line that made the newest of `events` events, if there is one.
fn push_made(
    alloc: Global,
    scenario: &Scenario,
    newest: Option<LineMade>,
    events: u64,
    text: &mut Vec<u8>,
) -> Result<(), AllocError>
    requires { IfSome newest (λ made. made.line < length scenario.now.lines.items) }
    ensures { OnOk result (WritesMade scenario.now.numbers.items scenario.now.lines.items
        newest events text.old.items text.new.items) }
{
    let _nested: NestedTypes = None;
    let Some(newest) = newest else {
        return Ok(());
    };
    let number = scenario.numbers[newest.line];
    let made = events.saturating_sub(newest.before);
    let line = scenario.lines[newest.line];
    let words = format!(in alloc; "line {number} made {made} {line}\n")?;
    text.extend_from_slice(words.as_bytes())
}
