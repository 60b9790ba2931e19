//! Facts that callers have from the contracts of a world and of a replay alone: no law is called here, and no proof of
//! the crates below is cited.
ghost use Rattle.std.specs.Prelude.{◌-◌, ◌^◌, ◌<◌, IfOk, OnOk};
ghost use Rattle.model.specs.{process_of};
ghost use Rattle.scenario_tests.specs.Uses.{AreAlone, InputPrintsTrueReplies};

use auditor::World;
use engines::{Summary, replay};
use model::{Act, Event, Refusal};
use scenario::progress::NoObserver;
use scenario::{Fault, Sink, Source};
use std::alloc::Global;

/// Makes two events, one after the other. With the entry of each, no two processes are inside the critical section.
///
/// # Errors
///
/// Returns the [`Refusal`] of the first refused event.
pub fn two_events(world: &mut World, first: Event, second: Event) -> Result<(Act, Act), Refusal>
    ensures alone { IfOk result
        (λ acts. AreAlone (process_of first) acts.0 (process_of second) acts.1) }
{
    world.shown();
    let one = world.event(first)?;
    let two = world.event(second)?;
    Ok((one, two))
}

/// Replays a scenario. Each printed reply is the sequential store's at its position in the history.
///
/// # Errors
///
/// Returns the [`Fault`] of the replay.
pub fn printed_replies<R: Source, W: Sink>(
    alloc: Global,
    input: &mut R,
    output: &mut W,
) -> Result<Summary, Fault>
    requires reads { R.failures input.old < 2 ^ 64 - 1 }
    requires writes { W.failures output.old < 2 ^ 64 - 1 }
    ensures replies { OnOk result
        (InputPrintsTrueReplies (R.to_come input.old) (W.taken output.old) (W.taken output.new)) }
{
    replay(alloc, input, output, &mut NoObserver)
}
