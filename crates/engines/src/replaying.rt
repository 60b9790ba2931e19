//! The engine `replay`: the marks of a scenario's run, each written before the next event is made.
ghost use Rattle.std.specs.Prelude.{◌≡◌, ◌-◌, ◌^◌, ◌<◌, IfOk, OnOk, false, refl};
ghost use Rattle.std.proofs.Common.{◌∙◌};
ghost use Rattle.scenario.specs.files.Engines.{Ran, streams};
ghost use Rattle.scenario.specs.{script};
ghost use Rattle.engines.specs.Replayings.{IsRunSummary};
ghost use Rattle.engines.specs.Sinks.{Wrote, WroteFront};
ghost use Rattle.scenario.specs.files.{FailsAsWriting, ReadsFront};
ghost use Rattle.scenario_run.specs.{CanCount, InputKeepsMainTheorem, IsSummaryOf, RunKeepsMainTheorem, Took, TookPart, can_count_less, ended, part_before, part_on, part_unobserved, replay_text, replayed, text_longer, text_of, took_none, took_on};
ghost use Rattle.scenario_run.specs.Writing.{Counts};

use crate::writing::{write_end, write_turn};
use scenario::progress::ProgressObserver;
use scenario::{Fault, Scenario, Sink, Source, read_input, read_scenario};
use scenario_run::{
    Access, Flicks, PlayLimit, RunObserver, ScenarioRun, Summary, Taken, TurnReport, UnmarkedStep,
};
use std::alloc::Global;

/// Reads a whole file, and then writes the marks of its run, as they are made, and its three numbers. However it
/// ends, it takes at most `INPUT_LIMIT` bytes from the start of the input.
///
/// If all of it is written, the main theorem holds of each entry of the run. No two processes are inside the critical
/// section together. No process overtakes one whose doorway ended before its own began. Every store reply is the
/// sequential store's at its position in one history that keeps the order of calls that do not overlap.
/// `progress_observer` receives the progress; [`NoObserver`] ignores it.
///
/// # Errors
///
/// Returns the fault of a line, [`Fault::Read`], [`Fault::Memory`] or [`Fault::Write`]. Only after [`Fault::Memory`] or
/// [`Fault::Write`] may the start of the text have been written.
pub fn replay<R: Source, W: Sink, L: ProgressObserver>(
    alloc: Global,
    input: &mut R,
    output: &mut W,
    progress_observer: &mut L,
) -> Result<Summary, Fault>
    requires reads { R.failures input.old < 2 ^ 64 - 1 }
    requires writes { W.failures output.old < 2 ^ 64 - 1 }
    ensures ran { Ran replay_text (ended result)
        (streams ⟦<R as Source>⟧ ⟦<W as Sink>⟧ input.old output.old)
        (streams ⟦<R as Source>⟧ ⟦<W as Sink>⟧ input.new output.new) }
    ensures input { ReadsFront (R.to_come input.old) (R.to_come input.new) }
    ensures summary { IfOk result (λ summary. IsSummaryOf (R.to_come input.old) summary) }
    ensures main_theorem { OnOk result (InputKeepsMainTheorem (R.to_come input.old)) }
{
    let file = read_input(alloc, input)?;
    let scenario = read_scenario(alloc, file.as_slice())?;
    replay_scenario(alloc, &scenario, output, progress_observer)
}

/// Writes the marks of the run of a file's scenario, and its three numbers.
fn replay_scenario<W: Sink, L: ProgressObserver>(
    alloc: Global,
    scenario: &Scenario,
    output: &mut W,
    progress_observer: &mut L,
) -> Result<Summary, Fault>
    requires { W.failures output.old < 2 ^ 64 - 1 }
    ensures written { Wrote W.taken result output.old output.new (replayed (script scenario.now)) }
    ensures front { WroteFront W.taken output.old output.new (replayed (script scenario.now)) }
    ensures summary { IfOk result (IsRunSummary (script scenario.now)) }
    ensures main_theorem { OnOk result (RunKeepsMainTheorem (script scenario.now)) }
    ensures fails { FailsAsWriting W.failures result output.old output.new }
{
    let mut scenario_run = ScenarioRun::new(alloc, &scenario.setup)?;
    let summary = Summary::new();
    let mut printer = ReplayWriter {
        alloc,
        summary,
        output,
    };
    scenario_run.play_all(scenario, PlayLimit::End, &mut printer, progress_observer)?;
    let mut summary = printer.summary;
    summary.taken = scenario_run.taken();
    write_end(alloc, &summary, output)?;
    Ok(summary)
}

/// Writes the marks of a run as it observes them, and counts. Steps without a mark print nothing, and are counted.
#[derive(Drop)]
struct ReplayWriter<'a, W: Sink> {
    alloc: Global,
    summary: Summary,
    output: &'a mut W,
}

impl<'a, W: Sink> RunObserver for ReplayWriter<'a, W> {
    ghost observes_steps = { λ _. false };

    #[inline(always)]
    fn observes_steps(&self) -> bool {
        false
    }

    fn event_count(&self) -> u64 {
        self.summary.events
    }

    ghost HasRoom = { λ printer more. CanCount printer.summary more × (W.failures printer.output.now < 2 ^ 64 - 1) };

    ghost Observes = { λ a s x y b. (b.output.ghost_name ≡ a.output.ghost_name) × (Counts s x a.summary → Counts s y b.summary) × Took (Counts s x a.summary) (text_of s x) (text_of s y) (W.taken a.output.now) (W.taken b.output.now) (W.failures a.output.now) (W.failures b.output.now) };

    ghost Stops = { λ a s x y fault b. (b.output.ghost_name ≡ a.output.ghost_name) × TookPart (Counts s x a.summary) (text_of s x) (text_of s y) (W.taken a.output.now) (W.taken b.output.now) (W.failures a.output.now) (W.failures b.output.now) fault };

    fn observe(&mut self, reported: &TurnReport) -> Result<(), Fault> {
        write_turn(self.alloc, reported, &mut self.summary, self.output)
    }

    fn step(&mut self, _made: UnmarkedStep) -> Result<(), Fault> {
        self.summary.events += 1;
        Ok(())
    }

    fn pass(
        &mut self,
        _process: u8,
        _flicks: &Flicks,
        steps: u32,
        _newest: Access,
        _overlapped: u32,
    ) {
        self.summary.events += u64::from(steps);
    }

    ghost room_less = { λ a n k few room. (can_count_less a.summary n k few room.0, room.1) };

    ghost observes_nothing = { λ a s x. (refl, (λ counts. counts), took_none (Counts s x a.summary) (text_of s x) (W.taken a.output.now) (W.failures a.output.now)) };

    ghost observes_on = { λ a b c s x y z p q. (q.0 ∙ p.0, (λ counts. q.1 (p.1 counts)), took_on {P = Counts s x a.summary} {Q = Counts s y b.summary} p.1 p.2 q.2) };

    ghost stops_unobserved = { λ a s x. (refl, part_unobserved (Counts s x a.summary) (text_of s x) (W.taken a.output.now) (W.failures a.output.now)) };

    ghost stops_before = { λ a b s x y more fault p. (p.0, part_before (text_longer s y more) p.1) };

    ghost stops_on = { λ a b c s x y z fault p q. (q.0 ∙ p.0, part_on {P = Counts s x a.summary} {Q = Counts s y b.summary} p.1 p.2 q.1) };
}
