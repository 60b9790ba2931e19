//! The engine `record`: the record of a scenario's run as text, each entry written before the next event is made. No
//! record is stored.
ghost use Rattle.std.specs.Prelude.{◌≡◌, ◌-◌, ◌^◌, ◌<◌, IsOk, OnErr, OnOk, ⊤, true, refl};
ghost use Rattle.std.proofs.Common.{◌∙◌};
ghost use Rattle.scenario.specs.files.Engines.{Ran, streams};
ghost use Rattle.engines.specs.Sinks.{Wrote, WroteBytes, WroteBytesFront, WroteFront};
ghost use Rattle.scenario.specs.files.{ReadsFront};
ghost use Rattle.judge.specs.record_file.{RecordsAreReadAgain, RecordsFitLines, entry_line};
ghost use Rattle.scenario.specs.{script};
ghost use Rattle.engines.specs.RecordedRuns.{InputWritesRecord, RecordedRunsAreReadAgain};
ghost use Rattle.engines.specs.Recordings.{entries_longer, entries_text, entry_reported, recorded, recording_text, step_line};
ghost use Rattle.scenario_run.specs.{FailsAsWriting, Took, TookPart, ended, part_before, part_on, part_unobserved, took_none, took_on};

use judge::{StepLine, print_entry, print_setup};
use scenario::progress::ProgressObserver;
use scenario::{Fault, Scenario, Sink, Source, read_input, read_scenario, write_all};
use scenario_run::{
    Access, Entry, Flicks, PlayLimit, RunObserver, ScenarioRun, TurnReport, UnmarkedStep,
};
use std::alloc::{AllocError, Global};

/// Reads a whole scenario file, and then writes the record of its run, as it is made: the setup, and a line for each
/// entry. However it ends, it takes at most `INPUT_LIMIT` bytes from the start of the input. If `judge` reads the text
/// that is written, it reads the setup and the record of the run. This holds for the record of any events, as long as each
/// entry fits its line.
/// `progress_observer` receives the progress; [`NoObserver`] ignores it.
///
/// # Errors
///
/// Returns the fault of a line, [`Fault::Read`], [`Fault::Memory`] or [`Fault::Write`]. Only after [`Fault::Memory`] or
/// [`Fault::Write`] may the start of the text have been written.
pub fn run_record<R: Source, W: Sink, L: ProgressObserver>(
    alloc: Global,
    input: &mut R,
    output: &mut W,
    progress_observer: &mut L,
) -> Result<(), Fault>
    requires reads { R.failures input.old < 2 ^ 64 - 1 }
    requires writes { W.failures output.old < 2 ^ 64 - 1 }
    ensures ran { Ran recording_text (ended result)
        (streams ⟦<R as Source>⟧ ⟦<W as Sink>⟧ input.old output.old)
        (streams ⟦<R as Source>⟧ ⟦<W as Sink>⟧ input.new output.new) }
    ensures input { ReadsFront (R.to_come input.old) (R.to_come input.new) }
    ensures read_again { OnOk result (InputWritesRecord (R.to_come input.old)
        (W.taken output.old) (W.taken output.new)) }
    ensures runs { RecordedRunsAreReadAgain }
    ensures records { RecordsAreReadAgain }
    ensures fit { RecordsFitLines }
{
    let file = read_input(alloc, input)?;
    let scenario = read_scenario(alloc, file.as_slice())?;
    record_scenario(alloc, &scenario, output, progress_observer)
}

/// Writes the record of the run of a file's scenario.
fn record_scenario<W: Sink, L: ProgressObserver>(
    alloc: Global,
    scenario: &Scenario,
    output: &mut W,
    progress_observer: &mut L,
) -> Result<(), Fault>
    requires { W.failures output.old < 2 ^ 64 - 1 }
    ensures written { Wrote W.taken result output.old output.new (recorded (script scenario.now)) }
    ensures front { WroteFront W.taken output.old output.new (recorded (script scenario.now)) }
    ensures fails { FailsAsWriting W.failures result output.old output.new }
{
    let mut scenario_run = ScenarioRun::new(alloc, &scenario.setup)?;
    write_bytes(output, print_setup(alloc, &scenario.setup))?;
    let mut room = RecordingState {
        events: 0,
        text: Vec::new(alloc),
        printed: StepLine::new(),
    };
    let mut copier = RecordWriter {
        alloc,
        room: &mut room,
        output,
    };
    scenario_run.play_all(scenario, PlayLimit::End, &mut copier, progress_observer)?;
    Ok(())
}

/// The state between two entries: the number of events, and room for a line.
#[derive(Drop)]
struct RecordingState {
    events: u64,
    text: Vec<u8>,
    printed: StepLine,
}

/// Writes the entries of a run as it observes them.
#[derive(Drop)]
struct RecordWriter<'a, W: Sink> {
    alloc: Global,
    room: &'a mut RecordingState,
    output: &'a mut W,
}

impl<'a, W: Sink> RunObserver for RecordWriter<'a, W> {
    ghost observes_steps = { λ _. true };

    #[inline(always)]
    fn observes_steps(&self) -> bool {
        true
    }

    fn event_count(&self) -> u64 {
        self.room.events
    }

    ghost HasRoom = { λ copier more. W.failures copier.output.now < 2 ^ 64 - 1 };

    ghost Observes = { λ a s x y b. (b.output.ghost_name ≡ a.output.ghost_name) × Took ⊤ (entries_text s x) (entries_text s y) (W.taken a.output.now) (W.taken b.output.now) (W.failures a.output.now) (W.failures b.output.now) };

    ghost Stops = { λ a s x y fault b. (b.output.ghost_name ≡ a.output.ghost_name) × TookPart ⊤ (entries_text s x) (entries_text s y) (W.taken a.output.now) (W.taken b.output.now) (W.failures a.output.now) (W.failures b.output.now) fault };

    fn observe(&mut self, reported: &TurnReport) -> Result<(), Fault> {
        write_entry(self.alloc, reported, &mut self.room.text, self.output)?;
        self.room.events = self.room.events.saturating_add(accepted_by(reported));
        Ok(())
    }

    #[inline(always)]
    fn step(&mut self, made: UnmarkedStep) -> Result<(), Fault> {
        write_step(made, &mut self.room.printed, self.output)?;
        self.room.events = self.room.events.saturating_add(1);
        Ok(())
    }

    fn pass(
        &mut self,
        _process: u8,
        _flicks: &Flicks,
        _steps: u32,
        _newest: Access,
        _overlapped: u32,
    ) {}

    ghost room_less = { λ a n k few room. room };

    ghost observes_nothing = { λ a s x. (refl, took_none ⊤ (entries_text s x) (W.taken a.output.now) (W.failures a.output.now)) };

    ghost observes_on = { λ a b c s x y z p q. (q.0 ∙ p.0, took_on {P = ⊤} {Q = ⊤} (λ _. tt) p.1 q.1) };

    ghost stops_unobserved = { λ a s x. (refl, part_unobserved ⊤ (entries_text s x) (W.taken a.output.now) (W.failures a.output.now)) };

    ghost stops_before = { λ a b s x y more fault p. (p.0, part_before (entries_longer s y more) p.1) };

    ghost stops_on = { λ a b c s x y z fault p q. (q.0 ∙ p.0, part_on {P = ⊤} {Q = ⊤} (λ _. tt) p.1 q.1) };
}

/// Writes the line of the entry of a Step.
#[inline]
fn write_step<W: Sink>(
    made: UnmarkedStep,
    printed: &mut StepLine,
    output: &mut W,
) -> Result<(), Fault>
    requires { W.failures output.old < 2 ^ 64 - 1 }
    ensures written { Wrote W.taken result output.old output.new
        (step_line made.process made.access) }
    ensures front { WroteFront W.taken output.old output.new (step_line made.process made.access) }
    ensures fails { FailsAsWriting W.failures result output.old output.new }
{
    printed.print(made.process, made.access);
    write_all(output, printed.as_bytes())
}

/// Returns the number of events that were accepted in this turn: one or none.
fn accepted_by(reported: &TurnReport) -> u64 {
    u64::from(matches!(reported, TurnReport::Accepted(_)))
}

/// Writes the line of the entry of this turn, if there is one.
fn write_entry<W: Sink>(
    alloc: Global,
    reported: &TurnReport,
    text: &mut Vec<u8>,
    output: &mut W,
) -> Result<(), Fault>
    requires { W.failures output.old < 2 ^ 64 - 1 }
    ensures written { Wrote W.taken result output.old output.new (entry_reported reported.now) }
    ensures front { WroteFront W.taken output.old output.new (entry_reported reported.now) }
    ensures fails { FailsAsWriting W.failures result output.old output.new }
{
    match reported {
        TurnReport::Accepted(made) => {
            let entry = made.entry(alloc);
            write_entry_line(alloc, &entry, text, output)
        }
        TurnReport::Refused { .. } | TurnReport::Tired(_) | TurnReport::Shown(_) => Ok(()),
    }
}

/// Writes the line of an entry, by a text that is cleared for it, unless an allocation failed for the line.
#[tactic(auto, using(scenario_run::proofs::Written::front_none))]
fn write_entry_line<W: Sink>(
    alloc: Global,
    entry: &Entry,
    text: &mut Vec<u8>,
    output: &mut W,
) -> Result<(), Fault>
    requires { W.failures output.old < 2 ^ 64 - 1 }
    ensures written { Wrote W.taken result output.old output.new (entry_line entry.now) }
    ensures front { WroteFront W.taken output.old output.new (entry_line entry.now) }
    ensures fails { FailsAsWriting W.failures result output.old output.new }
{
    text.clear();
    print_entry(alloc, entry, text)?;
    write_all(output, text.as_slice())
}

/// Writes bytes, unless an allocation failed for them.
fn write_bytes<W: Sink>(output: &mut W, bytes: Result<Vec<u8>, AllocError>) -> Result<(), Fault>
    requires { W.failures output.old < 2 ^ 64 - 1 }
    ensures written { WroteBytes W.taken result output.old output.new bytes }
    ensures made { OnOk result (IsOk bytes) }
    ensures front { WroteBytesFront W.taken output.old output.new bytes }
    ensures none { OnErr bytes (W.taken output.new ≡ W.taken output.old) }
    ensures fails { FailsAsWriting W.failures result output.old output.new }
{
    let bytes = bytes?;
    write_all(output, bytes.as_slice())
}
