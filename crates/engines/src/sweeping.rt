//! The engine `sweep`: the findings of a sweep over a scenario's run.
ghost use Rattle.std.specs.Prelude.{◌≡◌, ◌+◌, ◌++◌, ◌-◌, ◌^◌, ◌<◌, ◌≤◌, ℕ, List, false, length, true, IfOk, OnOk, Ok, ⊤};
ghost use Rattle.std.specs.String.{string_bytes};
ghost use Rattle.plain_store.specs.declared.commands.Command.{Command as Said};
ghost use Rattle.scenario.specs.files.Engines.{Ran, streams};
ghost use Rattle.engines.specs.Listings.{event_reported};
ghost use Rattle.engines.specs.Sinks.{Wrote, WroteFront};
ghost use Rattle.scenario.specs.files.{ReadsFront};
ghost use Rattle.scenario.specs.{script};
ghost use Rattle.scenario_run.specs.{FailsAsWriting, Follows, ended, listed, run_at_start};
ghost use Rattle.sweeper.specs.{CanSweep, SweepsNone, SweepsOn, can_sweep_less};
ghost use Rattle.engines.specs.Sweepings.{InputReportsSweep, IsRunSwept, SweepsRun, ReportsSweep, accepted_calls, call_of, calls_in, run_swept, status_of_swept, sweep_text, swept, swept_lines as lines_of_swept};

use crate::writing::write_line;
use judge::{Verdict, status_of};
use plain_store::{Command, NestedTypes};
use scenario::progress::{NoObserver, ProgressObserver, ProgressPoint};
use scenario::{Fault, Scenario, Sink, Source, read_input, read_scenario};
use scenario_run::{
    Access, Event, Flicks, PlayLimit, RunObserver, ScenarioRun, TurnReport, UnmarkedStep,
};
use std::alloc::{AllocError, Global};
use sweeper::{Sweeper, Swept};

/// A number of calls that exceeds any memory. A sweep has room for this number of them.
const MOST_CALLS: usize = 1 << 56;

/// Reads a whole file, makes a sweep over its run, and then writes its findings. The counts are on one line, and the first
/// bad run, if there is one, on a second line. The sweep goes along the accepted events of the run, and in each of its
/// runs the accepted calls of the file follow. Returns the exit status. However it ends, it takes at most `INPUT_LIMIT`
/// bytes from the start of the input.
/// `progress_observer` receives the progress; [`NoObserver`] ignores it.
///
/// # Errors
///
/// Returns the fault of a line, [`Fault::Read`], [`Fault::Memory`] or [`Fault::Write`]. Only after [`Fault::Memory`] or
/// [`Fault::Write`] may the start of the text have been written.
pub fn run_sweep<R: Source, W: Sink, L: ProgressObserver>(
    alloc: Global,
    input: &mut R,
    output: &mut W,
    progress_observer: &mut L,
) -> Result<u8, Fault>
    requires reads { R.failures input.old < 2 ^ 64 - 1 }
    requires writes { W.failures output.old < 2 ^ 64 - 1 }
    ensures ran { Ran sweep_text (ended result)
        (streams ⟦<R as Source>⟧ ⟦<W as Sink>⟧ input.old output.old)
        (streams ⟦<R as Source>⟧ ⟦<W as Sink>⟧ input.new output.new) }
    ensures input { ReadsFront (R.to_come input.old) (R.to_come input.new) }
    ensures swept { IfOk result (λ status. InputReportsSweep (R.to_come input.old) status
        (W.taken output.old) (W.taken output.new)) }
{
    let file = read_input(alloc, input)?;
    let scenario = read_scenario(alloc, file.as_slice())?;
    sweep_scenario(alloc, &scenario, output, progress_observer)
}

/// Returns the exit status of the findings of a sweep: 3 if a run is bad, otherwise 0.
pub fn status_of_sweep(found: &Swept) -> u8
    ensures { result ≡ status_of_swept found.now }
{
    match found.first_bad {
        None => status_of(&Verdict::Good),
        Some(bad) => status_of(&Verdict::Bad(bad.entry, bad.law)),
    }
}

/// Makes a sweep over a scenario's run, writes its findings, and returns the exit status.
fn sweep_scenario<W: Sink, L: ProgressObserver>(
    alloc: Global,
    scenario: &Scenario,
    output: &mut W,
    progress_observer: &mut L,
) -> Result<u8, Fault>
    requires { W.failures output.old < 2 ^ 64 - 1 }
    ensures written { Wrote W.taken result output.old output.new (swept (script scenario.now)) }
    ensures front { WroteFront W.taken output.old output.new (swept (script scenario.now)) }
    ensures swept { IfOk result (λ status. ReportsSweep (script scenario.now) status
        (W.taken output.old) (W.taken output.new)) }
    ensures fails { FailsAsWriting W.failures result output.old output.new }
{
    let found = sweep_run(alloc, scenario, progress_observer)?;
    write_line(output, swept_lines(alloc, &found))?;
    Ok(status_of_sweep(&found))
}

/// Makes a sweep over a scenario's run. The run is made twice: for its calls, which end each run of the sweep, and then for
/// the sweeper, which goes along its events as they are made. So no event is stored. Fails only if an allocation fails.
fn sweep_run<L: ProgressObserver>(
    alloc: Global,
    scenario: &Scenario,
    progress_observer: &mut L,
) -> Result<Swept, AllocError>
    ensures swept { IfOk result (IsRunSwept (script scenario.now)) }
    ensures is { IfOk result (λ found. found ≡ run_swept (script scenario.now)) }
{
    let observed = calls_of(alloc, scenario)?;
    let mut scenario_run = ScenarioRun::new(alloc, &scenario.setup)?;
    let mut along = SweepObserver {
        sweeper: Sweeper::new(alloc, &scenario.setup)?,
        calls: observed.calls.as_slice(),
        of: observed.events,
        progress_observer,
    };
    sweep_lines(scenario, &mut scenario_run, &mut along)
}

/// Returns the accepted calls of a scenario's run, in their order, and the number of its events.
fn calls_of(alloc: Global, scenario: &Scenario) -> Result<Calls, AllocError>
    ensures calls { IfOk result
        (λ observed. observed.calls.items ≡ accepted_calls (script scenario.now)) }
    ensures bounded { IfOk result (λ observed. length observed.calls.items ≤ 2 ^ 56) }
{
    let mut scenario_run = ScenarioRun::new(alloc, &scenario.setup)?;
    let calls = Vec::new(alloc);
    let mut observed = Calls { calls, events: 0 };
    let Ok(_) = scenario_run.play_all(scenario, PlayLimit::End, &mut observed, &mut NoObserver)
    else {
        return Err(AllocError);
    };
    if MOST_CALLS < observed.calls.len() {
        return Err(AllocError);
    }
    Ok(observed)
}

/// Makes the same sweep by a scenario run and a sweeper that have just begun. It borrows them, because a value that is dropped at
/// each way out of a function takes long to prove.
fn sweep_lines<L: ProgressObserver>(
    scenario: &Scenario,
    scenario_run: &mut ScenarioRun,
    along: &mut SweepObserver<L>,
) -> Result<Swept, AllocError>
    requires setup { scenario_run.old.world.setup ≡ scenario.now.setup }
    requires follows { Follows scenario_run.old run_at_start }
    requires calls { along.old.calls.now ≡ accepted_calls (script scenario.now) }
    requires swept { SweepsNone scenario.now.setup along.old.sweeper }
    requires room { CanSweep along.old.calls.now (2 ^ 56) along.old.sweeper }
    ensures swept { IfOk result (IsRunSwept (script scenario.now)) }
    ensures is { IfOk result (λ found. found ≡ run_swept (script scenario.now)) }
{
    let Ok(_) = scenario_run.play_all(scenario, PlayLimit::End, along, &mut NoObserver) else {
        return Err(AllocError);
    };
    Ok(along.sweeper.found())
}

/// Lists the accepted calls of a run as it observes them, and counts its events.
#[derive(Drop)]
struct Calls {
    calls: Vec<(u8, Command)>,
    events: u64,
}

impl RunObserver for Calls {
    ghost observes_steps = { λ _. false };

    #[inline(always)]
    fn observes_steps(&self) -> bool {
        false
    }

    fn event_count(&self) -> u64 {
        self.events
    }

    ghost HasRoom = { λ observed more. ⊤ };

    ghost Observes = { λ a s x y b. a.calls.items ≡ calls_in (listed s x) → b.calls.items ≡ calls_in (listed s y) };

    ghost Stops = { λ a s x y fault b. ⊤ };

    fn observe(&mut self, reported: &TurnReport) -> Result<(), Fault> {
        let is_event = matches!(reported, TurnReport::Accepted(_));
        self.events = self.events.saturating_add(u64::from(is_event));
        Ok(keep_reported(reported, &mut self.calls)?)
    }

    fn step(&mut self, _made: UnmarkedStep) -> Result<(), Fault> {
        self.events = self.events.saturating_add(1);
        Ok(())
    }

    fn pass(
        &mut self,
        _process: u8,
        _flicks: &Flicks,
        steps: u32,
        _newest: Access,
        _overlapped: u32,
    ) {
        self.events = self.events.saturating_add(u64::from(steps));
    }

    ghost room_less = { λ a n k few room. tt };

    ghost observes_nothing = { λ a s x are. are };

    ghost observes_on = { λ a b c s x y z p q are. q (p are) };

    ghost stops_unobserved = { λ a s x. tt };

    ghost stops_before = { λ a b s x y more fault p. tt };

    ghost stops_on = { λ a b c s x y z fault p q. tt };
}

/// Adds the call of this turn, if it is one and was accepted.
fn keep_reported(reported: &TurnReport, calls: &mut Vec<(u8, Command)>) -> Result<(), AllocError>
    ensures { OnOk result
        (calls.new.items ≡ calls.old.items ++ calls_in (event_reported reported.now)) }
{
    let _nested: NestedTypes = None;
    if let TurnReport::Accepted(made) = reported {
        if let Event::Call(process, command) = made.event {
            calls.push((process, command))?;
        }
    }
    Ok(())
}

/// A sweep that goes along a run as it is made, and reports to a progress observer the number of its events that it has passed.
#[derive(Drop)]
struct SweepObserver<'a, L: ProgressObserver> {
    sweeper: Sweeper,
    calls: &'a [(u8, Command)],
    of: u64,
    progress_observer: &'a mut L,
}

impl<'a, L: ProgressObserver> SweepObserver<'a, L> {
    /// Lets the sweep go along one more event.
    fn go_on(&mut self, event: &Event)
        requires room { CanSweep self.old.calls.now 1 self.old.sweeper }
        ensures swept { SweepsOn self.old.calls.now event.now self.old.sweeper self.new.sweeper }
        ensures calls { self.new.calls.now ≡ self.old.calls.now }
        ensures room { (more : ℕ) → CanSweep self.old.calls.now (more + 1) self.old.sweeper
            → CanSweep self.old.calls.now more self.new.sweeper }
    {
        self.progress_observer.reached(ProgressPoint::Swept {
            events: self.sweeper.event_count(),
            of: self.of,
        });
        self.sweeper.event(event, self.calls);
    }
}

impl<'a, L: ProgressObserver> RunObserver for SweepObserver<'a, L> {
    ghost observes_steps = { λ _. true };

    #[inline(always)]
    fn observes_steps(&self) -> bool {
        true
    }

    fn event_count(&self) -> u64 {
        self.sweeper.event_count()
    }

    ghost HasRoom = { λ along more. CanSweep along.calls.now more along.sweeper };

    ghost Observes = { λ a s x y b. (calls : List (ℕ × Said)) → SweepsRun s calls x a.calls.now a.sweeper → SweepsRun s calls y b.calls.now b.sweeper };

    ghost Stops = { λ a s x y fault b. ⊤ };

    fn observe(&mut self, reported: &TurnReport) -> Result<(), Fault> {
        let _nested: NestedTypes = None;
        if let TurnReport::Accepted(made) = reported {
            self.go_on(&made.event);
        }
        Ok(())
    }

    fn step(&mut self, made: UnmarkedStep) -> Result<(), Fault> {
        self.go_on(&Event::Step(made.process, made.flick));
        Ok(())
    }

    fn pass(
        &mut self,
        _process: u8,
        _flicks: &Flicks,
        _steps: u32,
        _newest: Access,
        _overlapped: u32,
    ) {}

    ghost room_less = { λ a n k. can_sweep_less a.calls.now a.sweeper n k };

    ghost observes_nothing = { λ a s x calls swept. swept };

    ghost observes_on = { λ a b c s x y z p q calls swept. q calls (p calls swept) };

    ghost stops_unobserved = { λ a s x. tt };

    ghost stops_before = { λ a b s x y more fault p. tt };

    ghost stops_on = { λ a b c s x y z fault p q. tt };
}

/// Returns the lines of the findings of a sweep.
fn swept_lines(alloc: Global, found: &Swept) -> Result<String, AllocError>
    ensures { IfOk result (λ lines. string_bytes lines ≡ lines_of_swept found.now) }
{
    format!(in alloc; "{found}\n")
}
