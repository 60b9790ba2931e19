//! The events of a run, and the record of events.
ghost use Rattle.std.specs.Prelude.{◌≡◌, ◌++◌, [], ◌∷◌, ⊤, true, Ok, IfOk, OnOk, reverse};
ghost use Rattle.plain_store.specs.{checked};
ghost use Rattle.scenario_run.specs.model.declared.Refusal.TheVariants.{Memory};
ghost use Rattle.scenario_run.specs.model.{AreGiven, KeepsMainTheoremThroughout, is_event, record_of as record_made};
ghost use Rattle.judge.specs.record_file.{FitLines};
ghost use Rattle.scenario.specs.{script};
ghost use Rattle.engines.specs.Listings.{RecordsEvent, event_reported};
ghost use Rattle.engines.specs.RecordedRuns.{IsReadAgain};
ghost use Rattle.scenario_run.specs.{accepted_events, listed};

use plain_store::{NestedTypes, Setup};
use scenario::progress::NoObserver;
use scenario::{Fault, Scenario};
use scenario_run::{
    Access, Entry, Event, Flicks, PlayLimit, Record, Refusal, RunObserver, ScenarioRun, TurnReport,
    UnmarkedStep, World,
};
use std::alloc::{AllocError, Global};

/// Returns the accepted events of a scenario's run, in their order.
///
/// # Errors
///
/// Returns [`AllocError`] if memory runs out.
pub fn events_of(alloc: Global, scenario: &Scenario) -> Result<Vec<Event>, AllocError>
    ensures { IfOk result (λ events. events.items ≡ accepted_events (script scenario.now)) }
{
    let mut scenario_run = ScenarioRun::new(alloc, &scenario.setup)?;
    let events = Vec::new(alloc);
    let mut lister = EventLister { events };
    let Ok(_) = scenario_run.play_all(scenario, PlayLimit::End, &mut lister, &mut NoObserver) else {
        return Err(AllocError);
    };
    Ok(lister.events)
}

/// Lists the accepted events of a run as it observes them.
#[derive(Drop)]
struct EventLister {
    events: Vec<Event>,
}

impl RunObserver for EventLister {
    ghost observes_steps = { λ _. true };

    #[inline(always)]
    fn observes_steps(&self) -> bool {
        true
    }

    fn event_count(&self) -> u64 {
        self.events.len() as u64
    }

    ghost HasRoom = { λ lister more. ⊤ };

    ghost Observes = { λ a s x y b. a.events.items ≡ listed s x → b.events.items ≡ listed s y };

    ghost Stops = { λ a s x y fault b. ⊤ };

    fn observe(&mut self, reported: &TurnReport) -> Result<(), Fault> {
        Ok(list(reported, &mut self.events)?)
    }

    fn step(&mut self, made: UnmarkedStep) -> Result<(), Fault> {
        Ok(add(Event::Step(made.process, made.flick), &mut self.events)?)
    }

    fn pass(
        &mut self,
        _process: u8,
        _flicks: &Flicks,
        _steps: u32,
        _newest: Access,
        _overlapped: u32,
    ) {}

    ghost room_less = { λ a n k few room. tt };

    ghost observes_nothing = { λ a s x are. are };

    ghost observes_on = { λ a b c s x y z p q are. q (p are) };

    ghost stops_unobserved = { λ a s x. tt };

    ghost stops_before = { λ a b s x y more fault p. tt };

    ghost stops_on = { λ a b c s x y z fault p q. tt };
}

/// Lists the event of this turn, if there is one.
fn list(reported: &TurnReport, events: &mut Vec<Event>) -> Result<(), AllocError>
    ensures { OnOk result (events.new.items ≡ events.old.items ++ event_reported reported.now) }
{
    let _nested: NestedTypes = None;
    if let TurnReport::Accepted(made) = reported {
        return add(made.event, events);
    }
    Ok(())
}

/// Adds an event.
fn add(event: Event, events: &mut Vec<Event>) -> Result<(), AllocError>
    ensures { OnOk result (events.new.items ≡ events.old.items ++ event ∷ []) }
{
    let _nested: NestedTypes = None;
    Ok(events.push(event)?)
}

/// Returns the record of a list of events, with an entry for each accepted event. Names, values and counts of the events are
/// in range, as their types require, and the main theorem holds of each entry of the record. Each entry fits its line in a
/// record file, and the text that is printed for the record is read as its setup and that record.
///
/// # Errors
///
/// Returns [`AllocError`] if memory runs out.
pub fn record_of(alloc: Global, setup: &Setup, events: &[Event]) -> Result<Record, AllocError>
    requires { checked setup.now ≡ Ok tt }
    ensures entries { IfOk result (λ made. made ≡ record_made setup.now events.now) }
    ensures given { OnOk result (AreGiven setup.now (reverse events.now)) }
    ensures main_theorem { IfOk result
        (λ made. KeepsMainTheoremThroughout setup.now (reverse made)) }
    ensures fit { IfOk result (λ made. FitLines made) }
    ensures read_again { IfOk result (IsReadAgain setup.now) }
{
    let mut world = World::new(alloc, setup)?;
    let mut entries = Vec::new(alloc);
    for event in events {
        record_event(&mut world, event, &mut entries)?;
    }
    Ok(Record { entries })
}

/// Makes an event, and adds its entry, unless it is refused.
fn record_event(
    world: &mut World,
    event: &Event,
    entries: &mut Vec<Entry>,
) -> Result<(), AllocError>
    ensures { OnOk result (RecordsEvent event.now world.old world.new entries.old entries.new) }
{
    event.command_is_sound();
    match world.event(*event) {
        Ok(act) => {
            let process = event.process();
            entries.push(Entry { process, act })?;
            Ok(())
        }
        Err(refusal) => passed_over(refusal),
    }
}

/// Returns success for a refused event, which adds nothing. A failed allocation is not a refusal of the record.
fn passed_over(refusal: Refusal) -> Result<(), AllocError>
    ensures { OnOk result (refusal ≡ Memory → ⊥) }
{
    match refusal {
        Refusal::Memory => Err(AllocError),
        _ => Ok(()),
    }
}
