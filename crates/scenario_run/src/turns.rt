//! A run, turn by turn: what the next turn of a line does on the world.
ghost use Rattle.std.specs.Prelude.{◌≡◌, ◌^◌, ◌-◌, ◌<◌, ◌≤◌, true, false, Ok, Some, IfOk, length, List};
ghost use Rattle.plain_store.specs.{checked};
ghost use Rattle.model.specs.declared.Event.{Event as Happening};
ghost use Rattle.model.specs.declared.Refusal.TheVariants.{Memory};
ghost use Rattle.model.specs.{history, is_event, past_of};
ghost use Rattle.world.specs.choices.{constant_flicks};
ghost use Rattle.world.specs.{with_history};
ghost use Rattle.world.specs.Shows.{Shows};
ghost use Rattle.scenario_run.specs.ScenarioRuns.{Follows, Makes, ScenarioRunState};
ghost use Rattle.scenario_run.specs.Happenings.{Tries};
ghost use Rattle.scenario_run.specs.Observing.{InItsRun, room_wanted};
ghost use Rattle.scenario_run.specs.Runs.{Run, run_at_start, taken_in};
ghost use Rattle.scenario_run.specs.Reporting.{is_step};
ghost use Rattle.scenario_run.specs.Texts.{newest_store};
ghost use Rattle.scenario_run.specs.Turns.{happens, makes_steps, turn_of, turns_in as turns_of};

mod playing;
mod running;
mod steps;

use crate::reports::{Accepted, TurnReport};
use model::{Event, Refusal, Taken};
use plain_store::{NestedTypes, Setup};
use scenario::Line;
use std::alloc::{AllocError, Global};
use std::marker::Model;
use world::{Core, EventOutcome, Flicks, Image, World};

/// The greatest number of Steps of a `go`.
const GO_LIMIT: u32 = 65_536;

/// A run of a scenario: the world, the source of flicks and picks, and the number of turns that the present line may
/// still make. Contracts refer to these three, and to every run that they show.
#[derive(Drop)]
pub struct ScenarioRun {
    alloc: Global,
    processes: u8,
    world: World,
    flicks: Flicks,
    remaining: u32,
}

impl Model for ScenarioRun {
    ghost use Rattle.scenario_run.specs.ScenarioRuns.{ScenarioRunState, KeepsScenarioRun};

    ghost Value = { ScenarioRunState };

    ghost view = { λ c. record { world = c.world; flicks = c.flicks; remaining = c.remaining } };

    ghost invariant = { λ c. KeepsScenarioRun c.processes c.world };
}

impl ScenarioRun {
    /// Creates a run in which nothing has happened.
    ///
    /// # Errors
    ///
    /// Returns [`AllocError`] if there is no memory for the world.
    pub fn new(alloc: Global, setup: &Setup) -> Result<ScenarioRun, AllocError>
        requires { checked setup.now ≡ Ok tt }
        ensures setup { IfOk result (λ scenario_run. scenario_run.world.setup ≡ setup.now) }
        ensures follows { IfOk result (λ scenario_run. Follows scenario_run run_at_start) }
    {
        Ok(ScenarioRun {
            alloc,
            processes: setup.processes,
            world: World::new(alloc, setup)?,
            flicks: Flicks::constant(false),
            remaining: 0,
        })
    }

    /// Returns the number of commands taken.
    pub fn taken(&self) -> u64
        ensures { InItsRun self.now (λ run. result ≡ length (taken_in self.now.world.setup run)) }
    {
        self.world.history().len() as u64
    }

    /// Returns the commands taken, in their order.
    pub fn history(&self) -> &[Taken]
        ensures { InItsRun self.now (λ run. result.now ≡ taken_in self.now.world.setup run) }
    {
        self.world.history()
    }

    /// Returns the state of the world, except the history.
    pub fn core(&self) -> &Core
        ensures { with_history result.now self.now.world.history ≡ self.now.world }
    {
        self.world.core()
    }

    /// Begins a line.
    fn begin(&mut self, line: &Line)
        ensures scenario_run { self.new ≡ record self.old { remaining = turns_of line.now } }
        ensures bounded { self.new.remaining < 2 ^ 32 }
    {
        self.remaining = turns_in(line);
    }

    /// Makes the turn of a line that makes no Steps, and returns what it reports.
    fn make(&mut self, line: &Line) -> Result<Option<TurnReport>, AllocError>
        requires bounded { self.old.remaining ≤ turns_of line.now }
        requires some_remaining { 0 < self.old.remaining }
        requires still { makes_steps line.now ≡ false }
        ensures remaining { IfOk result
            (λ reported. room_wanted reported self.new.remaining ≤ self.old.remaining) }
        ensures made { IfOk result
            (λ reported. InItsRun self.old
            (λ run. Makes self.old run
            (turn_of self.old.world.setup line.now self.old.remaining run) reported self.new)) }
    {
        let _nested: NestedTypes = None;
        match line {
            Line::Step(..) | Line::Go(..) | Line::Wander(_) => unreachable!(),
            Line::Call(process, command) => {
                command.operands_are_sound();
                self.event(Event::Call(*process, *command))
            }
            Line::Fail(process) => self.event(Event::Fail(*process)),
            Line::Withdraw(process) => self.event(Event::Withdraw(*process)),
            Line::Restart(process) => self.event(Event::Restart(*process)),
            Line::Flick(flick) => {
                self.remaining -= 1;
                self.flicks.set(*flick);
                Ok(None)
            }
            Line::Show => {
                self.remaining -= 1;
                Ok(Some(TurnReport::Shown(self.newest())))
            }
        }
    }

    /// Makes an event, unless it is refused, and reports it.
    fn event(&mut self, event: Event) -> Result<Option<TurnReport>, AllocError>
        requires some_remaining { 0 < self.old.remaining }
        requires given { is_event event ≡ true }
        requires still { is_step event ≡ false }
        ensures remaining { self.new.remaining ≡ self.old.remaining - 1 }
        ensures made { IfOk result
            (λ reported. InItsRun self.old
            (λ run. Makes self.old run (happens (Tries event) (self.old.remaining - 1) run) reported
            self.new)) }
    {
        self.remaining -= 1;
        let place = self.world.history().len() as u64;
        let mut effect = EventOutcome::Steps(world::StepOutcome::Nothing);
        match self.world.make(&event, &mut effect) {
            Ok(access) => {
                let made = Accepted {
                    event,
                    place,
                    access,
                    // Only a Step has an access, and this event is not a Step.
                    overlapped: false,
                    effect,
                };
                Ok(Some(TurnReport::Accepted(made)))
            }
            Err(refusal) => refused(event.process(), refusal),
        }
    }

    /// Returns the store after the history, or `None` if a process is inside.
    fn newest(&self) -> Option<Image>
        ensures { (events : List Happening) → Shows self.now.world events →
            result ≡ newest_store self.now.world.setup (past_of self.now.world.setup events) }
    {
        let newest = self.world.newest();
        if let Some(store) = &newest {
            let _image = store.bytes();
        }
        newest
    }
}

/// Reports that an event of this process was refused, or returns an error if the refusal is one for lack of memory.
fn refused(process: u8, refusal: Refusal) -> Result<Option<TurnReport>, AllocError>
    ensures { IfOk result (λ reported.
        (reported ≡ Some (TurnReport.Refused process refusal)) × (refusal ≡ Memory → ⊥)) }
{
    match refusal {
        Refusal::Memory => Err(AllocError),
        _ => Ok(Some(TurnReport::Refused { process, refusal })),
    }
}

/// Returns how many turns a line may make. The last turn of a `go` looks whether the process has reached its target, and
/// makes no Step.
fn turns_in(line: &Line) -> u32
    ensures { result ≡ turns_of line.now }
{
    let _nested: NestedTypes = None;
    match line {
        Line::Step(_, steps) => *steps,
        Line::Wander(turns) => *turns,
        Line::Go(..) => GO_LIMIT + 1,
        Line::Call(..)
        | Line::Fail(_)
        | Line::Withdraw(_)
        | Line::Restart(_)
        | Line::Flick(_)
        | Line::Show => 1,
    }
}
