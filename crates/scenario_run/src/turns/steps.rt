//! Steps of a run: they are passed to the observer in groups, observed one by one, or reported.
ghost use Rattle.std.specs.Prelude.{◌≡◌, ◌+◌, ◌<◌, ◌≤◌, IfErr, IfOk, IfSome, None, Ok, OnOk, false, is_some, true};
ghost use Rattle.model.specs.declared.Event.TheVariants.{Step};
ghost use Rattle.world.specs.choices.{after_flick, flick_of};
ghost use Rattle.world.specs.{KeepOthers, remaining_in};
ghost use Rattle.world.specs.process.declared.outcomes.StepOutcome.TheVariants.{Nothing};
ghost use Rattle.world.specs.process.registers.declared.access_made.AccessMade.{AccessMade as MadeSeen};
ghost use Rattle.scenario_run.specs.ScenarioRuns.{scenario_run};
ghost use Rattle.scenario_run.specs.Observing.{ObservesStep, LeavesRoom, MakesStep, PassesAlone, StopsBy};
ghost use Rattle.scenario_run.specs.Reporting.{reported_step};

use crate::reports::{Accepted, TurnReport, UnmarkedStep};
use crate::run_observers::RunObserver;
use model::{Event, Refusal};
use plain_store::NestedTypes;
use scenario::Fault;
use world::{AccessMade, EventOutcome, Flicks, StepOutcome, World};

/// Makes the Steps of a process that are within a register access, so that none has a mark, while more than `floor` turns
/// are left. They are passed to the observer as one group, unless it observes each Step.
#[inline]
pub(super) fn pass_by<L: RunObserver>(
    world: &mut World,
    flicks: &mut Flicks,
    remaining: &mut u32,
    known: &mut u32,
    process: u8,
    floor: u32,
    observer: &mut L,
)
    requires floor { floor ≤ remaining.old }
    requires room { L.HasRoom observer.old remaining.old }
    requires nonzero { 0 < known.old }
    requires known { known.old ≤ remaining_in world.old.seats process + 1 }
    ensures nonzero { 0 < known.new }
    ensures known { known.new ≤ remaining_in world.new.seats process + 1 }
    ensures fewer { remaining.new ≤ remaining.old }
    ensures floor { floor ≤ remaining.new }
    ensures setup { world.new.setup ≡ world.old.setup }
    ensures on { PassesAlone L.Observes (scenario_run world.old flicks.old remaining.old) process
        floor (scenario_run world.new flicks.new remaining.new) observer.old observer.new }
    ensures room { LeavesRoom L.HasRoom observer.old remaining.old observer.new remaining.new None }
{
    if observer.observes_steps() {
        return;
    }
    let within = world.remaining(process).min(*remaining - floor);
    if within == 0 {
        return;
    }
    let before = flicks.twin();
    let made = world.run(process, flicks, within);
    *remaining -= within;
    *known = 1;
    observer.pass(process, &before, within, made.newest, made.overlapped);
}

/// Makes a turn's Step, by the next flick. Returns whether it is made within a register access, where it has no mark, and the
/// observer observes it without a fault. Otherwise `outcome` receives what the Step reports, if anything, or the fault. At
/// least `known - 1` of the process's next Steps are known to be within a register access. (An outcome by value would be
/// cleared at each Step.)
#[inline(always)]
pub(super) fn turn_step<L: RunObserver>(
    world: &mut World,
    known: &mut u32,
    process: u8,
    flicks: &mut Flicks,
    observer: &mut L,
    outcome: &mut Result<Option<TurnReport>, Fault>,
) -> bool
    requires none { outcome.old ≡ Ok None }
    requires room { L.HasRoom observer.old 1 }
    requires nonzero { 0 < known.old }
    requires known { known.old ≤ remaining_in world.old.seats process + 1 }
    ensures nonzero { 0 < known.new }
    ensures known { known.new ≤ remaining_in world.new.seats process + 1 }
    ensures after { flicks.new ≡ after_flick flicks.old }
    ensures quiet { result ≡ true → outcome.new ≡ Ok None }
    ensures observed { IfOk outcome.new (λ reported. MakesStep L.Observes world.old process
        (flick_of flicks.old) reported world.new observer.old observer.new) }
    ensures room { IfOk outcome.new
        (λ reported. LeavesRoom L.HasRoom observer.old 1 observer.new 0 reported) }
    ensures cut { IfErr outcome.new (λ fault. ObservesStep (StopsBy L.Stops fault) world.old process
        (flick_of flicks.old) world.new observer.old observer.new) }
    ensures setup { world.new.setup ≡ world.old.setup }
    ensures others { KeepOthers world.old.seats process world.new.seats }
{
    if !is_quiet(world, known, process) {
        *outcome = any_step(world, process, flicks.flick(), observer);
        return false;
    }
    let mut before = flicks.twin();
    let made = world.run(process, flicks, 1);
    if !observer.observes_steps() {
        observer.pass(process, &before, 1, made.newest, made.overlapped);
        return true;
    }
    let flick = before.flick();
    let observed = observer.step(UnmarkedStep {
        process,
        flick,
        access: made.newest,
        overlapped: made.overlapped > 0,
        number: None,
    });
    let Err(fault) = observed else { return true };
    *outcome = Err(fault);
    false
}

/// Returns whether nothing has been reported, and no fault occurred.
#[inline]
pub(super) fn goes_on(outcome: &Result<Option<TurnReport>, Fault>) -> bool
    ensures none { result ≡ true → outcome.now ≡ Ok None }
    ensures outcome { result ≡ false → outcome.now ≡ Ok None → ⊥ }
{
    matches!(outcome, Ok(None))
}

/// Returns whether a process's next Step is within its register access, where at least `known - 1` are known to be. The world
/// is asked only if none is known to be; otherwise `known` is counted down in place.
#[inline(always)]
pub(super) fn is_quiet(world: &World, known: &mut u32, process: u8) -> bool
    requires nonzero { 0 < known.old }
    requires known { known.old ≤ remaining_in world.now.seats process + 1 }
    ensures nonzero { 0 < known.new }
    ensures within { result ≡ true → known.new ≤ remaining_in world.now.seats process }
    ensures none { result ≡ false → known.new ≡ 1 }
{
    *known -= 1;
    if *known == 0 {
        let remaining = world.remaining(process);
        *known = remaining.max(1);
        return remaining > 0;
    }
    true
}

/// Makes a Step by this flick, wherever its process is. The observer observes it if it has no mark; otherwise what it reports
/// is returned.
#[inline(never)]
pub(super) fn any_step<L: RunObserver>(
    world: &mut World,
    process: u8,
    flick: bool,
    observer: &mut L,
) -> Result<Option<TurnReport>, Fault>
    requires { L.HasRoom observer.old 1 }
    ensures observed { IfOk result
        (λ reported. MakesStep L.Observes world.old process flick reported world.new observer.old
        observer.new) }
    ensures room { IfOk result
        (λ reported. LeavesRoom L.HasRoom observer.old 1 observer.new 0 reported) }
    ensures cut { IfErr result
        (λ fault. ObservesStep (StopsBy L.Stops fault) world.old process flick world.new
        observer.old observer.new) }
    ensures setup { world.new.setup ≡ world.old.setup }
    ensures others { KeepOthers world.old.seats process world.new.seats }
{
    let mut leads = StepOutcome::Nothing;
    let number = Some(world.number_read(process));
    let place = world.history().len() as u64;
    let stepped = world.step(process, flick, &mut leads);
    let Some(made) = unmarked(&stepped, &leads) else {
        return Ok(Some(reported_of(process, flick, place, &stepped, &leads)));
    };
    observer.step(UnmarkedStep {
        process,
        flick,
        access: made.access,
        overlapped: made.overlapped,
        number,
    })?;
    Ok(None)
}

/// Returns the access of a Step that was made, if the Step has no mark.
#[inline]
fn unmarked(stepped: &Result<AccessMade, Refusal>, leads: &StepOutcome) -> Option<AccessMade>
    ensures step { IfSome result (λ made. (stepped.now ≡ Ok made) × (leads.now ≡ Nothing)) }
    ensures none { result ≡ None → (made : MadeSeen) → stepped.now ≡ Ok made → leads.now ≡ Nothing →
        ⊥ }
{
    let _nested: NestedTypes = None;
    match leads {
        StepOutcome::Nothing => match stepped {
            Ok(made) => Some(*made),
            Err(_) => None,
        },
        _ => None,
    }
}

/// Returns the report of a Step, made or refused.
#[inline(never)]
fn reported_of(
    process: u8,
    flick: bool,
    place: u64,
    stepped: &Result<AccessMade, Refusal>,
    leads: &StepOutcome,
) -> TurnReport
    ensures { result ≡ reported_step process flick place leads.now stepped.now }
{
    let _nested: NestedTypes = None;
    match stepped {
        Ok(made) => TurnReport::Accepted(Accepted {
            event: Event::Step(process, flick),
            place,
            access: Some(made.access),
            overlapped: made.overlapped,
            effect: EventOutcome::Steps(*leads),
        }),
        Err(refusal) => TurnReport::Refused {
            process,
            refusal: *refusal,
        },
    }
}
