//! The lines that make Steps. A Step without a mark leaves every process in its stage, so a line has to look at the stages
//! again only after a Step with marks.
ghost use Rattle.std.specs.Prelude.{◌≡◌, ◌+◌, ◌-◌, ◌^◌, ◌<◌, ◌≤◌, ℕ, length, slice_index, IfErr, IfOk, IfSome, None, Ok};
ghost use Rattle.model.specs.{is_at_work, stage};
ghost use Rattle.model.specs.declared.Event.TheVariants.{Step};
ghost use Rattle.scenario.specs.declared.lines.Line.TheVariants.{Go as GoLine, Wander as WanderLine};
ghost use Rattle.scenario_run.specs.Observing.{Comes, InItsRun, LeavesRoom, RunsAlone, StopsAlone, StopsAmid, room_wanted};
ghost use Rattle.scenario_run.specs.Runs.{is_there as is_target, enabled, past_in};
ghost use Rattle.scenario_run.specs.Steppers.{remaining_after};
ghost use Rattle.scenario_run.specs.Turns.{rest_of, turns_in};

use super::ScenarioRun;
use super::steps::{goes_on, pass_by, turn_step};
use crate::reports::TurnReport;
use crate::run_observers::RunObserver;
use model::{Refusal, Stage};
use scenario::{Fault, Target};
use smallvec::SmallVec;
use world::Divisor;

impl ScenarioRun {
    /// Makes Steps of this process, while more than `floor` turns are left, up to the first that is reported; a Step that is
    /// refused ends the line. `before` receives how many turns were left before the reported Step, or the floor.
    #[inline(never)]
    pub(super) fn run_alone<L: RunObserver>(
        &mut self,
        process: u8,
        floor: u32,
        before: &mut u32,
        observer: &mut L,
    ) -> Result<Option<TurnReport>, Fault>
        requires floor { floor ≤ self.old.remaining }
        requires room { L.HasRoom observer.old self.old.remaining }
        ensures remaining { IfOk result
            (λ reported. room_wanted reported self.new.remaining ≤ before.new) }
        ensures fewer { IfOk result (λ reported. before.new ≤ self.old.remaining) }
        ensures ended { IfOk result (λ reported. reported ≡ None → self.new.remaining ≡ floor) }
        ensures floor { IfOk result (λ reported. reported ≡ None → before.new ≡ floor) }
        ensures observed { IfOk result (RunsAlone L.Observes self.old process floor before.new
            self.new observer.old observer.new) }
        ensures room { IfOk result
            (LeavesRoom L.HasRoom observer.old self.old.remaining observer.new self.new.remaining) }
        ensures cut { IfErr result
            (StopsAlone L.Stops self.old process floor self.new observer.old observer.new) }
    {
        let mut outcome = Ok(None);
        let mut known = 1;
        'steps: loop {
            pass_by(
                &mut self.world,
                &mut self.flicks,
                &mut self.remaining,
                &mut known,
                process,
                floor,
                observer,
            );
            if self.remaining == floor {
                *before = floor;
                return Ok(None);
            }
            let is_quiet = turn_step(
                &mut self.world,
                &mut known,
                process,
                &mut self.flicks,
                observer,
                &mut outcome,
            );
            if !is_quiet && !goes_on(&outcome) {
                *before = self.remaining;
                self.remaining = left_after(&outcome, self.remaining - 1);
                return outcome;
            }
            self.remaining -= 1;
        }
    }

    /// Makes the turns of `go` while more than `floor` turns are left: Steps, unless the process is at its target, or has
    /// made all its Steps. `before` receives how many turns were left before the turn that is reported, or the floor.
    pub(super) fn run_to<L: RunObserver>(
        &mut self,
        process: u8,
        target: Target,
        floor: u32,
        before: &mut u32,
        observer: &mut L,
    ) -> Result<Option<TurnReport>, Fault>
        requires bounded { self.old.remaining ≤ turns_in (GoLine process target) }
        requires floor { floor < self.old.remaining }
        requires room { L.HasRoom observer.old self.old.remaining }
        ensures remaining { IfOk result
            (λ reported. room_wanted reported self.new.remaining ≤ before.new) }
        ensures fewer { IfOk result (λ reported. before.new ≤ self.old.remaining) }
        ensures observed { IfOk result
            (Comes L.Observes self.old (GoLine process target) floor before.new self.new
            observer.old observer.new) }
        ensures room { IfOk result
            (LeavesRoom L.HasRoom observer.old self.old.remaining observer.new self.new.remaining) }
        ensures cut { IfErr result (StopsAmid L.Stops self.old (GoLine process target)
            observer.old observer.new) }
    {
        let Some(stage) = self.world.stage(process) else {
            *before = self.remaining;
            self.remaining = 0;
            let refusal = Refusal::NoProcess;
            return Ok(Some(TurnReport::Refused { process, refusal }));
        };
        if is_there(target, stage) {
            *before = self.remaining;
            self.remaining = 0;
            return Ok(None);
        }
        if let Some(reported) = self.run_alone(process, floor.max(1), before, observer)? {
            return Ok(Some(reported));
        }
        if floor > 0 {
            return Ok(None);
        }
        self.remaining = 0;
        Ok(Some(TurnReport::Tired(process)))
    }

    /// Makes the turns of `wander` while more than `floor` turns are left: Steps of picked processes, if there is one to pick.
    /// `before` receives how many turns were left before the reported Step, or the floor. If only one process can make a
    /// Step, and the flicks are constant, it makes them as `run_alone` does, in groups. Each pick can then only find that
    /// process, so the words of the picks are skipped at the end. Otherwise the process of the next Step is drawn before this
    /// Step is made. How far a picked process is in its access cannot be predicted, and a processor that has mispredicted it
    /// begins what follows anew, except for that draw. For the same reason a process is asked once how many of its next Steps
    /// are within its register access, and these are counted down: most Steps ask nothing. The turns are counted down to 0
    /// after the Step, so that one instruction counts a turn and finds whether it is the last.
    pub(super) fn run_random<L: RunObserver>(
        &mut self,
        floor: u32,
        before: &mut u32,
        observer: &mut L,
    ) -> Result<Option<TurnReport>, Fault>
        requires floor { floor < self.old.remaining }
        requires room { L.HasRoom observer.old self.old.remaining }
        ensures remaining { IfOk result
            (λ reported. room_wanted reported self.new.remaining ≤ before.new) }
        ensures fewer { IfOk result (λ reported. before.new ≤ self.old.remaining) }
        ensures observed { IfOk result (λ reported. (steps : ℕ) →
            Comes L.Observes self.old (WanderLine steps) floor before.new self.new
            observer.old observer.new reported) }
        ensures room { IfOk result
            (LeavesRoom L.HasRoom observer.old self.old.remaining observer.new self.new.remaining) }
        ensures cut { IfErr result (λ fault. (steps : ℕ) →
            InItsRun self.old (λ run. self.old.remaining ≤ steps →
            L.Stops observer.old self.old.world.setup run.happened
            (rest_of self.old.world.setup (WanderLine steps) self.old.remaining run).happened
            fault observer.new)) }
    {
        let enabled = self.enabled();
        let among = enabled.as_slice();
        if among.is_empty() {
            *before = self.remaining;
            self.remaining = 0;
            return Ok(None);
        }
        if among.len() == 1 && self.flicks.is_constant() {
            let had = self.remaining;
            let reported = self.run_alone(among[0], floor, before, observer)?;
            self.flicks.skip_picks(had - self.remaining);
            return Ok(reported);
        }
        let count = Divisor::new(among.len() as u32);
        let had = self.remaining - floor;
        let mut remaining = had;
        let mut outcome = Ok(None);
        let mut within = [1_u32; 256];
        let mut ahead = self.flicks.twin();
        let mut next = among[ahead.pick(&count)];
        'steps: loop {
            let (process, mut source) = (next, ahead.twin());
            ahead.flick();
            next = among[ahead.pick(&count)];
            let is_quiet = turn_step(
                &mut self.world,
                &mut within[usize::from(process)],
                process,
                &mut source,
                observer,
                &mut outcome,
            );
            remaining -= 1;
            if remaining == 0 || (!is_quiet && !goes_on(&outcome)) {
                self.remaining = floor + remaining;
                *before = left_before(&outcome, self.remaining);
                self.flicks.skip_picks(had - remaining);
                self.flicks.skip(had - remaining);
                return outcome;
            }
        }
    }

    /// Returns the processes with a Step to make, ascending. They use no allocated memory.
    fn enabled(&self) -> SmallVec<u8, 16>
        ensures enabled { InItsRun self.now (λ run.
            result.items ≡ enabled self.now.world.setup (past_in self.now.world.setup run)) }
        ensures bounded { length result.items ≤ 16 }
    {
        let mut enabled = SmallVec::new(self.alloc);
        for process in 0..self.processes {
            if self.has_step(process) {
                enabled.push_reserved(process);
            }
        }
        enabled
    }

    /// Returns whether a process runs, or its memory unit settles.
    fn has_step(&self, process: u8) -> bool
        ensures { InItsRun self.now (λ run. process < self.now.world.setup.processes →
            result ≡ is_at_work (stage process (past_in self.now.world.setup run))) }
    {
        match self.world.stage(process) {
            Some(stage) => stage.is_at_work(),
            None => false,
        }
    }
}

/// Returns whether a process in this stage has reached the target.
fn is_there(target: Target, stage: Stage) -> bool
    ensures { result ≡ is_target target stage }
{
    match target {
        Target::Wait => !(stage.is_in_doorway() || stage.is_settling()),
        Target::Inside => !(stage.is_at_door() || stage.is_settling()),
        Target::Idle => stage.is_at_rest(),
        Target::Down => stage.is_down(),
    }
}

/// Returns the turns left after a reported Step, of `remaining`: a refused Step ends a line of one process.
fn left_after(outcome: &Result<Option<TurnReport>, Fault>, remaining: u32) -> u32
    ensures reported { IfOk outcome.now
        (λ reported. IfSome reported (λ reported. result ≡ remaining_after reported remaining)) }
    ensures fault { IfErr outcome.now (λ fault. result ≡ remaining) }
    ensures fewer { result ≤ remaining }
{
    match outcome {
        Ok(Some(TurnReport::Refused { .. })) => 0,
        _ => remaining,
    }
}

/// Returns how many turns were left before the newest turn if it made a report or failed, and otherwise how many are left.
fn left_before(outcome: &Result<Option<TurnReport>, Fault>, remaining: u32) -> u32
    requires { remaining < 2 ^ 32 - 1 }
    ensures none { outcome.now ≡ Ok None → result ≡ remaining }
    ensures reported { (outcome.now ≡ Ok None → ⊥) → result ≡ remaining + 1 }
    ensures fewer { result ≤ remaining + 1 }
{
    match outcome {
        Ok(None) => remaining,
        _ => remaining + 1,
    }
}
