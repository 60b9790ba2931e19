//! Playing lines: the turns of each line are made, one after the other, and an observer observes what they report.
ghost use Rattle.std.specs.Prelude.{◌≡◌, ◌+◌, ◌-◌, ◌*◌, ◌^◌, ◌<◌, ◌≤◌, ℕ, IfErr, IfOk, OnOk, length};
ghost use Rattle.scenario_run.specs.ScenarioRuns.{Follows};
ghost use Rattle.scenario_run.specs.Observing.{Comes, InItsRun, LeavesRoom, Plays, PlaysLine, PlaysLines, StopsAmid, StopsLine, StopsLines, TakesRoom, room_wanted};
ghost use Rattle.scenario_run.specs.Parts.{PlaysUntil, events_in, events_to};
ghost use Rattle.scenario_run.specs.Runs.{Run};
ghost use Rattle.scenario_run.specs.Turns.{makes_steps as has_steps, part_of_line, turns_in as turns_of};
ghost use Rattle.scenario_run.specs.declared.play_limit.PlayLimit.TheVariants.{End};

use super::ScenarioRun;
use crate::play_limit::{LineMade, PlayLimit};
use crate::reports::TurnReport;
use crate::run_observers::RunObserver;
use scenario::progress::{LinePosition, ProgressObserver};
use scenario::{Fault, Line, Scenario};

impl ScenarioRun {
    /// Plays the lines of a scenario, one after the other, to the end or up to an event. Returns the line that made the
    /// newest event, or `None` if no event was made. Before each line it reports to the progress observer the line's number in the file
    /// and how many events the observer has counted, even if the line makes no further turn.
    ///
    /// # Errors
    ///
    /// Returns [`Fault::Memory`] if a turn runs out of memory, and otherwise the observer's fault. The observer has then
    /// observed a prefix of the lines.
    pub fn play_all<L: RunObserver, O: ProgressObserver>(
        &mut self,
        scenario: &Scenario,
        until: PlayLimit,
        observer: &mut L,
        progress_observer: &mut O,
    ) -> Result<Option<LineMade>, Fault>
        requires { L.HasRoom observer.old (length scenario.now.lines.items * 2 ^ 32) }
        ensures whole { until ≡ End → OnOk result (PlaysLines L.Observes self.old
            scenario.now.lines.items self.new observer.old observer.new) }
        ensures part { IfOk result (PlaysUntil L.Observes until self.old
            scenario.now.lines.items self.new observer.old observer.new) }
        ensures cut { IfErr result (StopsLines L.Stops self.old
            scenario.now.lines.items observer.old observer.new) }
    {
        self.play_lines(
            &scenario.lines,
            &scenario.numbers,
            until,
            observer,
            progress_observer,
        )
    }

    /// Plays lines that have these numbers in a file; [`ScenarioRun::play_all`] calls it with those of a scenario.
    fn play_lines<L: RunObserver, O: ProgressObserver>(
        &mut self,
        lines: &[Line],
        numbers: &[u16],
        until: PlayLimit,
        observer: &mut L,
        progress_observer: &mut O,
    ) -> Result<Option<LineMade>, Fault>
        requires bounded { length lines.now ≤ 2 ^ 32 }
        requires room { L.HasRoom observer.old (length lines.now * 2 ^ 32) }
        ensures whole { until ≡ End → OnOk result
            (PlaysLines L.Observes self.old lines.now self.new observer.old observer.new) }
        ensures part { IfOk result
            (PlaysUntil L.Observes until self.old lines.now self.new observer.old observer.new) }
        ensures cut { IfErr result
            (StopsLines L.Stops self.old lines.now observer.old observer.new) }
    {
        let mut place = LinePosition::before(numbers);
        let mut made = 0;
        let mut newest = None;
        for (index, line) in lines.iter().enumerate() {
            progress_observer.reached(place.begin_line(observer.event_count()));
            let events = self.play_part(line, until.events_after(made), observer)?;
            if events > 0 {
                newest = Some(LineMade {
                    line: index,
                    before: made,
                });
            }
            made += u64::from(events);
        }
        Ok(newest)
    }

    /// Makes the turns of a line. The observer observes each turn before the next is made.
    ///
    /// # Errors
    ///
    /// Returns [`Fault::Memory`] if there is no memory for a turn, which is then not made, and otherwise the observer's fault.
    pub fn play<L: RunObserver>(&mut self, line: &Line, observer: &mut L) -> Result<(), Fault>
        requires { L.HasRoom observer.old (2 ^ 32) }
        ensures observed { OnOk result
            (PlaysLine L.Observes self.old line.now self.new observer.old observer.new) }
        ensures runs { (run : Run) × Follows self.old run }
        ensures room { OnOk result (TakesRoom L.HasRoom observer.old (2 ^ 32) observer.new) }
        ensures cut { IfErr result (StopsLine L.Stops self.old line.now observer.old observer.new) }
    {
        self.play_part(line, u64::MAX, observer)?;
        Ok(())
    }

    /// Makes the first turns of a line, until they have made `most` events, and returns how many events they made. A turn that
    /// makes no event is the last of its line, so these are the first events of the line.
    fn play_part<L: RunObserver>(
        &mut self,
        line: &Line,
        most: u64,
        observer: &mut L,
    ) -> Result<u32, Fault>
        requires { L.HasRoom observer.old (2 ^ 32) }
        ensures plays { OnOk result (InItsRun self.old (λ run.
            Plays L.Observes self.old.world.setup run
            (part_of_line self.old.world.setup most line.now run) self.new
            observer.old observer.new)) }
        ensures events { IfOk result (λ made. InItsRun self.old (λ run.
            events_in self.old.world.setup (part_of_line self.old.world.setup most line.now run)
            ≡ events_in self.old.world.setup run + made)) }
        ensures runs { (run : Run) × Follows self.old run }
        ensures bounded { turns_of line.now < 2 ^ 32 }
        ensures turns { IfOk result (λ made. made ≤ turns_of line.now) }
        ensures room { OnOk result (TakesRoom L.HasRoom observer.old (2 ^ 32) observer.new) }
        ensures cut { IfErr result (StopsLine L.Stops self.old line.now observer.old observer.new) }
        ensures fault { IfErr result (λ fault. 0 < most) }
    {
        self.shows_a_run();
        self.begin(line);
        let floor = floor_below(self.remaining, most);
        let mut made = 0;
        'turns: while floor < self.remaining {
            let had = self.remaining;
            let mut before = had;
            let reported = self.next(line, floor, &mut before, observer)?;
            made += had - before;
            let Some(reported) = reported else {
                return Ok(made);
            };
            made += reported.event_count();
            observer.observe(&reported)?;
        }
        Ok(made)
    }

    /// Does nothing. Its contract states that the scenario run shows a run.
    #[inline(always)]
    fn shows_a_run(&self)
        ensures { (run : Run) × Follows self.now run }
    {
        self.world.shown();
    }

    /// Makes the turns of a line up to one that is reported, while more than `floor` turns are left. The observer has not yet
    /// observed the reported turn. Returns `None` at the floor, or once the line has ended. `before` receives how many turns
    /// were left before the turn that is reported or ends the line, or the floor.
    #[inline]
    fn next<L: RunObserver>(
        &mut self,
        line: &Line,
        floor: u32,
        before: &mut u32,
        observer: &mut L,
    ) -> Result<Option<TurnReport>, Fault>
        requires bounded { self.old.remaining ≤ turns_of line.now }
        requires floor { floor < self.old.remaining }
        requires room { L.HasRoom observer.old self.old.remaining }
        ensures remaining { IfOk result
            (λ reported. room_wanted reported self.new.remaining ≤ before.new) }
        ensures fewer { IfOk result (λ reported. before.new ≤ self.old.remaining) }
        ensures observed { IfOk result (Comes L.Observes self.old line.now floor before.new
            self.new observer.old observer.new) }
        ensures room { IfOk result
            (LeavesRoom L.HasRoom observer.old self.old.remaining observer.new self.new.remaining) }
        ensures cut { IfErr result (StopsAmid L.Stops self.old line.now observer.old observer.new) }
    {
        if !makes_steps(line) {
            *before = self.remaining;
            return Ok(self.make(line)?);
        }
        match line {
            Line::Step(process, _) => self.run_alone(*process, floor, before, observer),
            Line::Go(process, target) => self.run_to(*process, *target, floor, before, observer),
            Line::Wander(_) => self.run_random(floor, before, observer),
            _ => unreachable!(),
        }
    }
}

/// Returns how many turns are left once `most` of `remaining` are made.
fn floor_below(remaining: u32, most: u64) -> u32
    ensures { result ≡ remaining - most }
{
    u64::from(remaining).saturating_sub(most) as u32
}

/// Returns whether a line makes Steps.
#[inline]
fn makes_steps(line: &Line) -> bool
    ensures { result ≡ has_steps line.now }
{
    matches!(line, Line::Step(..) | Line::Go(..) | Line::Wander(_))
}
