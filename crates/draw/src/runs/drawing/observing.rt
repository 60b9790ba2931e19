//! An observer that draws the turns of a run.
ghost use Rattle.std.specs.Prelude.{◌≡◌, ◌+◌, ◌-◌, ◌^◌, ◌<◌, ℕ, Err, OnOk, refl};
ghost use Rattle.std.proofs.Common.{add-zero, ap, sym, ◌∙◌};
ghost use Rattle.scenario.specs.files.{FailsAsWriting, IsWriteFault, failed_write};
ghost use Rattle.scenario_run.specs.{CanCount, can_count_less};
ghost use Rattle.draw.specs.Drawings.{observes};
ghost use Rattle.draw.specs.RunDrawings.{DrawsLine, GoesOnDrawing, tally};

use super::RunDrawing;
use model::Access;
use scenario::{Fault, Line, Sink};
use scenario_run::{Flicks, RunObserver, ScenarioRun, TurnReport, UnmarkedStep};

/// Makes the turns of a line, and draws each turn before the next one is made.
pub(super) fn draw_line<W: Sink>(
    scenario_run: &mut ScenarioRun,
    line: &Line,
    run: &mut RunDrawing,
    output: &mut W,
) -> Result<(), Fault>
    requires writes { W.failures output.old < 2 ^ 64 - 1 }
    requires room { CanCount (tally run.old) (2 ^ 32) }
    ensures drawn { OnOk result
        (DrawsLine line.now scenario_run.old scenario_run.new run.old run.new (W.taken output.old)
        (W.taken output.new)) }
    ensures source { OnOk result (run.new.drawing.source ≡ run.old.drawing.source) }
    ensures room { OnOk result
        ((more : ℕ) → CanCount (tally run.old) (more + 2 ^ 32) → CanCount (tally run.new) more) }
    ensures fails { FailsAsWriting W.failures result output.old output.new }
{
    let mut observer = RunDrawer { run, output };
    scenario_run.play(line, &mut observer)
}

/// Draws the turns of a run. If no accesses are observed, Steps without a mark pass by, many at once. Otherwise each of them is
/// observed with its access, which is drawn if all accesses are shown. Nothing else is drawn of such a Step, because it has no
/// mark.
#[derive(Drop)]
struct RunDrawer<'a, W: Sink> {
    run: &'a mut RunDrawing,
    output: &'a mut W,
}

impl<'a, W: Sink> RunObserver for RunDrawer<'a, W> {
    ghost observes_steps = { λ drawer. observes drawer.run.now.drawing };

    #[inline(always)]
    fn observes_steps(&self) -> bool {
        self.run.drawing.observes()
    }

    fn event_count(&self) -> u64 {
        self.run.drawing.entries
    }

    ghost HasRoom = { λ drawer more. CanCount (tally drawer.run.now) more × (W.failures drawer.output.now < 2 ^ 64 - 1) };

    ghost Observes = { λ a s x y b. (b.output.ghost_name ≡ a.output.ghost_name) × (b.run.ghost_name ≡ a.run.ghost_name) × (b.run.now.drawing.source ≡ a.run.now.drawing.source) × (W.failures b.output.now ≡ W.failures a.output.now) × GoesOnDrawing s x y a.run.now b.run.now (W.taken a.output.now) (W.taken b.output.now) };

    ghost Stops = { λ a s x y fault b. (b.output.ghost_name ≡ a.output.ghost_name) × IsWriteFault fault × (W.failures b.output.now ≡ W.failures a.output.now + failed_write {A = Unit {0}} (Err fault)) };

    fn observe(&mut self, reported: &TurnReport) -> Result<(), Fault> {
        self.run.draw_reported(reported, self.output)
    }

    fn step(&mut self, made: UnmarkedStep) -> Result<(), Fault> {
        self.run
            .drawing
            .step(made.process, made.access, made.overlapped, self.output)
    }

    fn pass(
        &mut self,
        _process: u8,
        _flicks: &Flicks,
        steps: u32,
        _newest: Access,
        _overlapped: u32,
    ) {
        self.run.drawing.pass(steps);
    }

    ghost room_less = { λ a n k few room. (can_count_less (tally a.run.now) n k few room.0, room.1) };

    ghost observes_nothing = { λ a s x. (refl, refl, refl, refl, λ mode start had old drawn. drawn) };

    ghost observes_on = { λ a b c s x y z p q. (q.0 ∙ p.0, q.1 ∙ p.1, q.2 ∙ p.2, q.3 ∙ p.3, λ mode start had old drawn. q.4 mode start had old (p.4 mode start had old drawn)) };

    ghost stops_unobserved = { λ a s x. (refl, tt, sym (add-zero (W.failures a.output.now))) };

    ghost stops_before = { λ a b s x y more fault p. p };

    ghost stops_on = { λ a b c s x y z fault p q. (q.0 ∙ p.0, q.1, q.2 ∙ ap (λ k. k + failed_write {A = Unit {0}} (Err fault)) p.3) };
}
