//! The run of a scenario as it is drawn.
ghost use Rattle.std.specs.Prelude.{◌≡◌, ◌+◌, ◌-◌, ◌^◌, ◌<◌, [], ◌∷◌, length, IfErr, IfOk, Ok, OnOk};
ghost use Rattle.model.specs.plain_store.{checked};
ghost use Rattle.picture.specs.{WindowPlan};
ghost use Rattle.draw.specs.Canvases.{DrawsBands, DrawsLast, kept, kept_at_first, plan_of};
ghost use Rattle.draw.specs.Drawings.{HasOpening, Recalls};
ghost use Rattle.scenario.specs.files.{FailsAsWriting, IsWriteFault, failed_write};
ghost use Rattle.scenario.specs.{script};
ghost use Rattle.scenario_run.specs.{Follows, counted, happenings, run_at_start, summary_of};
ghost use Rattle.draw.specs.RunDrawings.{DrawsReported, tally};
ghost use Rattle.draw.specs.RunItems.{run_given, says_end};
ghost use Rattle.draw.specs.Pictures.{opening_of};
ghost use Rattle.draw.specs.Views.{full_view};
ghost use Rattle.draw.specs.declared.views.AccessView.{AccessView as Seen};

mod observing;

use crate::drawing::{Drawing, lines_of_setup};
use crate::views::AccessView;
use observing::draw_line;
use picture::{Form, LineContent, PictureOptions};
use record_accesses::plain_store::{NestedTypes, Setup};
use scenario::progress::{LinePosition, ProgressObserver};
use scenario::{Fault, Scenario, Sink};
use scenario_run::{ScenarioRun, Summary, TurnReport, newest_words};
use std::alloc::Global;

/// The picture of a run so far.
#[derive(Drop)]
pub(crate) struct RunDrawing {
    alloc: Global,
    drawing: Drawing,
    /// The number of refusals.
    refused: u64,
}

/// A run that is drawn: its numbers, the words of the store before its window, and the heights of its bands.
#[derive(Drop)]
pub(crate) struct DrawnRun {
    pub summary: Summary,
    pub opening: Vec<u8>,
    pub height: u64,
}

/// Draws the bands of a scenario's run, and returns what was drawn.
///
/// # Errors
///
/// Returns [`Fault::Write`] if a call of the sink fails, and [`Fault::Memory`] if memory is lacking.
pub(crate) fn draw_bands<W: Sink, L: ProgressObserver>(
    alloc: Global,
    scenario: &Scenario,
    form: Form,
    options: PictureOptions,
    output: &mut W,
    progress_observer: &mut L,
) -> Result<DrawnRun, Fault>
    requires { W.failures output.old < 2 ^ 64 - 1 }
    ensures drawn { IfOk result
        (λ drawn. DrawsBands (plan_of form options.window scenario.now.setup) (W.taken output.old)
        (W.taken output.new) (run_given (full_view options) (script scenario.now)) drawn.height) }
    ensures summary { IfOk result (λ drawn. drawn.summary
        ≡ summary_of scenario.now.setup (happenings (script scenario.now))) }
    ensures opening { IfOk result (λ drawn. drawn.opening.items
        ≡ opening_of options.window (script scenario.now)) }
    ensures fails { FailsAsWriting W.failures result output.old output.new }
{
    let mut run = RunDrawing::new(alloc, &scenario.setup, form, options)?;
    let mut scenario_run = ScenarioRun::new(alloc, &scenario.setup)?;
    draw_lines(
        scenario,
        &mut scenario_run,
        &mut run,
        output,
        progress_observer,
    )
}

/// Does the work of [`draw_bands`] with a scenario run and a drawing that have just begun. It borrows them, because a value that
/// is dropped at each way out of a function takes long to prove.
fn draw_lines<W: Sink, L: ProgressObserver>(
    scenario: &Scenario,
    scenario_run: &mut ScenarioRun,
    run: &mut RunDrawing,
    output: &mut W,
    progress_observer: &mut L,
) -> Result<DrawnRun, Fault>
    requires setup { scenario_run.old.world.setup ≡ scenario.now.setup }
    requires follows { Follows scenario_run.old run_at_start }
    requires tally { tally run.old ≡ record { events = 0; taken = 0; refused = 0 } }
    requires source { run.old.drawing.source ≡ length scenario.now.setup.opening + 5 }
    requires writes { W.failures output.old < 2 ^ 64 - 1 }
    ensures drawn { IfOk result (λ drawn. (plan : WindowPlan) (view : Seen)
        → kept run.old.drawing.canvas ≡ kept_at_first plan
        → Recalls view scenario.now.setup [] run.old.drawing
        → DrawsBands plan (W.taken output.old) (W.taken output.new)
        (run_given view (script scenario.now)) drawn.height) }
    ensures summary { IfOk result (λ drawn. (plan : WindowPlan) (view : Seen)
        → kept run.old.drawing.canvas ≡ kept_at_first plan
        → Recalls view scenario.now.setup [] run.old.drawing
        → drawn.summary ≡ summary_of scenario.now.setup (happenings (script scenario.now))) }
    ensures opening { IfOk result (λ drawn. (plan : WindowPlan) (view : Seen)
        → kept run.old.drawing.canvas ≡ kept_at_first plan
        → Recalls view scenario.now.setup [] run.old.drawing
        → drawn.opening.items ≡ opening_of view.window (script scenario.now)) }
    ensures fails { FailsAsWriting W.failures result output.old output.new }
{
    let mut place = LinePosition::before(&scenario.numbers);
    for line in &scenario.lines {
        progress_observer.reached(place.begin_line(run.drawing.entries));
        run.drawing.source += 1;
        draw_line(scenario_run, line, run, output)?;
    }
    run.drawing.source += 1;
    run.end(scenario_run.taken(), output)
}

impl RunDrawing {
    fn new(
        alloc: Global,
        setup: &Setup,
        form: Form,
        options: PictureOptions,
    ) -> Result<RunDrawing, Fault>
        requires { checked setup.now ≡ Ok tt }
        ensures tally { IfOk result
            (λ run. tally run ≡ record { events = 0; taken = 0; refused = 0 }) }
        ensures first { IfOk result
            (λ run. kept run.drawing.canvas
            ≡ kept_at_first (plan_of form options.window setup.now)) }
        ensures source { IfOk result (λ run. run.drawing.source ≡ length setup.now.opening + 5) }
        ensures recalls { IfOk result
            (λ run. Recalls (full_view options) setup.now [] run.drawing) }
        ensures fault { IfErr result IsWriteFault }
        ensures failures { failed_write result ≡ 0 }
    {
        let source = lines_of_setup(setup);
        let view = AccessView::full(options);
        let drawing = Drawing::new(alloc, setup, form, view, source)?;
        Ok(RunDrawing {
            alloc,
            drawing,
            refused: 0,
        })
    }

    /// Draws and counts the report of a turn.
    fn draw_reported<W: Sink>(&mut self, reported: &TurnReport, output: &mut W) -> Result<(), Fault>
        requires writes { W.failures output.old < 2 ^ 64 - 1 }
        requires events { self.old.drawing.entries < 2 ^ 64 - 1 }
        requires refused { self.old.refused < 2 ^ 64 - 1 }
        ensures drawn { OnOk result
            (DrawsReported self.old self.new reported.now (W.taken output.old)
            (W.taken output.new)) }
        ensures source { self.new.drawing.source ≡ self.old.drawing.source }
        ensures count { OnOk result (tally self.new ≡ counted reported.now (tally self.old)) }
        ensures fails { FailsAsWriting W.failures result output.old output.new }
    {
        let _nested: NestedTypes = None;
        match reported {
            TurnReport::Accepted(made) => {
                let process = made.event.process();
                let marks = made.marks(self.alloc);
                self.drawing.draw_entry(
                    process,
                    made.access,
                    marks.as_slice(),
                    made.overlapped,
                    output,
                )
            }
            TurnReport::Refused { process, refusal } => {
                self.refused += 1;
                let line_content = LineContent::Refused {
                    process: *process,
                    refusal: *refusal,
                };
                self.drawing.draw_line(line_content, output)
            }
            TurnReport::Tired(process) => self
                .drawing
                .draw_line(LineContent::Tired(*process), output),
            TurnReport::Shown(store) => {
                let words = newest_words(self.alloc, store)?;
                self.drawing.draw_line(LineContent::Shown(words), output)
            }
        }
    }

    /// Draws the last line, writes what is held back, and returns what was drawn.
    fn end<W: Sink>(&mut self, taken: u64, output: &mut W) -> Result<DrawnRun, Fault>
        requires { W.failures output.old < 2 ^ 64 - 1 }
        ensures drawn { IfOk result (λ drawn. DrawsLast self.old.drawing.canvas
            (W.taken output.old) (W.taken output.new) self.old.drawing.source
            self.old.drawing.entries [] (says_end drawn.summary) drawn.height) }
        ensures summary { IfOk result
            (λ drawn. drawn.summary ≡ record (tally self.old) { taken = taken }) }
        ensures opening { IfOk result (λ drawn. HasOpening self.old.drawing drawn.opening.items) }
        ensures fails { FailsAsWriting W.failures result output.old output.new }
    {
        let opening = self.drawing.opening()?;
        let events = self.drawing.entries;
        let refused = self.refused;
        let line_content = LineContent::Ended {
            events,
            taken,
            refused,
        };
        let height = self.drawing.end(line_content, b"", output)?;
        let summary = Summary {
            events,
            taken,
            refused,
        };
        Ok(DrawnRun {
            summary,
            opening,
            height,
        })
    }
}
