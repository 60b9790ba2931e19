//! The commands `draw` and `draw-svg` for scenarios.
ghost use Rattle.std.specs.Prelude.{◌≡◌, ◌-◌, ◌^◌, ◌<◌, [], IfOk, Ok, OnOk, Some};
ghost use Rattle.model.specs.plain_store.{checked, opening_store};
ghost use Rattle.picture.specs.{page_back, page_names};
ghost use Rattle.picture.specs.markup.{lines_in, opens_in};
ghost use Rattle.scenario.specs.files.{FailsAsWriting, ReadsFront, streams};
ghost use Rattle.scenario.specs.{script};
ghost use Rattle.scenario_run.specs.{IsSummaryOf, ended, happenings, summary_of};
ghost use Rattle.picture.specs.declared.page.Form.TheVariants as form_variants;
ghost use Rattle.draw.specs.RunDrawings.{DrawsAll, DrawsFramed, DrawsPage, DrewRun};

use crate::runs::drawing::draw_bands;
use crate::runs::nowhere::NullSink;
use crate::surroundings::{around_picture, write_page_end};
use crate::writing::write_markup;
use picture::{FIRST_BAND, Form, Markup, PictureOptions, Subject, page_head};
use scenario::progress::{ProgressObserver, SecondRun};
use scenario::{Fault, Scenario, Sink, Source, read_input, read_scenario};
use scenario_run::Summary;
use std::alloc::Global;

/// Reads a scenario file, and writes the page of its run: a picture in bands, each of which is written when it is full.
///
/// If it succeeds, the output is the page of a window of the items that the run gives, and nothing else. These items are the
/// lines of the run, each with the line of the scenario that makes it and with what its command changed, and the overlapped
/// reads or all accesses with all waves, if `options` asks for them. The page lists the lines of the file as they are. The
/// titles of the marks, read back, are the lines in the window. If the window is all entries, they are the lines that `replay`
/// writes for the file. The tags match, and no element is open at the end.
///
/// # Errors
///
/// Returns a fault of the input as `replay` does, before it writes anything. Returns [`Fault::Write`] if a call of the sink
/// fails, and [`Fault::Memory`] if memory is lacking.
pub fn draw<R: Source, W: Sink, L: ProgressObserver>(
    alloc: Global,
    options: PictureOptions,
    input: &mut R,
    output: &mut W,
    progress_observer: &mut L,
) -> Result<Summary, Fault>
    requires reads { R.failures input.old < 2 ^ 64 - 1 }
    requires writes { W.failures output.old < 2 ^ 64 - 1 }
    ensures drew { DrewRun options form_variants.Page (ended result)
        (streams ⟦<R as Source>⟧ ⟦<W as Sink>⟧ input.old output.old)
        (streams ⟦<R as Source>⟧ ⟦<W as Sink>⟧ input.new output.new) }
    ensures input { ReadsFront (R.to_come input.old) (R.to_come input.new) }
    ensures summary { IfOk result (λ summary. IsSummaryOf (R.to_come input.old) summary) }
{
    draw_file(alloc, Form::Page, options, input, output, progress_observer)
}

/// Writes the page of a scenario's run.
fn draw_page<W: Sink, L: ProgressObserver>(
    alloc: Global,
    options: PictureOptions,
    file: &[u8],
    scenario: &Scenario,
    output: &mut W,
    progress_observer: &mut L,
) -> Result<Summary, Fault>
    requires { W.failures output.old < 2 ^ 64 - 1 }
    ensures drawn { OnOk result
        (DrawsAll options form_variants.Page file.now (script scenario.now) (W.taken output.old)
        (W.taken output.new)) }
    ensures summary { IfOk result
        (λ summary. summary ≡ summary_of scenario.now.setup (happenings (script scenario.now))) }
    ensures fails { FailsAsWriting W.failures result output.old output.new }
{
    let head = page_head(alloc, Subject::Run, &scenario.setup, file, options.reads)?;
    draw_behind(alloc, options, &head, scenario, output, progress_observer)
}

/// Writes the start of a page, and the bands and the end after it. It borrows the start, because a value that is dropped at
/// each way out of a function takes long to prove.
fn draw_behind<W: Sink, L: ProgressObserver>(
    alloc: Global,
    options: PictureOptions,
    head: &Markup,
    scenario: &Scenario,
    output: &mut W,
    progress_observer: &mut L,
) -> Result<Summary, Fault>
    requires { W.failures output.old < 2 ^ 64 - 1 }
    ensures drawn { OnOk result (DrawsPage options head.now (script scenario.now)
        (W.taken output.old) (W.taken output.new)) }
    ensures summary { IfOk result
        (λ summary. summary ≡ summary_of scenario.now.setup (happenings (script scenario.now))) }
    ensures fails { FailsAsWriting W.failures result output.old output.new }
{
    write_markup(head, output)?;
    let drawn = draw_bands(
        alloc,
        scenario,
        Form::Page,
        options,
        output,
        progress_observer,
    )?;
    write_page_end(alloc, drawn.opening.as_slice(), output)?;
    Ok(drawn.summary)
}

/// The markup before and after the bands of one picture, with the form of the picture.
#[derive(Drop)]
struct Frame {
    form: Form,
    options: PictureOptions,
    head: Markup,
    end: Markup,
}

/// Draws the bands of a scenario's run in a frame. It borrows the frame, because a value that is dropped at each way out of
/// a function takes long to prove.
fn draw_framed<W: Sink, L: ProgressObserver>(
    alloc: Global,
    frame: &Frame,
    scenario: &Scenario,
    output: &mut W,
    progress_observer: &mut L,
) -> Result<Summary, Fault>
    requires { W.failures output.old < 2 ^ 64 - 1 }
    ensures drawn { OnOk result
        (DrawsFramed frame.now.options frame.now.form frame.now.head frame.now.end
        (script scenario.now) (W.taken output.old) (W.taken output.new)) }
    ensures summary { IfOk result
        (λ summary. summary ≡ summary_of scenario.now.setup (happenings (script scenario.now))) }
    ensures fails { FailsAsWriting W.failures result output.old output.new }
{
    write_markup(&frame.head, output)?;
    let drawn = draw_bands(
        alloc,
        scenario,
        frame.form,
        frame.options,
        output,
        progress_observer,
    )?;
    write_markup(&frame.end, output)?;
    Ok(drawn.summary)
}

/// Reads a scenario file, and writes one picture of its run, with the items of its page. The run is made twice, because a
/// picture begins with its height.
///
/// # Errors
///
/// Returns the faults of [`draw`].
pub fn draw_svg<R: Source, W: Sink, L: ProgressObserver>(
    alloc: Global,
    options: PictureOptions,
    input: &mut R,
    output: &mut W,
    progress_observer: &mut L,
) -> Result<Summary, Fault>
    requires reads { R.failures input.old < 2 ^ 64 - 1 }
    requires writes { W.failures output.old < 2 ^ 64 - 1 }
    ensures drew { DrewRun options (form_variants.Picture 34) (ended result)
        (streams ⟦<R as Source>⟧ ⟦<W as Sink>⟧ input.old output.old)
        (streams ⟦<R as Source>⟧ ⟦<W as Sink>⟧ input.new output.new) }
    ensures input { ReadsFront (R.to_come input.old) (R.to_come input.new) }
    ensures summary { IfOk result (λ summary. IsSummaryOf (R.to_come input.old) summary) }
{
    let form = Form::Picture(FIRST_BAND);
    draw_file(alloc, form, options, input, output, progress_observer)
}

/// Reads a scenario file, and draws its run in this form.
fn draw_file<R: Source, W: Sink, L: ProgressObserver>(
    alloc: Global,
    form: Form,
    options: PictureOptions,
    input: &mut R,
    output: &mut W,
    progress_observer: &mut L,
) -> Result<Summary, Fault>
    requires reads { R.failures input.old < 2 ^ 64 - 1 }
    requires writes { W.failures output.old < 2 ^ 64 - 1 }
    ensures drew { DrewRun options form (ended result)
        (streams ⟦<R as Source>⟧ ⟦<W as Sink>⟧ input.old output.old)
        (streams ⟦<R as Source>⟧ ⟦<W as Sink>⟧ input.new output.new) }
    ensures input { ReadsFront (R.to_come input.old) (R.to_come input.new) }
    ensures summary { IfOk result (λ summary. IsSummaryOf (R.to_come input.old) summary) }
{
    let file = read_input(alloc, input)?;
    let scenario = read_scenario(alloc, file.as_slice())?;
    draw_scenario(
        alloc,
        form,
        options,
        file.as_slice(),
        &scenario,
        output,
        progress_observer,
    )
}

/// Draws a scenario's run in this form.
fn draw_scenario<W: Sink, L: ProgressObserver>(
    alloc: Global,
    form: Form,
    options: PictureOptions,
    file: &[u8],
    scenario: &Scenario,
    output: &mut W,
    progress_observer: &mut L,
) -> Result<Summary, Fault>
    requires { W.failures output.old < 2 ^ 64 - 1 }
    ensures drawn { OnOk result
        (DrawsAll options form file.now (script scenario.now) (W.taken output.old)
        (W.taken output.new)) }
    ensures summary { IfOk result
        (λ summary. summary ≡ summary_of scenario.now.setup (happenings (script scenario.now))) }
    ensures fails { FailsAsWriting W.failures result output.old output.new }
{
    match form {
        Form::Page => draw_page(alloc, options, file, scenario, output, progress_observer),
        Form::Picture(top) => draw_picture(
            alloc,
            top,
            options,
            file,
            scenario,
            output,
            progress_observer,
        ),
    }
}

/// Writes one picture of a scenario's run, whose first band begins at the height `top`.
fn draw_picture<W: Sink, L: ProgressObserver>(
    alloc: Global,
    top: u64,
    options: PictureOptions,
    file: &[u8],
    scenario: &Scenario,
    output: &mut W,
    progress_observer: &mut L,
) -> Result<Summary, Fault>
    requires { W.failures output.old < 2 ^ 64 - 1 }
    ensures drawn { OnOk result
        (DrawsAll options (form_variants.Picture top) file.now (script scenario.now)
        (W.taken output.old) (W.taken output.new)) }
    ensures summary { IfOk result
        (λ summary. summary ≡ summary_of scenario.now.setup (happenings (script scenario.now))) }
    ensures fails { FailsAsWriting W.failures result output.old output.new }
{
    let form = Form::Picture(top);
    let first = draw_bands(
        alloc,
        scenario,
        form,
        options,
        &mut NullSink,
        progress_observer,
    )?;
    let (head, end) = around_picture(
        alloc,
        Subject::Run,
        &scenario.setup,
        first.height,
        options.reads,
    )?;
    let frame = Frame {
        form,
        options,
        head,
        end,
    };
    let mut again = SecondRun::new(progress_observer, first.summary.events);
    draw_framed(alloc, &frame, scenario, output, &mut again)
}
