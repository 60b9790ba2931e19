//! The commands `draw` and `draw-svg` for traces.
ghost use Rattle.std.specs.Prelude.{◌≡◌, ◌+◌, ◌-◌, ◌^◌, ◌<◌, ℕ, [], false, IfErr, IfOk, IfSome, List, None, OnOk, Option, Some};
ghost use Rattle.std.specs.Io.KnownBytes.{IsAtEnd};
ghost use Rattle.files.specs.{failed_reading, streams};
ghost use Rattle.draw.specs.{FailsAsWriting, failed_write};
ghost use Rattle.picture.specs.declared.page.Form.TheVariants as form_variants;
ghost use Rattle.picture.specs.declared.reads.PictureOptions.{PictureOptions as Options};
ghost use Rattle.trace.specs.{TraceEntry as Entry, TraceSetup as Setup};
ghost use Rattle.trace_draw.specs.Sheets.{DrawsAllBands, DrewTrace, IsDrawFault, Corresponds};
ghost use Rattle.trace_draw.specs.Showing.{DrawsTraceSaid, EndsTrace};

use crate::drawing::DrawnBands;
use crate::pictures::DrawnTrace;
use crate::sheet::TraceSheet;
use crate::views::TraceView;
use draw::{StoredBands, held_fault, write_markup};
use files::source_lines::Lines;
use files::{Fault, FaultKind, Sink, Source, write_all};
use picture::{
    FIRST_BAND, Form, PictureOptions, trace_page_end, trace_picture_end, trace_picture_head,
};
use std::alloc::Global;

/// Reads a trace file line by line, and writes the page of the trace: a picture in bands, each of which is written when it is
/// full. So it stores a line, a block and a band, however long the file is, and at most 400 entries. Returns the exit status.
///
/// The page shows the entries with the numbers in `options.window`, and with them the stages of the processes and the values of
/// the registers before the first of them. If `options.reads` is `Reads::All`, it shows all accesses. If `options.reads` is
/// another value, it shows all accesses if the window has at most 400 numbers or the trace at most 400 entries, and otherwise
/// none. Nothing is written before this is decided.
///
/// If it succeeds, the output is the page of the items that the trace gives, as far as the window shows them, and nothing else.
/// These items are the accesses of the entries, if they are shown, a line for each mark of the entries, and a last line. The
/// titles of the marks, read back, are the marks of the entries in the window in their order, and, if the window reaches the end,
/// a last line. The tags match, and no element is open at the end. If `judged` is true, the page ends with the first entry that
/// breaks a law, and then shows the lines of the verdict with its reasons; the exit status is that of the verdict, whatever the
/// window. The file is read to its end.
///
/// # Errors
///
/// Returns the fault that judging the file has, if the file has one; the start of the page may then have been written.
/// Returns [`Fault::Read`] and [`Fault::Write`] if a call of a stream fails, and [`Fault::Memory`] if memory is lacking.
pub fn draw_trace<R: Source, W: Sink>(
    alloc: Global,
    judged: bool,
    options: PictureOptions,
    input: &mut R,
    output: &mut W,
) -> Result<u8, Fault>
    requires reads { R.failures input.old < 2 ^ 64 - 1 }
    requires writes { W.failures output.old < 2 ^ 64 - 1 }
    ensures { DrewTrace judged options form_variants.Page result
        (streams ⟦<R as Source>⟧ ⟦<W as Sink>⟧ input.old output.old)
        (streams ⟦<R as Source>⟧ ⟦<W as Sink>⟧ input.new output.new) }
{
    let view = TraceView {
        alloc,
        form: Form::Page,
        judged,
        options,
    };
    let drawn = draw_bands(view, input, output)?;
    end_page(alloc, &drawn, output)?;
    Ok(drawn.status)
}

/// Reads a trace file line by line, and writes one picture of the trace, with the items of its page. The bands are stored until
/// all are drawn, because a picture begins with its height; the file is not stored. Returns the exit status.
///
/// # Errors
///
/// Returns the faults of [`draw_trace`], after which nothing has been written, except that writing the picture may have failed.
pub fn draw_trace_svg<R: Source, W: Sink>(
    alloc: Global,
    judged: bool,
    options: PictureOptions,
    input: &mut R,
    output: &mut W,
) -> Result<u8, Fault>
    requires reads { R.failures input.old < 2 ^ 64 - 1 }
    requires writes { W.failures output.old < 2 ^ 64 - 1 }
    ensures { DrewTrace judged options (form_variants.Picture 34) result
        (streams ⟦<R as Source>⟧ ⟦<W as Sink>⟧ input.old output.old)
        (streams ⟦<R as Source>⟧ ⟦<W as Sink>⟧ input.new output.new) }
{
    let view = TraceView {
        alloc,
        form: Form::Picture(FIRST_BAND),
        judged,
        options,
    };
    let mut bands = StoredBands::new(alloc);
    match draw_bands(view, input, &mut bands) {
        Ok(drawn) => {
            write_picture(alloc, &drawn, bands.bytes(), output)?;
            Ok(drawn.status)
        }
        Err(fault) => Err(held_fault(fault)),
    }
}

/// Writes the end of a page.
fn end_page<W: Sink>(alloc: Global, drawn: &DrawnTrace, output: &mut W) -> Result<(), Fault>
    requires { W.failures output.old < 2 ^ 64 - 1 }
    ensures drawn { OnOk result
        ((options : Options) (s : Setup) (shown : List Entry) (reported : List ℕ)
        (first : Option (List ℕ)) →
        EndsTrace form_variants.Page options drawn.now s shown reported first (W.taken output.old) →
        DrawsTraceSaid form_variants.Page options s shown reported first (W.taken output.new)) }
    ensures fails { FailsAsWriting W.failures result output.old output.new }
{
    let end = trace_page_end(alloc)?;
    write_markup(&end, output)
}

/// Writes one picture, which has these bands.
fn write_picture<W: Sink>(
    alloc: Global,
    drawn: &DrawnTrace,
    bands: &[u8],
    output: &mut W,
) -> Result<(), Fault>
    requires { W.failures output.old < 2 ^ 64 - 1 }
    ensures drawn { OnOk result
        ((options : Options) (s : Setup) (shown : List Entry) (reported : List ℕ) →
        EndsTrace (form_variants.Picture 34) options drawn.now s shown reported (Some [])
        (Some bands.now) →
        DrawsTraceSaid (form_variants.Picture 34) options s shown reported (W.taken output.old)
        (W.taken output.new)) }
    ensures fails { FailsAsWriting W.failures result output.old output.new }
{
    let DrawnBands { shows, height } = drawn.bands;
    let head = trace_picture_head(alloc, drawn.title.as_slice(), height, shows)?;
    let end = trace_picture_end(alloc, height, shows)?;
    write_markup(&head, output)?;
    write_all(output, bands)?;
    write_markup(&end, output)
}

/// Draws the bands of the trace of a file, and before them the start of a page.
fn draw_bands<R: Source, W: Sink>(
    view: TraceView,
    input: &mut R,
    output: &mut W,
) -> Result<DrawnTrace, Fault>
    requires reads { R.failures input.old < 2 ^ 64 - 1 }
    requires writes { W.failures output.old < 2 ^ 64 - 1 }
    ensures drawn { IfOk result (λ drawn. IfSome (R.to_come input.old)
        (DrawsAllBands view drawn (W.taken output.old) (W.taken output.new))) }
    ensures end { IfOk result (λ _. IsAtEnd (R.to_come input.new)) }
    ensures fault { IfErr result (λ fault. IsDrawFault fault (R.to_come input.old)) }
    ensures read_failures { R.failures input.new ≡ R.failures input.old + failed_reading result }
    ensures write_failures { W.failures output.new ≡ W.failures output.old + failed_write result }
{
    let mut lines = Lines::new(view.alloc);
    let mut sheet = TraceSheet::new(view);
    draw_lines(&mut lines, &mut sheet, input, output)
}

/// Does the work of [`draw_bands`] with lines and a sheet that are new. It borrows them, because a value that is dropped at each
/// way out of a function takes long to prove.
fn draw_lines<R: Source, W: Sink>(
    lines: &mut Lines,
    sheet: &mut TraceSheet,
    input: &mut R,
    output: &mut W,
) -> Result<DrawnTrace, Fault>
    requires ahead { lines.old.ahead.bytes ≡ [] }
    requires ended { lines.old.ahead.ended ≡ false }
    requires taken { lines.old.taken ≡ 0 }
    requires corresponds { (taken : Option (List ℕ)) →
        Corresponds sheet.old.view sheet.old.reader sheet.old.picture taken taken None [] [] }
    requires reads { R.failures input.old < 2 ^ 64 - 1 }
    requires writes { W.failures output.old < 2 ^ 64 - 1 }
    ensures drawn { IfOk result (λ drawn. IfSome (R.to_come input.old)
        (DrawsAllBands sheet.old.view drawn (W.taken output.old) (W.taken output.new))) }
    ensures end { IfOk result (λ _. IsAtEnd (R.to_come input.new)) }
    ensures fault { IfErr result (λ fault. IsDrawFault fault (R.to_come input.old)) }
    ensures read_failures { R.failures input.new ≡ R.failures input.old + failed_reading result }
    ensures write_failures { W.failures output.new ≡ W.failures output.old + failed_write result }
{
    'lines: while lines.next(input)? {
        sheet.read(lines.taken(), lines.line(), output)?;
    }
    match sheet.end(output)? {
        None => Err(lines.behind(FaultKind::NotFirst)),
        Some(drawn) => Ok(drawn),
    }
}
