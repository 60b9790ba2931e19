//! The commands `draw` and `draw-svg` for records.
ghost use Rattle.std.specs.Prelude.{◌≡◌, ◌+◌, ◌-◌, ◌^◌, ◌<◌, ℕ, [], false, IfErr, IfOk, IfSome, List, None, Ok, OnOk, Option, Some};
ghost use Rattle.model.specs.plain_store.{checked};
ghost use Rattle.std.specs.Io.KnownBytes.{IsAtEnd};
ghost use Rattle.scenario.specs.files.{FailsAsWriting, failed_reading, failed_write, streams};
ghost use Rattle.picture.specs.declared.page.Form.TheVariants as form_variants;
ghost use Rattle.picture.specs.declared.reads.PictureOptions.{PictureOptions as Options};
ghost use Rattle.judge.specs.record_file.{Said};
ghost use Rattle.draw.specs.Judges.{DrewJudgedBy};
ghost use Rattle.draw.specs.Sheets.{DrawsAllBands, DrawsAsked, DrawsBandsOf, DrewRecord, DrewJudged, IsDrawFault, Corresponds};

use crate::records::held::{StoredBands, held_fault};
use crate::records::judged_bands::judge_bands;
use crate::records::sheet::{DrawnEntry, RecordPicture};
use crate::surroundings::{around_picture, write_page_end};
use crate::writing::write_markup;
use judge::source_lines::Lines;
use judge::{AnyLockJudge, ExplainingJudge, Judging, ThisLockJudge};
use picture::{FIRST_BAND, Form, PictureOptions, Subject};
use scenario::{Fault, FaultKind, Sink, Source, write_all};
use std::alloc::Global;

/// The judge that observes a record while it is drawn: that of this project's lock, or that of any lock.
#[derive(Clone, Copy)]
pub enum JudgedBy {
    ThisLock,
    AnyLock,
}

/// Reads a record file line by line, and writes the page of the record: a picture in bands, each of which is written when it
/// is full. So it stores a line, a block and a band, however long the file is, and at most 400 entries.
///
/// If the record has at most 400 entries, or the window shows at most 400, the page shows all accesses, with the waves of the
/// first sixteen bits that are written. Otherwise it shows what `options` asks for. `Reads::All` asks for all accesses with all
/// waves, also of a short record. Nothing is written before it is decided which accesses are shown.
///
/// If it succeeds, the output is the page of a window of the items that the record gives, and nothing else. These items are a
/// line for each mark of the entries, with what its command changes in the one-thread store, and the accesses or the overlapped
/// reads, if they are shown. The titles of the marks, read back, are the lines in the window. If the window is all entries, they
/// are the marks of the record in their order, and a last line. The tags match, and no element is open at the end. The record
/// may be good or bad.
///
/// # Errors
///
/// Returns the fault that judging the file has, if the file has one; the start of the page may then have been written.
/// Returns [`Fault::Read`] and [`Fault::Write`] if a call of a stream fails, and [`Fault::Memory`] if memory is lacking.
pub fn draw_record<R: Source, W: Sink>(
    alloc: Global,
    options: PictureOptions,
    input: &mut R,
    output: &mut W,
) -> Result<(), Fault>
    requires reads { R.failures input.old < 2 ^ 64 - 1 }
    requires writes { W.failures output.old < 2 ^ 64 - 1 }
    ensures { DrewRecord options form_variants.Page result
        (streams ⟦<R as Source>⟧ ⟦<W as Sink>⟧ input.old output.old)
        (streams ⟦<R as Source>⟧ ⟦<W as Sink>⟧ input.new output.new) }
{
    let drawn = draw_bands(alloc, Form::Page, options, input, output)?;
    end_page(alloc, &drawn, output)
}

/// Does the work of [`draw_record`] for a record that a judge observes, and returns the judge's exit status. The page ends
/// with the first entry that breaks a law, and then shows the judge's lines about the whole record. The file is read to its
/// end.
///
/// # Errors
///
/// Returns the faults of [`draw_record`].
pub fn draw_judged_record<R: Source, W: Sink>(
    alloc: Global,
    by: JudgedBy,
    options: PictureOptions,
    input: &mut R,
    output: &mut W,
) -> Result<u8, Fault>
    requires reads { R.failures input.old < 2 ^ 64 - 1 }
    requires writes { W.failures output.old < 2 ^ 64 - 1 }
    ensures { DrewJudgedBy by options form_variants.Page result
        (streams ⟦<R as Source>⟧ ⟦<W as Sink>⟧ input.old output.old)
        (streams ⟦<R as Source>⟧ ⟦<W as Sink>⟧ input.new output.new) }
{
    match by {
        JudgedBy::ThisLock => judged_page::<ExplainingJudge<ThisLockJudge>, R, W>(
            alloc, options, input, output,
        ),
        JudgedBy::AnyLock => judged_page::<ExplainingJudge<AnyLockJudge>, R, W>(
            alloc, options, input, output,
        ),
    }
}

/// Does the work of [`draw_judged_record`] by any judge.
fn judged_page<H: Judging, R: Source, W: Sink>(
    alloc: Global,
    options: PictureOptions,
    input: &mut R,
    output: &mut W,
) -> Result<u8, Fault>
    requires reads { R.failures input.old < 2 ^ 64 - 1 }
    requires writes { W.failures output.old < 2 ^ 64 - 1 }
    ensures { DrewJudged H.Keeps H.Reports options form_variants.Page result
        (streams ⟦<R as Source>⟧ ⟦<W as Sink>⟧ input.old output.old)
        (streams ⟦<R as Source>⟧ ⟦<W as Sink>⟧ input.new output.new) }
{
    let (drawn, status) = judge_bands::<H, R, W>(alloc, Form::Page, options, input, output)?;
    end_page(alloc, &drawn, output)?;
    Ok(status)
}

/// Writes the end of a page.
fn end_page<W: Sink>(alloc: Global, drawn: &DrawnEntry, output: &mut W) -> Result<(), Fault>
    requires { W.failures output.old < 2 ^ 64 - 1 }
    ensures drawn { OnOk result
        ((options : Options) (said : Said) (reported : List ℕ) (first : Option (List ℕ)) →
        DrawsBandsOf options form_variants.Page drawn.now first (W.taken output.old) said reported →
        DrawsAsked options form_variants.Page said reported first (W.taken output.new)) }
    ensures fails { FailsAsWriting W.failures result output.old output.new }
{
    write_page_end(alloc, drawn.opening.as_slice(), output)
}

/// Reads a record file line by line, and writes one picture of the record, with the items of its page. The bands are stored
/// until all are drawn, because a picture begins with its height; the file is not stored.
///
/// # Errors
///
/// Returns the faults of [`draw_record`], after which nothing has been written, except that writing the picture may have
/// failed.
pub fn draw_record_svg<R: Source, W: Sink>(
    alloc: Global,
    options: PictureOptions,
    input: &mut R,
    output: &mut W,
) -> Result<(), Fault>
    requires reads { R.failures input.old < 2 ^ 64 - 1 }
    requires writes { W.failures output.old < 2 ^ 64 - 1 }
    ensures { DrewRecord options (form_variants.Picture 34) result
        (streams ⟦<R as Source>⟧ ⟦<W as Sink>⟧ input.old output.old)
        (streams ⟦<R as Source>⟧ ⟦<W as Sink>⟧ input.new output.new) }
{
    let mut bands = StoredBands::new(alloc);
    match draw_bands(alloc, Form::Picture(FIRST_BAND), options, input, &mut bands) {
        Ok(drawn) => write_picture(alloc, &drawn, bands.bytes(), output),
        Err(fault) => Err(held_fault(fault)),
    }
}

/// Does the work of [`draw_record_svg`] for a record that a judge observes, as [`draw_judged_record`] does, and returns the
/// judge's exit status.
///
/// # Errors
///
/// Returns the faults of [`draw_record_svg`].
pub fn draw_judged_record_svg<R: Source, W: Sink>(
    alloc: Global,
    by: JudgedBy,
    options: PictureOptions,
    input: &mut R,
    output: &mut W,
) -> Result<u8, Fault>
    requires reads { R.failures input.old < 2 ^ 64 - 1 }
    requires writes { W.failures output.old < 2 ^ 64 - 1 }
    ensures { DrewJudgedBy by options (form_variants.Picture 34) result
        (streams ⟦<R as Source>⟧ ⟦<W as Sink>⟧ input.old output.old)
        (streams ⟦<R as Source>⟧ ⟦<W as Sink>⟧ input.new output.new) }
{
    match by {
        JudgedBy::ThisLock => judged_picture::<ExplainingJudge<ThisLockJudge>, R, W>(
            alloc, options, input, output,
        ),
        JudgedBy::AnyLock => judged_picture::<ExplainingJudge<AnyLockJudge>, R, W>(
            alloc, options, input, output,
        ),
    }
}

/// Does the work of [`draw_judged_record_svg`] by any judge.
fn judged_picture<H: Judging, R: Source, W: Sink>(
    alloc: Global,
    options: PictureOptions,
    input: &mut R,
    output: &mut W,
) -> Result<u8, Fault>
    requires reads { R.failures input.old < 2 ^ 64 - 1 }
    requires writes { W.failures output.old < 2 ^ 64 - 1 }
    ensures { DrewJudged H.Keeps H.Reports options (form_variants.Picture 34) result
        (streams ⟦<R as Source>⟧ ⟦<W as Sink>⟧ input.old output.old)
        (streams ⟦<R as Source>⟧ ⟦<W as Sink>⟧ input.new output.new) }
{
    let mut bands = StoredBands::new(alloc);
    let form = Form::Picture(FIRST_BAND);
    match judge_bands::<H, R, StoredBands>(alloc, form, options, input, &mut bands) {
        Ok((drawn, status)) => {
            write_picture(alloc, &drawn, bands.bytes(), output)?;
            Ok(status)
        }
        Err(fault) => Err(held_fault(fault)),
    }
}

/// Writes one picture, which has these bands.
fn write_picture<W: Sink>(
    alloc: Global,
    drawn: &DrawnEntry,
    bands: &[u8],
    output: &mut W,
) -> Result<(), Fault>
    requires { W.failures output.old < 2 ^ 64 - 1 }
    ensures drawn { OnOk result
        ((options : Options) (said : Said) (reported : List ℕ) →
        DrawsBandsOf options (form_variants.Picture 34) drawn.now (Some []) (Some bands.now) said
        reported →
        DrawsAsked options (form_variants.Picture 34) said reported (W.taken output.old)
        (W.taken output.new)) }
    ensures fails { FailsAsWriting W.failures result output.old output.new }
{
    let (head, end) = around_picture(
        alloc,
        Subject::Record,
        &drawn.setup,
        drawn.height,
        drawn.shows,
    )?;
    write_markup(&head, output)?;
    write_all(output, bands)?;
    write_markup(&end, output)
}

/// Draws the bands of the record of a file, and before them the start of a page.
fn draw_bands<R: Source, W: Sink>(
    alloc: Global,
    form: Form,
    options: PictureOptions,
    input: &mut R,
    output: &mut W,
) -> Result<DrawnEntry, Fault>
    requires reads { R.failures input.old < 2 ^ 64 - 1 }
    requires writes { W.failures output.old < 2 ^ 64 - 1 }
    ensures drawn { IfOk result
        (λ drawn. IfSome (R.to_come input.old)
        (DrawsAllBands options form drawn (W.taken output.old) (W.taken output.new))) }
    ensures good { IfOk result (λ drawn. checked drawn.setup ≡ Ok tt) }
    ensures end { IfOk result (λ _. IsAtEnd (R.to_come input.new)) }
    ensures fault { IfErr result (λ fault. IsDrawFault fault (R.to_come input.old)) }
    ensures read_failures { R.failures input.new ≡ R.failures input.old + failed_reading result }
    ensures write_failures { W.failures output.new ≡ W.failures output.old + failed_write result }
{
    let mut lines = Lines::new(alloc);
    let mut sheet = RecordPicture::new(alloc, form, options);
    draw_lines(&mut lines, &mut sheet, input, output)
}

/// Does the work of [`draw_bands`] with lines and a sheet that are new. It borrows them, because a value that is dropped at
/// each way out of a function takes long to prove.
fn draw_lines<R: Source, W: Sink>(
    lines: &mut Lines,
    sheet: &mut RecordPicture,
    input: &mut R,
    output: &mut W,
) -> Result<DrawnEntry, Fault>
    requires ahead { lines.old.ahead.bytes ≡ [] }
    requires ended { lines.old.ahead.ended ≡ false }
    requires taken { lines.old.taken ≡ 0 }
    requires corresponds { (taken : Option (List ℕ)) → Corresponds sheet.old None [] taken taken }
    requires reads { R.failures input.old < 2 ^ 64 - 1 }
    requires writes { W.failures output.old < 2 ^ 64 - 1 }
    ensures drawn { IfOk result
        (λ drawn. IfSome (R.to_come input.old)
        (DrawsAllBands sheet.old.options sheet.old.form drawn (W.taken output.old)
        (W.taken output.new))) }
    ensures good { IfOk result (λ drawn. checked drawn.setup ≡ Ok tt) }
    ensures end { IfOk result (λ _. IsAtEnd (R.to_come input.new)) }
    ensures fault { IfErr result (λ fault. IsDrawFault fault (R.to_come input.old)) }
    ensures read_failures { R.failures input.new ≡ R.failures input.old + failed_reading result }
    ensures write_failures { W.failures output.new ≡ W.failures output.old + failed_write result }
{
    'lines: while lines.next(input)? {
        sheet.read(lines.taken(), lines.line(), output)?;
    }
    match sheet.end(b"", output)? {
        None => Err(lines.behind(FaultKind::NotFirst)),
        Some(drawn) => Ok(drawn),
    }
}
