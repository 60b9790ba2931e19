//! The bands of a record that a judge observes while it is drawn.
ghost use Rattle.std.specs.Prelude.{◌≡◌, ◌+◌, ◌-◌, ◌^◌, ◌<◌, ℕ, [], false, IfErr, IfOk, IfSome, List, None, Ok, OnOk, Option};
ghost use Rattle.model.specs.plain_store.{checked};
ghost use Rattle.std.specs.Io.KnownBytes.{IsAtEnd};
ghost use Rattle.scenario.specs.files.{failed_reading, failed_write};
ghost use Rattle.judge.specs.{IsOfRecord};
ghost use Rattle.judge.specs.Trials.{Corresponds as ObserverCorresponds};
ghost use Rattle.model.specs.{Entry as Noted};
ghost use Rattle.judge.specs.record_file.{Progress};
ghost use Rattle.draw.specs.Judgings.{HasRead, ReportsOfLines};
ghost use Rattle.draw.specs.Sheets.{DrawsBandsOf, IsDrawFault, IsJudged, Corresponds};

use crate::records::sheet::{DrawnEntry, RecordPicture};
use judge::source_lines::Lines;
use judge::{Judging, Reporting, Trial};
use picture::{Form, PictureOptions};
use scenario::{Fault, FaultKind, Sink, Source};
use std::alloc::{AllocError, Global};

/// Draws the bands of the record of a file, and before them the start of a page, while a judge observes the record. It draws
/// the entries up to the first that breaks a law, and then the judge's lines, and also returns the judge's exit status.
pub(super) fn judge_bands<H: Judging, R: Source, W: Sink>(
    alloc: Global,
    form: Form,
    options: PictureOptions,
    input: &mut R,
    output: &mut W,
) -> Result<(DrawnEntry, u8), Fault>
    requires reads { R.failures input.old < 2 ^ 64 - 1 }
    requires writes { W.failures output.old < 2 ^ 64 - 1 }
    ensures drawn { IfOk result
        (λ answer. IfSome (R.to_come input.old)
        (IsOfRecord
        (IsJudged H.Keeps H.Reports answer.1
        (DrawsBandsOf options form answer.0 (W.taken output.old) (W.taken output.new))))) }
    ensures good { IfOk result (λ answer. checked answer.0.setup ≡ Ok tt) }
    ensures end { IfOk result (λ _. IsAtEnd (R.to_come input.new)) }
    ensures fault { IfErr result (λ fault. IsDrawFault fault (R.to_come input.old)) }
    ensures read_failures { R.failures input.new ≡ R.failures input.old + failed_reading result }
    ensures write_failures { W.failures output.new ≡ W.failures output.old + failed_write result }
{
    let mut lines = Lines::new(alloc);
    let mut sheet = RecordPicture::new(alloc, form, options);
    judge_sheet::<H, R, W>(alloc, &mut lines, &mut sheet, input, output)
}

/// Does the work of [`judge_bands`] with lines and a sheet that are new.
fn judge_sheet<H: Judging, R: Source, W: Sink>(
    alloc: Global,
    lines: &mut Lines,
    sheet: &mut RecordPicture,
    input: &mut R,
    output: &mut W,
) -> Result<(DrawnEntry, u8), Fault>
    requires ahead { lines.old.ahead.bytes ≡ [] }
    requires ended { lines.old.ahead.ended ≡ false }
    requires taken { lines.old.taken ≡ 0 }
    requires corresponds { (taken : Option (List ℕ)) → Corresponds sheet.old None [] taken taken }
    requires reads { R.failures input.old < 2 ^ 64 - 1 }
    requires writes { W.failures output.old < 2 ^ 64 - 1 }
    ensures drawn { IfOk result
        (λ answer. IfSome (R.to_come input.old)
        (IsOfRecord
        (IsJudged H.Keeps H.Reports answer.1
        (DrawsBandsOf sheet.old.options sheet.old.form answer.0 (W.taken output.old)
        (W.taken output.new))))) }
    ensures good { IfOk result (λ answer. checked answer.0.setup ≡ Ok tt) }
    ensures end { IfOk result (λ _. IsAtEnd (R.to_come input.new)) }
    ensures fault { IfErr result (λ fault. IsDrawFault fault (R.to_come input.old)) }
    ensures read_failures { R.failures input.new ≡ R.failures input.old + failed_reading result }
    ensures write_failures { W.failures output.new ≡ W.failures output.old + failed_write result }
{
    let mut trial: Trial<H> = Trial::new(alloc);
    judge_lines(lines, &mut trial, sheet, input, output)?;
    end_judged(alloc, lines, trial, sheet, output)
}

/// Judges and draws all lines, with a trial that is new.
fn judge_lines<H: Judging, R: Source, W: Sink>(
    lines: &mut Lines,
    trial: &mut Trial<H>,
    sheet: &mut RecordPicture,
    input: &mut R,
    output: &mut W,
) -> Result<(), Fault>
    requires ahead { lines.old.ahead.bytes ≡ [] }
    requires ended { lines.old.ahead.ended ≡ false }
    requires taken { lines.old.taken ≡ 0 }
    requires trial { ObserverCorresponds H.HasObserved trial.old.reader trial.old.observer None
        [] [] }
    requires corresponds { (taken : Option (List ℕ)) → Corresponds sheet.old None [] taken taken }
    requires reads { R.failures input.old < 2 ^ 64 - 1 }
    requires writes { W.failures output.old < 2 ^ 64 - 1 }
    ensures read { OnOk result
        (HasRead H.HasObserved H.Keeps H.finds_good (R.to_come input.old) lines.new.taken
        trial.new.reader trial.new.observer sheet.new (W.taken output.old) (W.taken output.new)) }
    ensures form { OnOk result (sheet.new.form ≡ sheet.old.form) }
    ensures options { OnOk result (sheet.new.options ≡ sheet.old.options) }
    ensures end { OnOk result (IsAtEnd (R.to_come input.new)) }
    ensures fault { IfErr result (λ fault. IsDrawFault fault (R.to_come input.old)) }
    ensures read_failures { R.failures input.new ≡ R.failures input.old + failed_reading result }
    ensures write_failures { W.failures output.new ≡ W.failures output.old + failed_write result }
{
    let mut shows = true;
    'lines: while lines.next(input)? {
        let number = lines.taken();
        let line = lines.line();
        if let Err(kind) = trial.line(number, line) {
            return Err(lines.here(kind));
        }
        if !shows {
            continue 'lines;
        }
        sheet.read(number, line, output)?;
        shows = trial.is_good();
    }
    Ok(())
}

/// Draws the judge's lines and the end, once all lines are read.
fn end_judged<H: Judging, W: Sink>(
    alloc: Global,
    lines: &Lines,
    trial: Trial<H>,
    sheet: &mut RecordPicture,
    output: &mut W,
) -> Result<(DrawnEntry, u8), Fault>
    requires { W.failures output.old < 2 ^ 64 - 1 }
    ensures drawn { IfOk result
        (λ answer. (to_come first : Option (List ℕ)) →
        HasRead H.HasObserved H.Keeps H.finds_good to_come lines.now.taken trial.reader
        trial.observer sheet.old first (W.taken output.old) →
        IfSome to_come
        (IsOfRecord
        (IsJudged H.Keeps H.Reports answer.1
        (DrawsBandsOf sheet.old.options sheet.old.form answer.0 first (W.taken output.new))))) }
    ensures good { IfOk result (λ answer. checked answer.0.setup ≡ Ok tt) }
    ensures fault { IfErr result
        (λ fault. (to_come first : Option (List ℕ)) →
        HasRead H.HasObserved H.Keeps H.finds_good to_come lines.now.taken trial.reader
        trial.observer sheet.old first (W.taken output.old) → IsDrawFault fault to_come) }
    ensures reads { failed_reading result ≡ 0 }
    ensures failures { W.failures output.new ≡ W.failures output.old + failed_write result }
{
    let Some(reporting) = reporting_of(alloc, trial)? else {
        return Err(lines.behind(FaultKind::NotFirst));
    };
    match sheet.end(reporting.text.as_slice(), output)? {
        None => Err(lines.behind(FaultKind::NotFirst)),
        Some(drawn) => Ok((drawn, reporting.status)),
    }
}

/// Returns a judge's report on the lines that were read, or `None` if all of them were skipped.
fn reporting_of<H: Judging>(alloc: Global, trial: Trial<H>) -> Result<Option<Reporting>, AllocError>
    ensures { IfOk result
        (λ reporting. (before : Option Progress) (entries : List Noted) (numbers : List ℕ) →
        ObserverCorresponds H.HasObserved trial.reader trial.observer before entries numbers →
        ReportsOfLines H.Reports reporting before entries numbers) }
{
    match trial.into_observer()? {
        None => Ok(None),
        Some(observer) => Ok(Some(observer.report(alloc)?)),
    }
}
