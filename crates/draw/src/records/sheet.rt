//! A record file that is read and drawn line by line.
ghost use Rattle.std.specs.Prelude.{◌≡◌, ◌+◌, ◌-◌, ◌^◌, ◌<◌, ◌≤◌, ◌∷◌, ℕ, [], None, Some, true, false, Err, IfErr, IfOk, IfSome, IsSome, List, Ok, OnOk, Option, length};
ghost use Rattle.model.specs.plain_store.{checked};
ghost use Rattle.model.specs.{Past};
ghost use Rattle.judge.specs.record_file.{Progress, line_read};
ghost use Rattle.scenario.specs.files.{FailsAsWriting, failed_write};
ghost use Rattle.draw.specs.Sheets.{EndsAsked, GoesOn, LineStops, Corresponds, entries_of};

use crate::records::around::PictureForm;
use crate::records::stored::RecordEntries;
use judge::{RecordReader, read_any_line, read_step};
use picture::{Form, PictureOptions, Reads};
use record_accesses::plain_store::{NestedTypes, Setup};
use scenario::{Fault, FaultKind, LineFault, Sink};
use std::alloc::Global;

/// What was read of a record file, and its entries.
#[derive(Drop)]
pub(crate) struct RecordPicture {
    alloc: Global,
    form: Form,
    /// The accesses and the window that are asked for.
    options: PictureOptions,
    reader: Option<RecordReader>,
    entries: RecordEntries,
}

/// The record's setup, which accesses its picture shows, the words of the store before its window, and the heights of the bands
/// that were drawn.
#[derive(Drop)]
pub(crate) struct DrawnEntry {
    pub setup: Setup,
    pub shows: Reads,
    pub opening: Vec<u8>,
    pub height: u64,
}

impl RecordPicture {
    /// Creates a sheet of which nothing is read.
    pub fn new(alloc: Global, form: Form, options: PictureOptions) -> RecordPicture
        ensures form { result.form ≡ form }
        ensures options { result.options ≡ options }
        ensures corresponds { (taken : Option (List ℕ)) → Corresponds result None [] taken taken }
    {
        RecordPicture {
            alloc,
            form,
            options,
            reader: None,
            entries: RecordEntries::new(alloc),
        }
    }

    /// Reads and draws one more line, with its number. It is a part of its caller's loop, because a call would cost as much
    /// as a Step.
    ///
    /// # Errors
    ///
    /// Returns the fault of the line, if it has one. Returns [`Fault::Write`] if a call of the sink fails, and
    /// [`Fault::Memory`] if memory is lacking.
    #[inline(always)]
    pub fn read<W: Sink>(&mut self, number: u64, line: &[u8], output: &mut W) -> Result<(), Fault>
        requires short { length line.now ≤ 128 }
        requires bounded { entries_of self.old.entries < 2 ^ 64 - 1 }
        requires writes { W.failures output.old < 2 ^ 64 - 1 }
        ensures form { self.new.form ≡ self.old.form }
        ensures options { self.new.options ≡ self.old.options }
        ensures drawn { OnOk result
            ((before : Option Progress) (past : Past) (first : Option (List ℕ)) →
            Corresponds self.old before past first (W.taken output.old) →
            GoesOn (line_read line.now before) self.new past first (W.taken output.new)) }
        ensures fault { IfErr result
            (λ fault. LineStops fault number
            (λ kind. (before : Option Progress) → self.old.reader ≡ before →
            line_read line.now before ≡ Err kind)) }
        ensures failures { W.failures output.new ≡ W.failures output.old + failed_write result }
    {
        if self.observes_none() {
            if self.observes_step(line, output)? {
                return Ok(());
            }
            return self.any_line(number, line, output);
        }
        self.shown_line(number, line, output)
    }

    /// Reads a line where accesses are observed or nothing is drawn yet. [`RecordPicture::read`] has a branch of its own where none is
    /// observed. In that branch the access of a Step is not used, so that the compiler keeps only the test of `read_step`. This
    /// function is a call, because both branches together would be too large to be a part of the loop.
    #[inline(never)]
    fn shown_line<W: Sink>(&mut self, number: u64, line: &[u8], output: &mut W) -> Result<(), Fault>
        requires short { length line.now ≤ 128 }
        requires bounded { entries_of self.old.entries < 2 ^ 64 - 1 }
        requires writes { W.failures output.old < 2 ^ 64 - 1 }
        ensures form { self.new.form ≡ self.old.form }
        ensures options { self.new.options ≡ self.old.options }
        ensures drawn { OnOk result
            ((before : Option Progress) (past : Past) (first : Option (List ℕ)) →
            Corresponds self.old before past first (W.taken output.old) →
            GoesOn (line_read line.now before) self.new past first (W.taken output.new)) }
        ensures fault { IfErr result
            (λ fault. LineStops fault number
            (λ kind. (before : Option Progress) → self.old.reader ≡ before →
            line_read line.now before ≡ Err kind)) }
        ensures failures { W.failures output.new ≡ W.failures output.old + failed_write result }
    {
        if self.observes_step(line, output)? {
            return Ok(());
        }
        self.any_line(number, line, output)
    }

    /// Returns whether entries are drawn, and no access is observed. It has no clause, because either branch reads a line in the
    /// same way.
    #[inline(always)]
    fn observes_none(&self) -> bool {
        match &self.entries.drawing {
            Some(record) => !record.drawing.observes(),
            None => false,
        }
    }

    /// Reads a line that follows an entry that is drawn, and is as it is printed for a Step with an access and without a mark, as
    /// most lines are. Returns whether the line is one. Otherwise nothing is changed, and the line may be any.
    ///
    /// # Errors
    ///
    /// Returns [`Fault::Write`] if a call of the sink fails, and [`Fault::Memory`] if memory is lacking.
    #[inline(always)]
    fn observes_step<W: Sink>(&mut self, line: &[u8], output: &mut W) -> Result<bool, Fault>
        requires short { length line.now ≤ 128 }
        requires bounded { entries_of self.old.entries < 2 ^ 64 - 1 }
        requires writes { W.failures output.old < 2 ^ 64 - 1 }
        ensures form { self.new.form ≡ self.old.form }
        ensures options { self.new.options ≡ self.old.options }
        ensures observed { IfOk result
            (λ observed. observed ≡ true →
            (before : Option Progress) (past : Past) (first : Option (List ℕ)) →
            Corresponds self.old before past first (W.taken output.old) →
            GoesOn (line_read line.now before) self.new past first (W.taken output.new)) }
        ensures same { IfOk result (λ observed. observed ≡ false → self.new ≡ self.old) }
        ensures unwritten { IfOk result (λ observed. observed ≡ false → output.new ≡ output.old) }
        ensures fails { FailsAsWriting W.failures result output.old output.new }
    {
        let Some(drawing) = &mut self.entries.drawing else {
            return Ok(false);
        };
        let Some((process, access)) = read_step(line) else {
            return Ok(false);
        };
        drawing.step(process, access, output)?;
        Ok(true)
    }

    /// Reads any line by its words. It is never inlined, because hardly any line reaches it, and what it needs would
    /// otherwise be prepared for each line.
    #[inline(never)]
    fn any_line<W: Sink>(&mut self, number: u64, line: &[u8], output: &mut W) -> Result<(), Fault>
        requires short { length line.now ≤ 128 }
        requires bounded { entries_of self.old.entries < 2 ^ 64 - 1 }
        requires writes { W.failures output.old < 2 ^ 64 - 1 }
        ensures form { self.new.form ≡ self.old.form }
        ensures options { self.new.options ≡ self.old.options }
        ensures drawn { OnOk result
            ((before : Option Progress) (past : Past) (first : Option (List ℕ)) →
            Corresponds self.old before past first (W.taken output.old) →
            GoesOn (line_read line.now before) self.new past first (W.taken output.new)) }
        ensures fault { IfErr result
            (λ fault. LineStops fault number
            (λ kind. (before : Option Progress) → self.old.reader ≡ before →
            line_read line.now before ≡ Err kind)) }
        ensures failures { W.failures output.new ≡ W.failures output.old + failed_write result }
    {
        let _nested: NestedTypes = None;
        match read_any_line(self.alloc, line, &mut self.reader) {
            Ok(()) => {}
            Err(kind) => return Err(fault_at(number, kind)),
        }
        if let Some(reader) = &mut self.reader {
            if let Some(entry) = reader.last_entry() {
                let around = PictureForm {
                    alloc: self.alloc,
                    form: self.form,
                    asked: self.options,
                };
                self.entries.take(around, reader.setup(), entry, output)?;
                reader.forget_entry();
            }
        }
        Ok(())
    }

    /// Draws the entries that are stored, the judge's lines and the end of the record, and returns what was drawn, or `None` if
    /// all lines were skipped.
    ///
    /// # Errors
    ///
    /// Returns [`Fault::Write`] if a call of the sink fails, and [`Fault::Memory`] if memory is lacking.
    pub fn end<W: Sink>(
        &mut self,
        reported: &[u8],
        output: &mut W,
    ) -> Result<Option<DrawnEntry>, Fault>
        requires { W.failures output.old < 2 ^ 64 - 1 }
        ensures none { IfOk result (λ drawn. drawn ≡ None → self.old.reader ≡ None) }
        ensures drawn { IfOk result
            (λ drawn. IfSome drawn
            (λ d. (p : Progress) (past : Past) (first : Option (List ℕ)) →
            self.old.reader ≡ Some p →
            Corresponds self.old (Some p) past first (W.taken output.old) →
            (d.setup ≡ p.head.setup)
            × EndsAsked self.old.options self.old.form p.head.setup past reported.now d.shows
            d.opening.items d.height first (W.taken output.new))) }
        ensures present { IfOk result (λ drawn. IfSome drawn (λ _. IsSome self.old.reader)) }
        ensures good { IfOk result (λ drawn. IfSome drawn (λ d. checked d.setup ≡ Ok tt)) }
        ensures fails { FailsAsWriting W.failures result output.old output.new }
    {
        let _nested: NestedTypes = None;
        let Some(reader) = &self.reader else {
            return Ok(None);
        };
        let around = PictureForm {
            alloc: self.alloc,
            form: self.form,
            asked: self.options,
        };
        let bands = self.entries.end(around, reader.setup(), reported, output)?;
        Ok(Some(DrawnEntry {
            setup: *reader.setup(),
            shows: bands.shows,
            height: bands.height,
            opening: bands.opening,
        }))
    }
}

/// Returns the fault of the line with this number.
fn fault_at(line: u64, kind: FaultKind) -> Fault
    ensures { result ≡ Fault.Line (record { line = line; kind = kind }) }
{
    Fault::Line(LineFault { line, kind })
}
