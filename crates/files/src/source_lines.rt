//! The lines of a source, one at a time: a file of any length is read in memory that does not grow.
ghost use Rattle.std.specs.Prelude.{◌≡◌, ◌+◌, ◌^◌, ◌-◌, ◌<◌, [], true, false, IfErr, IfOk};
ghost use Rattle.files.specs.Streams.{IsReadFault, failed_reading};
ghost use Rattle.files.specs.Lines.{without_return};
ghost use Rattle.files.specs.SourceLines.{GoesOn, KeepsEnd, LinesKeepEnd, NoneCome, TakesLong, TakesShort};

mod ahead;

use crate::faults::{Fault, FaultKind, LineFault};
use crate::reading::MOST_BYTES;
use crate::source_lines::ahead::ReadAhead;
use crate::streams::Source;
use std::alloc::Global;
use std::marker::Model;

/// The most bytes of a line with its end, which are 0x0D and 0x0A.
const MOST_WITH_END: usize = MOST_BYTES + 2;

/// One more than the most lines that a source may have: the line after the last has a number of 64 bits too.
const MOST_LINES: u64 = u64::MAX - 1;

/// The lines of a source: the number of lines that were taken, and the bytes of the last one. The source gives blocks, so
/// it may have given bytes after that line. At most two blocks of 8 kilobytes of a line are held, however long it is.
#[derive(Drop)]
pub struct Lines {
    taken: u64,
    /// Whether the last line is read where it was found. A line across two blocks was moved together.
    in_place: bool,
    bytes: Vec<u8>,
    ahead: ReadAhead,
}

impl Model for Lines {
    ghost use Rattle.std.specs.Prelude.{◌<◌, ◌^◌, ◌-◌};
    ghost use Rattle.files.specs.SourceLines.{LineState, shown_line};

    ghost Value = { LineState };

    ghost view = { λ l. record { taken = l.taken; line = shown_line l.in_place l.ahead l.bytes.items; ahead = l.ahead.given } };

    ghost invariant = { λ l. l.taken < 2 ^ 64 - 1 };
}

impl Lines {
    /// Creates the lines of a source before the first one.
    pub fn new(alloc: Global) -> Lines
        ensures taken { result.taken ≡ 0 }
        ensures ahead { result.ahead.bytes ≡ [] }
        ensures ended { result.ahead.ended ≡ false }
    {
        Lines {
            taken: 0,
            in_place: false,
            bytes: Vec::new(alloc),
            ahead: ReadAhead::new(alloc),
        }
    }

    /// Returns the number of lines that were taken, which is the number of the last one.
    pub fn taken(&self) -> u64
        ensures taken { result ≡ self.now.taken }
        ensures bounded { result < 2 ^ 64 - 1 }
    {
        self.taken
    }

    /// Returns the bytes of the line that was taken last, without its end.
    #[inline(always)]
    pub fn line(&self) -> &[u8]
        ensures { result.now ≡ self.now.line }
    {
        if self.in_place {
            self.ahead.line()
        } else {
            self.bytes.as_slice()
        }
    }

    /// Takes the next line, or returns `false` if there is none. A line of more than 128 bytes is a fault. A file of 2^64 - 2
    /// lines or more ends with `Memory`, so that line numbers have 64 bits. After an `Err` the caller takes no more lines.
    /// A source that has reported its end is not asked again, so a last line without an end asks a terminal only once. The
    /// function is inlined into its caller's loop, and a line is read in place. Lines are short, so calls and moving the
    /// bytes would cost as much as reading them.
    ///
    /// # Errors
    ///
    /// Returns a [`Fault::Line`] of the kind `TooLong` for a line of more than 128 bytes, and [`Fault::Read`] if a call
    /// of the source failed. Returns [`Fault::Memory`] if memory runs out, or for a file of 2^64 - 2 lines or more.
    #[inline(always)]
    pub fn next<R: Source>(&mut self, input: &mut R) -> Result<bool, Fault>
        requires { R.failures input.old < 2 ^ 64 - 1 }
        ensures next { GoesOn result self.old (R.to_come input.old) self.new (R.to_come input.new) }
        ensures ended { IfOk result (λ some. some ≡ false → self.new.ahead.ended ≡ true) }
        ensures holds { LinesKeepEnd self.old (R.to_come input.old) self.new (R.to_come input.new) }
        ensures stays_ended { self.old.ahead.ended ≡ true → self.new.ahead.ended ≡ true }
        ensures left_alone { self.old.ahead.ended ≡ true → input.new ≡ input.old }
        ensures failures { R.failures input.new ≡ R.failures input.old + failed_reading result }
    {
        if !self.take(input)? {
            return Ok(false);
        }
        if self.line().len() > MOST_BYTES {
            return Err(self.behind(FaultKind::TooLong));
        }
        if self.taken + 1 >= MOST_LINES {
            return Err(Fault::Memory);
        }
        self.taken += 1;
        Ok(true)
    }

    /// Takes the bytes of the first line without its end, or more than 128 of them; `false` if there is no line.
    #[inline(always)]
    fn take<R: Source>(&mut self, input: &mut R) -> Result<bool, Fault>
        requires { R.failures input.old < 2 ^ 64 - 1 }
        ensures taken { self.new.taken ≡ self.old.taken }
        ensures line { TakesShort result self.old.ahead (R.to_come input.old) self.new.ahead
            (R.to_come input.new) self.new.line }
        ensures long { TakesLong result self.old.ahead (R.to_come input.old) self.new.line }
        ensures end { NoneCome result self.old.ahead (R.to_come input.old) self.new.ahead
            (R.to_come input.new) }
        ensures ended { IfOk result (λ some. some ≡ false → self.new.ahead.ended ≡ true) }
        ensures holds { LinesKeepEnd self.old (R.to_come input.old) self.new (R.to_come input.new) }
        ensures stays_ended { self.old.ahead.ended ≡ true → self.new.ahead.ended ≡ true }
        ensures left_alone { self.old.ahead.ended ≡ true → input.new ≡ input.old }
        ensures fault { IfErr result IsReadFault }
        ensures failures { R.failures input.new ≡ R.failures input.old + failed_reading result }
    {
        self.in_place = self.ahead.find_line();
        if self.in_place {
            return Ok(true);
        }
        take_line(input, &mut self.ahead, &mut self.bytes)
    }

    /// Returns a fault of the line that was taken last.
    pub fn here(&self, kind: FaultKind) -> Fault
        ensures { result ≡ Fault.Line (record { line = self.now.taken; kind = kind }) }
    {
        Fault::Line(LineFault {
            line: self.taken,
            kind,
        })
    }

    /// Returns a fault of the line after the one that was taken last.
    pub fn behind(&self, kind: FaultKind) -> Fault
        ensures { result ≡ Fault.Line (record { line = self.now.taken + 1; kind = kind }) }
    {
        Fault::Line(LineFault {
            line: self.taken + 1,
            kind,
        })
    }
}

/// Moves the bytes of the first line together, without its end, or more than 128 of them. Returns `false` if there is no line.
/// Few lines need it.
#[inline(never)]
fn take_line<R: Source>(
    input: &mut R,
    ahead: &mut ReadAhead,
    line: &mut Vec<u8>,
) -> Result<bool, Fault>
    requires { R.failures input.old < 2 ^ 64 - 1 }
    ensures line { TakesShort result ahead.old.given (R.to_come input.old) ahead.new.given
        (R.to_come input.new) line.new.items }
    ensures long { TakesLong result ahead.old.given (R.to_come input.old) line.new.items }
    ensures end { NoneCome result ahead.old.given (R.to_come input.old) ahead.new.given
        (R.to_come input.new) }
    ensures ended { IfOk result (λ some. some ≡ false → ahead.new.given.ended ≡ true) }
    ensures holds { KeepsEnd ahead.old.given (R.to_come input.old) ahead.new.given
        (R.to_come input.new) }
    ensures stays_ended { ahead.old.given.ended ≡ true → ahead.new.given.ended ≡ true }
    ensures left_alone { ahead.old.given.ended ≡ true → input.new ≡ input.old }
    ensures fault { IfErr result IsReadFault }
    ensures failures { R.failures input.new ≡ R.failures input.old + failed_reading result }
{
    line.clear();
    'parts: while line.len() < MOST_WITH_END {
        if !ahead.fill(input)? {
            return Ok(!line.is_empty());
        }
        if ahead.move_to(line)? {
            drop_return(line);
            return Ok(true);
        }
    }
    Ok(true)
}

/// Drops a 0x0D at the end.
#[tactic(auto, using(crate::proofs::Returns::with_return, crate::proofs::Returns::with_none))]
fn drop_return(line: &mut Vec<u8>)
    ensures { line.new.items ≡ without_return line.old.items }
{
    if line.last() == Some(&b'\r') {
        line.pop();
    }
}
