//! The line that shows the progress of a run, on standard error.
ghost use Rattle.std.specs.Prelude.{◌≡◌};

use files::progress::{LinePosition, ProgressObserver, ProgressPoint};
use files::{Failed, Source};
use std::time::{Clock, Duration};

/// The number of milliseconds that a run takes before the line is shown.
const FIRST: u64 = 2000;

/// The number of milliseconds for which the line stays before it is written anew.
const NEXT: u64 = 200;

/// The characters that remove the line: to its begin, and clear to the end.
const CLEAR: &str = "\r\x1b[K";

/// Shows the progress that an engine reports.
#[derive(Drop)]
pub struct ProgressPrinter<'a, T> {
    rt: &'a T,
    progress: Option<ShownProgress>,
}

impl<'a, T: Clock + Eprint> ProgressPrinter<'a, T> {
    /// Creates it. Nothing is shown unless `shows` is true.
    pub fn new(rt: &'a T, shows: bool) -> ProgressPrinter<'a, T> {
        let progress = if shows { ShownProgress::new(rt) } else { None };
        ProgressPrinter { rt, progress }
    }

    /// Removes the line, if it is shown.
    pub fn end(&mut self) {
        if let Some(progress) = &self.progress {
            progress.clear(self.rt);
        }
        self.progress = None;
    }
}

impl<'a, T: Clock + Eprint> ProgressObserver for ProgressPrinter<'a, T> {
    fn reached(&mut self, reached: ProgressPoint<'_>) {
        let Some(progress) = &mut self.progress else {
            return;
        };
        let Some(millis) = progress.millis_to_show(self.rt) else {
            return;
        };
        match reached {
            ProgressPoint::Line(place) => show_line(self.rt, place, millis),
            ProgressPoint::Swept { events, of } => show_swept(self.rt, events, of, millis),
        }
    }
}

/// Shows that a line of the file is run, after this number of milliseconds.
fn show_line<T: Eprint>(rt: &T, place: LinePosition<'_>, millis: u128) {
    let (events, number) = (place.event_count(), place.number());
    let speed = in_a_second(events, millis);
    let again = if place.is_again() {
        ", for the second time"
    } else {
        ""
    };
    let _ = eprint!(rt;
        "\r{events} events so far, {speed} a second, line {number} of the file{again}\x1b[K"
    );
}

/// Shows the number of events that were swept, after this number of milliseconds.
fn show_swept<T: Eprint>(rt: &T, events: u64, of: u64, millis: u128) {
    let speed = in_a_second(events, millis);
    let _ = eprint!(rt; "\r{events} of {of} events swept so far, {speed} a second\x1b[K");
}

/// A source before another one, which counts the lines that were read and shows their number.
#[derive(Drop)]
pub struct CountedInput<'a, S: Source + Drop, T> {
    source: S,
    rt: &'a T,
    progress: Option<ShownProgress>,
    /// The number of lines that were read.
    lines: u64,
}

impl<'a, S: Source + Drop, T: Clock + Eprint> CountedInput<'a, S, T> {
    /// Creates it before a source. Nothing is shown unless `shows` is true.
    pub fn new(source: S, rt: &'a T, shows: bool) -> CountedInput<'a, S, T>
        ensures to_come { ⟦<CountedInput<'a, S, T> as Source>⟧.to_come result ≡ S.to_come source }
        ensures failures { ⟦<CountedInput<'a, S, T> as Source>⟧.failures result
            ≡ S.failures source }
    {
        let progress = if shows { ShownProgress::new(rt) } else { None };
        CountedInput {
            source,
            rt,
            progress,
            lines: 0,
        }
    }

    /// Counts the line that ends with this byte.
    fn count(&mut self, byte: Option<u8>)
        ensures { self.new.source ≡ self.old.source }
    {
        if let Some(b'\n') = byte {
            self.lines = self.lines.saturating_add(1);
            self.show();
        }
    }

    /// Shows the number of lines that were read, if it is time to.
    fn show(&mut self)
        ensures { self.new.source ≡ self.old.source }
    {
        let Some(progress) = &mut self.progress else {
            return;
        };
        let Some(millis) = progress.millis_to_show(self.rt) else {
            return;
        };
        let lines = self.lines;
        let speed = in_a_second(lines, millis);
        let _ = eprint!(self.rt; "\r{lines} lines read so far, {speed} a second\x1b[K");
    }

    /// Removes the line, if it is shown.
    pub fn end(&mut self) {
        if let Some(progress) = &self.progress {
            progress.clear(self.rt);
        }
        self.progress = None;
    }
}

impl<'a, S: Source + Drop, T: Clock + Eprint> Source for CountedInput<'a, S, T> {
    ghost to_come = { λ monitored. S.to_come monitored.source };

    ghost failures = { λ monitored. S.failures monitored.source };

    fn next_byte(&mut self) -> Result<Option<u8>, Failed> {
        let byte = self.source.next_byte()?;
        self.count(byte);
        Ok(byte)
    }

    fn next_bytes(&mut self, buffer: &mut [u8]) -> Result<usize, Failed> {
        let count = self.source.next_bytes(buffer)?;
        if self.progress.is_some() {
            self.lines = self.lines.saturating_add(ends_among(&buffer[..count]));
            self.show();
        }
        Ok(count)
    }
}

/// Returns the number of lines that end among bytes.
fn ends_among(bytes: &[u8]) -> u64 {
    let mut ends: u64 = 0;
    for byte in bytes {
        ends = ends.saturating_add(u64::from(*byte == b'\n'));
    }
    ends
}

/// The times at which a run began and at which the line was shown.
#[derive(Clone, Copy)]
struct ShownProgress {
    begun: Duration,
    shown: Option<Duration>,
}

impl ShownProgress {
    /// Creates them at the begin of a run, unless there is no clock.
    fn new<T: Clock>(rt: &T) -> Option<ShownProgress> {
        Some(ShownProgress {
            begun: rt.monotonic().ok()?,
            shown: None,
        })
    }

    /// Returns the number of milliseconds since the run began, if it is time to show its progress.
    fn millis_to_show<T: Clock>(&mut self, rt: &T) -> Option<u128> {
        let now = rt.monotonic().ok()?;
        let (since, wait) = match self.shown {
            None => (self.begun, FIRST),
            Some(shown) => (shown, NEXT),
        };
        if now.saturating_sub(since) < Duration::from_millis(wait) {
            return None;
        }
        self.shown = Some(now);
        Some(now.saturating_sub(self.begun).as_millis())
    }

    /// Removes the line, if it is shown.
    fn clear<T: Eprint>(&self, rt: &T) {
        if self.shown.is_some() {
            let _ = rt.eprint(CLEAR);
        }
    }
}

/// Returns the number in a second, from the number in some milliseconds.
fn in_a_second(count: u64, millis: u128) -> u128 {
    u128::from(count) * 1000 / millis.max(1)
}
