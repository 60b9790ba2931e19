//! The progress of an engine: it is reported to a progress observer, which does not change the output, and is in no contract.
//!
//! ```rust
//! progress_observer.reached(place.begin_line(summary.events));
//! ```

/// The progress of an engine.
#[derive(Clone, Copy)]
pub enum ProgressPoint<'a> {
    /// A line of the file is to be run.
    Line(LinePosition<'a>),
    /// A sweep has passed `events` of its `of` events.
    Swept { events: u64, of: u64 },
}

/// An observer of the progress of an engine.
pub trait ProgressObserver {
    /// Observes that the engine has come this far.
    fn reached(&mut self, reached: ProgressPoint<'_>);
}

/// An observer that does nothing.
#[derive(Drop)]
pub struct NoObserver;

impl ProgressObserver for NoObserver {
    fn reached(&mut self, _reached: ProgressPoint<'_>) {}
}

/// An observer of the second run of a file. It counts the events of both runs together.
#[derive(Drop)]
pub struct SecondRun<'l, L> {
    progress_observer: &'l mut L,
    /// The number of events that the first run accepted.
    earlier: u64,
}

impl<'l, L: ProgressObserver> SecondRun<'l, L> {
    /// Creates the observer of the run after one that accepted `earlier` events. It reports to `progress_observer`.
    pub fn new(progress_observer: &'l mut L, earlier: u64) -> SecondRun<'l, L> {
        SecondRun {
            progress_observer,
            earlier,
        }
    }
}

impl<'l, L: ProgressObserver> ProgressObserver for SecondRun<'l, L> {
    fn reached(&mut self, reached: ProgressPoint<'_>) {
        let reached = match reached {
            ProgressPoint::Line(place) => ProgressPoint::Line(place.after(self.earlier)),
            swept => swept,
        };
        self.progress_observer.reached(reached);
    }
}

/// A line of a file that is run, or the position before the first line.
#[derive(Clone, Copy)]
pub struct LinePosition<'a> {
    number: u16,
    /// The numbers of the lines that come after it.
    later: &'a [u16],
    /// The number of events that were accepted before it.
    events: u64,
    /// Whether this is the second run of the file. Then the events of the first run are counted too.
    is_again: bool,
}

impl<'a> LinePosition<'a> {
    /// Creates the position before the first of the lines that are run, which have these numbers.
    pub fn before(numbers: &'a [u16]) -> LinePosition<'a> {
        LinePosition {
            number: 0,
            later: numbers,
            events: 0,
            is_again: false,
        }
    }

    /// Returns this position in a second run of the file, whose first run accepted `earlier` events.
    fn after(self, earlier: u64) -> LinePosition<'a> {
        LinePosition {
            events: self.events.saturating_add(earlier),
            is_again: true,
            ..self
        }
    }

    /// Begins the next line, after `events` accepted events.
    pub fn begin_line(&mut self, events: u64) -> ProgressPoint<'a> {
        if let Some((number, later)) = self.later.split_first() {
            self.number = *number;
            self.later = later;
        }
        self.events = events;
        ProgressPoint::Line(*self)
    }

    /// Returns the number of events that were accepted before the line, including those of an earlier run of the file.
    pub fn event_count(&self) -> u64 {
        self.events
    }

    /// Returns whether the file is run for the second time.
    pub fn is_again(&self) -> bool {
        self.is_again
    }

    /// Returns the number of the line in the file, counted from 1; 0 before the first line.
    pub fn number(&self) -> u16 {
        self.number
    }
}
