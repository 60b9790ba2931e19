//! How far the lines of a scenario are played, and which line made the newest event.

ghost use Rattle.std.specs.Prelude.{◌≡◌};
ghost use Rattle.scenario_run.specs.Parts.{events_to};

/// How far the lines of a scenario are played.
#[derive(Clone, Copy)]
pub enum PlayLimit {
    /// To the end of the last line.
    End,
    /// To the event with this number, counted from 1, or to the end of the last line if there are fewer events.
    Event(u64),
}

impl PlayLimit {
    /// Returns how many events may still be made after `made`. For `End` it is more than a line can make.
    pub(crate) fn events_after(self, made: u64) -> u64
        ensures { result ≡ events_to self made }
    {
        match self {
            PlayLimit::End => u64::MAX,
            PlayLimit::Event(events) => events.saturating_sub(made),
        }
    }
}

/// The line that made the newest event of the lines that were played.
#[derive(Clone, Copy)]
pub struct LineMade {
    /// The index of the line.
    pub line: usize,
    /// The number of events that the lines before it made.
    pub before: u64,
}
