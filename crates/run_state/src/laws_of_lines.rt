//! The law of the line that made an event.
ghost use Rattle.calls.specs.scenario.{LinesHaveTheirNumbers};
ghost use Rattle.run_state.specs.Making.{EventsAreMade};

/// Each line of a script has the number of the file's line with its words. Each event of the script's run is made by a line:
/// before the line the run has fewer events, and after it that many or more.
pub fn lines_make_events()
    ensures numbers { LinesHaveTheirNumbers }
    ensures events { EventsAreMade }
{}
