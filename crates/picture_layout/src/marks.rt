//! The change of a picture's state by a mark.
ghost use Rattle.std.specs.Prelude.{◌≡◌};
ghost use Rattle.model.specs.Stages as record_stages;
ghost use Rattle.picture_layout.specs.States.{goes_on, inside_marked, places_marked};

use model::{Mark, Stage};

/// Returns whether a mark changes the stage of its process.
pub(crate) fn leads_on(mark: &Mark) -> bool
    ensures { result ≡ goes_on mark.now }
{
    !matches!(mark, Mark::Taken(_, _) | Mark::Settled(_))
}

/// Returns the process that is inside after a mark.
pub(crate) fn inside_after(inside: Option<u8>, process: u8, mark: &Mark) -> Option<u8>
    ensures { result ≡ inside_marked inside process mark.now }
{
    match mark {
        Mark::Entered => Some(process),
        Mark::Left => None,
        _ => inside,
    }
}

/// Returns the number of positions in the history after a mark.
pub(crate) fn places_after(places: u64, mark: &Mark) -> u64
    ensures { result ≡ places_marked places mark.now }
{
    match mark {
        Mark::Taken(_, _) => places.saturating_add(1),
        _ => places,
    }
}

/// Returns the stage after a mark. A process whose memory unit makes the mark `Left` stays settling.
pub(crate) fn stage_after(stage: Stage, mark: &Mark) -> Stage
    ensures { result ≡ record_stages.stage_after stage mark.now }
{
    match mark {
        Mark::Called(_) => Stage::Doorway,
        Mark::Waiting(_) => Stage::Waiting,
        Mark::Entered => Stage::Inside,
        Mark::Left if stage != Stage::Settling => Stage::Leaving,
        Mark::Taken(_, _) | Mark::Settled(_) | Mark::Left => stage,
        Mark::Answered(_) | Mark::Restarted => Stage::Idle,
        Mark::Failed => Stage::Settling,
        Mark::Down => Stage::Down,
        Mark::Withdrew => Stage::Leaving,
    }
}
