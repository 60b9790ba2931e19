//! Which processes have made a step in a round.
ghost use Rattle.std.specs.Prelude.{◌≡◌};
ghost use Rattle.sweeper.specs.Rounds.{with_step};

/// The processes that have made a step in a round. Every other process has no step to make, and gets none while only steps
/// are made.
#[derive(Clone, Copy)]
pub(crate) enum RoundSteps {
    NoProcess,
    One(u8),
    Several,
}

impl RoundSteps {
    /// Returns the processes after a step of one more process.
    pub fn with(self, process: u8) -> RoundSteps
        ensures { result ≡ with_step process self }
    {
        match self {
            RoundSteps::NoProcess => RoundSteps::One(process),
            RoundSteps::One(_) | RoundSteps::Several => RoundSteps::Several,
        }
    }
}
