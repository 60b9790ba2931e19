//! The lines of a scenario.
use choices::Flick;
use plain_store::Command;

/// The stage up to which a process goes.
#[derive(Clone, Copy, PartialEq, Eq)]
pub enum Target {
    /// Past its doorway: none of Doorway, Settling.
    Wait,
    /// Past its waiting: none of Doorway, Waiting, Settling.
    Inside,
    /// Idle or Down.
    Idle,
    /// Down.
    Down,
}

/// A line after the headings and opening pairs. The number of a process may be out of range.
#[derive(Clone, Copy)]
pub enum Line {
    /// The process calls the command.
    Call(u8, Command),
    /// The process makes this number of steps.
    Step(u8, u32),
    /// The process makes steps up to a stage.
    Go(u8, Target),
    /// The process fails.
    Fail(u8),
    /// The process gives up its waiting.
    Withdraw(u8),
    /// The process starts again.
    Restart(u8),
    /// Later steps get their flicks in this way.
    Flick(Flick),
    /// Picked processes make this number of steps.
    Wander(u32),
    /// The newest store is printed.
    Show,
}
