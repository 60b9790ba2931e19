ghost use Rattle.std.specs.Prelude.{◌≡◌};
ghost use Rattle.bakery.specs.Units.{remains};

use process::Process;

/// The remaining work of a memory unit.
#[derive(Clone, Copy)]
pub enum UnitProgress {
    /// The torn bit is not settled on all copies.
    Settling,
    /// The ticket or the choosing bit is not cleared.
    Clearing,
    /// Nothing: the process is down.
    Down,
}

impl UnitProgress {
    /// Returns the remaining work of this process's unit.
    pub(crate) fn of(place: &Process) -> UnitProgress
        ensures { result ≡ remains place.now.doing }
    {
        if place.settles() {
            UnitProgress::Settling
        } else if place.goes() {
            UnitProgress::Clearing
        } else {
            UnitProgress::Down
        }
    }
}
