ghost use Rattle.std.specs.Prelude.{◌≡◌};
ghost use Rattle.model.specs.Stages.{is_at_door, is_at_rest, is_at_work, is_down, is_in_doorway, is_leaving, is_running, is_settling, is_waiting_stage};

/// The stage of a process. It is running in the four stages from `Doorway` to `Leaving`.
#[derive(Clone, Copy, PartialEq, Eq)]
pub enum Stage {
    /// It has no call.
    Idle,
    /// It is choosing a ticket.
    Doorway,
    /// It has a ticket, and waits until the others let it by.
    Waiting,
    /// It is inside the critical section.
    Inside,
    /// It clears its ticket.
    Leaving,
    /// It has failed, and its memory unit settles and clears.
    Settling,
    /// Its memory unit is done. It stays so until it is restarted.
    Down,
}

impl Stage {
    /// Returns whether a process at this stage waits, with a ticket.
    pub fn is_waiting(self) -> bool
        ensures { result ≡ is_waiting_stage self }
    {
        matches!(self, Stage::Waiting)
    }

    /// Returns whether a process at this stage is in its doorway.
    pub fn is_in_doorway(self) -> bool
        ensures { result ≡ is_in_doorway self }
    {
        matches!(self, Stage::Doorway)
    }

    /// Returns whether a process at this stage is in its doorway or waits.
    pub fn is_at_door(self) -> bool
        ensures { result ≡ is_at_door self }
    {
        matches!(self, Stage::Doorway | Stage::Waiting)
    }

    /// Returns whether a process at this stage clears its ticket.
    pub fn is_leaving(self) -> bool
        ensures { result ≡ is_leaving self }
    {
        matches!(self, Stage::Leaving)
    }

    /// Returns whether a process at this stage has a call, and has not failed in it.
    pub fn is_running(self) -> bool
        ensures { result ≡ is_running self }
    {
        matches!(
            self,
            Stage::Doorway | Stage::Waiting | Stage::Inside | Stage::Leaving
        )
    }

    /// Returns whether a process at this stage has failed, and its memory unit is at work.
    pub fn is_settling(self) -> bool
        ensures { result ≡ is_settling self }
    {
        matches!(self, Stage::Settling)
    }

    /// Returns whether a process at this stage is down: its memory unit is done.
    pub fn is_down(self) -> bool
        ensures { result ≡ is_down self }
    {
        matches!(self, Stage::Down)
    }

    /// Returns whether a process at this stage is idle or down.
    pub fn is_at_rest(self) -> bool
        ensures { result ≡ is_at_rest self }
    {
        matches!(self, Stage::Idle | Stage::Down)
    }

    /// Returns whether a process at this stage or its memory unit has a next step.
    pub fn is_at_work(self) -> bool
        ensures { result ≡ is_at_work self }
    {
        !matches!(self, Stage::Idle | Stage::Down)
    }
}
