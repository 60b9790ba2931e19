ghost use Rattle.std.specs.Prelude.{◌≡◌};
ghost use Rattle.bakery.specs.Doors.{reported_at};

use model::Stage;

/// The result of an access of the doorway or of the waiting.
#[derive(Clone, Copy)]
pub enum DoorProgress {
    /// The doorway continues.
    Doorway,
    /// The process has this ticket, and waits.
    Waiting(u32),
    /// The process is inside the critical section, with this ticket.
    Inside(u32),
    /// The doorway ended without a ticket, because no ticket above that of this process fits. It is the lowest process
    /// whose ticket was read as the greatest possible one.
    Full { process: u8 },
}

impl DoorProgress {
    /// Returns the result of the last access, by the stage now. Before it the process had this ticket, or was refused for
    /// the ticket of another process.
    pub(crate) fn at(stage: Stage, ticket: Option<u32>, full: Option<u8>) -> DoorProgress
        ensures { result ≡ reported_at stage ticket full }
    {
        match stage {
            Stage::Waiting => ticket.map_or(DoorProgress::Doorway, DoorProgress::Waiting),
            Stage::Inside => ticket.map_or(DoorProgress::Doorway, DoorProgress::Inside),
            Stage::Idle => match full {
                Some(process) => DoorProgress::Full { process },
                None => DoorProgress::Doorway,
            },
            _ => DoorProgress::Doorway,
        }
    }
}
