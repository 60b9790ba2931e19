//! The state of a process in a picture, in addition to its stage.
ghost use Rattle.std.specs.Prelude.{◌≡◌, map, set};
ghost use Rattle.picture_layout.specs.States.{no_seat, not_awaiting};

/// The state of a process in a picture, in addition to its stage.
#[derive(Clone, Copy)]
pub(crate) struct ProcessDetails {
    /// Its ticket, or 0.
    pub ticket: u32,
    /// The processes whose doorways were open when its wait began, and are still open.
    pub awaits: [bool; 16],
}

impl ProcessDetails {
    /// Returns the value of a process before it has a ticket.
    pub fn new() -> ProcessDetails
        ensures { result ≡ no_seat }
    {
        ProcessDetails {
            ticket: 0,
            awaits: [false; 16],
        }
    }
}

/// Removes the ticket of a process, which then awaits no process.
pub(crate) fn clear_seat(seats: &mut [ProcessDetails], process: u8)
    ensures { seats.new ≡ set seats.old process no_seat }
{
    let place = usize::from(process);
    if place < seats.len() {
        seats[place] = ProcessDetails::new();
    }
}

/// Lets no process await this one any more.
pub(crate) fn forget(seats: &mut [ProcessDetails], process: u8)
    ensures { seats.new ≡ map (not_awaiting process) seats.old }
{
    for seat in seats.iter_mut() {
        *seat = without(*seat, process);
    }
}

/// Returns what is stored of a process that no longer awaits another one.
fn without(seat: ProcessDetails, process: u8) -> ProcessDetails
    ensures { result ≡ not_awaiting process seat }
{
    let mut awaits = seat.awaits;
    let place = usize::from(process);
    if place < awaits.len() {
        awaits[place] = false;
    }
    ProcessDetails {
        ticket: seat.ticket,
        awaits,
    }
}
