//! Sets a core from another one, and compares two cores.
ghost use Rattle.std.specs.Prelude.{◌≡◌, true};
ghost use Rattle.world.specs.Cores.{AreAlikeCores};
ghost use Rattle.world.specs.Seats.{setups_in};

use super::Core;
use crate::seats::Seat;

impl Core {
    /// Makes this core equal to another one of the same setup: its registers, the accesses that are open on them, and its
    /// seats. From then on both behave alike. It does not allocate.
    pub fn copy_from(&mut self, other: &Core)
        requires setup { self.old.setup ≡ other.now.setup }
        ensures { self.new ≡ other.now }
    {
        self.registers.copy_from(&other.registers);
        copy_seats(&mut self.seats, &other.seats);
    }

    /// Returns whether all processes of both cores are at rest, idle or down, and the cores behave alike. Then their seats
    /// are equal, and so are their registers, except the flags `touched` of copies without an open read. Both cores have the
    /// same setup. It returns `false` if a process has an access to make, and it does not allocate.
    pub fn is_alike(&self, other: &Core) -> bool
        requires setup { self.now.setup ≡ other.now.setup }
        ensures { result ≡ true → AreAlikeCores self.now other.now }
    {
        are_same_seats(&self.seats, &other.seats) && self.registers.is_alike(&other.registers)
    }
}

/// Makes each seat equal to the other seat of its process, which has the same setup.
fn copy_seats(seats: &mut [Seat], others: &[Seat])
    requires { setups_in seats.old ≡ setups_in others.now }
    ensures { seats.new ≡ others.now }
{
    for (process, other) in others.iter().enumerate() {
        let seat = &mut seats[process];
        seat.process.copy_from(&other.process);
        seat.begun = other.begun;
        seat.before = other.before;
    }
}

/// Returns whether each seat is equal to the other seat of its process, which has the same setup, and all processes are at
/// rest.
fn are_same_seats(seats: &[Seat], others: &[Seat]) -> bool
    requires { setups_in seats.now ≡ setups_in others.now }
    ensures { result ≡ true → seats.now ≡ others.now }
{
    for (process, other) in others.iter().enumerate() {
        if !seats[process].is_same(other) {
            return false;
        }
    }
    true
}
