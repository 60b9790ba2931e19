//! Gates, which may hold the ports of a race.
use std::thread;

/// A moment at which a port asks the gate.
#[derive(Clone, Copy, PartialEq, Eq)]
pub enum Moment {
    /// Its call was accepted, and it has made no access of the call.
    Begun,
    /// It has come inside, and it has made no access of the section.
    Inside,
}

/// Whether a port may go on.
#[derive(Clone, Copy, PartialEq, Eq)]
pub enum Pass {
    /// It goes on.
    On,
    /// It asks again.
    Again,
}

/// Decides how far ports may go. Each port of a race asks it after each accepted begin, and each time that it comes inside.
pub trait Gate {
    /// Returns whether a port may go on at this moment, or has to ask again.
    fn at(&self, port: u8, moment: Moment) -> Pass;
}

/// The gate that holds no port.
#[derive(Clone, Copy)]
pub struct AlwaysOn;

impl Gate for AlwaysOn {
    fn at(&self, _port: u8, _moment: Moment) -> Pass {
        Pass::On
    }
}

/// The number of times that a port asks a gate at one moment before the gate holds it.
const ASKS: u32 = 10_000_000;

/// After this number of them the thread yields its processor to another one, for which the gate may wait.
const ASKS_IN_A_ROW: u32 = 10_000;

/// Returns whether the gate lets the port pass.
pub(crate) fn passes<G: Gate>(gate: &G, port: u8, moment: Moment) -> bool {
    for asked in 1..=ASKS {
        if gate.at(port, moment) == Pass::On {
            return true;
        }
        if asked % ASKS_IN_A_ROW == 0 {
            thread::yield_now();
        }
    }
    false
}
