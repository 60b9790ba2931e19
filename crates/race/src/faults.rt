//! Why a race has no closing, why a race of a file ended early, and the exit statuses.
ghost use Rattle.std.specs.Prelude.{◌≡◌, ◌≤◌, ◌⊎◌, IfSome, Some};
ghost use Rattle.race.specs.Faults.{rank as rank_of};
ghost use Rattle.race.specs.Statuses.{status_of_race, status_of_run_fault};

use call_check::Weighed;
use files::{DONE, Fault, LineFault, fault_status};
use std::alloc::AllocError;
use thiserror::Error;

/// Why a race has no closing. If there are several faults, the first in this order is reported.
#[derive(Clone, Copy, Debug, PartialEq, Eq, PartialOrd, Ord, Error)]
pub enum RaceFault {
    /// A thread could not be started.
    #[error("no thread")]
    Spawn,
    /// The gate held this port.
    #[error("held {0}")]
    Held(u8),
    /// An allocation failed.
    #[error("out of memory")]
    Memory,
}

impl From<AllocError> for RaceFault {
    ghost use Rattle.race.specs.declared.faults.RaceFault.TheVariants.{Memory};

    ghost from_gives = { λ error result. result ≡ Memory };

    fn from(_: AllocError) -> RaceFault {
        RaceFault::Memory
    }
}

impl RaceFault {
    /// Returns its position in the order in which the faults of a race are reported.
    fn rank(self) -> u16
        ensures { result ≡ rank_of self }
    {
        match self {
            RaceFault::Spawn => 0,
            RaceFault::Held(port) => 1 + u16::from(port),
            RaceFault::Memory => 257,
        }
    }

    /// Returns the fault that is reported if this one and `other` were found.
    pub(crate) fn or_lower(self, other: Option<RaceFault>) -> RaceFault
        ensures one { (result ≡ self) ⊎ (other ≡ Some result) }
        ensures least { rank_of result ≤ rank_of self }
        ensures least_of_both { IfSome other (λ reported. rank_of result ≤ rank_of reported) }
    {
        let Some(reported) = other else {
            return self;
        };
        if reported.rank() < self.rank() {
            reported
        } else {
            self
        }
    }
}

/// Why the engine ended early.
#[derive(Clone, Copy, Debug, Error)]
pub enum RunFault {
    /// A file was at fault, or an allocation failed outside the race.
    #[error(transparent)]
    File(Fault),
    /// The race has no closing.
    #[error(transparent)]
    Race(RaceFault),
}

impl From<Fault> for RunFault {
    ghost use Rattle.race.specs.declared.faults.RunFault.TheVariants.{File};

    ghost from_gives = { λ fault result. result ≡ File fault };

    fn from(fault: Fault) -> RunFault {
        RunFault::File(fault)
    }
}

impl From<LineFault> for RunFault {
    ghost use Rattle.scenario.specs.files.declared.faults.Fault.TheVariants.{Line};
    ghost use Rattle.race.specs.declared.faults.RunFault.TheVariants.{File};

    ghost from_gives = { λ fault result. result ≡ File (Line fault) };

    fn from(fault: LineFault) -> RunFault {
        RunFault::File(Fault::Line(fault))
    }
}

impl From<AllocError> for RunFault {
    ghost use Rattle.scenario.specs.files.declared.faults.Fault.TheVariants.{Memory};
    ghost use Rattle.race.specs.declared.faults.RunFault.TheVariants.{File};

    ghost from_gives = { λ error result. result ≡ File Memory };

    fn from(_: AllocError) -> RunFault {
        RunFault::File(Fault::Memory)
    }
}

impl From<RaceFault> for RunFault {
    ghost use Rattle.race.specs.declared.faults.RunFault.TheVariants.{Race};

    ghost from_gives = { λ fault result. result ≡ Race fault };

    fn from(fault: RaceFault) -> RunFault {
        RunFault::Race(fault)
    }
}

/// Returns the exit status of a race: 0 for a good verdict, and 3 for any other one and for a port that was held. It is 4
/// if an allocation failed or a thread could not be started.
pub fn race_status(raced: &Result<Weighed, RaceFault>) -> u8
    ensures { result ≡ status_of_race raced.now }
{
    match raced {
        Ok(Weighed::Good) => DONE,
        Ok(Weighed::Bad(..) | Weighed::BadEnd) | Err(RaceFault::Held(_)) => 3,
        Err(RaceFault::Spawn | RaceFault::Memory) => 4,
    }
}

/// Returns the exit status of an engine that ended early.
pub fn run_fault_status(fault: &RunFault) -> u8
    ensures { result ≡ status_of_run_fault fault.now }
{
    match fault {
        RunFault::File(fault) => fault_status(fault),
        RunFault::Race(fault) => race_status(&Err(*fault)),
    }
}
