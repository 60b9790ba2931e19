//! The faults of a file.
ghost use Rattle.std.specs.Prelude.{◌≡◌};

use std::alloc::AllocError;
use std::fmt;
use thiserror::Error;

/// The kinds of faults of a line.
#[derive(Clone, Copy, Debug, PartialEq, Eq, Error)]
pub enum FaultKind {
    /// The line appears where no line of its kind may appear, or is not the first line that the file must have.
    NotFirst,
    /// A key word is not in the table.
    Unknown,
    /// The number of words is wrong.
    Words,
    /// An operand is not a number, or is out of its range.
    Number,
    /// An operand is not a name.
    BadName,
    /// An operand is not a value.
    BadValue,
    /// No such setup is in the file's version.
    BadSetup,
    /// The line has more than 128 bytes, or there are too many lines.
    TooLong,
    /// A memory allocation failed.
    Memory,
}

impl fmt::Display for FaultKind {
    fn fmt<W: fmt::Write>(&self, f: &mut fmt::Formatter<W>) -> fmt::Result {
        f.write_str(match self {
            FaultKind::NotFirst => "not-first",
            FaultKind::Unknown => "unknown",
            FaultKind::Words => "words",
            FaultKind::Number => "number",
            FaultKind::BadName => "bad-name",
            FaultKind::BadValue => "bad-value",
            FaultKind::BadSetup => "bad-setup",
            FaultKind::TooLong => "too-long",
            FaultKind::Memory => "memory",
        })
    }
}

/// The first line with a fault, counted from 1.
#[derive(Clone, Copy, Debug, Error)]
#[error("line {line}: {kind}")]
pub struct LineFault {
    pub line: u64,
    pub kind: FaultKind,
}

/// The reason why an engine ended early.
#[derive(Clone, Copy, Debug, Error)]
pub enum Fault {
    #[error(transparent)]
    Line(LineFault),
    #[error("read fault")]
    Read,
    #[error("write fault")]
    Write,
    #[error("out of memory")]
    Memory,
}

impl From<LineFault> for Fault {
    ghost use Rattle.files.specs.declared.faults.Fault.TheVariants.{Line, Memory};

    ghost from_gives = { λ fault result. result ≡ Line fault };

    fn from(fault: LineFault) -> Fault {
        Fault::Line(fault)
    }
}

impl From<AllocError> for Fault {
    ghost use Rattle.files.specs.declared.faults.Fault.TheVariants.{Line, Memory};

    ghost from_gives = { λ error result. result ≡ Memory };

    fn from(_: AllocError) -> Fault {
        Fault::Memory
    }
}

impl From<AllocError> for FaultKind {
    ghost use Rattle.files.specs.declared.faults.FaultKind.TheVariants.{Memory};

    ghost from_gives = { λ error result. result ≡ Memory };

    fn from(_: AllocError) -> FaultKind {
        FaultKind::Memory
    }
}
