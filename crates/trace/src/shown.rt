//! How moves and marks are printed.
ghost use Rattle.trace.specs.Shown.{lock_mark_text, move_text};

use crate::accesses::CellMove;
use crate::marks::LockMark;
use std::fmt;

impl fmt::Display for LockMark {
    ghost use Rattle.std.specs.Prelude.{Some};

    ghost output = { λ mark. Some (lock_mark_text mark) };

    fn fmt<W: fmt::Write>(&self, f: &mut fmt::Formatter<W>) -> fmt::Result {
        f.write_str(match self {
            LockMark::Call => "call",
            LockMark::Wait => "wait",
            LockMark::Enter => "enter",
            LockMark::Leave => "leave",
            LockMark::Answer => "answer",
        })
    }
}

impl fmt::Display for CellMove {
    ghost use Rattle.std.specs.Prelude.{Some};

    ghost output = { λ how. Some (move_text how) };

    fn fmt<W: fmt::Write>(&self, f: &mut fmt::Formatter<W>) -> fmt::Result {
        match self {
            CellMove::Write(value) => write!(f, "write {value}"),
            CellMove::End => f.write_str("end"),
            CellMove::Read => f.write_str("read"),
            CellMove::Value(value) => write!(f, "value {value}"),
            CellMove::Set(value) => write!(f, "set {value}"),
            CellMove::Get(value) => write!(f, "get {value}"),
            CellMove::Swap { new, gives } => write!(f, "swap {new} gives {gives}"),
            CellMove::Add { addend, gives } => write!(f, "add {addend} gives {gives}"),
            CellMove::Cas {
                expected,
                new,
                gives,
            } => write!(f, "cas {expected} {new} gives {gives}"),
        }
    }
}
