use crate::accesses::CellAccess;
use crate::marks::LockMark;
use smallvec::SmallVec;
use std::marker::Model;

/// One entry of a trace: who did what. Contracts see the list of its marks.
#[derive(Drop)]
pub struct TraceEntry {
    /// The process, as written.
    pub process: u8,
    pub access: Option<CellAccess>,
    /// The marks in their order, at most 4 in place.
    pub marks: SmallVec<LockMark, 4>,
}

impl Model for TraceEntry {
    ghost use Rattle.trace.specs.Entries.{TraceEntry as Seen};

    ghost Value = { Seen };

    ghost view = { λ e. record { process = e.process; access = e.access; marks = e.marks.items } };
}
