//! How refusals of accesses are printed.
ghost use Rattle.trace_memory.specs.Shown.{cell_refusal_text};

use crate::refusals::CellRefusal;
use std::fmt;

impl fmt::Display for CellRefusal {
    ghost use Rattle.std.specs.Prelude.{Some};

    ghost output = { λ refusal. Some (cell_refusal_text refusal) };

    fn fmt<W: fmt::Write>(&self, f: &mut fmt::Formatter<W>) -> fmt::Result {
        f.write_str(match self {
            CellRefusal::NoProcess => "no-process",
            CellRefusal::NoCell => "no-cell",
            CellRefusal::NotOwner => "not-owner",
            CellRefusal::NotShared => "not-shared",
            CellRefusal::TooWide => "too-wide",
            CellRefusal::NotWhole => "not-whole",
            CellRefusal::NotRunning => "not-running",
            CellRefusal::NotOpen => "not-open",
            CellRefusal::AccessOpen => "access-open",
        })
    }
}
