//! How a picture shows a move.
ghost use Rattle.std.specs.Prelude.{◌≡◌};
ghost use Rattle.trace_accesses.specs.Moves.{kind_of, step_of};

use picture_layout::{AccessKind, AccessStep};
use trace::CellMove;

/// Returns the kind of the access of a move.
pub(crate) fn kind(how: CellMove) -> AccessKind
    ensures { result ≡ kind_of how }
{
    match how {
        CellMove::Write(_) | CellMove::End | CellMove::Set(_) => AccessKind::Write,
        CellMove::Read | CellMove::Value(_) | CellMove::Get(_) => AccessKind::Read,
        CellMove::Swap { .. } | CellMove::Add { .. } | CellMove::Cas { .. } => AccessKind::Update,
    }
}

/// Returns the part of its access that a move makes.
pub(crate) fn step(how: CellMove) -> AccessStep
    ensures { result ≡ step_of how }
{
    match how {
        CellMove::Write(_) | CellMove::Read => AccessStep::Begin,
        CellMove::End | CellMove::Value(_) => AccessStep::End,
        CellMove::Set(_)
        | CellMove::Get(_)
        | CellMove::Swap { .. }
        | CellMove::Add { .. }
        | CellMove::Cas { .. } => AccessStep::Whole,
    }
}
