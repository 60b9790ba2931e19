//! How a picture shows a move.
ghost use Rattle.std.specs.Prelude.{◌≡◌};
ghost use Rattle.record_accesses.specs.Moves.{kind_of};

use model::Move;
use picture_layout::AccessKind;

/// Returns the kind of the access of a move.
pub(crate) fn kind(how: Move) -> AccessKind
    ensures { result ≡ kind_of how }
{
    match how {
        Move::BeginWrite(_) | Move::EndWrite | Move::Settle(_) => AccessKind::Write,
        Move::BeginRead | Move::EndRead(_) => AccessKind::Read,
    }
}
