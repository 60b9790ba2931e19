use crate::access::Access;
use crate::marks::Mark;
use smallvec::SmallVec;
use std::marker::Model;

/// The effect of one accepted event: at most one access, and its marks, at most 3 in place. Contracts see the
/// marks as their list.
#[derive(Drop)]
pub struct Act {
    /// The access of a step.
    pub access: Option<Access>,
    /// The marks, in their order.
    pub marks: SmallVec<Mark, 3>,
}

impl Model for Act {
    ghost use Rattle.model.specs.Acts.{Act as Seen};

    ghost Value = { Seen };

    ghost view = { λ a. record { access = a.access; marks = a.marks.items } };
}
