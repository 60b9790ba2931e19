/// A law that each entry of the record of any lock keeps, by the entries before it. They are checked in this order.
#[derive(Clone, Copy, PartialEq, Eq)]
pub enum AnyLockLaw {
    /// A read that no write overlapped ends with the value last written or settled (Lamport 1986a: the safe register).
    Safe,
    /// The access is not refused.
    Access,
    /// The marks are not refused.
    Marks,
    /// No process enters while another is inside.
    Together,
    /// No process enters while another is ahead of it, which has waited since before its doorway began.
    Overtaken,
    /// A command is taken at its position in the history, with the sequential store's reply there.
    History,
}
