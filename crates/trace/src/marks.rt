/// A step of a call, as a trace marks it. The default only fills the unused places of an entry's list.
#[derive(Clone, Copy, Default, PartialEq, Eq)]
pub enum LockMark {
    /// The call begins.
    #[default]
    Call,
    /// The doorway ends: the process waits.
    Wait,
    /// The process enters the critical section.
    Enter,
    /// The process leaves the critical section.
    Leave,
    /// The call ends.
    Answer,
}
