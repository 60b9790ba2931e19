/// A law that each entry of a trace keeps, by the entries before it. They are checked in this order.
#[derive(Clone, Copy, PartialEq, Eq)]
pub enum TraceLaw {
    /// The access is not refused.
    Access,
    /// A read gives a value that its memory allows.
    Memory,
    /// No mark is refused.
    Marks,
    /// No process enters while another is inside.
    Together,
    /// No process enters while another is ahead of it: one that waits since before its doorway began.
    Overtaken,
}

/// The verdict of a judge.
#[derive(Clone, Copy, PartialEq, Eq)]
pub enum TraceVerdict {
    /// Each entry keeps each law.
    Good,
    /// The lowest entry that breaks a law, counted from 0, and the first law that it breaks.
    Bad(u64, TraceLaw),
}

/// A verdict on a trace with this number of entries. It is printed as `good ENTRIES` or `bad ENTRY LAW`.
#[derive(Clone, Copy)]
pub struct TraceJudged {
    pub verdict: TraceVerdict,
    pub entries: u64,
}
