//! The verdicts of judges of records.
ghost use Rattle.std.specs.Prelude.{◌≡◌};
ghost use Rattle.safe_monitor.specs.Verdicts.{is_good, verdict_with};

/// A law that each entry of a record of this project's lock keeps, by the entries before it. They are checked in this
/// order.
#[derive(Clone, Copy, PartialEq, Eq)]
pub enum Law {
    /// A read that no write overlapped ends with the value last written or settled.
    Safe,
    /// A process follows its local program, and an event occurs only if it is not refused.
    Program,
    /// A memory unit follows the failure rule.
    Unit,
    /// No process enters while another process is inside.
    Together,
    /// No process enters past a process that waits and finished its doorway before.
    Overtaken,
    /// A command that is taken has its position, and the reply of the sequential specification there.
    History,
}

/// The verdict on a record. Its laws are those of this project's lock, unless others are named.
#[derive(Clone, Copy, PartialEq, Eq)]
pub enum Verdict<L = Law> {
    /// Each entry keeps each law.
    Good,
    /// The lowest entry that breaks a law, counted from 0, and the first law that it breaks.
    Bad(u64, L),
}

impl<L> Verdict<L> {
    /// Returns the verdict with one more entry, which breaks `law` first, or no law. The entries before it keep each law.
    #[inline]
    pub fn found(entry: u64, law: Option<L>) -> Verdict<L>
        ensures { result ≡ verdict_with entry law }
    {
        match law {
            None => Verdict::Good,
            Some(law) => Verdict::Bad(entry, law),
        }
    }

    /// Returns whether each entry keeps each law.
    #[inline]
    pub fn is_good(&self) -> bool
        ensures { result ≡ is_good self.now }
    {
        matches!(self, Verdict::Good)
    }
}

/// The verdict on a record, and the number of its entries. It is printed as `good <entries>` or `bad <entry> <law>`.
#[derive(Clone, Copy)]
pub struct Audited<L = Law> {
    pub verdict: Verdict<L>,
    pub entries: u64,
}
