//! The result of the runs of a sweep.
ghost use Rattle.std.specs.Prelude.{◌≡◌, option_map};
ghost use Rattle.sweeper.specs.Tallies.{AreFew, bad_run as bad_run_of, counted};

use crate::audited_run::BadEntry;
use auditor::Law;

/// A run of a sweep whose record is bad. It is printed as `bad cut <cut> value <0 or 1> entry <entry> <law>`.
#[derive(Clone, Copy)]
pub struct BadRun {
    /// The event after which the process failed, counted from 0 among those that are accepted.
    pub cut: u64,
    /// The flick of the steps after it.
    pub value: bool,
    /// The lowest entry that breaks a law, counted from 0.
    pub entry: u64,
    /// The first law that it breaks.
    pub law: Law,
}

/// The result of a sweep. It is printed as `sweep runs <runs> good <good> stuck <stuck>`, and on a second line the first
/// bad run, if there is one.
#[derive(Clone, Copy)]
pub struct Swept {
    /// The number of runs.
    pub runs: u64,
    /// The number of runs with a good record.
    pub good: u64,
    /// The number of runs that met a limit.
    pub stuck: u64,
    pub first_bad: Option<BadRun>,
}

impl Swept {
    /// Counts one more run: where it is cut, by which flick it continues, whether it is stuck, and its first bad entry.
    pub(crate) fn with_run(self, cut: u64, value: bool, stuck: bool, bad: Option<BadEntry>) -> Swept
        requires { AreFew self }
        ensures { result ≡ counted self cut value stuck bad }
    {
        Swept {
            runs: self.runs + 1,
            good: self.good + u64::from(bad.is_none()),
            stuck: self.stuck + u64::from(stuck),
            first_bad: self.first_bad.or(bad_run(cut, value, bad)),
        }
    }
}

/// Returns the bad run, if an entry is bad.
fn bad_run(cut: u64, value: bool, bad: Option<BadEntry>) -> Option<BadRun>
    ensures { result ≡ option_map (bad_run_of cut value) bad }
{
    let BadEntry { entry, law } = bad?;
    Some(BadRun {
        cut,
        value,
        entry,
        law,
    })
}
