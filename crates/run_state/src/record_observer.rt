//! What an observer of the entries of a record stores.
ghost use Rattle.std.specs.Prelude.{◌≡◌, ◌≤◌};

use crate::observed_run::ObservedRun;
use judge::ThisLockJudge;
use model::{Entry, Taken};
use plain_store::Setup;
use std::alloc::Global;

/// The newest good entry of a record.
#[derive(Drop)]
pub(crate) struct NewestEntry {
    /// The number of the file's line with the entry.
    pub line: u64,
    pub entry: Entry,
}

/// What is stored of the good entries of a record. The memory grows with the commands taken, and not with the other entries.
#[derive(Drop)]
pub(crate) struct GoodEntries {
    pub observed_run: ObservedRun,
    pub newest: Option<NewestEntry>,
    /// The commands taken.
    pub taken: Vec<Taken>,
}

/// The state after the good ones among the entries of a record. Its core is that of the judge.
#[derive(Drop)]
pub(crate) struct RecordStateObserver {
    pub alloc: Global,
    pub setup: Setup,
    pub judge: ThisLockJudge,
    pub good: GoodEntries,
    ghost core: { judge.auditor.core.setup ≡ setup },
    ghost observed_run: { good.observed_run.setup ≡ setup },
    ghost few: { good.observed_run.entries ≤ judge.entries },
}
