//! The monitor that finds the overlapped reads of a record.
ghost use Rattle.std.specs.Prelude.{◌≡◌, [], ◌∷◌, IfOk, Ok};
ghost use Rattle.model.specs.plain_store.{checked};
ghost use Rattle.model.specs.plain_store.declared.setups.Setup.{Setup as Given};
ghost use Rattle.model.specs.{Entry, Past};
ghost use Rattle.picture.specs.declared.reads.Reads.{Reads as Mode};
ghost use Rattle.draw.specs.Overlaps.{ReportsEnd, Monitors};

use judge::SafeMonitor;
use model::Access;
use picture::Reads;
use record_accesses::plain_store::Setup;
use std::alloc::{AllocError, Global};

/// A monitor that observes the entries of a record, if overlapped reads are shown. A run needs none, because its memory
/// reports which reads are overlapped.
#[derive(Drop)]
pub struct ReadMonitor {
    monitor: Option<SafeMonitor>,
}

impl ReadMonitor {
    /// Returns a monitor that has observed no entries, if overlapped reads are shown.
    ///
    /// # Errors
    ///
    /// Returns [`AllocError`] if memory is lacking.
    pub fn new(alloc: Global, setup: &Setup, reads: Reads) -> Result<ReadMonitor, AllocError>
        requires { checked setup.now ≡ Ok tt }
        ensures { IfOk result (λ w. Monitors reads setup.now [] w.monitor) }
    {
        let monitor = match reads {
            Reads::Hidden | Reads::All => None,
            Reads::Shown => Some(SafeMonitor::new(alloc, setup)?),
        };
        Ok(ReadMonitor { monitor })
    }

    /// Observes the access of the next entry, and returns whether it ends an overlapped read. It returns `false` if no reads
    /// are shown.
    pub fn observe(&mut self, access: Option<Access>) -> bool
        ensures { (mode : Mode) (s : Given) (past : Past) (e : Entry) → e.access ≡ access →
            Monitors mode s past self.old.monitor →
            ReportsEnd mode s past access result × Monitors mode s (e ∷ past) self.new.monitor }
    {
        let Some(monitor) = &mut self.monitor else {
            return false;
        };
        let Some(access) = access else {
            return false;
        };
        let overlapped = monitor.overlaps(&access);
        monitor.observe(&Some(access));
        overlapped
    }
}
