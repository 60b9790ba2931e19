//! Which entries of a record end a read that a write overlapped.
ghost use Rattle.std.specs.Prelude.{◌≡◌, ◌<◌, ◌≤◌, ◌∷◌, [], get_or, length, set, IfOk, List, None, Ok, Some, ℕ};
ghost use Rattle.plain_store.specs.{checked};
ghost use Rattle.plain_store.specs.declared.setups.Setup.{Setup as Given};
ghost use Rattle.model.specs.{Past};
ghost use Rattle.model.specs.declared.marks.Mark.{Mark as Marking};
ghost use Rattle.calls.specs.Recorded.{begins_read_of, entry_with, overlaps_in};
ghost use Rattle.calls.specs.RecordTables.{Monitors};

use judge::SafeMonitor;
use model::Access;
use plain_store::Setup;
use std::alloc::{AllocError, Global};

/// A monitor of the bits, and the last access of each process.
#[derive(Drop)]
pub(crate) struct OverlapMonitor {
    pub monitor: SafeMonitor,
    pub last: [Option<Access>; 16],
}

impl OverlapMonitor {
    /// Creates a monitor that has observed no entry. Fails only if an allocation fails.
    pub fn new(alloc: Global, setup: &Setup) -> Result<OverlapMonitor, AllocError>
        requires { checked setup.now ≡ Ok tt }
        ensures { IfOk result (Monitors setup.now []) }
    {
        Ok(OverlapMonitor {
            monitor: SafeMonitor::new(alloc, setup)?,
            last: [None; 16],
        })
    }

    /// Returns whether the next entry, of this process and with this access, ends a read that a write overlapped.
    #[inline(always)]
    pub fn overlaps(&self, process: u8, access: &Option<Access>) -> bool
        ensures { (s : Given) (past : Past) (marks : List Marking) → Monitors s past self.now →
            process < s.processes →
            result ≡ overlaps_in s past (entry_with process access.now marks) }
    {
        match access {
            None => false,
            Some(access) => self.has_begun(process, access) && self.monitor.overlaps(access),
        }
    }

    /// Returns whether the last access of a process began a read of the bit of this one.
    #[inline(always)]
    fn has_begun(&self, process: u8, access: &Access) -> bool
        ensures { result ≡ begins_read_of (get_or self.now.last process None) access.now }
    {
        match self.last.get(usize::from(process)) {
            Some(Some(last)) => last.how.is_begin_of_read() && access.same_bit(last),
            _ => false,
        }
    }

    /// Adds the next entry, of this process and with this access.
    #[inline(always)]
    pub fn observe(&mut self, process: u8, access: &Option<Access>)
        ensures { (s : Given) (past : Past) (marks : List Marking) → Monitors s past self.old →
            Monitors s (entry_with process access.now marks ∷ past) self.new }
    {
        self.monitor.observe(access);
        if let Some(access) = access {
            self.keep(process, *access);
        }
    }

    /// Keeps the last access of a process.
    #[inline(always)]
    fn keep(&mut self, process: u8, access: Access)
        ensures { self.new ≡ record self.old { last = set self.old.last process (Some access) } }
    {
        let place = usize::from(process);
        if place < self.last.len() {
            self.last[place] = Some(access);
        }
    }
}
