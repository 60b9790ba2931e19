//! The monitor of the accesses of a trace.
ghost use Rattle.std.specs.Prelude.{◌≡◌, ◌<◌, ◌+◌, ◌-◌, ◌^◌, ◌∷◌, [], IfOk, List, option_map, true};
ghost use Rattle.picture_layout.specs.{given_access};
ghost use Rattle.trace.specs.{LockMark as Mark, TracePast as Past, TraceSetup as Setup, is_trace_setup, trace_entry};
ghost use Rattle.trace_accesses.specs.Accesses.{possible_access, shown_access, shown_as, monitored_access};
ghost use Rattle.trace_accesses.specs.Keeping.{HasTaken, HasMonitored, OfTaken};
ghost use Rattle.picture_layout.specs.declared.limits.WaveLimit.{WaveLimit as Limit};

use crate::making::make;
use crate::monitored::MonitoredAccess;
use crate::possible::possible;
use crate::rows::WaveRows;
use picture_layout::{ShownAccess, WaveLimit};
use std::alloc::{AllocError, Global};
use std::marker::Model;
use trace::{CellAccess, TraceEntry, TraceSetup};
use trace_memory::CellMemory;

/// A monitor of the accesses of a trace, good or bad. It observes entries one by one and returns what a picture shows
/// of the access of each. It keeps the state and the row of each cell and the open access of each of sixteen processes,
/// so its memory does not grow with the trace.
#[derive(Drop)]
pub struct AccessMonitor {
    memory: CellMemory,
    rows: WaveRows,
    limit: WaveLimit,
    entries: u64,
}

impl Model for AccessMonitor {
    ghost use Rattle.trace_accesses.specs.Keeping.{IsMonitor, MonitorState};

    ghost Value = { MonitorState };

    ghost view = { λ w. record {
      memory = w.memory;
      rows = w.rows;
      limit = w.limit;
      entries = w.entries;
    } };

    ghost invariant = { λ w. IsMonitor (record {
      memory = w.memory;
      rows = w.rows;
      limit = w.limit;
      entries = w.entries;
    }) };
}

impl AccessMonitor {
    /// Creates a monitor of a trace with this setup, without entries. It shows the changes of waves within the limit.
    ///
    /// # Errors
    ///
    /// Returns [`AllocError`] if memory runs out.
    pub fn new(
        alloc: Global,
        setup: &TraceSetup,
        limit: WaveLimit,
    ) -> Result<AccessMonitor, AllocError>
        requires { is_trace_setup setup.now ≡ true }
        ensures { IfOk result (λ monitor. HasMonitored monitor setup.now limit []) }
    {
        let memory = CellMemory::new(alloc, setup.copy(alloc)?)?;
        let rows = WaveRows::new(alloc, setup.registers.len())?;
        Ok(AccessMonitor {
            memory,
            rows,
            limit,
            entries: 0,
        })
    }

    /// Returns the number of entries that it has observed.
    pub fn entries(&self) -> u64
        ensures { result ≡ self.now.entries }
    {
        self.entries
    }

    /// Observes the next entry, and returns what is shown of its access, if that is shown.
    ///
    /// # Errors
    ///
    /// Returns [`AllocError`] if memory runs out. The entry is then observed, and only what it shows is lost.
    pub fn observe(
        &mut self,
        alloc: Global,
        entry: &TraceEntry,
    ) -> Result<Option<ShownAccess>, AllocError>
        requires { self.old.entries < 2 ^ 64 - 1 }
        ensures entries { self.new.entries ≡ self.old.entries + 1 }
        ensures monitored { (s : Setup) (limit : Limit) (past : Past) →
            HasMonitored self.old s limit past → HasMonitored self.new s limit (entry.now ∷ past) }
        ensures shown { IfOk result (λ shown. (s : Setup) (limit : Limit) (past : Past) →
            HasMonitored self.old s limit past →
            option_map given_access shown ≡ shown_access s limit past entry.now) }
    {
        let access = self.take(entry.process, &entry.access);
        self.shown(alloc, &access)
    }

    /// Returns what is shown of an access, if there is one.
    fn shown(
        &self,
        alloc: Global,
        access: &Option<MonitoredAccess>,
    ) -> Result<Option<ShownAccess>, AllocError>
        ensures { IfOk result (λ shown. option_map given_access shown
            ≡ option_map (shown_as self.now.memory.setup.registers) access.now) }
    {
        match access {
            Some(access) => {
                let setup = self.memory.setup();
                let shown = access.shown(alloc, &setup.registers)?;
                Ok(Some(shown))
            }
            None => Ok(None),
        }
    }

    /// Observes the next entry by its process and its access, and returns the access in numbers, if it is possible.
    fn take(&mut self, process: u8, access: &Option<CellAccess>) -> Option<MonitoredAccess>
        requires { self.old.entries < 2 ^ 64 - 1 }
        ensures setup { self.new.memory.setup ≡ self.old.memory.setup }
        ensures limit { self.new.limit ≡ self.old.limit }
        ensures entries { self.new.entries ≡ self.old.entries + 1 }
        ensures taken { (marks : List Mark) → OfTaken self.old (λ past. HasTaken self.new
            (trace_entry process (possible_access self.old.memory.setup process access.now) marks
            ∷ past)) }
        ensures monitored { (marks : List Mark) →
            OfTaken self.old
            (λ past. result
            ≡ monitored_access self.old.memory.setup self.old.limit past
            (trace_entry process (possible_access self.old.memory.setup process access.now)
            marks)) }
    {
        let number = self.entries;
        self.entries += 1;
        match possible(&self.memory, process, access) {
            Some(access) => Some(make(
                &mut self.memory,
                &mut self.rows,
                self.limit,
                process,
                number,
                &access,
            )),
            None => None,
        }
    }
}
