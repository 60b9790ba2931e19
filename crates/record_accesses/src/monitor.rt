//! The monitor of the accesses of a record.
ghost use Rattle.std.specs.Prelude.{◌≡◌, ◌<◌, ◌∷◌, [], Bool, IfOk, IfSome, List, None, Ok, OnOk, Some, length, option_map};
ghost use Rattle.picture_layout.specs.{given_access};
ghost use Rattle.plain_store.specs.{checked};
ghost use Rattle.plain_store.specs.declared.setups.Setup.{Setup as Given};
ghost use Rattle.model.specs.{Entry as Noted, Mark as Marked, Past};
ghost use Rattle.laws.specs.{IsThere};
ghost use Rattle.record_accesses.specs.Accesses.{possible_access, shown_access, shown_by, monitored, monitored_by};
ghost use Rattle.record_accesses.specs.Keeping.{HasBits, HasOpened, HasTaken, HasMonitored, IsPossible, OfTaken, entry_with};
ghost use Rattle.record_accesses.specs.Opened.{drops as is_dropping};
ghost use Rattle.record_accesses.specs.Rows.{waves_after};
ghost use Rattle.picture_layout.specs.declared.limits.WaveLimit.{WaveLimit as Limit};

use crate::monitored::{DroppedRead, Monitored, MonitoredBitAccess, begin, change, step};
use crate::opened::{OpenAccesses, dropped_read, drops_open_read};
use crate::openings::Openings;
use crate::overlaps::overlaps;
use crate::wave_rows::BitWaves;
use crate::written_bits::WrittenBits;
use model::{Access, Entry, Mark};
use picture_layout::{ShownAccess, WaveLimit};
use plain_store::Setup;
use std::alloc::{AllocError, Global};
use std::marker::Model;

/// The most processes.
const MOST_PROCESSES: u8 = 16;

/// A monitor of the accesses of a record, good or bad. It observes entries one by one and returns what a picture shows
/// of the access of each. It keeps the access that each process has open, the state of each bit that was written, and
/// the row of each bit that has a wave, so its memory does not grow with the record.
#[derive(Drop)]
pub struct RecordAccessMonitor {
    openings: Openings,
    bits: WrittenBits,
    waves: BitWaves,
    opened: OpenAccesses,
    limit: WaveLimit,
}

impl Model for RecordAccessMonitor {
    ghost use Rattle.record_accesses.specs.Keeping.{MonitorState};

    ghost Value = { MonitorState };

    ghost view = { λ w. record {
      setup = w.openings;
      bits = w.bits;
      waves = w.waves;
      opened = w.opened;
      limit = w.limit;
    } };
}

impl RecordAccessMonitor {
    /// Creates a monitor of a record with this setup, before the first entry. It shows the changes of waves within the
    /// limit. An entry before `limit.from` is shown without words and without a cell.
    ///
    /// # Errors
    ///
    /// Returns [`AllocError`] if memory runs out.
    pub fn new(
        alloc: Global,
        setup: &Setup,
        limit: WaveLimit,
    ) -> Result<RecordAccessMonitor, AllocError>
        requires { checked setup.now ≡ Ok tt }
        ensures { IfOk result (λ monitor. HasMonitored monitor setup.now limit []) }
    {
        Ok(RecordAccessMonitor {
            openings: Openings::new(setup)?,
            bits: WrittenBits::new(alloc),
            waves: BitWaves::new(alloc),
            opened: OpenAccesses::new(),
            limit,
        })
    }

    /// Observes the next entry, which has this number, and returns what is shown of its access, if something is shown.
    ///
    /// # Errors
    ///
    /// Returns [`AllocError`] if memory runs out. What later entries show is then not known.
    pub fn observe(
        &mut self,
        alloc: Global,
        number: u64,
        entry: &Entry,
    ) -> Result<Option<ShownAccess>, AllocError>
        ensures monitored { OnOk result ((s : Given) (limit : Limit) (past : Past) →
            HasMonitored self.old s limit past → number ≡ length past →
            HasMonitored self.new s limit (entry.now ∷ past)) }
        ensures shown { IfOk result (λ shown. (s : Given) (limit : Limit) (past : Past) →
            HasMonitored self.old s limit past → number ≡ length past →
            option_map given_access shown ≡ shown_access s limit past entry.now) }
    {
        let (process, access, marks) = parts(entry);
        let drops_read = drops_open_read(marks);
        self.observe_access(alloc, number, process, access, drops_read)
    }

    /// Observes the next entry by its number, its process and its access, and by whether its marks drop the read that its
    /// process has open ([`drops_open_read`]). Returns what is shown of the entry, if something is shown.
    ///
    /// # Errors
    ///
    /// Returns [`AllocError`] if memory runs out. What later entries show is then not known.
    pub fn observe_access(
        &mut self,
        alloc: Global,
        number: u64,
        process: u8,
        access: &Option<Access>,
        drops_read: bool,
    ) -> Result<Option<ShownAccess>, AllocError>
        ensures monitored { OnOk result
            ((s : Given) (limit : Limit) (past : Past) (marks : List Marked) →
            HasMonitored self.old s limit past → number ≡ length past →
            is_dropping marks ≡ drops_read →
            HasMonitored self.new s limit (entry_with process access.now marks ∷ past)) }
        ensures shown { IfOk result
            (λ shown. (s : Given) (limit : Limit) (past : Past) (marks : List Marked) →
            HasMonitored self.old s limit past → number ≡ length past →
            is_dropping marks ≡ drops_read →
            option_map given_access shown
            ≡ shown_access s limit past (entry_with process access.now marks)) }
    {
        let monitored = self.take(process, number, access, drops_read)?;
        shown(alloc, self.limit.from <= number, &monitored)
    }

    /// Observes the next entry, which has this number, and returns what is shown of it, in numbers.
    fn take(
        &mut self,
        process: u8,
        number: u64,
        access: &Option<Access>,
        drops_read: bool,
    ) -> Result<Option<Monitored>, AllocError>
        ensures setup { self.new.setup ≡ self.old.setup }
        ensures limit { self.new.limit ≡ self.old.limit }
        ensures taken { OnOk result (OfTaken self.old number drops_read (λ past marks.
            HasTaken self.new
            (entry_with process (possible_access self.old.setup process access.now) marks
            ∷ past))) }
        ensures monitored { IfOk result (λ w. OfTaken self.old number drops_read (λ past marks.
            w ≡ monitored self.old.setup self.old.limit past
            (entry_with process (possible_access self.old.setup process access.now) marks))) }
    {
        let access = self.openings.possible(process, access);
        if process >= MOST_PROCESSES {
            return Ok(None);
        }
        let monitored = self.monitored(process, number, &access, drops_read)?;
        self.opened.take(process, number, &access, drops_read);
        Ok(monitored)
    }

    /// Returns what is shown of the entry with this number, whose access is possible, and observes the access.
    fn monitored(
        &mut self,
        process: u8,
        number: u64,
        access: &Option<Access>,
        drops_read: bool,
    ) -> Result<Option<Monitored>, AllocError>
        requires process { process < 16 }
        requires possible { IfSome access.now (IsPossible self.old.setup process) }
        ensures setup { self.new.setup ≡ self.old.setup }
        ensures limit { self.new.limit ≡ self.old.limit }
        ensures opened { self.new.opened ≡ self.old.opened }
        ensures bits { OnOk result ((past : Past) (marks : List Marked) →
            HasBits self.old.setup self.old.bits past →
            HasBits self.old.setup self.new.bits (entry_with process access.now marks ∷ past)) }
        ensures waves { OnOk result (self.new.waves ≡ waves_after self.old.limit.from number
            self.new.bits.names access.now self.old.waves) }
        ensures monitored { IfOk result
            (λ w. (past : Past) (marks : List Marked) → HasTaken self.old past →
            number ≡ length past → is_dropping marks ≡ drops_read →
            w
            ≡ monitored self.old.setup self.old.limit past (entry_with process access.now marks)) }
    {
        match access {
            Some(access) => {
                let made = self.make(process, number, access)?;
                Ok(Some(Monitored::Made(made)))
            }
            None => Ok(self.dropped(process, number, drops_read)),
        }
    }

    /// Observes the access of the entry with this number, which is possible, and returns it in numbers.
    fn make(
        &mut self,
        process: u8,
        number: u64,
        access: &Access,
    ) -> Result<MonitoredBitAccess, AllocError>
        requires process { process < 16 }
        requires in_range { IsThere self.old.setup access.now }
        ensures setup { self.new.setup ≡ self.old.setup }
        ensures limit { self.new.limit ≡ self.old.limit }
        ensures opened { self.new.opened ≡ self.old.opened }
        ensures bits { OnOk result
            ((past : Past) (marks : List Marked) → HasBits self.old.setup self.old.bits past →
            HasBits self.old.setup self.new.bits
            (entry_with process (Some access.now) marks ∷ past)) }
        ensures waves { OnOk result (self.new.waves ≡ waves_after self.old.limit.from number
            self.new.bits.names (Some access.now) self.old.waves) }
        ensures monitored { IfOk result (λ w. (past : Past) (marks : List Marked) →
            HasTaken self.old past → number ≡ length past →
            w ≡ monitored_by self.old.setup self.old.limit past
            (entry_with process (Some access.now) marks) access.now) }
    {
        let current = self.opened.get(process);
        let row = self.bits.row(access);
        let before = self.bits.state(row, self.openings.value(access));
        let after = before.after(process, access.how);
        let row = self.bits.take(row, *access, after)?;
        let wave = self
            .waves
            .take(self.limit.from, number, access, row.is_some())?;
        let step = step(&current, access);
        Ok(MonitoredBitAccess {
            event: number,
            process,
            access: *access,
            step,
            begin: begin(step, &current, number),
            written: before.written,
            overlaps: overlaps(&self.opened, access, before.writer),
            change: change(self.limit.count, wave, access.how, &before, &after),
        })
    }

    /// Returns the end of the read that the entry with this number drops, if it drops one. The entry has no access.
    fn dropped(&self, process: u8, number: u64, drops_read: bool) -> Option<Monitored>
        requires { process < 16 }
        ensures { (past : Past) (marks : List Marked) → HasOpened self.now.opened past →
            number ≡ length past → is_dropping marks ≡ drops_read →
            result ≡ monitored self.now.setup self.now.limit past (entry_with process None marks) }
    {
        if !self.openings.has_process(process) {
            return None;
        }
        let current = self.opened.get(process);
        match dropped_read(drops_read, current) {
            Some(read) => Some(Monitored::Dropped(DroppedRead {
                event: number,
                process,
                read,
            })),
            None => None,
        }
    }
}

/// Returns the process of an entry, its access and its marks.
fn parts(entry: &Entry) -> (u8, &Option<Access>, &[Mark])
    ensures { entry_with result.0 result.1.now result.2.now ≡ entry.now }
{
    (entry.process, &entry.act.access, &entry.act.marks)
}

/// Returns what is shown of an entry, if something is shown, with its words if a picture shows the entry.
fn shown(
    alloc: Global,
    shows: bool,
    monitored: &Option<Monitored>,
) -> Result<Option<ShownAccess>, AllocError>
    ensures { IfOk result (λ shown.
        option_map given_access shown ≡ option_map (shown_by shows) monitored.now) }
{
    match monitored {
        Some(monitored) => Ok(Some(monitored.shown(alloc, shows)?)),
        None => Ok(None),
    }
}
