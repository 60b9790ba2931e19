//! The access that each process has open, and whether a write overlaps it.
ghost use Rattle.std.specs.Prelude.{◌≡◌, ◌<◌, ◌≤◌, ◌∷◌, [], List, Some, false, map, option_map};
ghost use Rattle.std.specs.Option.{option_map_or};
ghost use Rattle.trace.specs.{LockMark as Mark, trace_entry};
ghost use Rattle.trace_calls.specs.Keeping.{HasOpened, OfOpened, ends_kept_read, opened_by, seen, writes_cell};
ghost use Rattle.trace_calls.specs.Overlaps.{ends_overlapped as ends_overlapped_read, is_written as is_cell_written};

use crate::moves::writes_on;
use std::marker::Model;
use trace::{Cell, CellAccess};
use trace_memory::same_cell;

/// The most processes.
pub(crate) const MOST_PROCESSES: usize = 16;

/// An access that a process has open.
#[derive(Clone, Copy)]
pub struct OpenMove {
    pub cell: Cell,
    /// Whether it is a read; otherwise it is a write.
    pub reads: bool,
    /// Whether a write overlaps it.
    pub overlapped: bool,
}

/// The access that each process has open.
#[derive(Drop)]
pub(crate) struct OpenMoves {
    processes: u8,
    opened: [Option<OpenMove>; MOST_PROCESSES],
}

impl Model for OpenMoves {
    ghost use Rattle.std.specs.Prelude.{◌≡◌, ◌≤◌, length};
    ghost use Rattle.trace_calls.specs.Keeping.{OpenState};

    ghost Value = { OpenState };

    ghost view = { λ k. record { processes = k.processes; opened = k.opened } };

    ghost invariant = { λ k. (k.processes ≤ 16) × (length k.opened ≡ 16) };
}

impl OpenMoves {
    /// Creates the open accesses of this number of processes, before the first entry.
    pub fn new(processes: u8) -> OpenMoves
        requires { processes ≤ 16 }
        ensures processes { result.processes ≡ processes }
        ensures opened { HasOpened result [] }
    {
        OpenMoves {
            processes,
            opened: [None; MOST_PROCESSES],
        }
    }

    /// Returns the number of processes.
    pub fn processes(&self) -> u8
        ensures count { result ≡ self.now.processes }
        ensures most { result ≤ 16 }
    {
        self.processes
    }

    /// Observes the next entry, by its process and its access, and returns whether it ends a read that a write overlapped.
    pub fn observe(&mut self, process: u8, access: &Option<CellAccess>) -> bool
        requires { process < self.old.processes }
        ensures processes { self.new.processes ≡ self.old.processes }
        ensures overlapped { OfOpened self.old (λ past. result ≡ option_map_or
            (ends_overlapped_read self.old.processes past process) access.now false) }
        ensures opened { OfOpened self.old (λ past. (marks : List Mark) →
            HasOpened self.new (trace_entry process access.now marks ∷ past)) }
    {
        match access {
            None => false,
            Some(access) => {
                let overlapped = self.ends_overlapped(process, access);
                self.take(process, access);
                overlapped
            }
        }
    }

    /// Returns whether an access of a process ends a read that a write overlapped.
    fn ends_overlapped(&self, process: u8, access: &CellAccess) -> bool
        requires { process < self.now.processes }
        ensures { OfOpened self.now (λ past. result
            ≡ ends_overlapped_read self.now.processes past process access.now) }
    {
        if access.how.ends_read() {
            ends_kept(access.cell, self.opened[usize::from(process)])
        } else {
            access.how.value_read().is_some() && self.is_written(access.cell)
        }
    }

    /// Returns whether a process has a write of a cell open.
    fn is_written(&self, cell: Cell) -> bool
        ensures { OfOpened self.now (λ past. result
            ≡ is_cell_written self.now.processes cell past) }
    {
        for process in 0..self.processes {
            if writes(cell, self.opened[usize::from(process)]) {
                return true;
            }
        }
        false
    }

    /// Observes an access of a process.
    fn take(&mut self, process: u8, access: &CellAccess)
        requires { process < self.old.processes }
        ensures processes { self.new.processes ≡ self.old.processes }
        ensures opened { OfOpened self.old (λ past. (marks : List Mark) →
            HasOpened self.new (trace_entry process (Some access.now) marks ∷ past)) }
    {
        let written = self.is_written(access.cell);
        see_all(access, &mut self.opened);
        self.opened[usize::from(process)] = opened_by(written, access);
    }
}

/// Returns whether a read of a cell that is kept as open was overlapped.
fn ends_kept(cell: Cell, opened: Option<OpenMove>) -> bool
    ensures { result ≡ ends_kept_read cell opened }
{
    match opened {
        Some(kept) => kept.reads && same_cell(kept.cell, cell) && kept.overlapped,
        None => false,
    }
}

/// Returns whether an access that is kept as open is a write of a cell.
fn writes(cell: Cell, opened: Option<OpenMove>) -> bool
    ensures { result ≡ writes_cell cell opened }
{
    match opened {
        Some(kept) => !kept.reads && same_cell(kept.cell, cell),
        None => false,
    }
}

/// Returns the access that is open after an access, whose cell was being written or not.
fn opened_by(written: bool, access: &CellAccess) -> Option<OpenMove>
    ensures { result ≡ opened_by written access.now }
{
    if !access.how.begins() {
        return None;
    }
    Some(OpenMove {
        cell: access.cell,
        reads: access.how.begins_read(),
        overlapped: written,
    })
}

/// Updates open accesses by one that may overlap them.
fn see_all(access: &CellAccess, opened: &mut [Option<OpenMove>])
    ensures { opened.new ≡ map (option_map (seen access.now)) opened.old }
{
    for opened in opened.iter_mut() {
        if let Some(opened) = opened {
            opened.see(access);
        }
    }
}

impl OpenMove {
    /// Updates the access by another one that may overlap it.
    fn see(&mut self, access: &CellAccess)
        ensures { self.new ≡ seen access.now self.old }
    {
        if writes_on(self.cell, access) {
            self.overlapped = true;
        }
    }
}
