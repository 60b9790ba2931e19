//! The access that each process has open.
ghost use Rattle.std.specs.Prelude.{◌≡◌, ◌<◌, None, get_or, replicate};
ghost use Rattle.record_accesses.specs.Keeping.{opened_taken};
ghost use Rattle.record_accesses.specs.Opened.{begun_by, dropped, drops as is_dropping, drops_read as is_drop, left_open, read_of, reads_bit, write_of, writes_bit};

use model::{Access, Mark};
use std::marker::Model;

/// An access that is open, and the number of the entry with which it began.
#[derive(Clone, Copy)]
pub struct OpenBitAccess {
    pub entry: u64,
    pub access: Access,
}

/// The access that each of sixteen processes has open. Contracts see their list.
#[derive(Clone, Copy)]
pub(crate) struct OpenAccesses {
    places: [Option<OpenBitAccess>; 16],
}

impl Model for OpenAccesses {
    ghost use Rattle.std.specs.Prelude.{◌≡◌, List, Option, length};
    ghost use Rattle.record_accesses.specs.declared.opened.OpenBitAccess.{OpenBitAccess as Opened};

    ghost Value = { List (Option Opened) };

    ghost view = { λ o. o.places };

    ghost invariant = { λ o. length o.places ≡ 16 };

    ghost inverse = { λ places. record { places = places } };
}

impl OpenAccesses {
    /// Returns the list in which no access is open.
    pub fn new() -> OpenAccesses
        ensures { result ≡ replicate 16 None }
    {
        OpenAccesses { places: [None; 16] }
    }

    /// Returns the access that a process has open.
    pub fn get(&self, process: u8) -> Option<OpenBitAccess>
        requires { process < 16 }
        ensures { result ≡ get_or self.now process None }
    {
        self.places[usize::from(process)]
    }

    /// Observes the entry of a process with this number, by its access and whether it drops an open read.
    pub fn take(&mut self, process: u8, number: u64, access: &Option<Access>, drops_read: bool)
        requires { process < 16 }
        ensures { self.new ≡ opened_taken process number access.now drops_read self.old }
    {
        let before = self.places[usize::from(process)];
        self.places[usize::from(process)] = left(drops_read, begun(number, access, before));
    }
}

/// Returns what a process has open after the access of its entry with this number.
fn begun(
    number: u64,
    access: &Option<Access>,
    before: Option<OpenBitAccess>,
) -> Option<OpenBitAccess>
    ensures { result ≡ begun_by number access.now before }
{
    match access {
        Some(access) if access.how.is_begin() => Some(OpenBitAccess {
            entry: number,
            access: *access,
        }),
        Some(_) => None,
        None => before,
    }
}

/// Returns what a process has open after an entry that drops an open read or not.
fn left(drops_read: bool, current: Option<OpenBitAccess>) -> Option<OpenBitAccess>
    ensures { result ≡ left_open drops_read current }
{
    if drops_read {
        write_in(current)
    } else {
        current
    }
}

/// Returns an open access, if it is a write.
fn write_in(current: Option<OpenBitAccess>) -> Option<OpenBitAccess>
    ensures { result ≡ write_of current }
{
    match current {
        Some(kept) if kept.access.how.is_begin_of_read() => None,
        other => other,
    }
}

/// Returns an open access, if it is a read.
fn read_in(current: Option<OpenBitAccess>) -> Option<OpenBitAccess>
    ensures { result ≡ read_of current }
{
    match current {
        Some(kept) if kept.access.how.is_begin_of_read() => current,
        _ => None,
    }
}

/// Returns the read that an entry drops.
pub(crate) fn dropped_read(
    drops_read: bool,
    current: Option<OpenBitAccess>,
) -> Option<OpenBitAccess>
    ensures { result ≡ dropped drops_read current }
{
    if drops_read { read_in(current) } else { None }
}

/// Returns whether an open access is a read of the bit of an access.
pub(crate) fn is_read_of(current: &Option<OpenBitAccess>, access: &Access) -> bool
    ensures { result ≡ reads_bit current.now access.now }
{
    match current {
        Some(kept) => kept.access.how.is_begin_of_read() && kept.access.same_bit(access),
        None => false,
    }
}

/// Returns whether an open access is a write of the bit of an access.
pub(crate) fn is_write_of(current: &Option<OpenBitAccess>, access: &Access) -> bool
    ensures { result ≡ writes_bit current.now access.now }
{
    match current {
        Some(kept) => !kept.access.how.is_begin_of_read() && kept.access.same_bit(access),
        None => false,
    }
}

/// Returns whether a process with one of these marks drops the read that it has open: it fails or withdraws.
pub fn drops_open_read(marks: &[Mark]) -> bool
    ensures { result ≡ is_dropping marks.now }
{
    marks.iter().any(drops_read)
}

/// Returns whether a process with this mark drops the read that it has open.
fn drops_read(mark: &Mark) -> bool
    ensures { result ≡ is_drop mark.now }
{
    matches!(mark, Mark::Failed | Mark::Withdrew)
}
