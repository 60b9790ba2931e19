//! The overlapped reads of a run or of a record, each with the entries with which it began and ended.
ghost use Rattle.std.specs.Prelude.{◌≡◌, ◌<◌, ◌&&◌, ℕ, cond, [], ◌∷◌, ◌++◌, List, get_or, length, nat_lt, set, IfOk, IfSome, None, Ok, OnOk, Some};
ghost use Rattle.std.specs.Option.{option_to_list};
ghost use Rattle.model.specs.safe_bit.declared.Move.TheVariants.{EndRead};
ghost use Rattle.model.specs.plain_store.{checked};
ghost use Rattle.model.specs.plain_store.declared.setups.Setup.{Setup as Given};
ghost use Rattle.model.specs.{Entry, Past, width};
ghost use Rattle.picture.specs.picture_layout.declared.reads.OverlappedRead.{OverlappedRead as Ended};
ghost use Rattle.picture.specs.declared.reads.Reads.{Reads as Mode};
ghost use Rattle.draw.specs.Overlaps.{Observes, ObservesAll, ReportsOver, ended_of, first_three, overlapped_by, read_begun, read_ended, shown_of};

use model::{Access, Field, Move};
use picture::{OverlappedRead, Reads};
use record_accesses::plain_store::{NestedTypes, Setup};
use std::alloc::{AllocError, Global};

/// The number of reads that are shown between two lines of the picture.
const MOST_SHOWN: usize = 3;

/// A read that has begun, with the number of its first entry and its access.
#[derive(Clone, Copy)]
pub(crate) struct BegunRead {
    pub entry: u64,
    pub access: Access,
}

/// The reads that have begun, and the overlapped reads that have ended since the last line.
#[derive(Drop)]
pub(crate) struct OverlapsObserved {
    setup: Setup,
    /// The last read of each process that has begun.
    begun: [Option<BegunRead>; 16],
    /// The first [`MOST_SHOWN`] overlapped reads since the last line.
    ended: Vec<OverlappedRead>,
}

impl OverlapsObserved {
    /// Creates a list without reads, if overlapped reads are shown.
    ///
    /// # Errors
    ///
    /// Returns [`AllocError`] if memory is lacking.
    pub fn new(
        alloc: Global,
        setup: &Setup,
        reads: Reads,
    ) -> Result<Option<OverlapsObserved>, AllocError>
        requires { checked setup.now ≡ Ok tt }
        ensures { IfOk result (ObservesAll reads setup.now [] []) }
    {
        let _nested: NestedTypes = None;
        match reads {
            Reads::Hidden | Reads::All => Ok(None),
            Reads::Shown => Ok(Some(OverlapsObserved {
                setup: *setup,
                begun: [None; 16],
                ended: Vec::new(alloc),
            })),
        }
    }

    /// Observes the entry with this number by its access, if it has one; `overlapped` is whether the access ends an
    /// overlapped read. It is never inlined, so that nothing is called if no reads are shown.
    ///
    /// # Errors
    ///
    /// Returns [`AllocError`] if memory is lacking.
    #[inline(never)]
    pub fn observe(
        &mut self,
        number: u64,
        access: Option<Access>,
        overlapped: bool,
    ) -> Result<(), AllocError>
        ensures { OnOk result ((s : Given) (past : Past) (reads : List Ended) (e : Entry) →
            e.access ≡ access → Observes s past reads self.old → number ≡ length past →
            IfSome access (λ a. ReportsOver s past a overlapped) →
            Observes s (e ∷ past) (reads ++ overlapped_by s past e) self.new) }
    {
        let Some(access) = access else {
            return Ok(());
        };
        self.keep(number, access, overlapped)
    }

    /// Records that a read begins, or that an overlapped read ends.
    fn keep(&mut self, number: u64, access: Access, overlapped: bool) -> Result<(), AllocError>
        ensures setup { self.new.setup ≡ self.old.setup }
        ensures room { OnOk result (length self.old.begun ≡ 16 → length self.new.begun ≡ 16) }
        ensures begun { OnOk result
            ((s : Given) (past : Past) (reads : List Ended) (e : Entry) (p : ℕ) →
            e.access ≡ Some access → number ≡ length past → Observes s past reads self.old →
            p < 16 → get_or self.new.begun p None ≡ read_begun p (e ∷ past)) }
        ensures ended { OnOk result
            ((s : Given) (past : Past) (reads : List Ended) (e : Entry) → e.access ≡ Some access →
            number ≡ length past → Observes s past reads self.old →
            ReportsOver s past access overlapped →
            self.new.ended.items ≡ first_three (reads ++ overlapped_by s past e)) }
    {
        match access.how {
            Move::BeginRead => {
                self.begin(number, access);
                Ok(())
            }
            Move::EndRead(value) => match self.ended_by(overlapped, number, &access, value) {
                Some(read) => self.add(read),
                None => Ok(()),
            },
            Move::BeginWrite(_) | Move::EndWrite | Move::Settle(_) => Ok(()),
        }
    }

    /// Records that a process begins a read.
    fn begin(&mut self, entry: u64, access: Access)
        ensures { self.new
            ≡ record self.old {
              begun = set self.old.begun access.reader
                  (Some (record { entry = entry; access = access }));
            } }
    {
        let place = usize::from(access.reader);
        if place < self.begun.len() {
            self.begun[place] = Some(BegunRead { entry, access });
        }
    }

    /// Returns the last read of a process that has begun.
    fn begun_last(&self, reader: u8) -> Option<BegunRead>
        ensures { result ≡ get_or self.now.begun reader None }
    {
        match self.begun.get(usize::from(reader)) {
            Some(begun) => *begun,
            None => None,
        }
    }

    /// Returns the read that an access ends with this value, if the read is overlapped and is the last one of its process
    /// that has begun.
    fn ended_by(
        &self,
        is_overlapped: bool,
        number: u64,
        access: &Access,
        value: bool,
    ) -> Option<OverlappedRead>
        ensures reads { checked self.now.setup ≡ Ok tt → access.now.how ≡ EndRead value →
            option_to_list result
            ≡ cond is_overlapped
            (ended_of self.now.setup number access.now
            (get_or self.now.begun access.now.reader None)) [] }
        ensures alone { IfSome result (λ read. read.more ≡ 0) }
    {
        if !is_overlapped {
            return None;
        }
        let begun = self.begun_last(access.reader)?;
        if !access.same_bit(&begun.access) {
            return None;
        }
        Some(self.read_of(begun.entry, number, access, value))
    }

    /// Returns the read that an access ends with this value and that began with the entry `begin`.
    fn read_of(&self, begin: u64, end: u64, access: &Access, value: bool) -> OverlappedRead
        ensures read { checked self.now.setup ≡ Ok tt → access.now.how ≡ EndRead value →
            result ≡ read_ended self.now.setup begin end access.now }
        ensures alone { result.more ≡ 0 }
    {
        OverlappedRead {
            reader: access.reader,
            owner: access.owner,
            field: access.field,
            bit: access.bit,
            is_wide: is_wide(&self.setup, access.field),
            begin,
            end,
            value,
            more: 0,
        }
    }

    /// Adds a read to those that are shown, or counts it if there are enough.
    ///
    /// # Errors
    ///
    /// Returns [`AllocError`] if memory is lacking.
    fn add(&mut self, read: OverlappedRead) -> Result<(), AllocError>
        ensures setup { self.new.setup ≡ self.old.setup }
        ensures begun { self.new.begun ≡ self.old.begun }
        ensures ended { OnOk result
            ((reads : List Ended) → self.old.ended.items ≡ first_three reads → read.more ≡ 0 →
            self.new.ended.items ≡ first_three (reads ++ read ∷ [])) }
    {
        if let Some(last) = self.ended.get_mut(MOST_SHOWN - 1) {
            last.more = last.more.saturating_add(1);
            return Ok(());
        }
        Ok(self.ended.push(read)?)
    }
}

/// Removes the overlapped reads since the last line and returns them.
pub(crate) fn take_ended(
    alloc: Global,
    overlaps: &mut Option<OverlapsObserved>,
) -> Vec<OverlappedRead>
    ensures reads { (mode : Mode) (s : Given) (past : Past) (reads : List Ended) →
        ObservesAll mode s past reads overlaps.old → result.items ≡ shown_of mode reads }
    ensures none { (mode : Mode) (s : Given) (past : Past) (reads : List Ended) →
        ObservesAll mode s past reads overlaps.old → ObservesAll mode s past [] overlaps.new }
{
    match overlaps {
        Some(overlaps) => std::mem::replace(&mut overlaps.ended, Vec::new(alloc)),
        None => Vec::new(alloc),
    }
}

/// Returns whether a register has more than one bit.
fn is_wide(setup: &Setup, field: Field) -> bool
    ensures { checked setup.now ≡ Ok tt → result ≡ nat_lt 1 (width setup.now field) }
{
    match field {
        Field::Choosing | Field::Commit => false,
        Field::Ticket => setup.ticket_bits > 1,
        Field::Stamp0 | Field::Stamp1 => setup.stamp_bits > 1,
        Field::Image0 | Field::Image1 => true,
    }
}
