ghost use Rattle.std.specs.Prelude.{◌≡◌, ◌-◌, ◌^◌, ◌<◌, ◌≤◌, ◌∷◌, ◌++◌, [], ℕ, None, Some, true, false, IfOk, IsSome, List, Ok, OnOk, Option, length};
ghost use Rattle.plain_store.specs.{checked};
ghost use Rattle.model.specs.{Entry as Noted};
ghost use Rattle.record_file.specs.{Progress};
ghost use Rattle.judge.specs.Firsts.{HasObservedFirsts};
ghost use Rattle.judge.specs.Trials.{GoesOn, Observes, IsObserved, LineEnds, Corresponds, count_in, good_in};

use crate::entry_observers::{EntryObserver, Judging};
use auditor::parts;
use files::{FaultKind, read_any_line};
use model::Entry;
use plain_store::{NestedTypes, Setup};
use record_file::{RecordReader, read_step};
use std::alloc::{AllocError, Global};

/// A record file that is read line by line: what was read, and the observer of its entries, once there is one.
#[derive(Drop)]
pub struct Trial<H: EntryObserver> {
    alloc: Global,
    reader: Option<RecordReader>,
    observer: Option<H>,
}

impl<H: EntryObserver> Trial<H> {
    /// Creates a trial of which no line was read.
    pub fn new(alloc: Global) -> Trial<H>
        ensures { Corresponds H.HasObserved result.reader result.observer None [] [] }
    {
        Trial {
            alloc,
            reader: None,
            observer: None,
        }
    }

    /// Reads one more line, with its number, which is not too long.
    ///
    /// # Errors
    ///
    /// Returns the fault of the line, or [`FaultKind::Memory`] if memory runs out.
    pub fn line(&mut self, number: u64, line: &[u8]) -> Result<(), FaultKind>
        requires short { length line.now ≤ 128 }
        requires bounded { count_in H.count self.old.observer < 2 ^ 64 - 1 }
        ensures { (before : Option Progress) (entries : List Noted) (numbers : List ℕ) →
            Corresponds H.HasObserved self.old.reader self.old.observer before entries numbers →
            LineEnds H.HasObserved result number line.now before self.new.reader self.new.observer
            entries numbers }
    {
        if self.observes_step(number, line)? {
            return Ok(());
        }
        self.any_line(number, line)
    }

    /// Reads one more line, with its number, which is not too long. The observer gets its entry, if it has one, unless `limit`
    /// entries were observed.
    #[inline(always)]
    pub(crate) fn line_within(
        &mut self,
        limit: Option<u64>,
        number: u64,
        line: &[u8],
    ) -> Result<(), FaultKind>
        requires short { length line.now ≤ 128 }
        requires bounded { count_in H.count self.old.observer < 2 ^ 64 - 1 }
        ensures { (before : Option Progress) (entries : List Noted) (numbers : List ℕ) →
            Corresponds (HasObservedFirsts limit H.HasObserved) self.old.reader self.old.observer before
            entries numbers →
            LineEnds (HasObservedFirsts limit H.HasObserved) result number line.now before
            self.new.reader self.new.observer entries numbers }
    {
        let Some(limit) = limit else {
            return self.line(number, line);
        };
        if self.observed() < limit {
            return self.line(number, line);
        }
        self.pass(limit, number, line)
    }

    /// Returns the number of entries that were observed.
    fn observed(&self) -> u64
        ensures { result ≡ count_in H.count self.now.observer }
    {
        match &self.observer {
            Some(observer) => observer.entries(),
            None => 0,
        }
    }

    /// Reads one more line, with its number, and observes no entry, because `limit` entries were observed.
    fn pass(&mut self, limit: u64, number: u64, line: &[u8]) -> Result<(), FaultKind>
        requires short { length line.now ≤ 128 }
        requires full { limit ≤ count_in H.count self.old.observer }
        ensures { (before : Option Progress) (entries : List Noted) (numbers : List ℕ) →
            Corresponds (HasObservedFirsts (Some limit) H.HasObserved) self.old.reader self.old.observer
            before entries numbers →
            LineEnds (HasObservedFirsts (Some limit) H.HasObserved) result number line.now before
            self.new.reader self.new.observer entries numbers }
    {
        let _nested: NestedTypes = None;
        if self.observer.is_some() && read_step(line).is_some() {
            return Ok(());
        }
        read_any_line(self.alloc, line, &mut self.reader)?;
        if let Some(reader) = &mut self.reader {
            if let Some(_entry) = reader.last_entry() {
                pass_entry(self.alloc, limit, reader.setup(), &mut self.observer)?;
                reader.forget_entry();
            }
        }
        Ok(())
    }

    /// Observes a line after an entry if it is printed as a Step with an access and no mark, as most lines are, and returns
    /// whether it is. Otherwise nothing is changed.
    fn observes_step(&mut self, number: u64, line: &[u8]) -> Result<bool, AllocError>
        requires short { length line.now ≤ 128 }
        requires bounded { count_in H.count self.old.observer < 2 ^ 64 - 1 }
        ensures observed { IfOk result
            (λ observed. observed ≡ true →
            (before : Option Progress) (entries : List Noted) (numbers : List ℕ) →
            Corresponds H.HasObserved self.old.reader self.old.observer before entries numbers →
            GoesOn H.HasObserved number line.now before self.new.reader self.new.observer entries
            numbers) }
        ensures same { IfOk result (λ observed. observed ≡ false → self.new ≡ self.old) }
    {
        let Some(observer) = &mut self.observer else {
            return Ok(false);
        };
        let Some((process, access)) = read_step(line) else {
            return Ok(false);
        };
        observer.take(self.alloc, number, process, &Some(access), &[])?;
        Ok(true)
    }

    /// Reads any line, by its words.
    fn any_line(&mut self, number: u64, line: &[u8]) -> Result<(), FaultKind>
        requires short { length line.now ≤ 128 }
        requires bounded { count_in H.count self.old.observer < 2 ^ 64 - 1 }
        ensures { (before : Option Progress) (entries : List Noted) (numbers : List ℕ) →
            Corresponds H.HasObserved self.old.reader self.old.observer before entries numbers →
            LineEnds H.HasObserved result number line.now before self.new.reader self.new.observer
            entries numbers }
    {
        let _nested: NestedTypes = None;
        read_any_line(self.alloc, line, &mut self.reader)?;
        if let Some(reader) = &mut self.reader {
            if let Some(entry) = reader.last_entry() {
                observe(
                    self.alloc,
                    reader.setup(),
                    number,
                    entry,
                    &mut self.observer,
                )?;
                reader.forget_entry();
            }
        }
        Ok(())
    }

    /// Returns the observer of the entries so far, unless all lines were skipped.
    ///
    /// # Errors
    ///
    /// Returns [`AllocError`] if memory runs out.
    pub fn into_observer(self) -> Result<Option<H>, AllocError>
        ensures { IfOk result
            (λ observed. (limit : Option ℕ) (before : Option Progress) (entries : List Noted)
            (numbers : List ℕ) →
            Corresponds (HasObservedFirsts limit H.HasObserved) self.reader self.observer before entries
            numbers →
            IsObserved (HasObservedFirsts limit H.HasObserved) observed before entries numbers) }
    {
        let Trial {
            alloc,
            reader,
            observer,
        } = self;
        let Some(reader) = reader else {
            return Ok(None);
        };
        match observer {
            Some(observer) => Ok(Some(observer)),
            None => Ok(Some(H::begin(alloc, reader.setup())?)),
        }
    }
}

impl<H: Judging> Trial<H> {
    /// Returns whether each entry so far keeps all laws.
    pub fn is_good(&self) -> bool
        ensures { result ≡ good_in H.finds_good self.now.observer }
    {
        match &self.observer {
            Some(observer) => observer.is_good(),
            None => true,
        }
    }
}

/// Lets the observer have one more entry. The first entry creates it.
fn observe<H: EntryObserver>(
    alloc: Global,
    setup: &Setup,
    number: u64,
    entry: &Entry,
    observer: &mut Option<H>,
) -> Result<(), AllocError>
    requires good { checked setup.now ≡ Ok tt }
    requires bounded { count_in H.count observer.old < 2 ^ 64 - 1 }
    ensures present { OnOk result (IsSome observer.new) }
    ensures observed { OnOk result
        ((entries : List Noted) (numbers : List ℕ) →
        Observes H.HasObserved observer.old setup.now entries numbers →
        Observes H.HasObserved observer.new setup.now (entries ++ entry.now ∷ [])
        (numbers ++ number ∷ [])) }
{
    if observer.is_none() {
        begin(alloc, setup, observer)?;
    }
    if let Some(observer) = observer {
        let (process, access, marks) = parts(entry);
        observer.take(alloc, number, process, access, marks)?;
    }
    Ok(())
}

/// Passes over one more entry. The first entry creates the observer, even if it is not to observe any.
fn pass_entry<H: EntryObserver>(
    alloc: Global,
    limit: u64,
    setup: &Setup,
    observer: &mut Option<H>,
) -> Result<(), AllocError>
    requires good { checked setup.now ≡ Ok tt }
    requires full { limit ≤ count_in H.count observer.old }
    ensures present { OnOk result (IsSome observer.new) }
    ensures observed { OnOk result
        ((e : Noted) (number : ℕ) (entries : List Noted) (numbers : List ℕ) →
        Observes (HasObservedFirsts (Some limit) H.HasObserved) observer.old setup.now entries
        numbers →
        Observes (HasObservedFirsts (Some limit) H.HasObserved) observer.new setup.now
        (entries ++ e ∷ []) (numbers ++ number ∷ [])) }
{
    if observer.is_none() {
        begin(alloc, setup, observer)?;
    }
    Ok(())
}

/// Creates the observer, without entries. It is a function of its own, because the room in which one is made would otherwise
/// be cleared before each entry.
#[inline(never)]
fn begin<H: EntryObserver>(
    alloc: Global,
    setup: &Setup,
    observer: &mut Option<H>,
) -> Result<(), AllocError>
    requires good { checked setup.now ≡ Ok tt }
    ensures present { OnOk result (IsSome observer.new) }
    ensures none { OnOk result (count_in H.count observer.new ≡ 0) }
    ensures observed { OnOk result (Observes H.HasObserved observer.new setup.now [] []) }
{
    *observer = Some(H::begin(alloc, setup)?);
    Ok(())
}
