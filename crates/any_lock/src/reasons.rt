//! The reasons of a verdict, which are looked up for the bad entry.
ghost use Rattle.std.specs.Prelude.{◌≡◌, None};
ghost use Rattle.lock_stages.specs.{AreSince};
ghost use Rattle.any_lock.specs.declared.any_lock_law.AnyLockLaw.TheVariants as broken;
ghost use Rattle.any_lock.specs.Judging.{AreReasonsBy, AreReasonsIf, ReportsDoorway, ReportsEntered};
ghost use Rattle.any_lock.specs.Keeping.{IsOfAccess, IsOfEntry, IsOfProcess, OfEntry, OfPast};
ghost use Rattle.any_lock.specs.Reasons.{change_of, doorway_by, doorway_of, entry_of as began_at, inside_by, inside_since, opened_by, other_value, refused, since, stage_of, view_of, torn_by, wait_ahead, wait_by};

use crate::any_lock_law::AnyLockLaw;
use crate::lock_run::LockRun;
use crate::process_views::{BegunAccess, ProcessView};
use crate::refusals::{AccessRefusal, MarkRefusal};
use lock_stages::MOST_PROCESSES;
use model::{Access, Mark, Move, Stage};
use plain_store::{NestedTypes, Reply};

/// The change after which an entry keeps all laws.
#[derive(Clone, Copy)]
pub enum Remedy {
    /// Its read ends with this value.
    Value(bool),
    /// Its command is taken at this position, with this reply, which is its answer too.
    Taking(u64, Reply),
}

/// Why an entry is refused: by the table of accesses, or otherwise by that of marks.
#[derive(Clone, Copy)]
pub enum Refused {
    Access(AccessRefusal),
    Marks(MarkRefusal),
}

/// The reasons of an entry that breaks a law. Entries are given by their numbers, from 0.
#[derive(Clone, Copy)]
pub struct Reasons {
    /// The change after which the entry keeps all laws: another value (`Safe`), or the right position and reply
    /// (`History`).
    pub may: Option<Remedy>,
    /// Why it is refused, for any law.
    pub refused: Option<Refused>,
    /// The stage of its process, if that exists.
    pub stage: Option<Stage>,
    /// The entry that began the access which its process has open.
    pub opened: Option<u64>,
    /// The entry that began the write of its torn bit.
    pub torn: Option<u64>,
    /// `Together`: the process that is inside, and the entry since which it is.
    pub inside: Option<(u8, u64)>,
    /// `Overtaken`: for each process that is ahead the entry of its `wait`.
    pub waits: [Option<u64>; MOST_PROCESSES],
    /// `Overtaken`: the entry with which the doorway of its process began, before this entry or with it.
    pub doorway: Option<u64>,
}

impl LockRun {
    /// Returns the reasons of an entry that breaks this law first, if it breaks one.
    #[inline]
    pub(crate) fn reasons_of(
        &self,
        law: Option<AnyLockLaw>,
        process: u8,
        access: &Option<Access>,
        marks: &[Mark],
    ) -> Option<Reasons>
        ensures none { law ≡ None → result ≡ None }
        ensures reasons { OfEntry self.now process access.now marks.now (AreReasonsIf law result) }
    {
        match law {
            None => None,
            Some(law) => Some(self.reasons(law, process, access, marks)),
        }
    }

    /// Returns the reasons of an entry that breaks this law first.
    #[inline(never)]
    fn reasons(
        &self,
        law: AnyLockLaw,
        process: u8,
        access: &Option<Access>,
        marks: &[Mark],
    ) -> Reasons
        ensures { OfEntry self.now process access.now marks.now (AreReasonsBy law result) }
    {
        let _nested: NestedTypes = None;
        Reasons {
            may: self.change(law, process, access, marks),
            refused: self.refusal(process, access, marks),
            stage: self.stage(process),
            opened: self.opened(process),
            torn: self.torn(process),
            inside: self.inside(law, process),
            waits: self.waits(law, process),
            doorway: self.doorway(law, process, access),
        }
    }

    /// Returns the state of a process, if the process exists.
    fn looked_up(&self, process: u8) -> Option<ProcessView>
        ensures { OfPast self.now (λ s past. result ≡ view_of s past process) }
    {
        if process < self.processes() {
            Some(self.view_of(process))
        } else {
            None
        }
    }

    /// Returns the stage of a process, if it exists.
    fn stage(&self, process: u8) -> Option<Stage>
        ensures { OfPast self.now (λ s past. result ≡ stage_of s past process) }
    {
        match self.looked_up(process) {
            None => None,
            Some(process_view) => Some(process_view.stage),
        }
    }

    /// Returns the entry that began the access which a process has open.
    fn opened(&self, process: u8) -> Option<u64>
        ensures { OfPast self.now (λ s past. result ≡ opened_by s past process) }
    {
        match self.looked_up(process) {
            None => None,
            Some(process_view) => entry_of(&process_view.opened),
        }
    }

    /// Returns the entry that began the write of its torn bit.
    fn torn(&self, process: u8) -> Option<u64>
        ensures { OfPast self.now (λ s past. result ≡ torn_by s past process) }
    {
        match self.looked_up(process) {
            None => None,
            Some(process_view) => entry_of(&process_view.torn),
        }
    }

    /// Returns why an entry is refused, if it is.
    fn refusal(&self, process: u8, access: &Option<Access>, marks: &[Mark]) -> Option<Refused>
        ensures { IsOfEntry result refused self.now process access.now marks.now }
    {
        if let Some(refusal) = self.refusal_of_access(process, access) {
            return Some(Refused::Access(refusal));
        }
        if process >= self.processes() {
            return None;
        }
        match self.marked(process, access, marks) {
            Ok(_) => None,
            Err(refusal) => Some(Refused::Marks(refusal)),
        }
    }

    /// Returns the change after which it keeps all laws.
    fn change(
        &self,
        law: AnyLockLaw,
        process: u8,
        access: &Option<Access>,
        marks: &[Mark],
    ) -> Option<Remedy>
        ensures { IsOfEntry result (change_of law) self.now process access.now marks.now }
    {
        match law {
            AnyLockLaw::Safe => self.other_value(process, access, marks),
            AnyLockLaw::History => self.right_change(process),
            AnyLockLaw::Access | AnyLockLaw::Marks | AnyLockLaw::Together | AnyLockLaw::Overtaken =>
                None,
        }
    }

    /// Returns the right position and reply of a command that is taken, if its process exists.
    fn right_change(&self, process: u8) -> Option<Remedy>
        ensures { IsOfProcess result (change_of broken.History) self.now process }
    {
        let _nested: NestedTypes = None;
        if process >= self.processes() {
            return None;
        }
        let (place, reply) = self.right_taking(process);
        Some(Remedy::Taking(place, reply))
    }

    /// Returns the other value of a read's end, if the entry keeps all later laws with it.
    fn other_value(&self, process: u8, access: &Option<Access>, marks: &[Mark]) -> Option<Remedy>
        ensures { IsOfEntry result other_value self.now process access.now marks.now }
    {
        let Some(reported) = access else {
            return None;
        };
        let Move::EndRead(value) = reported.how else {
            return None;
        };
        let turned = Access {
            how: Move::EndRead(!value),
            ..*reported
        };
        match self.after(process, &Some(turned), marks) {
            Ok(_) => Some(Remedy::Value(!value)),
            Err(_) => None,
        }
    }

    /// Returns for `Together` the other process that is inside, and the entry since which it is.
    fn inside(&self, law: AnyLockLaw, process: u8) -> Option<(u8, u64)>
        ensures { OfPast self.now (λ s past. result ≡ inside_by law s past process) }
    {
        if !matches!(law, AnyLockLaw::Together) {
            return None;
        }
        self.inside_since(process)
    }

    /// Returns the other process that is inside, and the entry since which it is.
    fn inside_since(&self, process: u8) -> Option<(u8, u64)>
        ensures { OfPast self.now (λ s past. result ≡ inside_since s past process) }
    {
        match self.other_inside(process) {
            None => None,
            Some(other) => self.entered(other),
        }
    }

    /// Returns a process, and the entry of its call with which it entered.
    fn entered(&self, process: u8) -> Option<(u8, u64)>
        ensures { ReportsEntered self.now process result }
    {
        match self.looked_up(process) {
            None => None,
            Some(process_view) => since(process, process_view.passage.enters),
        }
    }

    /// Returns for `Overtaken` the entry of the `wait` of each process that is ahead of this one.
    fn waits(&self, law: AnyLockLaw, process: u8) -> [Option<u64>; MOST_PROCESSES]
        ensures { OfPast self.now (λ s past. AreSince result (wait_by law s past process)) }
    {
        if !matches!(law, AnyLockLaw::Overtaken) {
            return [None; MOST_PROCESSES];
        }
        self.waits_ahead(process)
    }

    /// Returns the entry of the `wait` of each process that is ahead of this one.
    fn waits_ahead(&self, process: u8) -> [Option<u64>; MOST_PROCESSES]
        ensures { OfPast self.now (λ s past. AreSince result (wait_ahead s past process)) }
    {
        if process >= self.processes() {
            return [None; MOST_PROCESSES];
        }
        self.ahead_since(process)
    }

    /// Returns for `Overtaken` the entry with which the doorway of a process began, before this access or with it.
    fn doorway(&self, law: AnyLockLaw, process: u8, access: &Option<Access>) -> Option<u64>
        ensures { IsOfAccess result (doorway_by law) self.now process access.now }
    {
        if !matches!(law, AnyLockLaw::Overtaken) {
            return None;
        }
        self.doorway_with(process, access)
    }

    /// Returns the entry with which the doorway of a process began, before this access or with it.
    fn doorway_with(&self, process: u8, access: &Option<Access>) -> Option<u64>
        ensures { IsOfAccess result doorway_of self.now process access.now }
    {
        match self.looked_up(process) {
            None => None,
            Some(process_view) => self.doorway_of(&process_view, access),
        }
    }

    /// Returns the entry with which the doorway of a process in this state began, before this access or with it.
    fn doorway_of(&self, process_view: &ProcessView, access: &Option<Access>) -> Option<u64>
        ensures { ReportsDoorway self.now access.now process_view.now result }
    {
        match process_view.passage.doorway {
            Some(entry) => Some(entry),
            None if access.is_some() => Some(self.entries()),
            None => None,
        }
    }
}

/// Returns a process, and an entry, if there is one.
fn since(process: u8, entry: Option<u64>) -> Option<(u8, u64)>
    ensures { result ≡ since process entry }
{
    match entry {
        None => None,
        Some(entry) => Some((process, entry)),
    }
}

/// Returns the entry with which an access began.
fn entry_of(begun: &Option<BegunAccess>) -> Option<u64>
    ensures { result ≡ began_at begun.now }
{
    match begun {
        None => None,
        Some(begun) => Some(begun.entry),
    }
}
