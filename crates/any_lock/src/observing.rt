//! One more entry: whether it keeps the laws after `Safe`, and how the judge's state changes.
ghost use Rattle.std.specs.Prelude.{◌≡◌, ◌+◌, ◌-◌, ◌^◌, ◌<◌, ◌≤◌, [], IfOk, Some};
ghost use Rattle.std.specs.List.{list_all, list_any};
ghost use Rattle.model.specs.{is_entered};
ghost use Rattle.any_lock.specs.declared.any_lock_law.AnyLockLaw.{AnyLockLaw as Named};
ghost use Rattle.any_lock.specs.Keeping.{GoesOn, IsOfEntry, IsOfMarks, OfEntry, OfPast, ViewAfter, is_taken_as};
ghost use Rattle.any_lock.specs.Laws.{IsFirst, breaks_overtaken, breaks_together, broken_inside, broken_later, takes_rightly};

use crate::any_lock_law::AnyLockLaw;
use crate::lock_run::{LockRun, takes};
use crate::mark_rules::same_reply;
use crate::process_views::ProcessView;
use model::{Access, Mark};
use plain_store::{NestedTypes, Reply};

impl LockRun {
    /// Returns the state of the process of an entry after it, if the entry keeps all laws after `Safe`.
    ///
    /// # Errors
    ///
    /// Returns the first law after `Safe` that the entry breaks.
    pub fn after(
        &self,
        process: u8,
        access: &Option<Access>,
        marks: &[Mark],
    ) -> Result<ProcessView, AnyLockLaw>
        ensures in_range { IfOk result (λ _. process < self.now.setup.processes) }
        ensures laws { ViewAfter broken_later result self.now process access.now marks.now }
    {
        let _nested: NestedTypes = None;
        if let Some(_refusal) = self.refusal_of_access(process, access) {
            return Err(AnyLockLaw::Access);
        }
        if process >= self.processes() {
            return Err(AnyLockLaw::Access);
        }
        let Ok(process_view) = self.marked(process, access, marks) else {
            return Err(AnyLockLaw::Marks);
        };
        match self.broken_by(process, marks) {
            None => Ok(process_view),
            Some(law) => Err(law),
        }
    }

    /// Returns the first law that an entry breaks whose access and marks are not refused.
    fn broken_by(&self, process: u8, marks: &[Mark]) -> Option<AnyLockLaw>
        requires { process < self.now.setup.processes }
        ensures { IsOfMarks result broken_inside self.now process marks.now }
    {
        if self.joins_another(process, marks) {
            Some(AnyLockLaw::Together)
        } else if self.overtakes(process, marks) {
            Some(AnyLockLaw::Overtaken)
        } else if !self.takes_rightly(process, marks) {
            Some(AnyLockLaw::History)
        } else {
            None
        }
    }

    /// Returns whether a process enters with these marks while another is inside.
    fn joins_another(&self, process: u8, marks: &[Mark]) -> bool
        ensures { IsOfMarks result breaks_together self.now process marks.now }
    {
        enters(marks) && self.other_inside(process).is_some()
    }

    /// Returns whether a process enters with these marks while another is ahead of it.
    fn overtakes(&self, process: u8, marks: &[Mark]) -> bool
        requires { process < self.now.setup.processes }
        ensures { IsOfMarks result breaks_overtaken self.now process marks.now }
    {
        enters(marks) && self.other_ahead(process).is_some()
    }

    /// Returns whether each command that marks take has its position and its reply.
    fn takes_rightly(&self, process: u8, marks: &[Mark]) -> bool
        requires { process < self.now.setup.processes }
        ensures { OfPast self.now (λ s past. result ≡ takes_rightly s past process marks.now) }
    {
        let _nested: NestedTypes = None;
        if !takes(marks) {
            return true;
        }
        let (place, reply) = self.right_taking(process);
        are_those(marks, place, &reply)
    }

    /// Observes one more entry, which keeps the law `Safe` or not, and returns the first law that it breaks, if it breaks one.
    /// Then nothing is changed.
    pub fn observe(
        &mut self,
        is_safe: bool,
        process: u8,
        access: &Option<Access>,
        marks: &[Mark],
    ) -> Option<AnyLockLaw>
        requires { self.old.entries < 2 ^ 64 - 1 }
        ensures setup { self.new.setup ≡ self.old.setup }
        ensures entries { self.new.entries ≤ self.old.entries + 1 }
        ensures same { (l : Named) → result ≡ Some l → self.new ≡ self.old }
        ensures law { OfEntry self.old process access.now marks.now (IsFirst is_safe result) }
        ensures knows { OfEntry self.old process access.now marks.now (GoesOn result self.new) }
    {
        let _nested: NestedTypes = None;
        if !is_safe {
            return Some(AnyLockLaw::Safe);
        }
        match marks {
            [] => self.observe_unmarked(process, access),
            _ => self.observe_marked(process, access, marks),
        }
    }

    /// Observes an entry that keeps the law `Safe`, with any marks. The new state of its process is computed apart from the
    /// old one, because a mark may be refused after others.
    #[inline(never)]
    fn observe_marked(
        &mut self,
        process: u8,
        access: &Option<Access>,
        marks: &[Mark],
    ) -> Option<AnyLockLaw>
        requires { self.old.entries < 2 ^ 64 - 1 }
        ensures setup { self.new.setup ≡ self.old.setup }
        ensures entries { self.new.entries ≤ self.old.entries + 1 }
        ensures same { (l : Named) → result ≡ Some l → self.new ≡ self.old }
        ensures law { IsOfEntry result broken_later self.old process access.now marks.now }
        ensures knows { OfEntry self.old process access.now marks.now (GoesOn result self.new) }
    {
        let _nested: NestedTypes = None;
        match self.after(process, access, marks) {
            Ok(process_view) => {
                self.go_on(process, &process_view, marks);
                None
            }
            Err(law) => Some(law),
        }
    }

    /// Observes such an entry without a mark, as nearly all are. The state of its process is changed in place.
    #[inline]
    fn observe_unmarked(&mut self, process: u8, access: &Option<Access>) -> Option<AnyLockLaw>
        requires { self.old.entries < 2 ^ 64 - 1 }
        ensures setup { self.new.setup ≡ self.old.setup }
        ensures entries { self.new.entries ≤ self.old.entries + 1 }
        ensures same { (l : Named) → result ≡ Some l → self.new ≡ self.old }
        ensures law { IsOfEntry result broken_later self.old process access.now [] }
        ensures knows { OfEntry self.old process access.now [] (GoesOn result self.new) }
    {
        if let Some(_refusal) = self.refusal_of_access(process, access) {
            return Some(AnyLockLaw::Access);
        }
        if process >= self.processes() {
            return Some(AnyLockLaw::Access);
        }
        let Some(access) = access else {
            return Some(AnyLockLaw::Marks);
        };
        self.make(process, *access);
        None
    }
}

/// Returns whether a process enters with these marks.
pub(crate) fn enters(marks: &[Mark]) -> bool
    ensures { result ≡ list_any is_entered marks.now }
{
    marks.iter().any(|mark| matches!(mark, Mark::Entered))
}

/// Returns whether each command that marks take has this position and this reply.
fn are_those(marks: &[Mark], place: u64, reply: &Reply) -> bool
    ensures { result ≡ list_all (is_taken_as place reply.now) marks.now }
{
    let _nested: NestedTypes = None;
    marks.iter().all(|mark| is_taken_as(mark, place, reply))
}

/// Returns whether a mark takes no command, or one that has this position and this reply.
fn is_taken_as(mark: &Mark, place: u64, reply: &Reply) -> bool
    ensures { result ≡ is_taken_as place reply.now mark.now }
{
    let _nested: NestedTypes = None;
    match mark {
        Mark::Taken(at, reported) => *at == place && same_reply(reported, reply),
        _ => true,
    }
}
