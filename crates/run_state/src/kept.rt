//! The state that is kept of a process, and how its entries change it.
ghost use Rattle.std.specs.Prelude.{◌≡◌, ◌-◌, ◌<◌, ◌^◌, Ok, cond, None, Some};
ghost use Rattle.std.specs.List.{list_any};
ghost use Rattle.plain_store.specs.{checked};
ghost use Rattle.model.specs.{is_failed};
ghost use Rattle.run_state.specs.Keeping.{kept_marked, kept_stepped, nothing_kept, number_finished, opened};

use calls::{CallState, Called, called_in, ends_number, number_after};
use model::{Access, Mark};
use plain_store::{NestedTypes, Setup};

/// The read of a whole register. Its number is worked out only where it is printed, because few of these reads are printed.
#[derive(Clone, Copy)]
pub(crate) struct FinishedRead {
    /// The access that ended it.
    pub access: Access,
    /// The number as far as it was read before that access.
    pub before: u32,
}

impl FinishedRead {
    /// Returns the number that was read.
    pub fn number(&self) -> u64
        ensures { result ≡ number_finished self.now }
    {
        number_after(&self.access, u64::from(self.before))
    }
}

/// The state of a process. Its last call stores no access except the first that the process makes itself.
#[derive(Clone, Copy)]
pub(crate) struct ProcessSummary {
    pub call_state: CallState,
    /// The number of the entry with which it failed last.
    pub failed: u64,
    /// The register read that it has finished last, unless an entry has had a mark since.
    pub read: Option<FinishedRead>,
}

impl ProcessSummary {
    /// Creates the state of a process without an entry.
    pub fn nothing(process: u8) -> ProcessSummary
        ensures { result ≡ nothing_kept process }
    {
        ProcessSummary {
            call_state: CallState::at_rest(process),
            failed: 0,
            read: None,
        }
    }

    /// Returns its call, if it has not ended.
    pub fn open_call(&self) -> Option<Called>
        ensures { result ≡ cond self.now.call_state.calling (Some self.now.call_state.last) None }
    {
        if self.call_state.calling {
            Some(self.call_state.last)
        } else {
            None
        }
    }

    /// Observes an entry with this number and these marks; `steps` is whether it has an access.
    pub fn mark(&mut self, number: u64, steps: bool, marks: &[Mark])
        ensures { self.old.call_state.last.call < 2 ^ 64 - 1
            → self.new ≡ kept_marked number steps marks.now self.old }
    {
        let _nested: NestedTypes = None;
        if has_failed(marks) {
            self.failed = number;
        }
        self.read = None;
        if let Some(command) = called_in(marks) {
            self.call_state.begin(number, &command);
            return;
        }
        if steps {
            self.open(number);
        }
        self.call_state.mark_all(number, marks);
    }

    /// Observes an entry with this number and this access and without a mark; `read` is what was read before of the number
    /// that it reads.
    #[inline]
    pub fn step(&mut self, setup: &Setup, number: u64, access: &Access, read: u32)
        requires { checked setup.now ≡ Ok tt }
        ensures { self.new ≡ kept_stepped setup.now number access.now read self.old }
    {
        self.open(number);
        if ends_number(setup, access) {
            self.read = Some(FinishedRead {
                access: *access,
                before: read,
            });
        }
    }

    /// Adds the access of the entry with this number, which counts unless the process has failed in its call.
    #[inline]
    fn open(&mut self, number: u64)
        ensures { self.new ≡ record self.old { call_state = opened number self.old.call_state } }
    {
        let last = &mut self.call_state.last;
        if last.accesses.doorway.is_none() && last.marks.failed.is_none() {
            last.accesses.doorway = Some(number);
        }
    }
}

/// Returns whether a process fails with these marks.
fn has_failed(marks: &[Mark]) -> bool
    ensures { result ≡ list_any is_failed marks.now }
{
    let _nested: NestedTypes = None;
    marks.iter().any(|mark| matches!(mark, Mark::Failed))
}
