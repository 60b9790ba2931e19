//! The last call of a process.
ghost use Rattle.std.specs.Prelude.{◌≡◌};
ghost use Rattle.trace_calls.specs.Keeping.{AreFew, at_rest as nothing, begun, gone_on, kept_after};

use crate::moves::{has_answer, has_call, has_enter, has_leave, has_wait};
use calls::{first_if, more_if};
use trace::{CellAccess, LockMark};

/// A call of a process, with its accesses and marks so far. Entries are numbered from 0.
#[derive(Clone, Copy)]
pub struct TraceCall {
    /// Its number among the calls of its process, from 1.
    pub call: u64,
    /// The entry with which it began.
    pub called: u64,
    /// The entry of its first access.
    pub doorway: Option<u64>,
    /// The entry that ends its doorway.
    pub door_end: Option<u64>,
    pub entered: Option<u64>,
    pub remaining: Option<u64>,
    pub answered: Option<u64>,
    /// The number of reads that it has begun.
    pub reads: u64,
    /// The number of writes that it has begun.
    pub writes: u64,
    /// The number of its reads that have ended and were overlapped by a write.
    pub overlapped: u64,
}

/// The last call of a process, and whether it has not ended.
#[derive(Clone, Copy)]
pub struct TraceCallState {
    pub calling: bool,
    pub last: TraceCall,
}

impl TraceCallState {
    /// Creates the state of a process without a call.
    pub(crate) fn at_rest() -> TraceCallState
        ensures { result ≡ nothing }
    {
        TraceCallState {
            calling: false,
            last: TraceCall {
                call: 0,
                called: 0,
                doorway: None,
                door_end: None,
                entered: None,
                remaining: None,
                answered: None,
                reads: 0,
                writes: 0,
                overlapped: 0,
            },
        }
    }

    /// Observes the entry of this number, which ends an overlapped read or not.
    pub(crate) fn take(
        &mut self,
        number: u64,
        overlapped: bool,
        access: &Option<CellAccess>,
        marks: &[LockMark],
    )
        ensures { AreFew self.old.last →
            self.new ≡ kept_after number overlapped access.now marks.now self.old }
    {
        if has_call(marks) {
            self.begin(number);
        } else {
            self.go_on(number, overlapped, access, marks);
        }
    }

    /// Begins a call.
    fn begin(&mut self, number: u64)
        ensures { AreFew self.old.last → self.new ≡ begun number self.old }
    {
        let call = self.last.call.saturating_add(1);
        *self = TraceCallState::at_rest();
        self.calling = true;
        self.last.call = call;
        self.last.called = number;
    }

    /// Adds an entry to the call.
    fn go_on(
        &mut self,
        number: u64,
        overlapped: bool,
        access: &Option<CellAccess>,
        marks: &[LockMark],
    )
        ensures { AreFew self.old.last →
            self.new ≡ gone_on number overlapped access.now marks.now self.old }
    {
        let call = &mut self.last;
        call.doorway = first_if(call.doorway, access.is_some(), number);
        call.door_end = first_if(call.door_end, has_wait(marks), number);
        call.entered = first_if(call.entered, has_enter(marks), number);
        call.remaining = first_if(call.remaining, has_leave(marks), number);
        call.answered = first_if(call.answered, has_answer(marks), number);
        if let Some(access) = access {
            call.reads = more_if(call.reads, access.how.reads());
            call.writes = more_if(call.writes, access.how.writes());
        }
        call.overlapped = more_if(call.overlapped, overlapped);
        if has_answer(marks) {
            self.calling = false;
        }
    }
}
