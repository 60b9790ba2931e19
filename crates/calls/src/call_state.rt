//! The state of a process, which each of its entries changes.
ghost use Rattle.std.specs.Prelude.{◌≡◌, ◌-◌, ◌^◌, ◌<◌, ◌&&◌, not, cond, None, Some, Ok};
ghost use Rattle.plain_store.specs.{checked};
ghost use Rattle.model.specs.{called_in as command_in, first_of as first};
ghost use Rattle.calls.specs.Columns.{first_if as first_number_if};
ghost use Rattle.calls.specs.Passing.{HaveRoom, passed, with_passed};
ghost use Rattle.calls.specs.Stepping.{AreFew, accessed, observed, at_rest, begun, marked_all, marked_on, no_accesses, no_marks, with_access, with_mark};

use crate::accesses::{more_if, waits_by};
use crate::called::{Accesses, Called, EntryFacts, Marked};
use model::{Access, Field, Mark};
use plain_store::{Command, NestedTypes, Setup};

/// The state of a process: its last call, and whether that call is open.
#[derive(Clone, Copy)]
pub struct CallState {
    pub calling: bool,
    pub last: Called,
}

impl CallState {
    /// Creates the state of a process without an entry.
    pub fn at_rest(process: u8) -> CallState
        ensures { result ≡ at_rest process }
    {
        CallState {
            calling: false,
            last: Called {
                process,
                call: 0,
                command: Command::Ask,
                called: 0,
                accesses: Accesses::none(),
                marks: Marked::none(),
            },
        }
    }

    /// Observes one more entry, with this number, and returns the call that ends with it, if one does.
    #[inline(always)]
    pub fn observe(
        &mut self,
        setup: &Setup,
        number: u64,
        known: &EntryFacts,
        access: &Option<Access>,
        marks: &[Mark],
    ) -> Option<Called>
        requires { checked setup.now ≡ Ok tt }
        ensures observed { self.old.last.call < 2 ^ 64 - 1 → AreFew self.old.last.accesses →
            self.new ≡ observed setup.now number known.now access.now marks.now self.old }
        ensures ended { result
            ≡ cond (self.old.calling && not self.new.calling) (Some self.new.last) None }
    {
        let was_calling = self.calling;
        self.go_on(setup, number, known, access, marks);
        if was_calling && !self.calling {
            Some(self.last)
        } else {
            None
        }
    }

    /// Observes one more entry, with this number.
    #[inline(always)]
    fn go_on(
        &mut self,
        setup: &Setup,
        number: u64,
        known: &EntryFacts,
        access: &Option<Access>,
        marks: &[Mark],
    )
        requires { checked setup.now ≡ Ok tt }
        ensures { self.old.last.call < 2 ^ 64 - 1 → AreFew self.old.last.accesses →
            self.new ≡ observed setup.now number known.now access.now marks.now self.old }
    {
        let _nested: NestedTypes = None;
        if let Some(command) = called_in(marks) {
            self.begin(number, &command);
            return;
        }
        if let Some(access) = access {
            self.access(setup, number, known, access);
        }
        self.mark_all(number, marks);
    }

    /// Begins a call, with the entry of this number.
    pub fn begin(&mut self, number: u64, command: &Command)
        ensures { self.old.last.call < 2 ^ 64 - 1 → self.new ≡ begun number command.now self.old }
    {
        self.calling = true;
        self.last = Called {
            process: self.last.process,
            call: more_if(self.last.call, true),
            command: *command,
            called: number,
            accesses: Accesses::none(),
            marks: Marked::none(),
        };
    }

    /// Adds the access of the entry with this number.
    #[inline]
    fn access(&mut self, setup: &Setup, number: u64, known: &EntryFacts, access: &Access)
        requires { checked setup.now ≡ Ok tt }
        ensures { AreFew self.old.last.accesses →
            self.new ≡ accessed setup.now number known.now access.now self.old }
    {
        let process = self.last.process;
        let marks = &self.last.marks;
        self.last
            .accesses
            .note(setup, process, number, known, marks, access);
    }

    /// Adds `reads` reads and `writes` writes that a process has begun. The entry with this number is the first of them;
    /// `overlapped` reads that ended were overlapped. The process has not failed in its call.
    #[inline(always)]
    pub fn pass(&mut self, number: u64, reads: u64, writes: u64, overlapped: u32)
        ensures { HaveRoom self.old.last.accesses reads writes overlapped →
            self.new ≡ passed number reads writes overlapped self.old }
    {
        self.last.accesses.pass(number, reads, writes, overlapped);
    }

    /// Adds the marks of the entry with this number.
    #[inline]
    pub fn mark_all(&mut self, number: u64, marks: &[Mark])
        ensures { self.new ≡ marked_all number self.old marks.now }
    {
        let _nested: NestedTypes = None;
        for mark in marks {
            self.mark(number, mark);
        }
    }

    /// Adds a mark of the entry with this number, and closes the call if the mark ends it.
    fn mark(&mut self, number: u64, mark: &Mark)
        ensures { self.new ≡ marked_on number self.old mark.now }
    {
        let _nested: NestedTypes = None;
        self.last.marks.note(number, mark);
        if matches!(mark, Mark::Answered(_) | Mark::Down) {
            self.calling = false;
        }
    }
}

impl Accesses {
    /// Creates the counts of a call without an access.
    fn none() -> Accesses
        ensures { result ≡ no_accesses }
    {
        Accesses {
            doorway: None,
            reads: 0,
            writes: 0,
            overlapped: 0,
            waited_for: None,
        }
    }

    /// Adds the access of the entry with this number, which the process or its memory unit makes.
    #[inline]
    fn note(
        &mut self,
        setup: &Setup,
        process: u8,
        number: u64,
        known: &EntryFacts,
        marks: &Marked,
        access: &Access,
    )
        requires { checked setup.now ≡ Ok tt }
        ensures { AreFew self.old →
            self.new
            ≡ with_access setup.now process number known.now marks.now access.now self.old }
    {
        let itself = marks.failed.is_none();
        self.doorway = first_if(self.doorway, itself, number);
        self.reads = more_if(self.reads, access.how.is_begin_of_read() & itself);
        self.writes = more_if(self.writes, access.how.is_begin_of_write() & itself);
        self.overlapped = more_if(self.overlapped, known.overlapped);
        if waits_by(setup, process, marks, access, known.read) {
            self.waited_for = Some(access.owner);
        }
    }
}

impl Accesses {
    /// Adds `reads` reads and `writes` writes of a process that has not failed. The entry with this number is the first of them.
    #[inline(always)]
    fn pass(&mut self, number: u64, reads: u64, writes: u64, overlapped: u32)
        ensures { HaveRoom self.old reads writes overlapped →
            self.new ≡ with_passed number reads writes overlapped self.old }
    {
        if self.doorway.is_none() {
            self.doorway = Some(number);
        }
        self.reads = self.reads.wrapping_add(reads);
        self.writes = self.writes.wrapping_add(writes);
        self.overlapped = self.overlapped.wrapping_add(u64::from(overlapped));
    }
}

impl Marked {
    /// Creates the state of a call without a mark.
    fn none() -> Marked
        ensures { result ≡ no_marks }
    {
        Marked {
            door_end: None,
            entered: None,
            wait_end: None,
            taken: None,
            place: None,
            remaining: None,
            answered: None,
            failed: None,
            withdrew: None,
            ticket: None,
            answer: None,
        }
    }

    /// Adds a mark of the entry with this number.
    fn note(&mut self, number: u64, mark: &Mark)
        ensures { self.new ≡ with_mark number self.old mark.now }
    {
        let _nested: NestedTypes = None;
        match mark {
            Mark::Waiting(ticket) => {
                self.door_end = first_of(self.door_end, number);
                if self.ticket.is_none() {
                    self.ticket = Some(*ticket);
                }
            }
            Mark::Entered => {
                self.entered = first_of(self.entered, number);
                self.wait_end = first_of(self.wait_end, number);
            }
            Mark::Taken(place, _) => {
                self.taken = first_of(self.taken, number);
                self.place = first_of(self.place, *place);
            }
            Mark::Left => self.remaining = first_of(self.remaining, number),
            Mark::Answered(answer) => {
                self.answered = first_of(self.answered, number);
                if self.answer.is_none() {
                    self.answer = Some(*answer);
                }
            }
            Mark::Failed => {
                self.failed = first_of(self.failed, number);
                self.wait_end = first_of(self.wait_end, number);
            }
            Mark::Withdrew => {
                self.withdrew = first_of(self.withdrew, number);
                self.wait_end = first_of(self.wait_end, number);
            }
            Mark::Called(_) | Mark::Settled(_) | Mark::Down | Mark::Restarted => {}
        }
    }
}

/// Returns the number before, or, if there is none, this one.
#[inline]
fn first_of(before: Option<u64>, number: u64) -> Option<u64>
    ensures { result ≡ first before (Some number) }
{
    match before {
        Some(before) => Some(before),
        None => Some(number),
    }
}

/// Returns the number before, or, if there is none and the test holds, this one.
#[inline]
pub fn first_if(before: Option<u64>, test: bool, number: u64) -> Option<u64>
    ensures { result ≡ first_number_if test number before }
{
    if test {
        first_of(before, number)
    } else {
        before
    }
}

/// Returns the command with which marks begin a call, if they begin one.
#[inline]
pub fn called_in(marks: &[Mark]) -> Option<Command>
    ensures { result ≡ command_in marks.now }
{
    let _nested: NestedTypes = None;
    for mark in marks {
        if let Mark::Called(command) = mark {
            return Some(*command);
        }
    }
    None
}
