//! The passage of a process through the lock, updated access by access and mark by mark.
ghost use Rattle.std.specs.Prelude.{◌≡◌, Some};
ghost use Rattle.model.specs.{first_of};
ghost use Rattle.lock_stages.specs.Passages.{no_passage, with_access, with_call, with_enter, with_leave, with_wait, without_wait};

/// The part of a process's state on which mutual exclusion and first come, first served depend. Entries are given by
/// their numbers, from 0.
#[derive(Clone, Copy)]
pub struct Passage {
    /// Whether the process is inside the critical section.
    pub inside: bool,
    /// Whether its doorway has ended and it still waits.
    pub waiting: bool,
    /// The first entry of its last call with an access: there its doorway began.
    pub doorway: Option<u64>,
    /// The first entry of its last call with which it waits.
    pub waits: Option<u64>,
    /// The first entry of its last call with which it enters.
    pub enters: Option<u64>,
}

impl Passage {
    /// Returns the passage of a process without entries.
    pub fn none() -> Passage
        ensures { result ≡ no_passage }
    {
        Passage {
            inside: false,
            waiting: false,
            doorway: None,
            waits: None,
            enters: None,
        }
    }

    /// Updates the passage by an access of this entry.
    #[inline]
    pub fn access(&mut self, entry: u64)
        ensures { self.new ≡ with_access entry self.old }
    {
        self.doorway = first(self.doorway, entry);
    }

    /// Updates the passage by a call.
    #[inline]
    pub fn call(&mut self)
        ensures { self.new ≡ with_call self.old }
    {
        self.waiting = false;
        self.doorway = None;
        self.waits = None;
        self.enters = None;
    }

    /// Updates the passage by the end of a doorway with this entry.
    #[inline]
    pub fn wait(&mut self, entry: u64)
        ensures { self.new ≡ with_wait entry self.old }
    {
        self.waiting = true;
        self.waits = first(self.waits, entry);
    }

    /// Updates the passage by entering with this entry.
    #[inline]
    pub fn enter(&mut self, entry: u64)
        ensures { self.new ≡ with_enter entry self.old }
    {
        self.inside = true;
        self.waiting = false;
        self.enters = first(self.enters, entry);
    }

    /// Updates the passage by leaving.
    #[inline]
    pub fn leave(&mut self)
        ensures { self.new ≡ with_leave self.old }
    {
        self.inside = false;
        self.waiting = false;
    }

    /// Updates the passage because the process stops waiting and does not enter.
    #[inline]
    pub fn stop_waiting(&mut self)
        ensures { self.new ≡ without_wait self.old }
    {
        self.waiting = false;
    }
}

/// Returns the first of two entries, of which the earlier may be missing.
#[inline]
fn first(before: Option<u64>, entry: u64) -> Option<u64>
    ensures { result ≡ first_of before (Some entry) }
{
    match before {
        Some(before) => Some(before),
        None => Some(entry),
    }
}
