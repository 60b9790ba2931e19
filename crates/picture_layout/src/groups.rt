//! The words in the bar of a process, and the groups of processes that they name.
ghost use Rattle.std.specs.Prelude.{◌≡◌, [], ◌∷◌, cond, drop, set};
ghost use Rattle.picture_layout.specs.States.{GroupGrows, IsWordOfWaiting, before_in, behind_in, group_of, places_from};

use model::Stage;

/// Some processes in an order: their number, and the first three.
#[derive(Clone, Copy, PartialEq, Eq)]
pub struct ProcessGroup {
    /// Their number, at most 255.
    pub count: u8,
    /// The first three, with 0 for each that is missing.
    pub first: [u8; 3],
}

/// The words in the bar of a process.
#[derive(Clone, Copy, PartialEq, Eq)]
pub enum BarWord {
    /// It has none.
    Nothing,
    /// Its process is at this stage.
    Is(Stage),
    /// These are served before its process.
    Behind(ProcessGroup),
    /// Its process waits for these to leave their doorways.
    Awaits(ProcessGroup),
}

impl ProcessGroup {
    /// Returns the group without processes.
    pub(crate) fn nobody() -> ProcessGroup
        ensures { result ≡ group_of [] }
    {
        ProcessGroup {
            count: 0,
            first: [0; 3],
        }
    }

    /// Returns the group with a process at its end.
    fn with(&self, process: u8) -> ProcessGroup
        ensures { GroupGrows self.now (process ∷ []) result }
    {
        ProcessGroup {
            count: self.count.saturating_add(1),
            first: with_at(self.first, self.count, process),
        }
    }

    /// Returns the group with a process at its end, if `is_one` is true.
    fn with_if(&self, process: u8, is_one: bool) -> ProcessGroup
        ensures { GroupGrows self.now (cond is_one (process ∷ []) []) result }
    {
        if is_one { self.with(process) } else { *self }
    }
}

/// Returns the words in the bar of a waiting process: those before it in the line or, if there are none, those that it awaits.
pub(crate) fn waiting_word(behind: ProcessGroup, awaits: ProcessGroup) -> BarWord
    ensures { IsWordOfWaiting behind awaits result }
{
    if behind.count > 0 {
        BarWord::Behind(behind)
    } else if awaits.count > 0 {
        BarWord::Awaits(awaits)
    } else {
        BarWord::Is(Stage::Waiting)
    }
}

/// Returns the first three of some processes, with one at this index.
fn with_at(first: [u8; 3], place: u8, process: u8) -> [u8; 3]
    ensures { result ≡ set first place process }
{
    let mut first = first;
    let place = usize::from(place);
    if place < first.len() {
        first[place] = process;
    }
    first
}

/// Returns the processes before a process in a line.
pub(crate) fn group_before(queue: &[u8], process: u8) -> ProcessGroup
    ensures { result ≡ group_of (before_in process queue.now) }
{
    let mut group = ProcessGroup::nobody();
    for other in queue {
        if *other == process {
            return group;
        }
        group = group.with(*other);
    }
    group
}

/// Returns the index after a process in a line.
pub(crate) fn place_behind(queue: &[u8], process: u8) -> usize
    ensures { drop result queue.now ≡ behind_in process queue.now }
{
    for (place, other) in queue.iter().enumerate() {
        if *other == process {
            return place + 1;
        }
    }
    queue.len()
}

/// Returns the processes for which the test holds.
pub(crate) fn places_said(said: [bool; 16]) -> ProcessGroup
    ensures { result ≡ group_of (places_from 0 said) }
{
    let mut group = ProcessGroup::nobody();
    for place in 0u8..16 {
        group = group.with_if(place, said[usize::from(place)]);
    }
    group
}
