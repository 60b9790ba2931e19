//! Which process is inside, and which is ahead of another. The judges of traces and of the records of any lock share these
//! functions, each for its own states of processes.
ghost use Rattle.std.specs.Prelude.{◌≡◌, ◌<◌, ◌≤◌, ℕ, length};
ghost use Rattle.lock_stages.specs.Passages.{AreSince, HasPassage as Has, OfPassages, ahead_since as wait_ahead, inside_since as enter_inside, is_ahead as ahead, is_other_inside as inside, other_ahead as lowest_ahead, other_inside as lowest_inside, waits_before as waited};
ghost use Rattle.lock_stages.specs.declared.passages.Passage.{Passage as Passed};

use crate::passages::Passage;

/// The most processes.
pub const MOST_PROCESSES: usize = 16;

/// The state of a process that has a passage through the lock.
pub trait HasPassage {
    ghost use Rattle.lock_stages.specs.declared.passages.Passage.{Passage as Passed};

    /// The passage of a state.
    ghost passage_of: { Self → Passed };

    /// Returns the passage of the process.
    fn passage(&self) -> &Passage
        ensures { result.now ≡ passage_of self.now };
}

/// Returns the lowest process that is inside, other than this one, of the first `processes` of these states.
pub fn other_inside<S: HasPassage>(states: &[S], processes: u8, process: u8) -> Option<u8>
    requires { processes ≤ length states.now }
    ensures { OfPassages S.passage_of states.now
        (λ passage. result ≡ lowest_inside passage processes process) }
{
    for other in 0..processes {
        if is_other_inside(states, process, other) {
            return Some(other);
        }
    }
    None
}

/// Returns whether `other` is another process, and inside.
fn is_other_inside<S: HasPassage>(states: &[S], process: u8, other: u8) -> bool
    requires { other < length states.now }
    ensures { (passage : ℕ → Passed) → Has S.passage_of states.now passage other →
        result ≡ inside passage process other }
{
    other != process && states[usize::from(other)].passage().inside
}

/// Returns the lowest process that is ahead of this one, of the first `processes` of these states.
pub fn other_ahead<S: HasPassage>(states: &[S], processes: u8, process: u8) -> Option<u8>
    requires processes { processes ≤ length states.now }
    requires process { process < length states.now }
    ensures { OfPassages S.passage_of states.now
        (λ passage. result ≡ lowest_ahead passage processes process) }
{
    for other in 0..processes {
        if is_ahead(states, process, other) {
            return Some(other);
        }
    }
    None
}

/// Returns whether `other` is ahead of a process.
fn is_ahead<S: HasPassage>(states: &[S], process: u8, other: u8) -> bool
    requires other { other < length states.now }
    requires process { process < length states.now }
    ensures { (passage : ℕ → Passed) → Has S.passage_of states.now passage other →
        Has S.passage_of states.now passage process → result ≡ ahead passage process other }
{
    other != process
        && waits_before(
            states[usize::from(other)].passage(),
            states[usize::from(process)].passage(),
        )
}

/// Returns whether a process waits since before the doorway of another began, or that has not begun.
fn waits_before(passage: &Passage, other: &Passage) -> bool
    ensures { result ≡ waited passage.now other.now }
{
    match (passage.waits, other.doorway) {
        (Some(wait), Some(begin)) => passage.waiting && wait < begin,
        (Some(_), None) => passage.waiting,
        (None, _) => false,
    }
}

/// Returns of each other process that is inside the entry with which it entered.
pub fn inside_since<S: HasPassage>(
    states: &[S],
    processes: u8,
    process: u8,
) -> [Option<u64>; MOST_PROCESSES]
    requires { processes ≤ length states.now }
    ensures { OfPassages S.passage_of states.now
        (λ passage. AreSince result (enter_inside passage processes process)) }
{
    let mut entries = [None; MOST_PROCESSES];
    for other in 0..MOST_PROCESSES {
        entries[other] = enter_inside(states, processes, process, other as u8);
    }
    entries
}

/// Returns the entry with which `other` entered, if it is another process that is inside.
fn enter_inside<S: HasPassage>(states: &[S], processes: u8, process: u8, other: u8) -> Option<u64>
    requires { processes ≤ length states.now }
    ensures { OfPassages S.passage_of states.now
        (λ passage. result ≡ enter_inside passage processes process other) }
{
    if other < processes && is_other_inside(states, process, other) {
        states[usize::from(other)].passage().enters
    } else {
        None
    }
}

/// Returns of each process that is ahead the entry with which it began to wait.
pub fn ahead_since<S: HasPassage>(
    states: &[S],
    processes: u8,
    process: u8,
) -> [Option<u64>; MOST_PROCESSES]
    requires processes { processes ≤ length states.now }
    requires process { process < length states.now }
    ensures { OfPassages S.passage_of states.now
        (λ passage. AreSince result (wait_ahead passage processes process)) }
{
    let mut entries = [None; MOST_PROCESSES];
    for other in 0..MOST_PROCESSES {
        entries[other] = wait_ahead(states, processes, process, other as u8);
    }
    entries
}

/// Returns the entry with which `other` began to wait, if it is ahead.
fn wait_ahead<S: HasPassage>(states: &[S], processes: u8, process: u8, other: u8) -> Option<u64>
    requires processes { processes ≤ length states.now }
    requires process { process < length states.now }
    ensures { OfPassages S.passage_of states.now
        (λ passage. result ≡ wait_ahead passage processes process other) }
{
    if other < processes && is_ahead(states, process, other) {
        states[usize::from(other)].passage().waits
    } else {
        None
    }
}
