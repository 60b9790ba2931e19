//! Comparison of an entry with the entry that is expected.
ghost use Rattle.std.specs.Prelude.{◌≡◌, ◌↔◌, ℕ, true, false, IsTrue, Option, Some, None, map};
ghost use Rattle.std.specs.List.{list_any};
ghost use Rattle.model.specs.{placed};
ghost use Rattle.world.specs.process.{marks_reported};
ghost use Rattle.auditor.specs.Observing.{CountsOn, IsCount, ReportsAlike, event_in, flick_in};
ghost use Rattle.auditor.specs.Verdicts.{reports_event};
ghost use Rattle.auditor.specs.Observing.{AreAt};
ghost use Rattle.safe_monitor.specs.{entry_by};

use model::{Access, Entry, Event, Field, Mark, Move};
use plain_store::{Answer, Command, Name, Reply, Text, Value};
use std::alloc::Global;
use world::{StepOutcome, step_marks};

/// Returns the flick that an access determines, or false if there is no access.
#[inline]
pub(crate) fn flick_in(access: &Option<Access>) -> bool
    ensures { result ≡ flick_in access.now }
{
    match access {
        None => false,
        Some(access) => flick_of(*access),
    }
}

/// Returns the flick that an access determines: the value with which a read ends, or a write begins or is settled.
#[inline]
pub(crate) fn flick_of(access: Access) -> bool
    ensures { result ≡ flick_in (Some access) }
{
    match access.how {
        Move::BeginWrite(value) | Move::EndRead(value) | Move::Settle(value) => value,
        Move::EndWrite | Move::BeginRead => false,
    }
}

/// Returns the event other than a step that an entry may be of.
#[inline]
pub fn event_in(process: u8, access: &Option<Access>, marks: &[Mark]) -> Option<Event>
    ensures { result ≡ event_in (entry_by process access.now marks.now) }
{
    if access.is_some() || marks.len() != 1 {
        return None;
    }
    match marks[0] {
        Mark::Called(command) => Some(Event::Call(process, command)),
        Mark::Failed => Some(Event::Fail(process)),
        Mark::Withdrew => Some(Event::Withdraw(process)),
        Mark::Restarted => Some(Event::Restart(process)),
        _ => None,
    }
}

/// Returns whether one of the marks is that of an event other than a step.
pub fn reports_event(marks: &[Mark]) -> bool
    ensures { result ≡ list_any reports_event marks.now }
{
    marks.iter().any(|mark| {
        matches!(
            mark,
            Mark::Called(_) | Mark::Failed | Mark::Withdrew | Mark::Restarted
        )
    })
}

/// Returns whether an entry with this access and these marks is, except for positions, that of a step which made the access
/// `made` and leads to `reported`.
#[inline]
pub(crate) fn is_alike(
    alloc: Global,
    access: &Option<Access>,
    marks: &[Mark],
    made: &Access,
    reported: &StepOutcome,
) -> bool
    ensures { ReportsAlike access.now marks.now made.now reported.now result }
{
    is_access(access, made) && are_reported(alloc, marks, reported)
}

/// Returns whether an entry's access exists and equals `access`.
fn is_access(reported: &Option<Access>, access: &Access) -> bool
    ensures { IsTrue result ↔ (reported.now ≡ Some access.now) }
{
    match reported {
        None => false,
        Some(reported) => is_that(*reported, *access),
    }
}

/// Returns whether two accesses are equal.
#[inline]
pub(crate) fn is_that(access: Access, that: Access) -> bool
    ensures { IsTrue result ↔ (access ≡ that) }
{
    access == that
}

/// Returns whether the marks are those that a step leads to, except for positions.
#[inline]
fn are_reported(alloc: Global, marks: &[Mark], reported: &StepOutcome) -> bool
    ensures { IsTrue result
        ↔ (map (placed 0) marks.now ≡ map (placed 0) (marks_reported reported.now)) }
{
    match reported {
        StepOutcome::Nothing => marks.is_empty(),
        _ => are_those_of(alloc, marks, reported),
    }
}

/// Returns whether the marks are those that a step leads to, except for positions, if it leads to something. Few steps do,
/// and for the others no room should be made for marks.
#[inline(never)]
fn are_those_of(alloc: Global, marks: &[Mark], reported: &StepOutcome) -> bool
    ensures { IsTrue result
        ↔ (map (placed 0) marks.now ≡ map (placed 0) (marks_reported reported.now)) }
{
    are_alike(marks, &step_marks(alloc, reported, 0))
}

/// Returns whether two lists of marks are equal, except for positions.
fn are_alike(marks: &[Mark], others: &[Mark]) -> bool
    ensures { IsTrue result ↔ (map (placed 0) marks.now ≡ map (placed 0) others.now) }
{
    if marks.len() != others.len() {
        return false;
    }
    for at in 0..marks.len() {
        if !is_same(&unplaced(&marks[at]), &unplaced(&others[at])) {
            return false;
        }
    }
    true
}

/// Returns whether two marks are equal.
fn is_same(mark: &Mark, other: &Mark) -> bool
    ensures { IsTrue result ↔ (mark.now ≡ other.now) }
{
    mark == other
}

/// Returns the mark, with the position 0 if it has a position.
fn unplaced(mark: &Mark) -> Mark
    ensures { result ≡ placed 0 mark.now }
{
    match mark {
        Mark::Taken(_, reply) => Mark::Taken(0, *reply),
        other => *other,
    }
}

/// Returns whether `count` commands were taken. A count of `None` is 2^64 or more.
fn is_count(taken: Option<u64>, count: u64) -> bool
    ensures { (n : ℕ) → IsCount taken n → IsTrue result ↔ (count ≡ n) }
{
    match taken {
        None => false,
        Some(taken) => count == taken,
    }
}

/// Returns whether each command that the marks take has the position after the `taken` earlier commands.
#[inline]
pub(crate) fn are_at(marks: &[Mark], taken: Option<u64>) -> bool
    ensures { (n : ℕ) → IsCount taken n → IsTrue result ↔ AreAt n marks.now }
{
    for mark in marks {
        if let Mark::Taken(place, _) = mark {
            if !is_count(taken, *place) {
                return false;
            }
        }
    }
    true
}

/// Returns how many commands were taken, after what a step leads to.
#[inline]
pub(crate) fn more(taken: Option<u64>, reported: &StepOutcome) -> Option<u64>
    ensures { CountsOn taken reported.now result }
{
    if reported.reply().is_none() {
        return taken;
    }
    match taken {
        None => None,
        Some(count) => count.checked_add(1),
    }
}
