//! The next access of a process, and the state of the process after it.
ghost use Rattle.std.specs.Prelude.{◌≡◌, ◌&&◌, ◌∷◌, [], ℕ, Bool, IfSome, None, Some, cond, true};
ghost use Rattle.model.specs.declared.marks.Mark.TheVariants.{Left};
ghost use Rattle.model.specs.{settled_marks};
ghost use Rattle.laws.specs.{IsThere};
ghost use Rattle.process.specs.Alone.{IsOfRegister};
ghost use Rattle.process.specs.Places.{changes_at, changes_read, marks_on, may_step, stepped};
ghost use Rattle.process.specs.Serving.{next_at};
ghost use Rattle.process.specs.Reporting.{changes_reported, marks_reported};
ghost use Rattle.process.specs.Working.{AreMarksOn, IsMoved, IsStepped, KeepsPlace, reply_taken, state_at};

use super::Process;
use crate::activity::Activity;
use crate::call_part::CallPart;
use crate::entering::{begin_part, clear, part_over};
use crate::outcomes::StepOutcome;
use model::{Access, Field};
use plain_store::{Answer, Reply};
use registers::{Cursor, RegisterAccessKind};

impl Process {
    /// Returns the next access of the process or of its memory unit; the end of a read has no value yet.
    #[inline]
    pub fn next(&self, flick: bool) -> Access
        requires enabled { may_step self.now.doing ≡ true }
        ensures access { result ≡ next_at self.now flick }
        ensures in_range { IsThere self.now.setup result }
        ensures register { IsOfRegister self.now.setup self.now.process self.now.doing result }
    {
        self.cursor.next(self.work.value_for_next(flick, false))
    }

    /// Advances by that access, and returns its outcome. The end of a read returns `value`.
    #[inline]
    pub fn advance(&mut self, flick: bool, value: bool) -> StepOutcome
        requires enabled { may_step self.old.doing ≡ true }
        ensures process { self.new ≡ stepped self.old flick value }
        ensures marks { marks_reported result ≡ marks_on self.old flick value }
        ensures changes { IfSome (changes_reported result)
            (λ changes. changes ≡ changes_read self.old.doing) }
    {
        let fresh = self.cursor.is_fresh();
        let how = self.cursor.next(self.work.value_for_next(flick, value)).how;
        self.cursor.advance(how);
        go_on(&mut self.called, &mut self.work, &mut self.cursor, fresh)
    }
}

/// Advances the process after its cursor has made its next access. That was the first access of its register access if
/// the cursor was fresh before it.
pub(super) fn go_on(
    called: &mut CallPart,
    work: &mut Activity,
    cursor: &mut Cursor,
    fresh: bool,
) -> StepOutcome
    requires moved { IsMoved called.old work.old cursor.old fresh }
    ensures doing { IsStepped called.old work.old cursor.old fresh
        (state_at called.new work.new cursor.new) }
    ensures marks { AreMarksOn called.old work.old cursor.old fresh (marks_reported result) }
    ensures changes { IfSome (changes_reported result)
        (λ changes. (work.old ≡ Activity.Runs) × (changes ≡ changes_at called.old.part)) }
    ensures keeps { KeepsPlace called.new work.new cursor.new }
{
    match *work {
        Activity::Runs => run_on(called, work, cursor, fresh),
        Activity::Withdraws => withdraw_on(called, work, cursor),
        Activity::Settles { inside, taken } => settle_on(called, work, cursor, inside, &taken),
        Activity::Frees { inside } => free_on(called, work, cursor, inside, fresh),
        Activity::Lowers => lower_on(called, work, cursor),
        Activity::Rests | Activity::Lies => unreachable!(),
    }
}

/// Advances a process that runs its call: it continues with the next register access if this one is over.
fn run_on(
    called: &mut CallPart,
    work: &mut Activity,
    cursor: &mut Cursor,
    fresh: bool,
) -> StepOutcome
    requires runs { work.old ≡ Activity.Runs }
    requires moved { IsMoved called.old Activity.Runs cursor.old fresh }
    ensures doing { IsStepped called.old Activity.Runs cursor.old fresh
        (state_at called.new work.new cursor.new) }
    ensures marks { AreMarksOn called.old Activity.Runs cursor.old fresh (marks_reported result) }
    ensures changes { IfSome (changes_reported result)
        (λ changes. changes ≡ changes_at called.old.part) }
    ensures keeps { KeepsPlace called.new work.new cursor.new }
{
    if !cursor.is_over() {
        return outcome_of_first(fresh, called.leaves());
    }
    let reported = part_over(called, cursor);
    if called.is_over() {
        *work = Activity::Rests;
    } else {
        begin_part(called, cursor);
    }
    reported
}

/// Returns the outcome of an access that is not the last one: the first one may leave.
fn outcome_of_first(fresh: bool, leaves: bool) -> StepOutcome
    ensures marks { marks_reported result ≡ cond (leaves && fresh) (Left ∷ []) [] }
    ensures changes { changes_reported result ≡ None }
{
    if leaves && fresh {
        StepOutcome::Leaves
    } else {
        StepOutcome::Nothing
    }
}

/// Advances a process that gave up waiting and clears its ticket; then it has answered.
fn withdraw_on(called: &CallPart, work: &mut Activity, cursor: &Cursor) -> StepOutcome
    requires withdraws { work.old ≡ Activity.Withdraws }
    requires moved { (fresh : Bool) × IsMoved called.now Activity.Withdraws cursor.now fresh }
    ensures doing { (fresh : Bool) →
        IsStepped called.now Activity.Withdraws cursor.now fresh
        (state_at called.now work.new cursor.now) }
    ensures marks { (fresh : Bool) →
        AreMarksOn called.now Activity.Withdraws cursor.now fresh (marks_reported result) }
    ensures changes { changes_reported result ≡ None }
    ensures keeps { KeepsPlace called.now work.new cursor.now }
{
    if !cursor.is_over() {
        return StepOutcome::Nothing;
    }
    *work = Activity::Rests;
    StepOutcome::Answers(Answer::Withdrawn)
}

/// Advances a unit that settles the torn bit; then it clears the ticket.
fn settle_on(
    called: &CallPart,
    work: &mut Activity,
    cursor: &mut Cursor,
    inside: bool,
    taken: &Option<(bool, Reply)>,
) -> StepOutcome
    requires settles { work.old ≡ Activity.Settles inside taken.now }
    requires moved { (fresh : Bool)
        × IsMoved called.now (Activity.Settles inside taken.now) cursor.old fresh }
    ensures doing { (fresh : Bool) →
        IsStepped called.now (Activity.Settles inside taken.now) cursor.old fresh
        (state_at called.now work.new cursor.new) }
    ensures marks { (fresh : Bool) →
        AreMarksOn called.now (Activity.Settles inside taken.now) cursor.old fresh
        (marks_reported result) }
    ensures changes { changes_reported result ≡ None }
    ensures keeps { KeepsPlace called.now work.new cursor.new }
{
    if !cursor.is_over() {
        return StepOutcome::Nothing;
    }
    let value = value_settled(cursor);
    clear(called, cursor, Field::Ticket);
    *work = Activity::Frees { inside };
    outcome_of_settling(value, taken)
}

/// Returns the value at which a bit was settled.
fn value_settled(cursor: &Cursor) -> bool
    requires { (cut : ℕ) × (value : Bool)
        × (cursor.now.run ≡ RegisterAccessKind.Settles cut (Some value)) }
    ensures { (cut : ℕ) (value : Bool) →
        cursor.now.run ≡ RegisterAccessKind.Settles cut (Some value) → result ≡ value }
{
    match cursor.run() {
        RegisterAccessKind::Settles {
            value: Some(value),
            ..
        } => value,
        _ => unreachable!(),
    }
}

/// Returns the outcome of the last access of a settling at `value`.
fn outcome_of_settling(value: bool, taken: &Option<(bool, Reply)>) -> StepOutcome
    ensures marks { (begun : Bool) → IfSome taken.now (λ (t : Bool × Reply). t.0 ≡ begun) →
        marks_reported result ≡ settled_marks begun (reply_taken taken.now) value }
    ensures changes { changes_reported result ≡ None }
{
    match taken {
        Some((begun, reply)) if *begun == value => StepOutcome::SettlesAndTakes(value, *reply),
        _ => StepOutcome::Settles(value),
    }
}

/// Advances a unit that clears the ticket; then it clears the choosing bit.
fn free_on(
    called: &CallPart,
    work: &mut Activity,
    cursor: &mut Cursor,
    inside: bool,
    fresh: bool,
) -> StepOutcome
    requires frees { work.old ≡ Activity.Frees inside }
    requires moved { IsMoved called.now (Activity.Frees inside) cursor.old fresh }
    ensures doing { IsStepped called.now (Activity.Frees inside) cursor.old fresh
        (state_at called.now work.new cursor.new) }
    ensures marks { AreMarksOn called.now (Activity.Frees inside) cursor.old fresh
        (marks_reported result) }
    ensures changes { changes_reported result ≡ None }
    ensures keeps { KeepsPlace called.now work.new cursor.new }
{
    if !cursor.is_over() {
        return outcome_of_first(fresh, inside);
    }
    clear(called, cursor, Field::Choosing);
    *work = Activity::Lowers;
    outcome_of_first(fresh, inside)
}

/// Advances a unit that clears the choosing bit; then the process is down.
fn lower_on(called: &CallPart, work: &mut Activity, cursor: &Cursor) -> StepOutcome
    requires lowers { work.old ≡ Activity.Lowers }
    requires moved { (fresh : Bool) × IsMoved called.now Activity.Lowers cursor.now fresh }
    ensures doing { (fresh : Bool) →
        IsStepped called.now Activity.Lowers cursor.now fresh
        (state_at called.now work.new cursor.now) }
    ensures marks { (fresh : Bool) →
        AreMarksOn called.now Activity.Lowers cursor.now fresh (marks_reported result) }
    ensures changes { changes_reported result ≡ None }
    ensures keeps { KeepsPlace called.now work.new cursor.now }
{
    if !cursor.is_over() {
        return StepOutcome::Nothing;
    }
    *work = Activity::Lies;
    StepOutcome::Lies
}
