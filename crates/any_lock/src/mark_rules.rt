//! The refusals of a mark, by the state of its process.
ghost use Rattle.std.specs.Prelude.{◌≡◌, ◌||◌, ◌∷◌, [], ℕ, Bool};
ghost use Rattle.plain_store.specs.declared.Command.{Command as Asked};
ghost use Rattle.plain_store.specs.declared.Reply.{Reply as Replied};
ghost use Rattle.model.specs.declared.marks.Mark.TheVariants.{Answered, Called, Down, Settled, Taken};
ghost use Rattle.model.specs.{is_down, is_settling};
ghost use Rattle.any_lock.specs.Refusals.{first_that, has_other_reply, is_reply as answers_reply, is_withdrawn, mark_refusal, same_reply, must_be_alone as is_alone};

use crate::process_views::ProcessView;
use crate::refusals::MarkRefusal;
use model::Mark;
use plain_store::{Answer, NestedTypes, Reply};

/// The most calls of a process in version 2.
const MOST_CALLS: u16 = 65_535;

impl ProcessView {
    /// Returns why a mark of its process is refused, if it is.
    pub(crate) fn refuses_mark(&self, mark: &Mark) -> Option<MarkRefusal>
        ensures { result ≡ mark_refusal self.now mark.now }
    {
        let _nested: NestedTypes = None;
        match mark {
            Mark::Called(_command) => self.refuses_call(),
            Mark::Failed => refused_if(self.has_failed(), MarkRefusal::AlreadyFailed),
            Mark::Withdrew | Mark::Entered => {
                refused_if(!self.stage.is_waiting(), MarkRefusal::NotWaiting)
            }
            Mark::Restarted => refused_if(!self.stage.is_down(), MarkRefusal::NotDown),
            Mark::Waiting(_) => {
                refused_if(!self.stage.is_in_doorway(), MarkRefusal::NotInDoorway)
            }
            Mark::Left => refused_if(!self.passage.inside, MarkRefusal::NotInside),
            Mark::Taken(_place, _reply) => self.refuses_taking(),
            Mark::Answered(answer) => self.refuses_answer(answer),
            Mark::Settled(_value) => self.refuses_settled(),
            Mark::Down => self.refuses_down(),
        }
    }

    /// Returns why a call is refused, if it is.
    fn refuses_call(&self) -> Option<MarkRefusal>
        ensures { (c : Asked) → result ≡ mark_refusal self.now (Called c) }
    {
        if self.stage.is_running() {
            Some(MarkRefusal::Busy)
        } else if self.has_failed() {
            Some(MarkRefusal::IsDown)
        } else if self.number >= MOST_CALLS {
            Some(MarkRefusal::CallsFull)
        } else {
            None
        }
    }

    /// Returns why taking a command is refused, if it is.
    fn refuses_taking(&self) -> Option<MarkRefusal>
        ensures { (n : ℕ) (reply : Replied) → result ≡ mark_refusal self.now (Taken n reply) }
    {
        if !self.passage.inside {
            Some(MarkRefusal::NotInside)
        } else if self.reply.is_some() {
            Some(MarkRefusal::TakenBefore)
        } else {
            None
        }
    }

    /// Returns why an answer is refused, if it is.
    fn refuses_answer(&self, answer: &Answer) -> Option<MarkRefusal>
        ensures { result ≡ mark_refusal self.now (Answered answer.now) }
    {
        let _nested: NestedTypes = None;
        let withdrawn = is_withdrawn(answer);
        if !(self.stage.is_in_doorway() || self.stage.is_leaving()) {
            Some(MarkRefusal::NotLeaving)
        } else if self.withdrawn && !withdrawn {
            Some(MarkRefusal::WasWithdrawn)
        } else if has_other_reply(&self.reply, answer) {
            Some(MarkRefusal::OtherReply)
        } else if self.reply.is_none() && is_reply(answer) {
            Some(MarkRefusal::NotTaken)
        } else if !self.withdrawn && withdrawn {
            Some(MarkRefusal::NotWithdrawn)
        } else if self.opened.is_some() {
            Some(MarkRefusal::AccessOpen)
        } else {
            None
        }
    }

    /// Returns why the mark that its unit has settled a bit is refused, if it is.
    fn refuses_settled(&self) -> Option<MarkRefusal>
        ensures { (value : Bool) → result ≡ mark_refusal self.now (Settled value) }
    {
        if !self.stage.is_settling() {
            Some(MarkRefusal::NotSettling)
        } else if self.torn.is_some() {
            Some(MarkRefusal::Torn)
        } else {
            None
        }
    }

    /// Returns why the end of its unit's work is refused, if it is.
    fn refuses_down(&self) -> Option<MarkRefusal>
        ensures { result ≡ mark_refusal self.now Down }
    {
        if !self.stage.is_settling() {
            Some(MarkRefusal::NotSettling)
        } else if self.passage.inside {
            Some(MarkRefusal::StillInside)
        } else if self.opened.is_some() {
            Some(MarkRefusal::AccessOpen)
        } else if self.torn.is_some() {
            Some(MarkRefusal::Torn)
        } else {
            None
        }
    }

    /// Returns whether it has failed and was not restarted.
    fn has_failed(&self) -> bool
        ensures { result ≡ (is_settling self.now.stage || is_down self.now.stage) }
    {
        self.stage.is_settling() || self.stage.is_down()
    }
}

/// Returns this refusal if `holds` is true.
fn refused_if(holds: bool, refusal: MarkRefusal) -> Option<MarkRefusal>
    ensures { result ≡ first_that ((holds, refusal) ∷ []) }
{
    if holds { Some(refusal) } else { None }
}

/// Returns whether a mark must be alone: without an access and without another mark.
pub(crate) fn must_be_alone(mark: &Mark) -> bool
    ensures { result ≡ is_alone mark.now }
{
    matches!(
        mark,
        Mark::Called(_) | Mark::Failed | Mark::Withdrew | Mark::Restarted
    )
}

/// Returns whether an answer is that of a withdrawal.
fn is_withdrawn(answer: &Answer) -> bool
    ensures { result ≡ is_withdrawn answer.now }
{
    let _nested: NestedTypes = None;
    matches!(answer, Answer::Withdrawn)
}

/// Returns whether an answer is a reply.
fn is_reply(answer: &Answer) -> bool
    ensures { result ≡ answers_reply answer.now }
{
    let _nested: NestedTypes = None;
    matches!(answer, Answer::Reply(_))
}

/// Returns whether a command was taken with another reply than this answer.
fn has_other_reply(taken: &Option<Reply>, answer: &Answer) -> bool
    ensures { result ≡ has_other_reply taken.now answer.now }
{
    let _nested: NestedTypes = None;
    match (taken, answer) {
        (None, _) => false,
        (Some(taken), Answer::Reply(reply)) => !same_reply(reply, taken),
        (Some(_), _) => true,
    }
}

/// Returns whether two replies are equal.
pub(crate) fn same_reply(reply: &Reply, other: &Reply) -> bool
    ensures { result ≡ same_reply reply.now other.now }
{
    let _nested: NestedTypes = None;
    reply == other
}
