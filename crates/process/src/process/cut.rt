//! Withdrawals and failures of a process.
ghost use Rattle.std.specs.Prelude.{◌≡◌, IfSome, true};
ghost use Rattle.model.specs.declared.Stage.TheVariants.{Waiting};
ghost use Rattle.process.specs.Places.{failed, may_fail, stage_doing, withdrawn};
ghost use Rattle.process.specs.Working.{IsOfCommit, is_torn_at, reply_taken, taken_at};

use super::Process;
use crate::activity::Activity;
use crate::call_part::CallPart;
use crate::entering::clear;
use model::Field;
use plain_store::Reply;
use registers::Cursor;

impl Process {
    /// Makes the process give up waiting and begin to clear its ticket. The owner of the memory must drop its open read, if
    /// it has one.
    pub fn give_up(&mut self)
        requires waiting { stage_doing self.old.doing ≡ Waiting }
        ensures process { self.new ≡ withdrawn self.old }
    {
        self.clear_ticket();
    }

    /// Halts the process and starts its memory unit, which settles the torn bit, or has none to settle. The owner of the
    /// memory must drop an open read of the process, if it has one.
    pub fn cut(&mut self)
        requires may { may_fail self.old.doing ≡ true }
        ensures process { self.new ≡ failed self.old }
    {
        let inside = self.is_inside();
        if is_torn(&self.work, &self.cursor) {
            let taken = takes(&self.called, &self.work);
            self.work = Activity::Settles { inside, taken };
            self.cursor.settle();
        } else {
            self.work = Activity::Frees { inside };
            clear(&self.called, &mut self.cursor, Field::Ticket);
        }
    }
}

/// Returns whether the process writes, and its present bit has begun and has not ended on every copy.
fn is_torn(work: &Activity, cursor: &Cursor) -> bool
    ensures { result ≡ is_torn_at work.now cursor.now }
{
    matches!(work, Activity::Runs | Activity::Withdraws) && cursor.is_torn()
}

/// Returns the new value of the commit bit, at which the command is taken, and the reply, while the process writes it.
fn takes(called: &CallPart, work: &Activity) -> Option<(bool, Reply)>
    ensures reply { reply_taken result ≡ taken_at called.now work.now }
    ensures commit { IfSome result (IsOfCommit called.now work.now) }
{
    match work {
        Activity::Runs => called.takes(),
        _ => None,
    }
}
