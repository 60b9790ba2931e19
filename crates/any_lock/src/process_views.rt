//! The state of a process, updated access by access and mark by mark.
ghost use Rattle.std.specs.Prelude.{◌≡◌, ◌<◌, ℕ, None, Some, IfErr, OnOk};
ghost use Rattle.plain_store.specs.declared.Setup.{Setup as Given};
ghost use Rattle.model.specs.declared.marks.Mark.TheVariants.{Called, Left};
ghost use Rattle.lock_stages.specs.{without_wait};
ghost use Rattle.any_lock.specs.Keeping.{IsRefusedFor, accessed, at_rest, marked, marked_all, refusal_on};
ghost use Rattle.any_lock.specs.Refusals.{mark_refusal};
ghost use Rattle.any_lock.specs.ProcessViews.{write_of as write_in};

use crate::refusals::MarkRefusal;
use lock_stages::{HasPassage, Passage};
use model::{Access, Mark, Stage};
use plain_store::{Command, NestedTypes, Reply, Setup};

/// An access that begins, and the number of its entry.
#[derive(Clone, Copy)]
pub struct BegunAccess {
    pub entry: u64,
    pub access: Access,
}

/// The state of a process after the entries so far. Entries are given by their numbers, from 0.
#[derive(Clone, Copy)]
pub struct ProcessView {
    pub stage: Stage,
    /// Whether its call was withdrawn.
    pub withdrawn: bool,
    /// The number of its last call: in version 2 the number of calls it has made, in version 1 always 0.
    pub number: u16,
    /// The command of its last call.
    pub command: Command,
    /// The reply with which its call has taken its command.
    pub reply: Option<Reply>,
    /// The access that it has open.
    pub opened: Option<BegunAccess>,
    /// The write that was open as it last failed, until it is settled.
    pub torn: Option<BegunAccess>,
    /// Its passage through the lock. A process that fails stays inside until its memory unit leaves.
    pub passage: Passage,
}

impl HasPassage for ProcessView {
    ghost passage_of = { λ process_view. process_view.passage };

    fn passage(&self) -> &Passage {
        &self.passage
    }
}

impl ProcessView {
    /// Returns the state without an entry.
    pub(crate) fn at_rest() -> ProcessView
        ensures { result ≡ at_rest }
    {
        ProcessView {
            stage: Stage::Idle,
            withdrawn: false,
            number: 0,
            command: Command::Ask,
            reply: None,
            opened: None,
            torn: None,
            passage: Passage::none(),
        }
    }

    /// Updates the state by the access of this entry.
    #[inline]
    pub(crate) fn make(&mut self, entry: u64, access: Access)
        ensures { self.new ≡ accessed entry self.old access }
    {
        if access.how.is_begin() {
            self.opened = Some(BegunAccess { entry, access });
        } else {
            self.opened = None;
        }
        if access.how.settles() {
            self.torn = None;
        }
        self.passage.access(entry);
    }

    /// Updates the state by the marks of this entry, or returns why the first refused one is refused.
    pub(crate) fn mark_all(
        &mut self,
        setup: &Setup,
        entry: u64,
        marks: &[Mark],
    ) -> Result<(), MarkRefusal>
        ensures marked { OnOk result (self.new ≡ marked_all setup.now entry self.old marks.now) }
        ensures allowed { OnOk result (refusal_on setup.now entry self.old marks.now ≡ None) }
        ensures refused { IfErr result (IsRefusedFor setup.now entry self.old marks.now) }
    {
        let _nested: NestedTypes = None;
        for mark in marks {
            if let Some(refusal) = self.refuses_mark(mark) {
                return Err(refusal);
            }
            self.mark(setup, entry, mark);
        }
        Ok(())
    }

    /// Updates the state by a mark of this entry, which is not refused.
    fn mark(&mut self, setup: &Setup, entry: u64, mark: &Mark)
        requires { mark_refusal self.old mark.now ≡ None }
        ensures { self.new ≡ marked setup.now entry self.old mark.now }
    {
        let _nested: NestedTypes = None;
        match mark {
            Mark::Called(command) => self.call(setup, command),
            Mark::Waiting(_) => {
                self.stage = Stage::Waiting;
                self.passage.wait(entry);
            }
            Mark::Entered => {
                self.stage = Stage::Inside;
                self.passage.enter(entry);
            }
            Mark::Taken(_, reply) => self.reply = Some(*reply),
            Mark::Left => self.leave(),
            Mark::Answered(_) | Mark::Restarted => self.stop_at(Stage::Idle),
            Mark::Failed => {
                self.stop_at(Stage::Settling);
                self.torn = write_of(self.opened);
                self.opened = None;
            }
            Mark::Settled(_) => {}
            Mark::Down => self.stop_at(Stage::Down),
            Mark::Withdrew => {
                self.stop_at(Stage::Leaving);
                self.withdrawn = true;
                self.opened = write_of(self.opened);
            }
        }
    }

    /// Updates the state by a call.
    fn call(&mut self, setup: &Setup, command: &Command)
        requires { self.old.number < 65535 }
        ensures { (entry : ℕ) → self.new ≡ marked setup.now entry self.old (Called command.now) }
    {
        let _nested: NestedTypes = None;
        self.stage = Stage::Doorway;
        self.withdrawn = false;
        self.number = if setup.version == 2 {
            self.number + 1
        } else {
            0
        };
        self.command = *command;
        self.reply = None;
        self.passage.call();
    }

    /// Updates the stage of a process that stops waiting and does not enter.
    fn stop_at(&mut self, stage: Stage)
        ensures { self.new
            ≡ record self.old { stage = stage; passage = without_wait self.old.passage } }
    {
        self.stage = stage;
        self.passage.stop_waiting();
    }

    /// Updates the state by leaving. While its memory unit settles, the process stays settling.
    fn leave(&mut self)
        ensures { (s : Given) (entry : ℕ) → self.new ≡ marked s entry self.old Left }
    {
        if self.stage != Stage::Settling {
            self.stage = Stage::Leaving;
        }
        self.passage.leave();
    }
}

/// Returns the open access, if it is a write.
fn write_of(opened: Option<BegunAccess>) -> Option<BegunAccess>
    ensures { result ≡ write_in opened }
{
    match opened {
        Some(begun) if begun.access.how.is_begin_of_write() => Some(begun),
        _ => None,
    }
}
