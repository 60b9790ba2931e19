//! The state of one process.
ghost use Rattle.std.specs.Prelude.{◌≡◌, ◌<◌, ℕ, [], IfSome, None, Ok, Some, cond, true};
ghost use Rattle.model.specs.{Field, is_at_door, is_read, is_waiting_stage, read_at};
ghost use Rattle.plain_store.specs.{checked};
ghost use Rattle.laws.specs.{is_inside, reads_of};
ghost use Rattle.process.specs.Places.{called, changes_pending, may_step, process_after, restarted, stage_doing};

mod advance;
mod alone;
mod cut;
mod looking;
mod refusals;
mod serving;

use crate::access_request::AccessRequest;
use crate::activity::Activity;
use crate::call_part::CallPart;
use crate::entering::begin_part;
use model::{Field, Stage};
use plain_store::{Command, Setup};
use registers::Cursor;
use std::marker::Model;

/// One process: its last call with the present part, and the cursor of its register access. It does not allocate.
#[derive(Drop)]
pub struct Process {
    called: CallPart,
    work: Activity,
    cursor: Cursor,
}

impl Model for Process {
    ghost use Rattle.process.specs.Places.{ProcessState};
    ghost use Rattle.process.specs.Working.{KeepsPlace, state_at};

    ghost Value = { ProcessState };

    ghost view = { λ q. state_at q.called q.work q.cursor };

    ghost invariant = { λ q. KeepsPlace q.called q.work q.cursor };
}

impl Process {
    /// Creates a process that has made no call.
    pub fn new(process: u8, setup: &Setup) -> Process
        requires good { checked setup.now ≡ Ok tt }
        requires process { process < setup.now.processes }
        ensures { result ≡ process_after setup.now [] process }
    {
        Process {
            called: CallPart::new(setup, process, Command::Ask, 0),
            work: Activity::Rests,
            cursor: Cursor::idle(),
        }
    }

    /// Returns the number of the process.
    pub fn process(&self) -> u8
        ensures process { result ≡ self.now.process }
        ensures in_range { result < self.now.setup.processes }
    {
        self.called.process()
    }

    /// Returns the command of its last call.
    pub fn command(&self) -> Command
        ensures { result ≡ self.now.command }
    {
        self.called.command()
    }

    /// Returns the number of its last call.
    pub fn number(&self) -> u16
        ensures { result ≡ self.now.number }
    {
        self.called.number()
    }

    /// Returns its stage: idle, in its doorway, waiting, inside, leaving, settling or down.
    pub fn stage(&self) -> Stage
        ensures { result ≡ stage_doing self.now.doing }
    {
        match self.work {
            Activity::Rests => Stage::Idle,
            Activity::Lies => Stage::Down,
            Activity::Runs => self.called.stage(self.cursor.is_fresh()),
            Activity::Withdraws => Stage::Leaving,
            Activity::Settles { .. } | Activity::Frees { .. } | Activity::Lowers => Stage::Settling,
        }
    }

    /// Returns whether it waits.
    #[inline]
    pub fn is_waiting(&self) -> bool
        ensures { result ≡ is_waiting_stage (stage_doing self.now.doing) }
    {
        self.stage().is_waiting()
    }

    /// Returns whether it is in its doorway or waits.
    #[inline]
    pub fn is_at_door(&self) -> bool
        ensures { result ≡ is_at_door (stage_doing self.now.doing) }
    {
        self.stage().is_at_door()
    }

    /// Returns whether it, or its memory unit on its behalf, is inside the critical section.
    pub fn is_inside(&self) -> bool
        ensures { result ≡ is_inside self.now.doing }
    {
        match self.work {
            Activity::Runs => self.called.is_inside(self.cursor.is_fresh()),
            Activity::Settles { inside, .. } => inside,
            Activity::Frees { inside } => inside && self.cursor.is_fresh(),
            _ => false,
        }
    }

    /// Returns whether it has a next access: it runs, or its memory unit works.
    #[inline]
    pub fn goes(&self) -> bool
        ensures { result ≡ may_step self.now.doing }
    {
        !matches!(self.work, Activity::Rests | Activity::Lies)
    }

    /// Returns the register that it reads, with its owner; `None` if it reads no register. When the process gives up waiting
    /// or fails, the owner of the memory drops its read of that register.
    pub fn reads(&self) -> Option<(u8, Field)>
        ensures register { result ≡ reads_of self.now.setup self.now.process self.now.doing }
        ensures in_range { IfSome result
            (λ (register : ℕ × Field). register.0 < self.now.setup.processes) }
    {
        match self.work {
            Activity::Runs => register_read(&self.called),
            _ => None,
        }
    }

    /// Returns the greatest stamp that it has read, while it writes a change of the store: the number of changes taken before
    /// that one.
    pub fn changes_pending(&self) -> Option<u32>
        ensures { result ≡ changes_pending self.now.setup self.now.process self.now.doing }
    {
        match self.work {
            Activity::Runs => self.called.changes_pending(),
            _ => None,
        }
    }

    /// Begins a call.
    pub fn call(&mut self, command: Command, number: u16)
        ensures { self.new ≡ called self.old command number }
    {
        self.called.start(command, number);
        self.work = Activity::Runs;
        begin_part(&self.called, &mut self.cursor);
    }

    /// Restarts a process that was down, so that it may call again.
    pub fn restart(&mut self)
        ensures { self.new ≡ restarted self.old }
    {
        self.work = Activity::Rests;
    }

    /// Makes this process equal to the other one, which has the same setup. It does not allocate.
    pub fn copy_from(&mut self, other: &Process)
        requires setup { self.old.setup ≡ other.now.setup }
        ensures { self.new ≡ other.now }
    {
        self.called.copy_from(&other.called);
        self.work = other.work;
        self.cursor.copy_from(&other.cursor);
    }

    /// Returns whether both processes are at rest, idle or down, and are equal: the process, its last command and its
    /// number. It returns `false` if one of them has an access to make, because it compares no cursors.
    pub fn is_same(&self, other: &Process) -> bool
        requires setup { self.now.setup ≡ other.now.setup }
        ensures { result ≡ true → self.now ≡ other.now }
    {
        let rests = match self.work {
            Activity::Rests => matches!(other.work, Activity::Rests),
            Activity::Lies => matches!(other.work, Activity::Lies),
            _ => false,
        };
        rests && self.called.is_same_call(&other.called)
    }
}

/// Returns the register that a part reads, with its owner.
fn register_read(called: &CallPart) -> Option<(u8, Field)>
    ensures register { result
        ≡ cond (is_read called.now.part) (Some (read_at called.now.call called.now.part)) None }
    ensures in_range { IfSome result
        (λ (register : ℕ × Field). register.0 < called.now.call.setup.processes) }
{
    match called.asks() {
        AccessRequest::Reads { owner, field } => Some((owner, field)),
        _ => None,
    }
}
