//! A process with its memory.
ghost use Rattle.std.specs.Prelude.{◌≡◌, ◌<◌, ◌≤◌, IfSome, true};
ghost use Rattle.model.specs.{value_of};
ghost use Rattle.model.specs.declared.stages.Stage.TheVariants.{Waiting};
ghost use Rattle.registers.specs.{AreOf, applied, ends_overlapped};
ghost use Rattle.process.specs.Places.{changes_read, failed, remaining_at, marks_on, may_fail, may_step, stage_doing, stepped, withdrawn};
ghost use Rattle.process.specs.Serving.{answered_at, dropped, newest_of, overlapped_steps, steps_of};
ghost use Rattle.process.specs.Reporting.{changes_reported, marks_reported};

use super::Process;
use super::advance::go_on;
use crate::activity::Activity;
use crate::outcomes::StepOutcome;
use choices::Flicks;
use model::Access;
use registers::{AccessMade, AccessesMade, BitMemory, value_returned};

impl Process {
    /// Returns the number of its next accesses that are within a register access of its call. They have no mark, and none is
    /// the first of the call or the last of the register access.
    #[inline]
    pub fn remaining(&self) -> u32
        ensures { result ≡ remaining_at self.now }
    {
        match self.work {
            Activity::Runs if !(self.cursor.is_fresh() && self.called.is_reported()) => {
                self.cursor.remaining().saturating_sub(1)
            }
            _ => 0,
        }
    }

    /// Makes its next access on the memory, by this flick, and writes its outcome to `reported`. Returns the access, and whether
    /// it ended a read that a write overlapped.
    #[inline]
    pub fn step(
        &mut self,
        memory: &mut BitMemory,
        flick: bool,
        reported: &mut StepOutcome,
    ) -> AccessMade
        requires enabled { may_step self.old.doing ≡ true }
        requires memory { AreOf self.old.setup memory.old }
        ensures access { result.access ≡ answered_at self.old memory.old flick }
        ensures overlapped { result.overlapped
            ≡ ends_overlapped self.old.setup.processes memory.old result.access }
        ensures process { self.new ≡ stepped self.old flick (value_of result.access.how) }
        ensures marks { marks_reported reported.new
            ≡ marks_on self.old flick (value_of result.access.how) }
        ensures changes { IfSome (changes_reported reported.new)
            (λ changes. changes ≡ changes_read self.old.doing) }
        ensures memory { memory.new ≡ applied self.old.setup.processes memory.old result.access }
    {
        let fresh = self.cursor.is_fresh();
        let made = memory.step(&mut self.cursor, &mut Flicks::only(flick));
        *reported = go_on(&mut self.called, &mut self.work, &mut self.cursor, fresh);
        made
    }

    /// Returns the access that its next step would make on the memory by this flick. Nothing changes.
    #[inline]
    pub fn next_access(&self, memory: &BitMemory, flick: bool) -> Access
        requires enabled { may_step self.now.doing ≡ true }
        requires memory { AreOf self.now.setup memory.now }
        ensures { result ≡ answered_at self.now memory.now flick }
    {
        memory.next_access(&self.cursor, flick)
    }

    /// Returns the access that its next step would make on the memory by this flick, and its outcome. Nothing changes, and
    /// it does not allocate.
    pub fn next_step(&self, memory: &BitMemory, flick: bool) -> (Access, StepOutcome)
        requires enabled { may_step self.now.doing ≡ true }
        requires memory { AreOf self.now.setup memory.now }
        ensures access { result.0 ≡ answered_at self.now memory.now flick }
        ensures marks { marks_reported result.1 ≡ marks_on self.now flick (value_of result.0.how) }
        ensures changes { IfSome (changes_reported result.1)
            (λ changes. changes ≡ changes_read self.now.doing) }
    {
        let access = self.next_access(memory, flick);
        let reported = self.copied().advance(flick, value_returned(access.how));
        (access, reported)
    }

    /// Returns a copy of it.
    fn copied(&self) -> Process
        ensures { result ≡ self.now }
    {
        let mut process = Process::new(self.process(), &self.called.setup());
        process.copy_from(self);
        process
    }

    /// Makes `steps` steps within a register access, with the outcome `Nothing`, each by the next flick. Returns the newest
    /// access, and how many of them ended a read that a write overlapped.
    #[inline(always)]
    pub fn run(&mut self, memory: &mut BitMemory, flicks: &mut Flicks, steps: u32) -> AccessesMade
        requires nonzero { 0 < steps }
        requires remaining { steps ≤ remaining_at self.old }
        requires memory { AreOf self.old.setup memory.old }
        ensures steps { (self.new, memory.new, flicks.new)
            ≡ steps_of steps (self.old, memory.old, flicks.old) }
        ensures newest { result.newest ≡ newest_of steps (self.old, memory.old, flicks.old) }
        ensures overlapped { result.overlapped
            ≡ overlapped_steps steps (self.old, memory.old, flicks.old) }
    {
        memory.run(&mut self.cursor, flicks, steps)
    }

    /// Makes it give up waiting: its open read is dropped, and it will clear its ticket.
    pub fn withdraw(&mut self, memory: &mut BitMemory)
        requires waits { stage_doing self.old.doing ≡ Waiting }
        requires memory { AreOf self.old.setup memory.old }
        ensures process { self.new ≡ withdrawn self.old }
        ensures memory { memory.new ≡ dropped self.old memory.old }
    {
        self.drop_read(memory);
        self.give_up();
    }

    /// Makes it fail: its open read is dropped, and its memory unit starts.
    pub fn fail(&mut self, memory: &mut BitMemory)
        requires fails { may_fail self.old.doing ≡ true }
        requires memory { AreOf self.old.setup memory.old }
        ensures process { self.new ≡ failed self.old }
        ensures memory { memory.new ≡ dropped self.old memory.old }
    {
        self.drop_read(memory);
        self.cut();
    }

    /// Drops its open read on the memory, if it has one: the copy no longer knows of the read. A process that withdraws or
    /// fails does this before it gives up its call.
    pub fn drop_read(&self, memory: &mut BitMemory)
        requires { AreOf self.now.setup memory.old }
        ensures { memory.new ≡ dropped self.now memory.old }
    {
        if self.reads().is_some() {
            memory.drop_read(&self.cursor);
        }
    }
}
