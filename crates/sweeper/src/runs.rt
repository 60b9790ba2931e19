//! The continuation of a run after the event at which it is cut.
ghost use Rattle.std.specs.Prelude.{◌≡◌, ◌+◌, ◌*◌, ◌^◌, ◌<◌, ◌≤◌, length};
ghost use Rattle.sweeper.specs.Runners.{MakesCall, MakesCalls, MakesEnd, OfRun, RunsBy, at_rest, due};
ghost use Rattle.sweeper.specs.Rounds.{OthersRest};
ghost use Rattle.sweeper.specs.Sweeps.{cut_off, goes, most as most_of, round, rounds, steps_of};

use crate::audited_run::AuditedRun;
use crate::round_steps::RoundSteps;
use model::Event;
use plain_store::Command;
use world::Flicks;

/// The most rounds of a run, and the most steps of each of its calls.
fn limit() -> u32
    ensures { result ≡ most_of }
{
    65_536
}

impl AuditedRun {
    /// Makes steps of a process while it has one to make, at most `most`: each stretch within a register access at once, and
    /// each other step by itself.
    fn walk(&mut self, process: u8, value: bool, most: u32)
        requires room { due self.old + 16 < 2 ^ 64 }
        ensures follows { RunsBy self.old self.new (λ s. steps_of s process value most) }
        ensures bounded { due self.new ≤ due self.old }
        ensures setup { self.new.core.setup ≡ self.old.core.setup }
    {
        let flicks = Flicks::constant(value);
        let mut remaining = most;
        'steps: while 0 < remaining {
            let within = self.remaining(process).min(remaining);
            if within > 0 {
                self.run_on(process, &flicks, within);
                remaining -= within;
                continue;
            }
            if !self.step(process, value) {
                return;
            }
            remaining -= 1;
        }
    }

    /// Makes a process fail, makes the steps of its memory unit, and restarts the process.
    fn cut_off(&mut self, process: u8, value: bool)
        requires room { due self.old + 16 < 2 ^ 64 }
        ensures follows { RunsBy self.old self.new (λ s. cut_off s process value) }
        ensures bounded { due self.new ≤ due self.old }
        ensures setup { self.new.core.setup ≡ self.old.core.setup }
    {
        self.make(&Event::Fail(process));
        self.walk(process, value, limit());
        self.make(&Event::Restart(process));
    }

    /// Returns whether some process has a step to make.
    fn goes(&self, value: bool) -> bool
        ensures { OfRun self.now (λ s events. result ≡ goes s value events) }
    {
        for process in 0..self.processes() {
            if self.accepts(&Event::Step(process, value)) {
                return true;
            }
        }
        false
    }

    /// Makes a step of each process that has one to make, ascending. Returns which processes have made one.
    fn round(&mut self, value: bool) -> RoundSteps
        requires room { due self.old + 16 < 2 ^ 64 }
        ensures follows { RunsBy self.old self.new (λ s. round s value) }
        ensures others { OfRun self.old
            (λ s events. OthersRest s value result (round s value events)) }
        ensures bounded { due self.new ≤ due self.old }
        ensures setup { self.new.core.setup ≡ self.old.core.setup }
    {
        let mut stepped = RoundSteps::NoProcess;
        for process in 0..self.processes() {
            if self.step(process, value) {
                stepped = stepped.with(process);
            }
        }
        stepped
    }

    /// Makes rounds while some process has a step to make, at most `most`. If one process alone still makes steps, the
    /// remaining rounds are its steps, so it makes them by [`walk`](AuditedRun::walk).
    fn rounds(&mut self, value: bool, most: u32)
        requires room { due self.old + 16 < 2 ^ 64 }
        ensures follows { RunsBy self.old self.new (λ s. rounds s value most) }
        ensures bounded { due self.new ≤ due self.old }
        ensures setup { self.new.core.setup ≡ self.old.core.setup }
    {
        let mut remaining = most;
        'rounds: while 0 < remaining {
            remaining -= 1;
            match self.round(value) {
                RoundSteps::NoProcess => return,
                RoundSteps::One(process) => {
                    self.walk(process, value, remaining);
                    return;
                }
                RoundSteps::Several => {}
            }
        }
    }

    /// Makes a call and, if it is accepted, the steps of its process. Returns whether the process has one more to make.
    fn call(&mut self, process: u8, command: &Command, value: bool) -> bool
        requires room { due self.old + 32 < 2 ^ 64 }
        ensures run { MakesCall self.old process command.now value result self.new }
        ensures bounded { due self.new ≤ due self.old + 16 }
        ensures setup { self.new.core.setup ≡ self.old.core.setup }
    {
        if !self.make(&Event::Call(process, *command)) {
            return false;
        }
        self.walk(process, value, limit());
        self.accepts(&Event::Step(process, value))
    }

    /// Makes the calls in their order. Returns whether the run is stuck after them; `stuck` is whether it was before.
    fn calls(&mut self, calls: &[(u8, Command)], value: bool, stuck: bool) -> bool
        requires room { due self.old + 16 * length calls.now + 16 < 2 ^ 64 }
        ensures run { MakesCalls self.old stuck calls.now value result self.new }
        ensures setup { self.new.core.setup ≡ self.old.core.setup }
    {
        let mut stuck = stuck;
        for (process, command) in calls {
            stuck |= self.call(*process, command, value);
        }
        stuck
    }

    /// Makes a process fail here, and lets all processes continue until none has a step to make, for at most the limit of
    /// rounds.
    pub fn come_to_rest(&mut self, process: u8, value: bool)
        requires room { due self.old + 16 < 2 ^ 64 }
        ensures follows { RunsBy self.old self.new (λ s. at_rest s process value) }
        ensures bounded { due self.new ≤ due self.old }
        ensures setup { self.new.core.setup ≡ self.old.core.setup }
    {
        self.cut_off(process, value);
        self.rounds(value, limit());
    }

    /// Makes the calls that end the run. Returns whether the run is stuck: whether it met a limit before them or with them.
    pub fn end(&mut self, value: bool, calls: &[(u8, Command)]) -> bool
        requires room { due self.old + 16 * length calls.now + 16 < 2 ^ 64 }
        ensures run { MakesEnd self.old calls.now value result self.new }
        ensures setup { self.new.core.setup ≡ self.old.core.setup }
    {
        let stuck = self.goes(value);
        self.calls(calls, value, stuck)
    }
}
