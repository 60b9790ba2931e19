//! The outcomes of runs that came to rest, for later runs that come to rest in a core that behaves alike.
ghost use Rattle.std.specs.Prelude.{◌≡◌, ◌+◌, ◌*◌, ◌^◌, ◌<◌, true, IfOk, IfSome, Ok, Some, length};
ghost use Rattle.plain_store.specs.{checked};
ghost use Rattle.sweeper.specs.Known.{AreOfSetup, AreUnknown, EndsRun, HasOutcome, LearnsFrom, are_commands};
ghost use Rattle.sweeper.specs.Runners.{MakesEnd, due};

use crate::audited_run::AuditedRun;
use plain_store::{Command, Setup};
use std::alloc::{AllocError, Global};
use std::marker::Model;
use world::Core;

/// The number of outcomes that a sweep keeps.
const KEPT: usize = 8;

/// A core, and whether a run that has it and continues by this flick is stuck after the calls.
#[derive(Drop)]
pub(crate) struct KnownOutcome {
    core: Core,
    value: bool,
    /// `None` before a run has ended.
    stuck: Option<bool>,
}

impl KnownOutcome {
    /// Makes the calls of a run, and becomes the outcome of the core that the run has before them. Returns whether the run
    /// is stuck.
    fn learn(&mut self, run: &mut AuditedRun, value: bool, calls: &[(u8, Command)]) -> bool
        requires setup { self.old.core.setup ≡ run.old.core.setup }
        requires room { due run.old + 16 * length calls.now + 16 < 2 ^ 64 }
        ensures outcome { self.new
            ≡ record { core = run.old.core; value = value; stuck = Some result } }
        ensures run { MakesEnd run.old calls.now value result run.new }
        ensures setup { run.new.core.setup ≡ run.old.core.setup }
    {
        self.core.copy_from(run.core());
        self.value = value;
        let stuck = run.end(value, calls);
        self.stuck = Some(stuck);
        stuck
    }
}

/// The outcomes of the last eight runs that made their calls. It does not allocate after its creation.
///
/// Contracts see the list of the outcomes.
#[derive(Drop)]
pub(crate) struct KnownOutcomes {
    known: Vec<KnownOutcome>,
    /// The outcome that the next one replaces.
    oldest: usize,
}

impl Model for KnownOutcomes {
    ghost use Rattle.std.specs.Prelude.{◌<◌, List, length};
    ghost use Rattle.sweeper.specs.declared.known_outcomes.KnownOutcome.{KnownOutcome};

    ghost Value = { List KnownOutcome };

    ghost view = { λ k. k.known.items };

    ghost invariant = { λ k. k.oldest < length k.known.items };
}

impl KnownOutcomes {
    /// Creates a table without an outcome.
    ///
    /// # Errors
    ///
    /// Returns [`AllocError`] if an allocation fails; there is no other error.
    pub fn new(alloc: Global, setup: &Setup) -> Result<KnownOutcomes, AllocError>
        requires { checked setup.now ≡ Ok tt }
        ensures { IfOk result (λ known. AreUnknown setup.now known) }
    {
        let mut known = Vec::new(alloc);
        'outcomes: while known.len() < KEPT {
            known.push(KnownOutcome {
                core: Core::new(alloc, setup)?,
                value: false,
                stuck: None,
            })?;
        }
        Ok(KnownOutcomes { known, oldest: 0 })
    }

    /// Ends a run that has come to rest, and returns whether it is stuck. If an outcome is known of a core that behaves alike
    /// ([`Core::is_alike`]), the run is stuck or not as that outcome states, and its calls are not made. Otherwise it makes
    /// its calls, and its outcome is known from then on.
    pub fn end(&mut self, run: &mut AuditedRun, value: bool, calls: &[(u8, Command)]) -> bool
        requires setup { AreOfSetup run.old.core.setup self.old }
        requires room { due run.old + 16 * length calls.now + 16 < 2 ^ 64 }
        ensures run { EndsRun run.old self.old calls.now value result }
        ensures known { LearnsFrom run.old calls.now self.old self.new }
        ensures setup { run.new.core.setup ≡ run.old.core.setup }
    {
        if let Some(stuck) = self.find(run, value) {
            commands_are_sound(calls);
            return stuck;
        }
        let stuck = self.known[self.oldest].learn(run, value, calls);
        self.oldest = (self.oldest + 1) % self.known.len();
        stuck
    }

    /// Returns the known outcome of a run, or `None` if no outcome is known of its flick and of a core that behaves alike.
    /// The auditor of the run must have found all entries good, and its core must behave like the core of the run. So each
    /// run is audited up to its calls.
    fn find(&self, run: &AuditedRun, value: bool) -> Option<bool>
        requires setup { AreOfSetup run.now.core.setup self.now }
        ensures { IfSome result (λ stuck. HasOutcome self.now run.now.core value stuck) }
    {
        for known in self.known.iter() {
            if known.value == value && known.core.is_alike(run.core()) && run.is_as_audited() {
                return known.stuck;
            }
        }
        None
    }
}

/// Does nothing. Its contract states that the commands of calls are commands.
fn commands_are_sound(calls: &[(u8, Command)])
    ensures { are_commands calls.now ≡ true }
{
    for (_, command) in calls {
        command.operands_are_sound();
    }
}
