ghost use Rattle.std.specs.Prelude.{◌≡◌, ◌^◌, ◌-◌, ◌<◌, false, refl};
ghost use Rattle.scenario.specs.files.declared.faults.Fault.TheVariants.{Memory};
ghost use Rattle.scenario_run.specs.Summaries.{CanCount, can_count_less, counted};
ghost use Rattle.scenario_run.specs.Writing.{Counts};

use crate::reports::{TurnReport, UnmarkedStep};
use crate::run_observers::RunObserver;
use model::Access;
use scenario::{DONE, Ending, Fault};
use world::Flicks;

/// The three numbers that a replay ends with.
#[derive(Clone, Copy)]
pub struct Summary {
    /// Events that were accepted.
    pub events: u64,
    /// Commands that were taken.
    pub taken: u64,
    /// Refusals that were reported.
    pub refused: u64,
}

impl Summary {
    /// Returns the numbers of a run in which nothing has happened.
    pub fn new() -> Summary
        ensures { result ≡ record { events = 0; taken = 0; refused = 0 } }
    {
        Summary {
            events: 0,
            taken: 0,
            refused: 0,
        }
    }

    /// Counts a report. The commands taken are counted at the end.
    pub fn count(&mut self, reported: &TurnReport)
        requires events { self.old.events < 2 ^ 64 - 1 }
        requires refused { self.old.refused < 2 ^ 64 - 1 }
        ensures { self.new ≡ counted reported.now self.old }
    {
        match reported {
            TurnReport::Accepted(_) => self.events += 1,
            TurnReport::Refused { .. } => self.refused += 1,
            TurnReport::Tired(_) | TurnReport::Shown(_) => {}
        }
    }
}

/// A replay that ends without a fault has the status `DONE`, whatever its numbers are.
impl Ending for Summary {
    ghost status_of_end = { λ _. 0 };

    fn status(&self) -> u8 {
        DONE
    }
}

/// A summary counts what it observes. Steps without a mark may be passed to it in groups.
impl RunObserver for Summary {
    ghost observes_steps = { λ _. false };

    #[inline(always)]
    fn observes_steps(&self) -> bool {
        false
    }

    fn event_count(&self) -> u64 {
        self.events
    }

    ghost HasRoom = { λ summary more. CanCount summary more };

    ghost Observes = { λ a s x y b. Counts s x a → Counts s y b };

    ghost Stops = { λ a s x y fault b. fault ≡ Memory };

    #[tactic(auto, using(crate::proofs::Counting::counts_observed))]
    fn observe(&mut self, reported: &TurnReport) -> Result<(), Fault> {
        self.count(reported);
        Ok(())
    }

    #[tactic(auto, using(crate::proofs::Counting::counts_stepped))]
    fn step(&mut self, _made: UnmarkedStep) -> Result<(), Fault> {
        self.events += 1;
        Ok(())
    }

    #[tactic(auto, using(crate::proofs::Counting::counts_passed))]
    fn pass(
        &mut self,
        _process: u8,
        _flicks: &Flicks,
        steps: u32,
        _newest: Access,
        _overlapped: u32,
    ) {
        self.events += u64::from(steps);
    }

    ghost room_less = { λ a n k. can_count_less a n k };

    ghost observes_nothing = { λ a s x counts. counts };

    ghost observes_on = { λ a b c s x y z p q counts. q (p counts) };

    ghost stops_unobserved = { λ a s x. refl };

    ghost stops_before = { λ a b s x y more fault p. p };

    ghost stops_on = { λ a b c s x y z fault p q. q };
}
