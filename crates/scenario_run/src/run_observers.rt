//! Observers, which observe a run while its scenario run makes it.
ghost use Rattle.std.specs.Prelude.{◌≡◌, ◌+◌, ◌<◌, ◌≤◌, ◌++◌, ℕ, List, ◌∷◌, Bool, false, OnOk, IfErr};
ghost use Rattle.plain_store.specs.{Setup};
ghost use Rattle.model.specs.declared.events.Event.TheVariants.{Step};
ghost use Rattle.scenario.specs.files.declared.faults.Fault.{Fault as WhyEnded};
ghost use Rattle.scenario.specs.files.declared.faults.Fault.TheVariants.{Memory};
ghost use Rattle.scenario_run.specs.Happenings.{Happening, Tries};
ghost use Rattle.scenario_run.specs.Observing.{ObservesPassing, ObservesReported, ObservesUnmarked, StopsBy, TakesRoom};

use crate::reports::{TurnReport, UnmarkedStep};
use model::Access;
use scenario::Fault;
use world::Flicks;

/// An observer, which observes a run. Two relations describe what it has observed between two moments: the happenings of a
/// run of a setup, from the first list of them to the second.
pub trait RunObserver {
    /// Whether the observer observes each Step without a mark. If not, those within a register access are passed in groups.
    ghost observes_steps: { Self → Bool };

    /// Returns whether the observer observes each Step without a mark.
    fn observes_steps(&self) -> bool
        ensures { result ≡ observes_steps self.now };

    /// Returns the number of events observed so far, for a progress observer.
    fn event_count(&self) -> u64;

    /// The observer has room for this number of things more.
    ghost HasRoom: { Self → ℕ → Type 0 };

    /// The observer has observed these happenings.
    ghost Observes: { Self → Setup → List Happening → List Happening → Self → Type 0 };

    /// The observer has observed a prefix of these happenings; then this fault occurred.
    ghost Stops: { Self → Setup → List Happening → List Happening → WhyEnded → Self → Type 0 };

    /// Observes what a turn reports.
    ///
    /// # Errors
    ///
    /// Returns the fault by which the observer stops. The relation `Stops` describes what it has then observed.
    fn observe(&mut self, reported: &TurnReport) -> Result<(), Fault>
        requires { HasRoom self.old 1 }
        ensures observed { OnOk result (ObservesReported Observes reported.now self.old self.new) }
        ensures room { OnOk result (TakesRoom HasRoom self.old 1 self.new) }
        ensures cut { IfErr result (λ fault.
            ObservesReported (StopsBy Stops fault) reported.now self.old self.new) };

    /// Observes a Step without a mark.
    ///
    /// # Errors
    ///
    /// Returns the fault by which the observer stops. The relation `Stops` describes what it has then observed.
    fn step(&mut self, made: UnmarkedStep) -> Result<(), Fault>
        requires { HasRoom self.old 1 }
        ensures observed { OnOk result (ObservesUnmarked Observes made self.old self.new) }
        ensures room { OnOk result (TakesRoom HasRoom self.old 1 self.new) }
        ensures cut { IfErr result (λ fault.
            ObservesUnmarked (StopsBy Stops fault) made self.old self.new) };

    /// Observes `steps` Steps of this process in one call. They are within a register access of its call and have no mark.
    /// Each was made by the next of `flicks`. The last of them made the access `newest`, and `overlapped` of them ended a
    /// read that a write overlapped.
    fn pass(&mut self, process: u8, flicks: &Flicks, steps: u32, newest: Access, overlapped: u32)
        requires nonzero { 0 < steps }
        requires room { HasRoom self.old steps }
        ensures observed { observes_steps self.old ≡ false →
            ObservesPassing Observes process flicks.now steps newest overlapped self.old self.new }
        ensures room { TakesRoom HasRoom self.old steps self.new };

    ghost room_less: { (a : Self) (n k : ℕ) → n ≤ k → HasRoom a k → HasRoom a n };

    ghost observes_nothing: { (a : Self) (s : Setup) (x : List Happening) → Observes a s x x a };

    ghost observes_on: { (a b c : Self) (s : Setup) (x y z : List Happening) → Observes a s x y b → Observes b s y z c → Observes a s x z c };

    /// A scenario run may run out of memory before the observer has observed anything.
    ghost stops_unobserved: { (a : Self) (s : Setup) (x : List Happening) → Stops a s x x Memory a };

    ghost stops_before: { (a b : Self) (s : Setup) (x y more : List Happening) (fault : WhyEnded) → Stops a s x y fault b → Stops a s x (more ++ y) fault b };

    ghost stops_on: { (a b c : Self) (s : Setup) (x y z : List Happening) (fault : WhyEnded) → Observes a s x y b → Stops b s y z fault c → Stops a s x z fault c };
}
