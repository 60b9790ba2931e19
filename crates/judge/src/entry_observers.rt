//! Observers of the entries of a record file.
ghost use Rattle.std.specs.Prelude.{◌≡◌, ◌-◌, ◌^◌, ◌<◌, ◌∷◌, ◌++◌, [], IfOk, List, Ok, OnOk, length, ℕ};
ghost use Rattle.plain_store.specs.{checked};
ghost use Rattle.auditor.specs.safe_monitor.{entry_by};

use model::{Access, Mark};
use plain_store::Setup;
use std::alloc::{AllocError, Global};

/// The report on a record: a text, and an exit status.
#[derive(Drop)]
pub struct Reporting {
    pub text: Vec<u8>,
    pub status: u8,
}

/// An observer of the entries of a record, each with the number of its line. It then gives a report on them.
pub trait EntryObserver: Sized + Drop {
    ghost use Rattle.plain_store.specs.declared.setups.Setup.{Setup as Given};
    ghost use Rattle.model.specs.{Entry as Noted};

    /// It has observed these entries of a record with this setup, and these are the numbers of their lines.
    ghost HasObserved: { Self → Given → List Noted → List ℕ → Type 0 };

    /// The number of entries that it has observed.
    ghost count: { Self → ℕ };

    /// This text and this status are the report on such a record.
    ghost Reports: { Given → List Noted → List ℕ → List ℕ → ℕ → Type 0 };

    /// Creates the observer before the first entry. Fails only if an allocation fails.
    fn begin(alloc: Global, setup: &Setup) -> Result<Self, AllocError>
        requires { checked setup.now ≡ Ok tt }
        ensures { IfOk result (λ observer. HasObserved observer setup.now [] []) };

    /// Observes one more entry, by its parts, which is in line `number`.
    ///
    /// # Errors
    ///
    /// Returns [`AllocError`] if memory runs out. Then it may observe no more entries.
    fn take(
        &mut self,
        alloc: Global,
        number: u64,
        process: u8,
        access: &Option<Access>,
        marks: &[Mark],
    ) -> Result<(), AllocError>
        requires { count self.old < 2 ^ 64 - 1 }
        ensures { OnOk result
            ((s : Given) (entries : List Noted) (numbers : List ℕ) →
            HasObserved self.old s entries numbers →
            HasObserved self.new s (entries ++ entry_by process access.now marks.now ∷ [])
            (numbers ++ number ∷ [])) };

    /// Returns the number of entries that it has observed.
    fn entries(&self) -> u64
        ensures { result ≡ count self.now };

    /// Returns the report on the entries so far. Fails only if an allocation fails.
    fn report(&self, alloc: Global) -> Result<Reporting, AllocError>
        ensures { IfOk result
            (λ reporting. (s : Given) (entries : List Noted) (numbers : List ℕ) →
            HasObserved self.now s entries numbers →
            Reports s entries numbers reporting.text.items reporting.status) };

    ghost counts: { (observer : Self) (s : Given) (entries : List Noted) (numbers : List ℕ) → HasObserved observer s entries numbers → count observer ≡ length entries };
}

/// An observer that finds out whether each entry so far keeps all laws.
pub trait Judging: EntryObserver {
    ghost use Rattle.std.specs.Prelude.{Bool, true, false};
    ghost use Rattle.plain_store.specs.declared.setups.Setup.{Setup as Given};
    ghost use Rattle.model.specs.{Entry as Noted};

    /// Each entry of such a record keeps all laws.
    ghost Keeps: { Given → List Noted → Type 0 };

    /// It finds that each entry does.
    ghost finds_good: { Self → Bool };

    /// Returns whether each entry so far keeps all laws.
    fn is_good(&self) -> bool
        ensures { result ≡ finds_good self.now };

    ghost begins: { (s : Given) → Keeps s [] };

    ghost good: { (observer : Self) (s : Given) (entries : List Noted) (numbers : List ℕ) → Self.HasObserved observer s entries numbers → finds_good observer ≡ true → Keeps s entries };

    ghost bad: { (observer : Self) (s : Given) (entries : List Noted) (numbers : List ℕ) → Self.HasObserved observer s entries numbers → finds_good observer ≡ false → Keeps s entries → ⊥ };
}
