//! Judges of records.
ghost use Rattle.std.specs.Prelude.{◌≡◌, ◌+◌, ◌-◌, ◌^◌, ◌<◌, ◌∷◌, ◌++◌, [], IfOk, List, Ok, length, ℕ};
ghost use Rattle.plain_store.specs.{checked};
ghost use Rattle.auditor.specs.safe_monitor.declared.verdicts.Verdict.TheVariants.{Bad, Good};
ghost use Rattle.auditor.specs.safe_monitor.{entry_by, is_good};
ghost use Rattle.judge.specs.Explanations.{GivesReasons};

use any_lock::{Audited, NamedLaw};
use model::{Access, Entry, Mark};
use plain_store::Setup;
use std::alloc::{AllocError, Global};

/// A judge of records. It observes the entries of a record one by one, in memory of a fixed size, by laws of its own.
pub trait RecordJudge: Sized + Drop {
    ghost use Rattle.plain_store.specs.declared.setups.Setup.{Setup as Given};
    ghost use Rattle.model.specs.{Entry as Noted, Past};
    ghost use Rattle.auditor.specs.safe_monitor.declared.verdicts.Verdict.{Verdict as Found};

    /// The laws that it checks.
    type Law: NamedLaw + Drop;

    /// This is the verdict on such a record.
    ghost IsVerdict: { Given → List Noted → Found Self.Law → Type 0 };

    /// These lines explain why an entry after such a past, which is in line `n`, breaks this law first.
    ghost AreReasons: { Self.Law → Given → Past → ℕ → Noted → List ℕ → Type 0 };

    /// It has observed these entries of a record with this setup.
    ghost HasJudged: { Self → Given → List Noted → Type 0 };

    /// Its verdict on them, and their number.
    ghost verdict: { Self → Found Self.Law };

    ghost count: { Self → ℕ };

    /// Creates the judge of a record that has no entry yet.
    ///
    /// # Errors
    ///
    /// Returns [`AllocError`] if memory runs out.
    fn begin(alloc: Global, setup: &Setup) -> Result<Self, AllocError>
        requires { checked setup.now ≡ Ok tt }
        ensures { IfOk result (λ judge. HasJudged judge setup.now []) };

    /// Observes one more entry, which may be any, by its parts. It does not allocate.
    fn observe(&mut self, process: u8, access: &Option<Access>, marks: &[Mark])
        requires { count self.old < 2 ^ 64 - 1 }
        ensures observed { (s : Given) (entries : List Noted) → HasJudged self.old s entries →
            HasJudged self.new s (entries ++ entry_by process access.now marks.now ∷ []) }
        ensures count { count self.new ≡ count self.old + 1 };

    /// Returns the verdict on the entries so far, and their number.
    fn judged(&self) -> Audited<Self::Law>
        ensures now { result.verdict ≡ verdict self.now }
        ensures count { result.entries ≡ count self.now }
        ensures verdict { (s : Given) (entries : List Noted) → HasJudged self.now s entries →
            IsVerdict s entries result.verdict }
        ensures entries { (s : Given) (entries : List Noted) → HasJudged self.now s entries →
            result.entries ≡ length entries };

    /// Returns whether each entry so far keeps all laws.
    fn is_good(&self) -> bool
        ensures { result ≡ is_good (verdict self.now) };

    /// Returns the lines that explain a bad verdict. `entry` is the entry that breaks a law, and `number` its line.
    ///
    /// # Errors
    ///
    /// Returns [`AllocError`] if memory runs out.
    fn reasons(&self, alloc: Global, number: u64, entry: &Entry) -> Result<Vec<u8>, AllocError>
        ensures { IfOk result
            (λ lines. GivesReasons HasJudged verdict AreReasons self.now number entry.now
            lines.items) };

    ghost counts: { (judge : Self) (s : Given) (entries : List Noted) → HasJudged judge s entries → count judge ≡ length entries };

    ghost finds: { (judge : Self) (s : Given) (entries : List Noted) → HasJudged judge s entries → IsVerdict s entries (verdict judge) };

    ghost begins: { (s : Given) → IsVerdict s [] Good };

    ghost one: { (s : Given) (entries : List Noted) (v w : Found Self.Law) → IsVerdict s entries v → IsVerdict s entries w → v ≡ w };

    ghost stays: { (s : Given) (entries : List Noted) (e : Noted) (k : ℕ) (l : Self.Law) → IsVerdict s entries (Bad k l) → IsVerdict s (entries ++ e ∷ []) (Bad k l) };

    ghost newest: { (s : Given) (entries : List Noted) (e : Noted) (k : ℕ) (l : Self.Law) → IsVerdict s entries Good → IsVerdict s (entries ++ e ∷ []) (Bad k l) → k ≡ length entries };
}
