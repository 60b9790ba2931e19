ghost use Rattle.std.specs.Prelude.{◌≡◌, IfOk, Ok, length};
ghost use Rattle.plain_store.specs.{checked};
ghost use Rattle.any_lock.specs.Changes.{MaysKeepAllLaws};
ghost use Rattle.any_lock.specs.MainTheorem.{GoodSaysTheMainTheorem, SaysMainTheorem};
ghost use Rattle.any_lock.specs.Verdicts.{verdict_of};

use crate::any_lock_law::AnyLockLaw;
use crate::judge::AnyLockJudge;
use model::Entry;
use plain_store::Setup;
use safe_monitor::{Audited, parts};
use std::alloc::{AllocError, Global};

/// Returns the verdict on a record, and the number of its entries. The verdict is the lowest entry that breaks a law, and the
/// first law that it breaks. Fails only if an allocation fails.
pub fn judge_all(
    alloc: Global,
    setup: &Setup,
    entries: &[Entry],
) -> Result<Audited<AnyLockLaw>, AllocError>
    requires good { checked setup.now ≡ Ok tt }
    ensures verdict { IfOk result (λ judged. judged.verdict ≡ verdict_of setup.now entries.now) }
    ensures entries { IfOk result (λ judged. judged.entries ≡ length entries.now) }
    ensures main_theorem { IfOk result
        (λ judged. SaysMainTheorem judged.verdict setup.now entries.now) }
{
    let mut judge = AnyLockJudge::new(alloc, setup)?;
    for entry in entries {
        let (process, access, marks) = parts(entry);
        judge.observe(process, access, marks);
    }
    Ok(judge.judged())
}

/// The meaning of a good verdict, for any record. No two processes are inside together, and none enters while another is
/// ahead of it. Each command is taken at its position with the sequential store's reply there, and no interrupted call
/// is answered. Positions keep the order of calls that do not overlap.
pub fn good_says_the_main_theorem()
    ensures { GoodSaysTheMainTheorem }
{}

/// A bad entry with the change that its reasons state keeps all laws.
pub fn changed_entries_keep_all_laws()
    ensures { MaysKeepAllLaws }
{}
