ghost use Rattle.std.specs.Prelude.{◌≡◌, IfOk, Ok, reverse};
ghost use Rattle.plain_store.specs.{checked};
ghost use Rattle.safe_monitor.specs.Safe.{ReportsSafe};
ghost use Rattle.auditor.specs.Observing.{BreaksNext};
ghost use Rattle.safe_monitor.specs.declared.verdicts.Verdict.TheVariants.{Good};
ghost use Rattle.auditor.specs.Verdicts.{AllKeep, BreaksFirst, IsGoodOfEvents, IsTrueRecord, IsVerdict};

use crate::auditor::Auditor;
use model::{Entry, Record};
use plain_store::Setup;
use safe_monitor::{Law, SafeMonitor, Verdict, parts};
use std::alloc::{AllocError, Global};

/// Returns the verdict on a record: the lowest entry that breaks a law, and the first law that it breaks. The one fault is an
/// allocation failure. It observes the entries one by one, and those before a bad one twice. A good record is that of a list of
/// events, and the main theorem holds of each of its entries. The record of every list of events is good.
pub fn audit(alloc: Global, setup: &Setup, given: &Record) -> Result<Verdict, AllocError>
    requires { checked setup.now ≡ Ok tt }
    ensures verdict { IfOk result (λ verdict. IsVerdict setup.now given.now verdict) }
    ensures good { IfOk result (λ verdict. verdict ≡ Good → IsTrueRecord setup.now given.now) }
    ensures of_events { IfOk result (λ verdict. IsGoodOfEvents setup.now given.now verdict) }
{
    audit_all(alloc, setup, &given.entries)
}

fn audit_all(alloc: Global, setup: &Setup, entries: &[Entry]) -> Result<Verdict, AllocError>
    requires { checked setup.now ≡ Ok tt }
    ensures verdict { IfOk result (λ verdict. IsVerdict setup.now entries.now verdict) }
    ensures good { IfOk result (λ verdict. verdict ≡ Good → IsTrueRecord setup.now entries.now) }
    ensures of_events { IfOk result (λ verdict. IsGoodOfEvents setup.now entries.now verdict) }
{
    let mut auditor = Auditor::new(alloc, setup)?;
    for (number, entry) in entries.iter().enumerate() {
        let (process, access, marks) = parts(entry);
        if let Some(law) = auditor.observe(process, access, marks) {
            let before = &entries[..number];
            let first = first_law(alloc, setup, before, entry, law)?;
            return Ok(Verdict::Bad(number as u64, first));
        }
    }
    Ok(Verdict::Good)
}

/// Returns the first law that an entry breaks, after entries that keep all laws. The first after `Safe` is `law`.
#[tactic(auto, using(crate::proofs::Firsts::breaks_safe, crate::proofs::Firsts::breaks_then))]
fn first_law(
    alloc: Global,
    setup: &Setup,
    before: &[Entry],
    entry: &Entry,
    law: Law,
) -> Result<Law, AllocError>
    requires good { checked setup.now ≡ Ok tt }
    requires kept { AllKeep setup.now (reverse before.now) }
    requires breaks { BreaksNext law setup.now (reverse before.now) entry.now }
    ensures { IfOk result (λ first. BreaksFirst first setup.now (reverse before.now) entry.now) }
{
    if is_safe(alloc, setup, before, entry)? {
        Ok(law)
    } else {
        Ok(Law::Safe)
    }
}

/// Returns whether an entry keeps the law `Safe`, after entries that keep all laws. A [`SafeMonitor`] observes them all.
fn is_safe(
    alloc: Global,
    setup: &Setup,
    before: &[Entry],
    entry: &Entry,
) -> Result<bool, AllocError>
    requires good { checked setup.now ≡ Ok tt }
    requires kept { AllKeep setup.now (reverse before.now) }
    ensures { IfOk result
        (λ reported. ReportsSafe reported setup.now (reverse before.now) entry.now) }
{
    let mut monitor = SafeMonitor::new(alloc, setup)?;
    for earlier in before {
        let (_, access, _) = parts(earlier);
        monitor.observe(access);
    }
    let (_, access, _) = parts(entry);
    Ok(monitor.observe(access))
}
