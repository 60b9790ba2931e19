//! The engine `audit`: the verdict on the record of a scenario's run. An auditor observes the entries as the run makes them,
//! those within a register access at once. No record is stored.
ghost use Rattle.std.specs.Prelude.{◌≡◌, ◌-◌, ◌^◌, ◌<◌, IfOk, OnOk};
ghost use Rattle.judge.specs.safe_monitor.declared.verdicts.Verdict.TheVariants.{Good};
ghost use Rattle.scenario.specs.files.Engines.{Ran, streams};
ghost use Rattle.engines.specs.Sinks.{Wrote, WroteFront};
ghost use Rattle.scenario.specs.files.{FailsAsWriting, ReadsFront};
ghost use Rattle.scenario.specs.{script};
ghost use Rattle.engines.specs.Audits.{InputReportsVerdict, IsRunVerdict, ReportsVerdict, audit_text, audited, run_length};
ghost use Rattle.scenario_run.specs.{ended};

use crate::writing::write_line;
use judge::{Audited, status_of, verdict_line};
use scenario::progress::ProgressObserver;
use scenario::{Fault, Scenario, Sink, Source, read_input, read_scenario};
use scenario_run::{PlayLimit, RunAudit, ScenarioRun, Summary, WithAudit};
use std::alloc::{AllocError, Global};

/// Reads a whole file, makes its run, while an auditor observes its entries, and then writes the verdict on its
/// record, on one line. Returns the exit status. However it ends, it takes at most `INPUT_LIMIT` bytes from the
/// start of the input.
/// `progress_observer` receives the progress; [`NoObserver`] ignores it.
///
/// # Errors
///
/// Returns the fault of a line, [`Fault::Read`], [`Fault::Memory`] or [`Fault::Write`]. Only after [`Fault::Memory`] or
/// [`Fault::Write`] may the start of the text have been written.
pub fn run_audit<R: Source, W: Sink, L: ProgressObserver>(
    alloc: Global,
    input: &mut R,
    output: &mut W,
    progress_observer: &mut L,
) -> Result<u8, Fault>
    requires reads { R.failures input.old < 2 ^ 64 - 1 }
    requires writes { W.failures output.old < 2 ^ 64 - 1 }
    ensures ran { Ran audit_text (ended result)
        (streams ⟦<R as Source>⟧ ⟦<W as Sink>⟧ input.old output.old)
        (streams ⟦<R as Source>⟧ ⟦<W as Sink>⟧ input.new output.new) }
    ensures input { ReadsFront (R.to_come input.old) (R.to_come input.new) }
    ensures verdict { IfOk result (λ status. InputReportsVerdict (R.to_come input.old) status
        (W.taken output.old) (W.taken output.new)) }
{
    let file = read_input(alloc, input)?;
    let scenario = read_scenario(alloc, file.as_slice())?;
    audit_scenario(alloc, &scenario, output, progress_observer)
}

/// Makes the run of a file's scenario, writes the verdict on its record, and returns the exit status.
fn audit_scenario<W: Sink, L: ProgressObserver>(
    alloc: Global,
    scenario: &Scenario,
    output: &mut W,
    progress_observer: &mut L,
) -> Result<u8, Fault>
    requires { W.failures output.old < 2 ^ 64 - 1 }
    ensures written { Wrote W.taken result output.old output.new (audited (script scenario.now)) }
    ensures front { WroteFront W.taken output.old output.new (audited (script scenario.now)) }
    ensures verdict { IfOk result (λ status. ReportsVerdict (script scenario.now) status
        (W.taken output.old) (W.taken output.new)) }
    ensures fails { FailsAsWriting W.failures result output.old output.new }
{
    let audited = audit_run(alloc, scenario, progress_observer)?;
    write_line(output, verdict_line(alloc, &audited))?;
    Ok(status_of(&audited.verdict))
}

/// Makes the run of a file's scenario, while an auditor observes its entries. Fails only if an allocation fails.
fn audit_run<L: ProgressObserver>(
    alloc: Global,
    scenario: &Scenario,
    progress_observer: &mut L,
) -> Result<Audited, AllocError>
    ensures verdict { IfOk result (λ audited. IsRunVerdict (script scenario.now) audited.verdict) }
    ensures good { IfOk result (λ audited. audited.verdict ≡ Good) }
    ensures entries { IfOk result (λ audited. audited.entries ≡ run_length (script scenario.now)) }
{
    let mut scenario_run = ScenarioRun::new(alloc, &scenario.setup)?;
    let audit = RunAudit::new(alloc, &scenario.setup)?;
    let observer = Summary::new();
    let mut judged = WithAudit { observer, audit };
    let Ok(_) = scenario_run.play_all(scenario, PlayLimit::End, &mut judged, progress_observer)
    else {
        return Err(AllocError);
    };
    Ok(Audited {
        verdict: judged.audit.verdict(),
        entries: judged.observer.events,
    })
}
