//! The engine itself.
ghost use Rattle.std.specs.Prelude.{◌-◌, ◌^◌, ◌<◌, IfErr, IfOk};
ghost use Rattle.scenario.specs.files.{ReadsFront, streams};
ghost use Rattle.scenario.specs.{script};
ghost use Rattle.race.specs.Ends.{IsFaultOfRacing, RanRace, ReportsReport};

use crate::faults::{RunFault, race_status};
use crate::gates::AlwaysOn;
use crate::plans::plans_of;
use crate::racing::race;
use crate::texts::race_text;
use call_check::{Weighed, weigh};
use files::{Sink, Source, read_input, write_all};
use scenario::{Scenario, read_scenario};
use std::alloc::Global;
use std::sync::Wait;
use std::thread::Threads;

/// The report on a race that has ended.
#[derive(Drop)]
struct RaceReport {
    text: String,
    verdict: Weighed,
}

/// Reads a whole scenario file and races its plans, each on a thread of its own. Then it writes the refused calls, the
/// answers, the store at the end and the verdict on both. Returns the exit status. It may wait for a thread. However it
/// ends, it takes at most `INPUT_LIMIT` bytes from the begin of the input.
///
/// # Errors
///
/// Returns [`RunFault::File`] for a fault of a line, of reading or of writing, or if an allocation fails, and otherwise
/// [`RunFault::Race`]. Nothing is written before the race has ended, so only a fault of writing may leave a part of the text.
pub fn run_race<T: Threads + Wait + Sync, R: Source, W: Sink>(
    rt: &T,
    alloc: Global,
    input: &mut R,
    output: &mut W,
) -> Result<u8, RunFault>
    requires reads { R.failures input.old < 2 ^ 64 - 1 }
    requires writes { W.failures output.old < 2 ^ 64 - 1 }
    ensures ran { RanRace result
        (streams ⟦<R as Source>⟧ ⟦<W as Sink>⟧ input.old output.old)
        (streams ⟦<R as Source>⟧ ⟦<W as Sink>⟧ input.new output.new) }
    ensures input { ReadsFront (R.to_come input.old) (R.to_come input.new) }
{
    let file = read_input(alloc, input)?;
    let scenario = read_scenario(alloc, file.as_slice())?;
    let report = race_scenario(rt, alloc, &scenario)?;
    write_all(output, report.text.as_bytes())?;
    Ok(race_status(&Ok(report.verdict)))
}

/// Races the plans of a scenario.
fn race_scenario<T: Threads + Wait + Sync>(
    rt: &T,
    alloc: Global,
    scenario: &Scenario,
) -> Result<RaceReport, RunFault>
    ensures raced { IfOk result (ReportsReport (script scenario.now)) }
    ensures fault { IfErr result IsFaultOfRacing }
{
    let plans = plans_of(alloc, scenario)?;
    let closing = race(rt, alloc, &scenario.setup, plans.as_slice(), &AlwaysOn)?;
    let lists = closing.answers.as_slice();
    let verdict = weigh(alloc, &scenario.setup, lists, &closing.image)?;
    let text = race_text(alloc, scenario, lists, &closing.image, &verdict)?;
    Ok(RaceReport { text, verdict })
}
