//! The engine `calls`: it writes a line for each call of a scenario's run as the call ends, and finally those of the open calls.
ghost use Rattle.std.specs.Prelude.{◌≡◌, ◌-◌, ◌^◌, ◌<◌, length, IfOk, OnOk};
ghost use Rattle.std.specs.Io.KnownBytes.{Appends};
ghost use Rattle.model.specs.{Past};
ghost use Rattle.scenario.specs.files.Engines.{Ran, streams};
ghost use Rattle.scenario.specs.files.{ReadsFront, WritesFront};
ghost use Rattle.scenario.specs.{script};
ghost use Rattle.scenario_run.specs.{FailsAsWriting, ended};
ghost use Rattle.calls.specs.Observing.{HasObserved, open_call};
ghost use Rattle.calls.specs.Lines.{header, line_of, open_lines};
ghost use Rattle.calls.specs.Tables.{calls_text, tabled};

use crate::observing::{CallsWriter, write_if};
use crate::printed::HEADER;
use crate::table::CallTable;
use plain_store::Setup;
use scenario::progress::ProgressObserver;
use scenario::{Fault, Scenario, Sink, Source, read_input, read_scenario, write_all};
use scenario_run::{PlayLimit, ScenarioRun};
use std::alloc::Global;

/// Reads a whole scenario file, and then writes the table of the calls of its run: a line of comma-separated values for each
/// call, as it ends. It takes at most `INPUT_LIMIT` bytes from the start of the input, even if it fails. It reports its
/// progress to the progress observer; `NoObserver` ignores the reports.
///
/// # Errors
///
/// Returns [`Fault::Read`] or [`Fault::Memory`] if the file cannot be read, and [`Fault::Line`] for its first fault; nothing is
/// written then. Returns [`Fault::Memory`] or [`Fault::Write`] if an allocation or the output fails later; a prefix of the
/// table is written then.
pub fn run_calls<R: Source, W: Sink, L: ProgressObserver>(
    alloc: Global,
    input: &mut R,
    output: &mut W,
    progress_observer: &mut L,
) -> Result<(), Fault>
    requires reads { R.failures input.old < 2 ^ 64 - 1 }
    requires writes { W.failures output.old < 2 ^ 64 - 1 }
    ensures ran { Ran calls_text (ended result)
        (streams ⟦<R as Source>⟧ ⟦<W as Sink>⟧ input.old output.old)
        (streams ⟦<R as Source>⟧ ⟦<W as Sink>⟧ input.new output.new) }
    ensures input { ReadsFront (R.to_come input.old) (R.to_come input.new) }
{
    let file = read_input(alloc, input)?;
    let scenario = read_scenario(alloc, file.as_slice())?;
    table_scenario(alloc, &scenario, output, progress_observer)
}

/// Writes the table of the calls of a scenario's run.
fn table_scenario<W: Sink, L: ProgressObserver>(
    alloc: Global,
    scenario: &Scenario,
    output: &mut W,
    progress_observer: &mut L,
) -> Result<(), Fault>
    requires { W.failures output.old < 2 ^ 64 - 1 }
    ensures written { OnOk result
        (Appends (W.taken output.old) (W.taken output.new) (tabled (script scenario.now))) }
    ensures front { WritesFront (W.taken output.old) (W.taken output.new)
        (tabled (script scenario.now)) }
    ensures fails { FailsAsWriting W.failures result output.old output.new }
{
    let mut scenario_run = ScenarioRun::new(alloc, &scenario.setup)?;
    let mut table = CallTable::new(alloc, &scenario.setup)?;
    write_header(output)?;
    let mut tabler = CallsWriter {
        alloc,
        table: &mut table,
        output,
    };
    scenario_run.play_all(scenario, PlayLimit::End, &mut tabler, progress_observer)?;
    write_open(alloc, &scenario.setup, &table, output)
}

/// Writes the first line.
fn write_header<W: Sink>(output: &mut W) -> Result<(), Fault>
    requires { W.failures output.old < 2 ^ 64 - 1 }
    ensures written { OnOk result (Appends (W.taken output.old) (W.taken output.new) header) }
    ensures front { WritesFront (W.taken output.old) (W.taken output.new) header }
    ensures fails { FailsAsWriting W.failures result output.old output.new }
{
    write_all(output, HEADER.as_bytes())
}

/// Writes the lines of the calls that have not ended, by process.
fn write_open<W: Sink>(
    alloc: Global,
    setup: &Setup,
    table: &CallTable,
    output: &mut W,
) -> Result<(), Fault>
    requires writes { W.failures output.old < 2 ^ 64 - 1 }
    requires setup { table.now.setup ≡ setup.now }
    ensures written { OnOk result
        ((past : Past) → HasObserved table.now past →
        Appends (W.taken output.old) (W.taken output.new) (open_lines setup.now past)) }
    ensures front { (past : Past) → HasObserved table.now past →
        WritesFront (W.taken output.old) (W.taken output.new) (open_lines setup.now past) }
    ensures fails { FailsAsWriting W.failures result output.old output.new }
{
    for process in 0..setup.processes {
        write_open_call(alloc, table, process, output)?;
    }
    Ok(())
}

/// Writes the line of the call of a process, if it has not ended.
fn write_open_call<W: Sink>(
    alloc: Global,
    table: &CallTable,
    process: u8,
    output: &mut W,
) -> Result<(), Fault>
    requires writes { W.failures output.old < 2 ^ 64 - 1 }
    requires process { process < table.now.setup.processes }
    ensures written { OnOk result
        ((past : Past) → HasObserved table.now past →
        Appends (W.taken output.old) (W.taken output.new)
        (line_of (length past - 1) (open_call table.now.setup process past))) }
    ensures front { (past : Past) → HasObserved table.now past →
        WritesFront (W.taken output.old) (W.taken output.new)
        (line_of (length past - 1) (open_call table.now.setup process past)) }
    ensures fails { FailsAsWriting W.failures result output.old output.new }
{
    let called = table.open_call(process);
    let last = table.newest();
    write_if(alloc, &called, last, output)
}
