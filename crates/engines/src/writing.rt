//! Writing the lines of a run, one at a time.
ghost use Rattle.std.specs.Prelude.{◌≡◌, ◌-◌, ◌^◌, ◌<◌, IfOk, IsOk, OnOk, OnErr};
ghost use Rattle.std.specs.String.{string_bytes};
ghost use Rattle.engines.specs.Replayings.{mark_lines, text_next};
ghost use Rattle.engines.specs.Sinks.{Wrote, WroteFront, WroteLine, WroteLineFront};
ghost use Rattle.scenario_run.specs.run_lines.{line_text, with_end};
ghost use Rattle.scenario_run.specs.{FailsAsWriting, counted, end_line, reported_text};

use scenario::{Fault, Sink, write_all};
use scenario_run::{Mark, ReplayLine, Summary, TurnReport, newest_words};
use std::alloc::{AllocError, Global};

/// Writes the lines of a turn, before which `number` events were accepted.
fn write_reported<W: Sink>(
    alloc: Global,
    number: u64,
    reported: &TurnReport,
    output: &mut W,
) -> Result<(), Fault>
    requires { W.failures output.old < 2 ^ 64 - 1 }
    ensures written { Wrote W.taken result output.old output.new
        (reported_text number reported.now) }
    ensures front { WroteFront W.taken output.old output.new (reported_text number reported.now) }
    ensures fails { FailsAsWriting W.failures result output.old output.new }
{
    match reported {
        TurnReport::Accepted(made) => {
            let process = made.event.process();
            write_marks(alloc, number, process, made.marks(alloc).as_slice(), output)
        }
        TurnReport::Refused { process, refusal } => {
            let process = *process;
            write_run_line(alloc, &ReplayLine::Refused { process, refusal }, output)
        }
        TurnReport::Tired(process) => write_run_line(alloc, &ReplayLine::Tired(*process), output),
        TurnReport::Shown(store) => {
            let words = newest_words(alloc, store)?;
            write_run_line(alloc, &ReplayLine::Shown(words.as_str()), output)
        }
    }
}

/// Writes the marks of the event with this number, in their order, a line each.
fn write_marks<W: Sink>(
    alloc: Global,
    event: u64,
    process: u8,
    marks: &[Mark],
    output: &mut W,
) -> Result<(), Fault>
    requires { W.failures output.old < 2 ^ 64 - 1 }
    ensures written { Wrote W.taken result output.old output.new
        (mark_lines event process marks.now) }
    ensures front { WroteFront W.taken output.old output.new (mark_lines event process marks.now) }
    ensures fails { FailsAsWriting W.failures result output.old output.new }
{
    for mark in marks {
        let line = ReplayLine::Marked {
            event,
            process,
            mark,
        };
        write_run_line(alloc, &line, output)?;
    }
    Ok(())
}

/// Writes a line of the run, and its end.
#[tactic(auto, using(scenario_run::proofs::Written::line_whole, scenario_run::proofs::Written::line_front))]
fn write_run_line<W: Sink>(alloc: Global, line: &ReplayLine, output: &mut W) -> Result<(), Fault>
    requires { W.failures output.old < 2 ^ 64 - 1 }
    ensures written { Wrote W.taken result output.old output.new (with_end (line_text line.now)) }
    ensures front { WroteFront W.taken output.old output.new (with_end (line_text line.now)) }
    ensures fails { FailsAsWriting W.failures result output.old output.new }
{
    write_line(output, ended_line(alloc, line))
}

/// Returns the text of a line with its end.
fn ended_line(alloc: Global, line: &ReplayLine) -> Result<String, AllocError>
    ensures { IfOk result (λ text. string_bytes text ≡ with_end (line_text line.now)) }
{
    format!(in alloc; "{line}\n")
}

/// Writes a line, unless an allocation failed for it.
pub(crate) fn write_line<W: Sink>(
    output: &mut W,
    line: Result<String, AllocError>,
) -> Result<(), Fault>
    requires { W.failures output.old < 2 ^ 64 - 1 }
    ensures written { WroteLine W.taken result output.old output.new line }
    ensures made { OnOk result (IsOk line) }
    ensures front { WroteLineFront W.taken output.old output.new line }
    ensures none { OnErr line (W.taken output.new ≡ W.taken output.old) }
    ensures fails { FailsAsWriting W.failures result output.old output.new }
{
    let line = line?;
    write_all(output, line.as_bytes())
}

/// Writes the last line of a replay.
pub(crate) fn write_end<W: Sink>(
    alloc: Global,
    summary: &Summary,
    output: &mut W,
) -> Result<(), Fault>
    requires { W.failures output.old < 2 ^ 64 - 1 }
    ensures written { Wrote W.taken result output.old output.new (end_line summary.now) }
    ensures front { WroteFront W.taken output.old output.new (end_line summary.now) }
    ensures fails { FailsAsWriting W.failures result output.old output.new }
{
    let line = ReplayLine::Ended {
        events: summary.events,
        taken: summary.taken,
        refused: summary.refused,
    };
    write_run_line(alloc, &line, output)
}

/// Writes and counts the lines of a turn.
pub(crate) fn write_turn<W: Sink>(
    alloc: Global,
    reported: &TurnReport,
    summary: &mut Summary,
    output: &mut W,
) -> Result<(), Fault>
    requires writes { W.failures output.old < 2 ^ 64 - 1 }
    requires events { summary.old.events < 2 ^ 64 - 1 }
    requires refused { summary.old.refused < 2 ^ 64 - 1 }
    ensures written { Wrote W.taken result output.old output.new
        (text_next summary.old reported.now) }
    ensures count { OnOk result (summary.new ≡ counted reported.now summary.old) }
    ensures front { WroteFront W.taken output.old output.new (text_next summary.old reported.now) }
    ensures fails { FailsAsWriting W.failures result output.old output.new }
{
    write_reported(alloc, summary.events, reported, output)?;
    summary.count(reported);
    Ok(())
}
