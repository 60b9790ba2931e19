//! The program `bakerystore`: it runs the engine that its arguments name on a file. Without arguments it is `plain -`.
#![tactic(auto)]

mod engine_options;

ghost use Rattle.std.specs.Prelude.{◌≡◌, ◌-◌, ◌<◌, ◌^◌, IfOk};

use crate::engine_options::{EngineOptions, file_kind, refused_option, wanted_by};
use command_line::{
    CountedInput, Engine, Fault, FirstWord, FromRead, FrontSink, IntoWrite, Invocation, LineFault,
    NotedReader, NotedWriter, Output, ProgressPrinter, Request, Sink, SniffedSource, Source,
    Terminals, USAGE_STATUS, Uninterrupted, all_words, exit_status, read_words, reason_of,
    shown_word,
};
use engines::{
    judge_any_lock, replay, run_audit, run_bits, run_judge, run_plain, run_record, run_sweep,
};
use race::{RunFault, run_fault_status, run_race};
use run_state::{
    StoredFile, TeeInput, explanation, list_record, run_calls, run_state, state_record,
};
use std::alloc::Global;
use std::cell::Cell;
use std::env::Env;
use std::fs::{File, Files};
use std::io;
use std::io::{BufReader, ErrorKind, Input, IsTerminal, Read, Write};
use std::process::ExitCode;
use std::sync::Wait;
use std::thread::Threads;
use std::time::Clock;
use trace_calls::list_trace;
use trace_draw::draw::progress::ProgressObserver;
use trace_draw::draw::{
    JudgedBy, draw, draw_judged_record, draw_judged_record_svg, draw_record, draw_record_svg,
    draw_svg,
};
use trace_draw::{draw_trace, draw_trace_svg, judge_trace};

/// The hint at a terminal if there are no arguments.
const NO_WORDS: &str =
    "reading a scenario from this terminal until its end (for help: bakerystore --help)";

/// The hint at a terminal, if `judge` finds within ten entries that a record is not one of this lock.
const OTHER_LOCK: &str = "hint: --any-lock judges the records of other locks";

/// Why the newest read of the file, and the newest write of the output, have failed.
#[derive(Drop)]
struct FailureCauses {
    read: Cell<Option<ErrorKind>>,
    write: Cell<Option<ErrorKind>>,
}

fn main(rt: HostRuntime) -> ExitCode {
    let terminals = Terminals {
        input: rt.stdin().is_terminal(),
        output: rt.stdout().is_terminal(),
        error: rt.stderr().is_terminal(),
    };
    ExitCode::from(reported(&rt, do_asked(&rt, terminals)))
}

/// Carries out the arguments, and returns the exit status.
fn do_asked<T: Env + Files + Input + Print + Eprint + Clock + AllocGlobal + Threads + Wait + Sync>(
    rt: &T,
    terminals: Terminals,
) -> Result<u8, RunFault> {
    let words = match all_words(rt) {
        Ok(words) => words,
        Err(notice) => return Ok(notice.print_page(rt)?),
    };
    if words.len() <= 1 && terminals.input && terminals.error {
        let _ = eprintln!(rt; "{NO_WORDS}");
    }
    match read_words(rt.alloc(), words.as_slice()) {
        Ok(Invocation::Run(request)) => run(rt, &request, terminals),
        Ok(Invocation::Report(page)) => Ok(page.print_page(rt)?),
        Err(notice) => Ok(notice.print_page(rt)?),
    }
}

/// Opens the file and runs the engine on it; returns the exit status of its end.
fn run<T: Files + Input + Print + Eprint + Clock + AllocGlobal + Threads + Wait + Sync>(
    rt: &T,
    request: &Request<'_>,
    terminals: Terminals,
) -> Result<u8, RunFault> {
    let wanted = match wanted_by(request) {
        Ok(wanted) => wanted,
        Err(message) => {
            let _ = eprintln!(rt; "{message}");
            return Ok(USAGE_STATUS);
        }
    };
    if request.file == "-" {
        return run_on(rt, request, wanted, terminals, rt.reader());
    }
    match File::open(rt, request.file) {
        Ok(file) => run_on(rt, request, wanted, terminals, file),
        Err(error) if error.kind() == ErrorKind::OutOfMemory => Err(Fault::Memory.into()),
        Err(error) => Ok(reported_with_cause(
            rt,
            request,
            terminals,
            Fault::Read,
            Some(error.kind()),
        )),
    }
}

/// Runs the engine from a reader to standard output, and reports a fault of either.
fn run_on<T: Print + Eprint + Clock + AllocGlobal + Threads + Wait + Sync, R: Read + Drop>(
    rt: &T,
    request: &Request<'_>,
    wanted: EngineOptions,
    terminals: Terminals,
    reader: R,
) -> Result<u8, RunFault> {
    let causes = FailureCauses {
        read: Cell::new(None),
        write: Cell::new(None),
    };
    let writer = io::writer(rt);
    match run_through(rt, &causes, wanted, terminals, reader, writer) {
        Err(RunFault::File(Fault::Read)) => Ok(reported_with_cause(
            rt,
            request,
            terminals,
            Fault::Read,
            causes.read.get(),
        )),
        Err(RunFault::File(Fault::Write)) => Ok(reported_with_cause(
            rt,
            request,
            terminals,
            Fault::Write,
            causes.write.get(),
        )),
        ended => ended,
    }
}

/// Runs the engine from a reader to a writer, each through a buffer. A sweep writes at its end alone, in one block, so that the line
/// of its progress is removed before.
fn run_through<
    T: Print + Eprint + Clock + AllocGlobal + Threads + Wait + Sync,
    R: Read + Drop,
    W: Write + Drop,
>(
    rt: &T,
    causes: &FailureCauses,
    wanted: EngineOptions,
    terminals: Terminals,
    reader: R,
    writer: W,
) -> Result<u8, RunFault> {
    let reader = Uninterrupted::new(NotedReader::new(reader, &causes.read));
    let Ok(reader) = BufReader::new(rt.alloc(), reader) else {
        return Err(Fault::Memory.into());
    };
    let by_line = terminals.output && wanted.engine != Engine::Sweep;
    let writer = NotedWriter::new(writer, &causes.write);
    let Ok(mut writer) = Output::new(rt.alloc(), writer, by_line) else {
        return Err(Fault::Memory.into());
    };
    let source = opened(rt.alloc(), wanted.engine, FromRead::new(reader))?;
    run_between(rt, wanted, terminals, source, &mut writer)
}

/// Reports a fault of a stream and, at a terminal or with `--explain`, which stream it is and why; returns the exit status.
fn reported_with_cause<T: Eprint + AllocGlobal>(
    rt: &T,
    request: &Request<'_>,
    terminals: Terminals,
    fault: Fault,
    cause: Option<ErrorKind>,
) -> u8 {
    let stream = match fault {
        Fault::Write => "standard output",
        _ if request.file == "-" => "standard input",
        _ => request.file,
    };
    let status = reported(rt, Err(fault.into()));
    if terminals.error || request.explain {
        if let Ok(stream) = shown_word(rt.alloc(), stream) {
            let reason = reason_of(cause);
            let _ = eprintln!(rt; "{stream}: {reason}");
        }
    }
    status
}

/// Runs the engine from a source to a writer, and shows its progress at a terminal.
fn run_between<
    T: Print + Eprint + Clock + AllocGlobal + Threads + Wait + Sync,
    R: Source + Drop,
    W: Write,
>(
    rt: &T,
    wanted: EngineOptions,
    terminals: Terminals,
    source: SniffedSource<R>,
    writer: &mut W,
) -> Result<u8, RunFault>
    requires { ⟦<SniffedSource<R> as Source>⟧.failures source < 2 ^ 64 - 1 }
{
    let wanted = EngineOptions {
        is_record: wanted.is_record | (source.first_word == FirstWord::Record),
        is_trace: source.first_word == FirstWord::Trace,
        ..wanted
    };
    if let Some(message) = refused_option(wanted) {
        let _ = eprintln!(rt; "{message}");
        return Ok(USAGE_STATUS);
    }
    let has_place = !terminals.output || wanted.engine == Engine::Sweep;
    let shows = terminals.error && has_place && !wanted.quiet;
    let from_input = wanted.is_streamed || wanted.is_record || wanted.is_trace;
    let explains = terminals.error || wanted.explain;
    let monitored = CountedInput::new(source, rt, shows && from_input);
    let mut input = TeeInput::new(rt.alloc(), monitored, explains);
    let mut watcher = ProgressPrinter::new(rt, shows && !from_input);
    let mut output = FrontSink::new(IntoWrite::new(&mut *writer));
    let ran = run_engine(rt, wanted, &mut input, &mut output, &mut watcher);
    let is_other_lock = wanted.engine == Engine::Judge
        && !wanted.any_lock
        && output.is_early_program();
    let (kept, mut monitored) = input.into_parts();
    monitored.end();
    watcher.end();
    // After a fault too: what the engine has written is a front of its text.
    let flushed = writer.flush();
    if is_other_lock && terminals.error {
        let _ = eprintln!(rt; "{OTHER_LOCK}");
    }
    match ran {
        Err(RunFault::File(Fault::Line(fault))) if explains => {
            Ok(reported_with_place(rt, wanted, &kept, fault))
        }
        Err(fault) => Err(fault),
        Ok(status) => match flushed {
            Ok(()) => Ok(status),
            Err(_) => Err(Fault::Write.into()),
        },
    }
}

/// Reports a fault of a line, as without `--explain`, and then its place; returns the exit status.
fn reported_with_place<T: Eprint + AllocGlobal>(
    rt: &T,
    wanted: EngineOptions,
    kept: &StoredFile,
    fault: LineFault,
) -> u8 {
    let status = reported(rt, Err(Fault::Line(fault).into()));
    if let Ok(text) = explanation(rt.alloc(), file_kind(wanted), kept, &fault) {
        let _ = rt.eprint(&text);
    }
    status
}

/// Opens a source. The engine of `state` reads scenarios and records, those of `calls`, `draw` and `draw-svg` traces too, and
/// that of `judge` reads records and traces. The file's first word decides which it is.
fn opened<R: Source + Drop>(
    alloc: Global,
    engine: Engine,
    source: R,
) -> Result<SniffedSource<R>, Fault>
    requires { R.failures source < 2 ^ 64 - 1 }
    ensures { IfOk result
        (λ opened. ⟦<SniffedSource<R> as Source>⟧.failures opened ≡ R.failures source) }
{
    match engine {
        Engine::State | Engine::Calls | Engine::Draw | Engine::DrawSvg | Engine::Judge => {
            SniffedSource::new(alloc, source)
        }
        _ => Ok(SniffedSource::unseen(alloc, source)),
    }
}

/// Runs the engine from a source to a sink; returns the exit status of its end.
fn run_engine<T: AllocGlobal + Threads + Wait + Sync, R: Source, W: Sink, L: ProgressObserver>(
    rt: &T,
    wanted: EngineOptions,
    input: &mut R,
    output: &mut W,
    progress_observer: &mut L,
) -> Result<u8, RunFault>
    requires reads { R.failures input.old < 2 ^ 64 - 1 }
    requires writes { W.failures output.old < 2 ^ 64 - 1 }
{
    let alloc = rt.alloc();
    let options = wanted.picture;
    let by = if wanted.any_lock {
        JudgedBy::AnyLock
    } else {
        JudgedBy::ThisLock
    };
    let ran = match wanted.engine {
        Engine::Plain => exit_status(run_plain(alloc, input, output)),
        Engine::Bits => exit_status(run_bits(alloc, input, output)),
        Engine::Replay => exit_status(replay(alloc, input, output, progress_observer)),
        Engine::Audit => run_audit(alloc, input, output, progress_observer),
        Engine::Sweep => run_sweep(alloc, input, output, progress_observer),
        Engine::Record => exit_status(run_record(alloc, input, output, progress_observer)),
        Engine::State if wanted.is_record => state_record(alloc, wanted.at, input, output),
        Engine::State => exit_status(run_state(alloc, wanted.at, input, output, progress_observer)),
        Engine::Calls if wanted.is_record => list_record(alloc, input, output),
        Engine::Calls if wanted.is_trace => list_trace(alloc, input, output),
        Engine::Calls => exit_status(run_calls(alloc, input, output, progress_observer)),
        Engine::Judge if wanted.is_trace => judge_trace(alloc, input, output, wanted.why),
        Engine::Judge if wanted.any_lock => judge_any_lock(alloc, input, output, wanted.why),
        Engine::Judge => run_judge(alloc, input, output, wanted.why),
        Engine::Race => return run_race(rt, alloc, input, output),
        Engine::Draw if wanted.is_trace => draw_trace(alloc, wanted.judge, options, input, output),
        Engine::DrawSvg if wanted.is_trace => {
            draw_trace_svg(alloc, wanted.judge, options, input, output)
        }
        Engine::Draw if wanted.judge => draw_judged_record(alloc, by, options, input, output),
        Engine::DrawSvg if wanted.judge => {
            draw_judged_record_svg(alloc, by, options, input, output)
        }
        Engine::Draw if wanted.is_record => exit_status(draw_record(alloc, options, input, output)),
        Engine::DrawSvg if wanted.is_record => exit_status(draw_record_svg(
            alloc, options, input, output,
        )),
        Engine::Draw => exit_status(draw(alloc, options, input, output, progress_observer)),
        Engine::DrawSvg => exit_status(draw_svg(alloc, options, input, output, progress_observer)),
    };
    Ok(ran?)
}

/// Reports a fault on standard error, and returns the exit status.
fn reported<T: Eprint>(rt: &T, ran: Result<u8, RunFault>) -> u8 {
    match ran {
        Ok(status) => status,
        Err(fault) => {
            let _ = eprintln!(rt; "{fault}");
            run_fault_status(&fault)
        }
    }
}
