//! The options of an engine: which file it may read, and how many of its entries.
use command_line::{Engine, InputMode, RangeFault, Request, entries_asked};
use run_state::{FileKind, events_said};
use trace_draw::draw::{PictureOptions, Reads, Window};

/// The message if `--at` of `state` is missing or is not such a number.
const NO_AT: &str = "state needs --at N, where N is a number below 2^64 or `end`";

/// The message if the value of `--from` or `--to` is not such a number.
const NO_NUMBER: &str = "--from and --to need a number below 2^64, without a sign or leading zeros";

/// The message if no entry is between the two numbers.
const NO_ENTRIES: &str =
    "--from must not be above --to: --from is the number of the first entry, --to that of the last";

/// The message if `--reads` is given for a trace.
const NO_READS: &str =
    "--reads is for runs and records; a trace of up to 400 entries shows all accesses, and a longer one with --accesses";

/// The options of an engine.
#[derive(Clone, Copy)]
pub(crate) struct EngineOptions {
    pub engine: Engine,
    /// The entries that a picture shows, and which of their accesses are asked for.
    pub picture: PictureOptions,
    /// Whether overlapped reads are asked for, which a trace refuses.
    pub asks_reads: bool,
    pub judge: bool,
    pub any_lock: bool,
    pub why: bool,
    pub quiet: bool,
    pub explain: bool,
    /// Whether the engine runs the file while it reads it.
    pub is_streamed: bool,
    /// Whether the file is a record, where the engine takes scenarios too.
    pub is_record: bool,
    /// Whether the file is a trace, which `judge`, `calls`, `draw` and `draw-svg` read.
    pub is_trace: bool,
    /// The number of events after which the state is printed.
    pub at: u64,
}

/// Returns the options of a request, before its file is opened, or a message if the value of one is not valid.
pub(crate) fn wanted_by(request: &Request<'_>) -> Result<EngineOptions, &'static str> {
    let judge = request.judge | request.any_lock;
    Ok(EngineOptions {
        engine: request.command.engine,
        picture: PictureOptions {
            reads: reads_of(request),
            window: window_of(request)?,
        },
        asks_reads: request.reads,
        judge,
        any_lock: request.any_lock,
        why: request.why,
        quiet: request.quiet,
        explain: request.explain,
        is_streamed: request.command.intake == InputMode::Streamed,
        is_record: judge,
        is_trace: false,
        at: events_of(request)?,
    })
}

/// Returns the number of events after which a request asks for the state: 0 for other commands; or a message if `--at` is
/// not valid.
fn events_of(request: &Request<'_>) -> Result<u64, &'static str> {
    match request.command.engine {
        Engine::State => match request.at {
            Some(word) => events_said(word).ok_or(NO_AT),
            None => Err(NO_AT),
        },
        _ => Ok(0),
    }
}

/// Returns the entries that a request asks a picture to show, or a message if `--from` or `--to` is not valid.
fn window_of(request: &Request<'_>) -> Result<Window, &'static str> {
    match entries_asked(request.from, request.to) {
        Ok(entries) => Ok(Window {
            from: entries.first,
            to: entries.last,
        }),
        Err(RangeFault::NotNumber) => Err(NO_NUMBER),
        Err(RangeFault::Reversed) => Err(NO_ENTRIES),
    }
}

/// Returns which accesses a request asks a picture to show. If all accesses are shown, overlapped reads have no columns of their
/// own.
fn reads_of(request: &Request<'_>) -> Reads {
    if request.accesses {
        Reads::All
    } else if request.reads {
        Reads::Shown
    } else {
        Reads::Hidden
    }
}

/// Returns the kind of file that an engine reads.
pub(crate) fn file_kind(wanted: EngineOptions) -> FileKind {
    match wanted.engine {
        Engine::Bits => FileKind::Bits,
        Engine::Judge | Engine::Calls | Engine::Draw | Engine::DrawSvg if wanted.is_trace => {
            FileKind::Trace
        }
        Engine::Judge => FileKind::Record,
        _ if wanted.is_record => FileKind::Record,
        _ => FileKind::Scenario,
    }
}

/// Returns the message about an option that is not for this kind of file, if one is given.
pub(crate) fn refused_option(wanted: EngineOptions) -> Option<&'static str> {
    if wanted.is_trace && wanted.asks_reads {
        Some(NO_READS)
    } else {
        None
    }
}
