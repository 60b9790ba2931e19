//! The engines that read a scenario file or a bits file, and worked examples of such files.
ghost use Rattle.std.specs.Prelude.{◌≡◌};

use crate::devices::{FailingSink, FailingSource};
use engines::{replay, run_audit, run_bits, run_plain, run_sweep};
use files::progress::NoObserver;
use files::{DONE, Fault, FaultKind};
use std::alloc::Global;

/// An engine that reads one file.
#[derive(Clone, Copy, Debug)]
pub enum FileEngine {
    Plain,
    Bits,
    Replay,
    Audit,
    Sweep,
}

/// A file without a fault, and the text that an engine writes for it.
#[derive(Clone, Copy)]
pub struct GoodFile {
    pub engine: FileEngine,
    pub file: &'static str,
    pub text: &'static str,
}

/// A file whose first fault is on this line and of this kind.
#[derive(Clone, Copy)]
pub struct FaultyFile {
    pub engine: FileEngine,
    pub file: &'static str,
    pub line: u64,
    pub kind: FaultKind,
}

// Processes call `ask` in the one-thread store.
const ASK: &str =
    "bakery 2\nopen a c:1\ncall 1 write a c:5\ncall 0 add a 0\ncall 0 ask\ncall 1 ask\n\
    call 0 cas a c:5 t:x\ncall 0 ask\ncall 1 ask\nshow\n";

// A write is settled, and a read is dropped.
const SETTLE_AND_DROP: &str =
    "bits 1\nwrite 1\nread\nsettle 0\nvalue 1\nread\ndrop\nvalue 0\nread\nvalue 1\n";

// A process fails, and calls are refused until it has restarted.
const RESTART: &str =
    "bakery 1\nprocesses 1\ncall 0 read a\nfail 0\nrestart 0\ncall 0 read a\ngo 0 down\n\
    call 0 read a\nrestart 0\n";

/// A worked example for each engine.
pub const GOOD: [GoodFile; 5] = [
    GoodFile {
        engine: FileEngine::Plain,
        file: ASK,
        text: "0 1 done\n1 0 sum 5\n2 0 last 0\n3 1 last 1\n4 0 swapped\n5 0 last 3\n\
            6 1 last 1\nshow a=t:x\n",
    },
    GoodFile {
        engine: FileEngine::Bits,
        file: SETTLE_AND_DROP,
        text: "1\nrefused\n0\n",
    },
    GoodFile {
        engine: FileEngine::Replay,
        file: RESTART,
        text: "0 0 call read a\n1 0 fail\n- 0 refused not-down\n- 0 refused is-down\n11 0 down\n\
            - 0 refused is-down\n12 0 restart\nend events 13 taken 0 refused 3\n",
    },
    GoodFile {
        engine: FileEngine::Audit,
        file: RESTART,
        text: "good 13\n",
    },
    GoodFile {
        engine: FileEngine::Sweep,
        file: RESTART,
        text: "sweep runs 4 good 4 stuck 0\n",
    },
];

// A heading after a line that prints.
const LATE_HEADING: &str = "bakery 1\nshow\nslots 2\n";

// A line with too few words after calls.
const FAULT_AFTER_CALLS: &str = "bakery 1\ncall 1 read a\ncall 2 read a\ngo 0\n";

/// A worked example of a faulty file for each engine.
pub const FAULTY: [FaultyFile; 5] = [
    FaultyFile {
        engine: FileEngine::Plain,
        file: LATE_HEADING,
        line: 3,
        kind: FaultKind::NotFirst,
    },
    FaultyFile {
        engine: FileEngine::Bits,
        file: "bits 1\nread\nvalue 2\nfrob\n",
        line: 3,
        kind: FaultKind::Number,
    },
    FaultyFile {
        engine: FileEngine::Replay,
        file: LATE_HEADING,
        line: 3,
        kind: FaultKind::NotFirst,
    },
    FaultyFile {
        engine: FileEngine::Audit,
        file: FAULT_AFTER_CALLS,
        line: 4,
        kind: FaultKind::Words,
    },
    FaultyFile {
        engine: FileEngine::Sweep,
        file: FAULT_AFTER_CALLS,
        line: 4,
        kind: FaultKind::Words,
    },
];

/// Runs an engine, and returns its exit status.
pub fn run(
    alloc: Global,
    engine: FileEngine,
    input: &mut FailingSource<'_>,
    output: &mut FailingSink,
) -> Result<u8, Fault>
    requires reads { input.old.failures ≡ 0 }
    requires writes { output.old.failures ≡ 0 }
{
    match engine {
        FileEngine::Plain => run_plain(alloc, input, output)?,
        FileEngine::Bits => run_bits(alloc, input, output)?,
        FileEngine::Replay => {
            replay(alloc, input, output, &mut NoObserver)?;
        }
        FileEngine::Audit => return run_audit(alloc, input, output, &mut NoObserver),
        FileEngine::Sweep => return run_sweep(alloc, input, output, &mut NoObserver),
    }
    Ok(DONE)
}
