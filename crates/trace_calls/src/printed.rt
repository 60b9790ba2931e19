//! Calls as lines of comma-separated values.
ghost use Rattle.std.specs.Prelude.{◌≡◌, ◌++◌, OnOk};
ghost use Rattle.std.specs.Fmt.{decimal};
ghost use Rattle.trace_calls.specs.Lines.{call_line, fields as fields_of, line_of};

use crate::kept::TraceCall;
use calls::{push_numbers, waited};
use std::alloc::{AllocError, Global};

/// Appends the line of a call of a process, if there is one; `newest` is the number of the newest entry.
pub(crate) fn print_if(
    alloc: Global,
    process: u8,
    call: &Option<TraceCall>,
    newest: u64,
    lines: &mut Vec<u8>,
) -> Result<(), AllocError>
    ensures { OnOk result (lines.new.items ≡ lines.old.items ++ line_of newest process call.now) }
{
    match call {
        None => Ok(()),
        Some(call) => print_call(alloc, process, call, newest, lines),
    }
}

/// Appends the line of a call.
fn print_call(
    alloc: Global,
    process: u8,
    call: &TraceCall,
    newest: u64,
    lines: &mut Vec<u8>,
) -> Result<(), AllocError>
    ensures { OnOk result (lines.new.items ≡ lines.old.items ++ call_line newest process call.now) }
{
    push_process(alloc, process, lines)?;
    push_numbers(alloc, lines, &fields(call, newest))?;
    Ok(lines.push(b'\n')?)
}

/// Returns the fields of a call after its process. Those that a trace does not have are empty.
fn fields(call: &TraceCall, newest: u64) -> [Option<u64>; 18]
    ensures { result ≡ fields_of newest call.now }
{
    [
        Some(call.call),
        None,
        Some(call.called),
        call.doorway,
        call.door_end,
        call.entered,
        None,
        None,
        call.remaining,
        call.answered,
        None,
        None,
        Some(call.reads),
        Some(call.writes),
        Some(call.overlapped),
        waited(call.door_end, call.entered, newest),
        None,
        None,
    ]
}

/// Appends the number of a process.
fn push_process(alloc: Global, process: u8, lines: &mut Vec<u8>) -> Result<(), AllocError>
    ensures { OnOk result (lines.new.items ≡ lines.old.items ++ decimal process) }
{
    let text = process.to_string(alloc)?;
    lines.extend_from_slice(text.as_bytes())
}
