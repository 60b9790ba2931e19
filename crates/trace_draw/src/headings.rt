//! The title of a trace's picture, the lines that its page lists, and the start of the page.
ghost use Rattle.std.specs.Prelude.{◌≡◌, ◌++◌, ◌<◌, ◌-◌, ◌^◌, [], IfOk, OnOk, Some, flat_map};
ghost use Rattle.picture.specs.{page_names, plural_of, trace_page_front};
ghost use Rattle.picture.specs.markup.{lines_in, opens_in};
ghost use Rattle.draw.specs.{FailsAsWriting};
ghost use Rattle.trace_draw.specs.Headings.{first_lines, kind_word, listed, memory_word, register_line, source_of, title_of};
ghost use Rattle.trace_draw.specs.Showing.{Heads};

use draw::write_markup;
use files::{Fault, Sink};
use picture::{Form, Markup, Reads, trace_page_head};
use std::alloc::{AllocError, Global};
use trace::{TraceMemory, TraceRegister, TraceSetup};

/// Returns the title of the picture of a trace.
///
/// # Errors
///
/// Returns [`AllocError`] if memory is lacking.
pub(crate) fn title(alloc: Global, setup: &TraceSetup) -> Result<Vec<u8>, AllocError>
    ensures { IfOk result (λ title. title.items ≡ title_of setup.now) }
{
    let processes = setup.processes;
    let many = plural(processes);
    let memory = word_of(setup.memory);
    let title = format!(in alloc; "Trace of {processes} process{many} ({memory} memory)")?;
    Ok(title.into_bytes())
}

/// Returns the lines that a page lists: the headings and registers of a trace, and one line for all its entries.
///
/// # Errors
///
/// Returns [`AllocError`] if memory is lacking.
pub(crate) fn listed_lines(alloc: Global, setup: &TraceSetup) -> Result<Vec<u8>, AllocError>
    ensures { IfOk result (λ lines. lines.items ≡ listed setup.now) }
{
    let mut lines = first_line_bytes(alloc, setup)?;
    push_registers(alloc, setup.registers.as_slice(), &mut lines)?;
    lines.extend_from_slice(b"(entries)\n")?;
    Ok(lines)
}

/// Returns the number of the line for all entries.
pub(crate) fn line_of_entries(setup: &TraceSetup) -> u64
    ensures line { result ≡ source_of setup.now }
    ensures room { result < 2 ^ 64 - 1 }
{
    setup.registers.len() as u64 + 4
}

/// Writes the start of a page that shows these accesses, if the form is a page.
///
/// # Errors
///
/// Returns [`Fault::Write`] if a call of the sink fails, and [`Fault::Memory`] if memory is lacking.
pub(crate) fn write_head<W: Sink>(
    alloc: Global,
    setup: &TraceSetup,
    form: Form,
    shows: Reads,
    output: &mut W,
) -> Result<(), Fault>
    requires { W.failures output.old < 2 ^ 64 - 1 }
    ensures heads { OnOk result
        (Heads form shows setup.now (W.taken output.old) (W.taken output.new)) }
    ensures fails { FailsAsWriting W.failures result output.old output.new }
{
    match form {
        Form::Page => {
            let head = head_of(alloc, setup, shows)?;
            write_markup(&head, output)
        }
        Form::Picture(_) => Ok(()),
    }
}

/// Returns the start of a page.
fn head_of(alloc: Global, setup: &TraceSetup, shows: Reads) -> Result<Markup, AllocError>
    ensures draws { IfOk result (λ markup. markup
        ≡ trace_page_front setup.now.processes (title_of setup.now) (listed setup.now) shows) }
    ensures lines { IfOk result (λ markup. lines_in markup ≡ []) }
    ensures elements { IfOk result (λ markup. opens_in markup (Some []) ≡ Some page_names) }
{
    let title = title(alloc, setup)?;
    let printed = listed_lines(alloc, setup)?;
    trace_page_head(
        alloc,
        setup.processes,
        title.as_slice(),
        printed.as_slice(),
        shows,
    )
}

/// Returns the headings.
fn first_line_bytes(alloc: Global, setup: &TraceSetup) -> Result<Vec<u8>, AllocError>
    ensures { IfOk result (λ lines. lines.items ≡ first_lines setup.now) }
{
    let processes = setup.processes;
    let memory = word_of(setup.memory);
    let lines = format!(in alloc; "trace 1\nprocesses {processes}\nmemory {memory}\n")?;
    Ok(lines.into_bytes())
}

/// Adds a line for each register.
fn push_registers(
    alloc: Global,
    registers: &[TraceRegister],
    lines: &mut Vec<u8>,
) -> Result<(), AllocError>
    ensures { OnOk result (lines.new.items
        ≡ lines.old.items ++ flat_map register_line registers.now) }
{
    for register in registers {
        push_register(alloc, register, lines)?;
    }
    Ok(())
}

/// Adds the line of a register.
fn push_register(
    alloc: Global,
    register: &TraceRegister,
    lines: &mut Vec<u8>,
) -> Result<(), AllocError>
    ensures { OnOk result (lines.new.items ≡ lines.old.items ++ register_line register.now) }
{
    let kind = kind_of(register);
    let name = register.name.as_str();
    let TraceRegister { width, opens, .. } = *register;
    let line = format!(in alloc; "{kind} {name} {width} opens {opens}\n")?;
    lines.extend_from_slice(line.as_bytes())
}

/// Returns the first word of the line of a register.
fn kind_of(register: &TraceRegister) -> &'static str
    ensures { result.now ≡ kind_word register.now.is_shared }
{
    if register.is_shared {
        "shared"
    } else {
        "register"
    }
}

/// Returns what makes `process` many.
fn plural(processes: u8) -> &'static str
    ensures { result.now ≡ plural_of processes }
{
    if processes == 1 { "" } else { "es" }
}

/// Returns the word of a memory.
fn word_of(memory: TraceMemory) -> &'static str
    ensures { result.now ≡ memory_word memory }
{
    match memory {
        TraceMemory::Safe => "safe",
        TraceMemory::Regular => "regular",
        TraceMemory::Atomic => "atomic",
    }
}
