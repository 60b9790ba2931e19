//! The command `plain`: the calls of a file on one store, in order.
ghost use Rattle.std.specs.Prelude.{◌≡◌, ◌^◌, ◌-◌, ◌<◌, ◌≤◌, ◌++◌, length, IfOk, OnOk, Ok};
ghost use Rattle.std.specs.String.{string_bytes};
ghost use Rattle.plain_store.specs.{checked, reply_text};
ghost use Rattle.scenario.specs.files.Engines.{Ran, streams};
ghost use Rattle.scenario.specs.{script};
ghost use Rattle.scenario.specs.files.{GivesText, ReadsFront};
ghost use Rattle.engines.specs.Plain.{line_text, printed, run_after, run_at_start, plain_text, call_text, called, applied_text, applied, caller_of, counted, reply_line as line_of_reply};

use plain_store::{Caller, Command, PlainStore, Reply, Setup, Store, opened, show_line};
use scenario::{Fault, Line, Scenario, Sink, Source, read_input, read_scenario, write_all};
use scenario_run::{Refusal, refusal_line};
use std::alloc::{AllocError, Global};
use std::marker::Model;

/// A run of `plain`: the store, and the numbers of calls that were applied, in all and of each process.
#[derive(Drop)]
struct PlainRun {
    store: PlainStore,
    place: u64,
    counts: Vec<u16>,
}

impl Model for PlainRun {
    ghost use Rattle.std.specs.Prelude.{ℕ, ◌≤◌, slice_index};
    ghost use Rattle.engines.specs.Plain.{Run};

    ghost Value = { Run };

    ghost view = { λ p. record { store = p.store; place = p.place; counts = p.counts.items } };

    ghost invariant = { λ p. (k : ℕ) → slice_index p.counts.items k ≤ p.place };
}

impl PlainRun {
    fn new(alloc: Global, setup: &Setup) -> Result<PlainRun, AllocError>
        requires { checked setup.now ≡ Ok tt }
        ensures { IfOk result (λ run. run ≡ run_at_start setup.now) }
    {
        let counts = vec![in alloc; 0; usize::from(setup.processes)]?;
        let empty = PlainStore::new(alloc, setup.slots, setup.callers());
        Ok(PlainRun {
            store: opened(empty, setup)?,
            place: 0,
            counts,
        })
    }

    /// Carries out a line, and returns the text that is printed.
    fn line(&mut self, alloc: Global, setup: &Setup, line: &Line) -> Result<String, AllocError>
        requires known { length self.old.counts ≡ setup.now.processes }
        requires bounded { self.old.place < 2 ^ 16 - 1 }
        ensures text { GivesText result (line_text setup.now self.old line.now) }
        ensures run { OnOk result (self.new ≡ run_after setup.now self.old line.now) }
    {
        match line {
            Line::Call(process, command) => self.call(alloc, setup, *process, command),
            Line::Show => show_line(alloc, &self.store),
            _ => Ok(String::new(alloc)),
        }
    }

    fn call(
        &mut self,
        alloc: Global,
        setup: &Setup,
        process: u8,
        command: &Command,
    ) -> Result<String, AllocError>
        requires known { length self.old.counts ≡ setup.now.processes }
        requires bounded { self.old.place < 2 ^ 16 - 1 }
        ensures text { GivesText result (call_text setup.now self.old process command.now) }
        ensures run { OnOk result (self.new ≡ called setup.now self.old process command.now) }
    {
        if process < setup.processes {
            self.apply(alloc, setup, process, command)
        } else {
            refusal_line(alloc, process, &Refusal::NoProcess)
        }
    }

    fn apply(
        &mut self,
        alloc: Global,
        setup: &Setup,
        process: u8,
        command: &Command,
    ) -> Result<String, AllocError>
        requires known { process < length self.old.counts }
        requires bounded { self.old.place < 2 ^ 16 - 1 }
        ensures text { GivesText result (applied_text setup.now self.old process command.now) }
        ensures run { OnOk result (self.new ≡ applied setup.now self.old process command.now) }
    {
        let caller = self.caller(setup, process);
        let reply = self.store.apply(command, caller)?;
        let place = self.place;
        self.count(process);
        reply_line(alloc, place, process, &reply)
    }

    /// Returns the caller of the process's next call.
    fn caller(&self, setup: &Setup, process: u8) -> Caller
        requires known { process < length self.now.counts }
        requires bounded { self.now.place < 2 ^ 16 - 1 }
        ensures { result ≡ caller_of setup.now self.now process }
    {
        let number = if setup.version == 1 {
            0
        } else {
            self.counts[usize::from(process)] + 1
        };
        Caller { process, number }
    }

    fn count(&mut self, process: u8)
        requires known { process < length self.old.counts }
        requires bounded { self.old.place < 2 ^ 16 - 1 }
        ensures { self.new ≡ counted self.old process }
    {
        self.place += 1;
        self.counts[usize::from(process)] += 1;
    }
}

/// Returns the line that is printed for a call.
#[tactic(auto, using(crate::proofs::Lists::reply_line_is))]
fn reply_line(alloc: Global, place: u64, process: u8, reply: &Reply) -> Result<String, AllocError>
    ensures { GivesText result (line_of_reply place process (reply_text reply.now)) }
{
    format!(in alloc; "{place} {process} {reply}\n")
}

/// Returns the text of a scenario.
fn text_of(alloc: Global, scenario: &Scenario) -> Result<String, AllocError>
    ensures { GivesText result (printed (script scenario.now)) }
{
    let mut run = PlainRun::new(alloc, &scenario.setup)?;
    let mut text = String::new(alloc);
    push_lines(alloc, scenario, &mut run, &mut text)?;
    Ok(text)
}

/// Appends it to a text, by a run that has just begun. It borrows the run, because a value that is dropped at each
/// way out of a function takes long to prove.
fn push_lines(
    alloc: Global,
    scenario: &Scenario,
    run: &mut PlainRun,
    text: &mut String,
) -> Result<(), AllocError>
    requires { run.old ≡ run_at_start scenario.now.setup }
    ensures { OnOk result
        (string_bytes text.new ≡ string_bytes text.old ++ printed (script scenario.now)) }
{
    for line in &scenario.lines {
        let printed = run.line(alloc, &scenario.setup, line)?;
        text.push_str(printed.as_str())?;
    }
    Ok(())
}

/// Reads a whole scenario file, and then writes a line for each call and each `show`; other lines do nothing.
/// However it ends, it takes at most `INPUT_LIMIT` bytes from the start of the input.
///
/// # Errors
///
/// Returns the fault of a line, [`Fault::Read`], [`Fault::Memory`] or [`Fault::Write`]. Only after [`Fault::Memory`] or
/// [`Fault::Write`] may the start of the text have been written.
pub fn run_plain<R: Source, W: Sink>(
    alloc: Global,
    input: &mut R,
    output: &mut W,
) -> Result<(), Fault>
    requires reads { R.failures input.old < 2 ^ 64 - 1 }
    requires writes { W.failures output.old < 2 ^ 64 - 1 }
    ensures ran { Ran plain_text result
        (streams ⟦<R as Source>⟧ ⟦<W as Sink>⟧ input.old output.old)
        (streams ⟦<R as Source>⟧ ⟦<W as Sink>⟧ input.new output.new) }
    ensures input { ReadsFront (R.to_come input.old) (R.to_come input.new) }
{
    let file = read_input(alloc, input)?;
    let scenario = read_scenario(alloc, file.as_slice())?;
    let text = text_of(alloc, &scenario)?;
    write_all(output, text.as_bytes())
}
