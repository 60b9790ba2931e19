//! An observer that tabulates the calls of a run. It writes the line of each call that ends before the next event is made.
ghost use Rattle.std.specs.Prelude.{◌≡◌, ◌+◌, ◌-◌, ◌^◌, ◌<◌, ◌∷◌, [], OnErr, OnOk, Some, length, refl, false};
ghost use Rattle.std.proofs.Common.{◌∙◌};
ghost use Rattle.std.specs.Io.KnownBytes.{Appends};
ghost use Rattle.model.specs.{Entry as Noted, Past};
ghost use Rattle.scenario.specs.files.{WritesFront};
ghost use Rattle.scenario_run.specs.{FailsAsWriting, Took, TookPart, part_before, part_on, part_unobserved, took_none, took_on};
ghost use Rattle.calls.specs.Observing.{ComesInTurn, HasObserved, ended_call};
ghost use Rattle.calls.specs.Lines.{call_line, line_of};
ghost use Rattle.calls.specs.Tables.{CutsReported, HasTabled, Reports, fewer, known_step, lines_after, lines_longer};

use crate::called::{Called, EntryFacts};
use crate::printed::print_call;
use crate::table::CallTable;
use model::{Access, Mark};
use scenario::{Fault, Sink, write_all};
use scenario_run::{RunObserver, TurnReport, UnmarkedStep};
use std::alloc::Global;
use world::Flicks;

/// Tabulates the calls of a run as it observes its entries.
#[derive(Drop)]
pub(crate) struct CallsWriter<'a, W: Sink> {
    pub alloc: Global,
    pub table: &'a mut CallTable,
    pub output: &'a mut W,
}

impl<'a, W: Sink> RunObserver for CallsWriter<'a, W> {
    ghost observes_steps = { λ _. false };

    #[inline(always)]
    fn observes_steps(&self) -> bool {
        false
    }

    fn event_count(&self) -> u64 {
        self.table.entries()
    }

    ghost HasRoom = { λ tabler more. (tabler.table.now.entries + more < 2 ^ 64) × (W.failures tabler.output.now < 2 ^ 64 - 1) };

    ghost Observes = { λ a s x y b. (b.output.ghost_name ≡ a.output.ghost_name) × (b.table.ghost_name ≡ a.table.ghost_name) × (HasTabled s x a.table.now → HasTabled s y b.table.now) × Took (HasTabled s x a.table.now) (lines_after s x) (lines_after s y) (W.taken a.output.now) (W.taken b.output.now) (W.failures a.output.now) (W.failures b.output.now) };

    ghost Stops = { λ a s x y fault b. (b.output.ghost_name ≡ a.output.ghost_name) × TookPart (HasTabled s x a.table.now) (lines_after s x) (lines_after s y) (W.taken a.output.now) (W.taken b.output.now) (W.failures a.output.now) (W.failures b.output.now) fault };

    fn observe(&mut self, reported: &TurnReport) -> Result<(), Fault> {
        observe_reported(self.alloc, reported, self.table, self.output)
    }

    #[inline(always)]
    fn step(&mut self, made: UnmarkedStep) -> Result<(), Fault> {
        observe_step(&made, self.table);
        Ok(())
    }

    #[inline(always)]
    fn pass(&mut self, process: u8, _flicks: &Flicks, steps: u32, newest: Access, overlapped: u32) {
        self.table.pass(process, steps, newest.how, overlapped);
    }

    ghost room_less = { λ a n k few room. (fewer a.table.now.entries n k few room.0, room.1) };

    ghost observes_nothing = { λ a s x. (refl, refl, (λ tabled. tabled), took_none (HasTabled s x a.table.now) (lines_after s x) (W.taken a.output.now) (W.failures a.output.now)) };

    ghost observes_on = { λ a b c s x y z p q. (q.0 ∙ p.0, q.1 ∙ p.1, (λ tabled. q.2 (p.2 tabled)), took_on {P = HasTabled s x a.table.now} {Q = HasTabled s y b.table.now} p.2 p.3 q.3) };

    ghost stops_unobserved = { λ a s x. (refl, part_unobserved (HasTabled s x a.table.now) (lines_after s x) (W.taken a.output.now) (W.failures a.output.now)) };

    ghost stops_before = { λ a b s x y more fault p. (p.0, part_before (lines_longer s y more) p.1) };

    ghost stops_on = { λ a b c s x y z fault p q. (q.0 ∙ p.0, part_on {P = HasTabled s x a.table.now} {Q = HasTabled s y b.table.now} p.2 p.3 q.1) };
}

/// Observes a Step without a mark.
#[inline(never)]
fn observe_step(made: &UnmarkedStep, table: &mut CallTable)
    requires { table.old.entries < 2 ^ 64 - 1 }
    ensures observed { (past : Past) (e : Noted) → e.process ≡ made.now.process →
        e.access ≡ Some made.now.access → e.marks ≡ [] → HasObserved table.old past →
        ComesInTurn table.old.setup past e (known_step made.now) →
        HasObserved table.new (e ∷ past) }
    ensures setup { table.new.setup ≡ table.old.setup }
    ensures entries { table.new.entries ≡ table.old.entries + 1 }
{
    let known = EntryFacts {
        overlapped: made.overlapped,
        read: made.number,
    };
    let _none = table.observe(made.process, &known, &Some(made.access), &[]);
}

/// Observes what a turn reports, and writes the line of the call that ends with it, if one does.
fn observe_reported<W: Sink>(
    alloc: Global,
    reported: &TurnReport,
    table: &mut CallTable,
    output: &mut W,
) -> Result<(), Fault>
    requires writes { W.failures output.old < 2 ^ 64 - 1 }
    requires entries { table.old.entries < 2 ^ 64 - 1 }
    ensures observed { OnOk result
        (Reports reported.now table.old table.new (W.taken output.old) (W.taken output.new)) }
    ensures cut { OnErr result
        (CutsReported reported.now table.old (W.taken output.old) (W.taken output.new)) }
    ensures setup { table.new.setup ≡ table.old.setup }
    ensures entries { table.new.entries < table.old.entries + 2 }
    ensures fails { FailsAsWriting W.failures result output.old output.new }
{
    match reported {
        TurnReport::Accepted(made) => {
            let process = made.event.process();
            let known = EntryFacts {
                overlapped: made.overlapped,
                read: None,
            };
            let marks = made.marks(alloc);
            observe(
                alloc,
                process,
                &known,
                &made.access,
                marks.as_slice(),
                table,
                output,
            )
        }
        TurnReport::Refused { .. } => Ok(()),
        TurnReport::Tired(_) => Ok(()),
        TurnReport::Shown(_) => Ok(()),
    }
}

/// Observes an entry of `process` with this access and these marks, and writes the line of the call that ends with it, if one
/// does.
fn observe<W: Sink>(
    alloc: Global,
    process: u8,
    known: &EntryFacts,
    access: &Option<Access>,
    marks: &[Mark],
    table: &mut CallTable,
    output: &mut W,
) -> Result<(), Fault>
    requires writes { W.failures output.old < 2 ^ 64 - 1 }
    requires entries { table.old.entries < 2 ^ 64 - 1 }
    ensures observed { (past : Past) (e : Noted) → e.process ≡ process → e.access ≡ access.now →
        e.marks ≡ marks.now → HasObserved table.old past →
        ComesInTurn table.old.setup past e known.now → HasObserved table.new (e ∷ past) }
    ensures written { OnOk result
        ((past : Past) (e : Noted) → e.process ≡ process → e.access ≡ access.now →
        e.marks ≡ marks.now → HasObserved table.old past →
        ComesInTurn table.old.setup past e known.now →
        Appends (W.taken output.old) (W.taken output.new)
        (line_of (length past) (ended_call table.old.setup past e))) }
    ensures front { (past : Past) (e : Noted) → e.process ≡ process → e.access ≡ access.now →
        e.marks ≡ marks.now → HasObserved table.old past →
        ComesInTurn table.old.setup past e known.now →
        WritesFront (W.taken output.old) (W.taken output.new)
        (line_of (length past) (ended_call table.old.setup past e)) }
    ensures setup { table.new.setup ≡ table.old.setup }
    ensures entries { table.new.entries ≡ table.old.entries + 1 }
    ensures fails { FailsAsWriting W.failures result output.old output.new }
{
    let newest = table.entries();
    let ended = table.observe(process, known, access, marks);
    write_if(alloc, &ended, newest, output)
}

/// Writes the line of a call, if there is one; `newest` is the number of the newest event.
pub(crate) fn write_if<W: Sink>(
    alloc: Global,
    called: &Option<Called>,
    newest: u64,
    output: &mut W,
) -> Result<(), Fault>
    requires { W.failures output.old < 2 ^ 64 - 1 }
    ensures written { OnOk result
        (Appends (W.taken output.old) (W.taken output.new) (line_of newest called.now)) }
    ensures front { WritesFront (W.taken output.old) (W.taken output.new)
        (line_of newest called.now) }
    ensures fails { FailsAsWriting W.failures result output.old output.new }
{
    match called {
        None => Ok(()),
        Some(called) => write_call(alloc, called, newest, output),
    }
}

/// Writes the line of a call. If an allocation fails, nothing is written.
#[tactic(auto, using(crate::proofs::Fronts::front_none))]
fn write_call<W: Sink>(
    alloc: Global,
    called: &Called,
    newest: u64,
    output: &mut W,
) -> Result<(), Fault>
    requires { W.failures output.old < 2 ^ 64 - 1 }
    ensures written { OnOk result
        (Appends (W.taken output.old) (W.taken output.new) (call_line newest called.now)) }
    ensures front { WritesFront (W.taken output.old) (W.taken output.new)
        (call_line newest called.now) }
    ensures fails { FailsAsWriting W.failures result output.old output.new }
{
    let mut line = Vec::new(alloc);
    print_call(alloc, called, newest, &mut line)?;
    write_all(output, line.as_slice())
}
