//! Printing scenarios.
ghost use Rattle.std.specs.Prelude.{◌≡◌, flat_map, true, IfOk, OnOk, Ok};
ghost use Rattle.files.specs.{AddsText, GivesText};
ghost use Rattle.scenario.specs.Printing.{target_word, line_words, lines_text, kind_words, open_words, opening_text, spaced, printed_line, scenario_text};
ghost use Rattle.scenario.specs.Reading.{scenario_of};
ghost use Rattle.scenario.specs.Reads.{IsTextOfEqual, script};
ghost use Rattle.scenario.specs.Scripts.{is_line};
ghost use Rattle.std.specs.List.{list_all};

use crate::lines::{Line, Target};
use crate::scenarios::Scenario;
use crate::sound::sound_line;
use choices::Flick;
use plain_store::{Name, NestedTypes, Opening, Setup, Value};
use std::alloc::{AllocError, Global};
use std::fmt;

/// Writes a scenario as a file: the version, the four headings, the opening pairs in the order added, and the
/// lines, with single spaces and a 0x0A after each line. The numbers of the lines are not written, so equal scenarios have
/// one text.
pub fn print_scenario(alloc: Global, scenario: &Scenario) -> Result<Vec<u8>, AllocError>
    ensures text { IfOk result (λ bytes. bytes.items ≡ scenario_text (script scenario.now)) }
    ensures read_again { IfOk result (λ bytes. scenario_of bytes.items ≡ Ok (script scenario.now)) }
    ensures one_text { IfOk result (λ bytes. IsTextOfEqual scenario.now bytes.items) }
{
    scenario.setup.opening.pairs_are_sound();
    let mut text = setup_lines(alloc, "bakery", &scenario.setup)?;
    print_opening(alloc, &scenario.setup.opening, &mut text)?;
    print_lines(alloc, scenario.lines.as_slice(), &mut text)?;
    Ok(text.into_bytes())
}

/// Returns the first line of a file of this kind, and the four headings.
///
/// # Errors
///
/// Returns [`AllocError`] if memory runs out.
#[tactic(auto, using(crate::proofs::Printed::setup_lines_are))]
pub fn setup_lines(alloc: Global, kind: &str, setup: &Setup) -> Result<String, AllocError>
    ensures { GivesText result (flat_map printed_line (kind_words kind.now setup.now)) }
{
    let Setup {
        version,
        processes,
        ticket_bits,
        stamp_bits,
        slots,
        ..
    } = *setup;
    format!(in alloc;
        "{kind} {version}\nprocesses {processes}\ntickets {ticket_bits}\nstamps {stamp_bits}\nslots {slots}\n"
    )
}

/// Writes a line for each opening pair.
///
/// # Errors
///
/// Returns [`AllocError`] if memory runs out. The text may then end with some of the lines.
#[tactic(auto, using(crate::proofs::Printed::opening_more))]
pub fn print_opening(alloc: Global, opening: &Opening, text: &mut String) -> Result<(), AllocError>
    ensures { OnOk result (AddsText text.old text.new (opening_text opening.now)) }
{
    for place in 0..opening.len() {
        let (name, value) = opening.entry(place).unwrap();
        let line = open_line(alloc, &name, &value)?;
        text.push_str(line.as_str())?;
    }
    Ok(())
}

#[tactic(auto, using(crate::proofs::Printed::open_line_is))]
fn open_line(alloc: Global, name: &Name, value: &Value) -> Result<String, AllocError>
    ensures { GivesText result (printed_line (open_words (name.now, value.now))) }
{
    format!(in alloc; "open {name} {value}\n")
}

/// Writes a line for each line after the headings and opening pairs.
#[tactic(auto, using(crate::proofs::Printed::lines_more, crate::proofs::Places::next_in, crate::proofs::Places::all_at_end))]
fn print_lines(alloc: Global, lines: &[Line], text: &mut String) -> Result<(), AllocError>
    ensures sound { OnOk result (list_all is_line lines.now ≡ true) }
    ensures text { OnOk result (AddsText text.old text.new (lines_text lines.now)) }
{
    for line in lines {
        sound_line(line);
        let printed = line_text(alloc, line)?;
        text.push_str(printed.as_str())?;
    }
    Ok(())
}

fn line_text(alloc: Global, line: &Line) -> Result<String, AllocError>
    ensures { GivesText result (printed_line (line_words line.now)) }
{
    format!(in alloc; "{line}\n")
}

impl fmt::Display for Target {
    ghost use Rattle.std.specs.Prelude.{Some};

    ghost output = { λ target. Some (target_word target) };

    fn fmt<W: fmt::Write>(&self, f: &mut fmt::Formatter<W>) -> fmt::Result {
        f.write_str(match self {
            Target::Wait => "wait",
            Target::Inside => "inside",
            Target::Idle => "idle",
            Target::Down => "down",
        })
    }
}

impl fmt::Display for Line {
    ghost use Rattle.std.specs.Prelude.{Some};

    ghost output = { λ line. Some (spaced (line_words line)) };

    #[tactic(auto, using(crate::proofs::Printed::call_is))]
    fn fmt<W: fmt::Write>(&self, f: &mut fmt::Formatter<W>) -> fmt::Result {
        let _nested: NestedTypes = None;
        match self {
            Line::Call(process, command) => write!(f, "call {process} {command}"),
            Line::Step(process, steps) => write!(f, "step {process} {steps}"),
            Line::Go(process, target) => write!(f, "go {process} {target}"),
            Line::Fail(process) => write!(f, "fail {process}"),
            Line::Withdraw(process) => write!(f, "withdraw {process}"),
            Line::Restart(process) => write!(f, "restart {process}"),
            Line::Flick(Flick::Zero) => f.write_str("flick 0"),
            Line::Flick(Flick::One) => f.write_str("flick 1"),
            Line::Flick(Flick::Pcg(seed)) => write!(f, "flick pcg {seed}"),
            Line::Wander(turns) => write!(f, "wander {turns}"),
            Line::Show => f.write_str("show"),
        }
    }
}
