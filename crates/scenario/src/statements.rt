//! The meaning of the words of a line.
ghost use Rattle.std.specs.Prelude.{◌≡◌, ◌<◌, ℕ, true, length, IfOk};
ghost use Rattle.files.specs.{texts};
ghost use Rattle.scenario.specs.Statements.{is_line_of, is_verb_of, verb_in, operand_count, verb_at, command_of, call_of, step_of, go_of, process_of, flick_of, wander_of, show_of, line_of};

use crate::keywords::{LineWord, Verb};
use crate::lines::{Line, Target};
use crate::operands::{count, integer, name, number, process, value};
use choices::Flick;
use files::FaultKind;
use plain_store::Command;

impl Verb {
    /// Returns the number of words that follow the key word of a call.
    pub fn operands(self) -> usize
        ensures { result ≡ operand_count self }
    {
        match self {
            Verb::Ask => 0,
            Verb::Read => 1,
            Verb::Write | Verb::Add => 2,
            Verb::Cas => 3,
        }
    }
}

/// Returns the key word of a call: `ask` is in the table of version 2 only.
fn verb(version: u8, word: &[u8]) -> Result<Verb, FaultKind>
    ensures value { result ≡ verb_at version word.now }
    ensures allowed { IfOk result (λ verb. is_verb_of version verb ≡ true) }
{
    match Verb::of(word) {
        None => Err(FaultKind::Unknown),
        Some(Verb::Ask) if version != 2 => Err(FaultKind::Unknown),
        Some(verb) => Ok(verb),
    }
}

/// Returns a line other than a heading or an opening pair, by its first word and the words after it.
///
/// # Errors
///
/// Returns the first fault that applies, in this order: an unknown key word, a wrong number of words, and the faults of
/// the operands from left to right.
pub fn line(version: u8, name: LineWord, words: &[&[u8]]) -> Result<Line, FaultKind>
    ensures value { result ≡ line_of version name (texts words.now) }
    ensures allowed { IfOk result (λ line. is_line_of version line ≡ true) }
{
    match name {
        LineWord::Call => call(version, words),
        LineWord::Step => step(words),
        LineWord::Go => go(words),
        LineWord::Fail => Ok(Line::Fail(lone_process(words)?)),
        LineWord::Withdraw => Ok(Line::Withdraw(lone_process(words)?)),
        LineWord::Restart => Ok(Line::Restart(lone_process(words)?)),
        LineWord::Flick => flick(words),
        LineWord::Wander => wander(words),
        LineWord::Show => show(words),
    }
}

/// Returns the command of a call, by the words after its key word, exactly as many as it takes.
///
/// # Errors
///
/// Returns the first fault of the operands, from left to right.
#[tactic(auto, unfolding(crate::specs::Statements::command_of))]
pub fn command(verb: Verb, words: &[&[u8]]) -> Result<Command, FaultKind>
    requires { length words.now ≡ operand_count verb }
    ensures value { result ≡ command_of verb (texts words.now) }
    ensures verb { IfOk result (λ command. verb_in command ≡ verb) }
{
    Ok(match verb {
        Verb::Ask => Command::Ask,
        Verb::Read => Command::Read(name(words[0])?),
        Verb::Write => Command::Write(name(words[0])?, value(words[1])?),
        Verb::Add => Command::Add(name(words[0])?, integer(words[1])?),
        Verb::Cas => Command::Cas(name(words[0])?, value(words[1])?, value(words[2])?),
    })
}

#[tactic(auto, unfolding(crate::specs::Statements::call_of))]
fn call(version: u8, words: &[&[u8]]) -> Result<Line, FaultKind>
    ensures value { result ≡ call_of version (texts words.now) }
    ensures allowed { IfOk result (λ line. is_line_of version line ≡ true) }
{
    let [caller, verb_word, operands @ ..] = words else {
        return Err(FaultKind::Words);
    };
    let verb = verb(version, verb_word)?;
    if operands.len() != verb.operands() {
        return Err(FaultKind::Words);
    }
    let process = process(caller)?;
    Ok(Line::Call(process, command(verb, operands)?))
}

#[tactic(auto, unfolding(crate::specs::Statements::step_of))]
fn step(words: &[&[u8]]) -> Result<Line, FaultKind>
    ensures value { result ≡ step_of (texts words.now) }
    ensures allowed { (version : ℕ) → IfOk result (λ line. is_line_of version line ≡ true) }
{
    if words.len() != 2 {
        return Err(FaultKind::Words);
    }
    Ok(Line::Step(process(words[0])?, count(words[1])?))
}

#[tactic(auto, unfolding(crate::specs::Statements::go_of))]
fn go(words: &[&[u8]]) -> Result<Line, FaultKind>
    ensures value { result ≡ go_of (texts words.now) }
    ensures allowed { (version : ℕ) → IfOk result (λ line. is_line_of version line ≡ true) }
{
    let [caller, target, more @ ..] = words else {
        return Err(FaultKind::Words);
    };
    let Some(target) = Target::of(target) else {
        return Err(FaultKind::Unknown);
    };
    if !more.is_empty() {
        return Err(FaultKind::Words);
    }
    Ok(Line::Go(process(caller)?, target))
}

#[tactic(auto, unfolding(crate::specs::Statements::process_of))]
fn lone_process(words: &[&[u8]]) -> Result<u8, FaultKind>
    ensures { result ≡ process_of (texts words.now) }
{
    if words.len() != 1 {
        return Err(FaultKind::Words);
    }
    process(words[0])
}

#[tactic(auto, unfolding(crate::specs::Statements::flick_of))]
fn flick(words: &[&[u8]]) -> Result<Line, FaultKind>
    ensures value { result ≡ flick_of (texts words.now) }
    ensures allowed { (version : ℕ) → IfOk result (λ line. is_line_of version line ≡ true) }
{
    let [mode, operands @ ..] = words else {
        return Err(FaultKind::Words);
    };
    match *mode {
        b"0" if operands.is_empty() => Ok(Line::Flick(Flick::Zero)),
        b"1" if operands.is_empty() => Ok(Line::Flick(Flick::One)),
        b"pcg" if operands.len() == 1 => {
            Ok(Line::Flick(Flick::Pcg(number(operands[0], u64::MAX)?)))
        }
        b"0" | b"1" | b"pcg" => Err(FaultKind::Words),
        _ => Err(FaultKind::Unknown),
    }
}

#[tactic(auto, unfolding(crate::specs::Statements::wander_of))]
fn wander(words: &[&[u8]]) -> Result<Line, FaultKind>
    ensures value { result ≡ wander_of (texts words.now) }
    ensures allowed { (version : ℕ) → IfOk result (λ line. is_line_of version line ≡ true) }
{
    if words.len() != 1 {
        return Err(FaultKind::Words);
    }
    Ok(Line::Wander(count(words[0])?))
}

#[tactic(auto, unfolding(crate::specs::Statements::show_of))]
fn show(words: &[&[u8]]) -> Result<Line, FaultKind>
    ensures value { result ≡ show_of (texts words.now) }
    ensures allowed { (version : ℕ) → IfOk result (λ line. is_line_of version line ≡ true) }
{
    if words.is_empty() {
        Ok(Line::Show)
    } else {
        Err(FaultKind::Words)
    }
}
