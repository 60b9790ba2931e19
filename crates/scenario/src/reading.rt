//! Reading a scenario file, line by line.
ghost use Rattle.std.specs.Prelude.{◌≡◌, ◌≤◌, [], true, length, IfOk, Ok};
ghost use Rattle.std.specs.Int.{is_in_range};
ghost use Rattle.plain_store.specs.{checked};
ghost use Rattle.files.specs.{Makes, Takes, texts};
ghost use Rattle.scenario.specs.LineNumbers.{last_of, line_numbers};
ghost use Rattle.scenario.specs.Reads.{Gives, script};
ghost use Rattle.scenario.specs.Reading.{first_read, at_version, heading_read, heading_set, pair_read, open_read, kept_read, other_read, opened_read, script_of, scenario_of};
ghost use Rattle.scenario.specs.Setting.{most_of};
ghost use Rattle.scenario.specs.Statements.{is_line_of};

use crate::forms::SCENARIO;
use crate::headings::{Given, default_setup};
use crate::keywords::{Heading, LineWord, Opener};
use crate::lines::Line;
use crate::operands::{name, number, value};
use crate::scenarios::Scenario;
use crate::statements;
use files::{FaultKind, FromLines, LineFault, keep_line, read_file};
use plain_store::{Name, NestedTypes, Setup, Value};
use std::alloc::{AllocError, Global};
use std::marker::Model;

/// Returns the scenario that the bytes of a scenario file contain, or the first fault of the first line that has one. A
/// fault of kind `Memory` may name any line. Each line of the scenario has the number of its line in the file.
pub fn read_scenario(alloc: Global, text: &[u8]) -> Result<Scenario, LineFault>
    ensures said { Gives result (scenario_of text.now) }
    ensures numbers { IfOk result (λ s.
        s.numbers.items ≡ line_numbers text.now (length s.lines.items)) }
{
    let mut said = Vec::new(alloc);
    let reader: Reader = read_file(alloc, text, &mut said)?;
    match reader.into_scenario(&mut said) {
        Ok(scenario) => Ok(scenario),
        Err(_) => Err(LineFault {
            line: 1,
            kind: FaultKind::Memory,
        }),
    }
}

/// The progress of reading a scenario file.
#[derive(Drop)]
pub struct Reader {
    given: Given,
    setup: Setup,
    lines: Vec<Line>,
}

impl Model for Reader {
    ghost use Rattle.std.specs.Prelude.{◌≡◌, ◌≤◌, true, length, Ok};
    ghost use Rattle.std.specs.List.{list_all};
    ghost use Rattle.plain_store.specs.{checked};
    ghost use Rattle.scenario.specs.Reading.{Progress};
    ghost use Rattle.scenario.specs.Statements.{is_line_of};

    ghost Value = { Progress };

    ghost view = { λ r. record { given = r.given; setup = r.setup; lines = r.lines.items } };

    ghost invariant = { λ r. (checked r.setup ≡ Ok tt) × (length r.lines.items ≤ 4000) × (list_all (is_line_of r.setup.version) r.lines.items ≡ true) };
}

impl FromLines for Reader {
    ghost use Rattle.scenario.specs.Reading.{scenario_grammar};

    ghost grammar = { scenario_grammar };

    fn first(alloc: Global, word: &[u8], words: &[&[u8]]) -> Result<Reader, FaultKind> {
        Reader::new(alloc, word, words)
    }

    fn later(&mut self, word: &[u8], words: &[&[u8]]) -> Result<(), FaultKind> {
        match Opener::of(word) {
            None => Err(FaultKind::Unknown),
            Some(opener) => self.opened(opener, words),
        }
    }
}

impl Reader {
    /// Makes the scenario after all lines are read. `said` has the number of each line that was not skipped, and the scenario's
    /// lines are the last of these.
    fn into_scenario(self, said: &mut Vec<u16>) -> Result<Scenario, AllocError>
        requires { length self.lines ≤ length said.old.items }
        ensures script { IfOk result (λ s. script s ≡ script_of self) }
        ensures numbers { IfOk result (λ s.
            s.numbers.items ≡ last_of (length s.lines.items) said.old.items) }
    {
        let before = said.len() - self.lines.len();
        let numbers = said.split_off(before)?;
        Ok(Scenario {
            setup: self.setup,
            lines: self.lines,
            numbers,
        })
    }

    /// Reads the first line: `bakery 1` or `bakery 2`.
    #[tactic(auto, unfolding(crate::specs::Reading::first_read))]
    fn new(alloc: Global, word: &[u8], words: &[&[u8]]) -> Result<Reader, FaultKind>
        ensures { Makes result (first_read word.now (texts words.now)) }
    {
        if word != SCENARIO.as_bytes() || words.len() != 1 {
            return Err(FaultKind::NotFirst);
        }
        Reader::at_version(alloc, words[0])
    }

    /// Creates the reader of a file of the version that this word names, before any other line.
    ///
    /// # Errors
    ///
    /// Returns [`FaultKind::NotFirst`] if the word names no version.
    pub fn at_version(alloc: Global, word: &[u8]) -> Result<Reader, FaultKind>
        ensures { Makes result (at_version word.now) }
    {
        let version = match word {
            b"1" => 1,
            b"2" => 2,
            _ => return Err(FaultKind::NotFirst),
        };
        Ok(Reader {
            given: Given::none(),
            setup: default_setup(version),
            lines: Vec::new(alloc),
        })
    }

    /// Returns the setup so far.
    pub fn setup(&self) -> &Setup
        ensures value { result.now ≡ self.now.setup }
        ensures good { checked result.now ≡ Ok tt }
    {
        &self.setup
    }

    /// Reads a later line, by the meaning of its first word.
    fn opened(&mut self, opener: Opener, words: &[&[u8]]) -> Result<(), FaultKind>
        ensures { Takes result (opened_read opener (texts words.now) self.old) self.new }
    {
        match opener {
            Opener::Bakery => Err(FaultKind::NotFirst),
            Opener::Heading(heading) => self.heading(heading, words),
            Opener::Open => self.open(words),
            Opener::Line(name) => self.other(name, words),
        }
    }

    /// Reads a heading and its number.
    ///
    /// # Errors
    ///
    /// Returns the first fault that applies, in this order:
    /// - `NotFirst` if the heading was given before, or follows a line of another kind
    /// - `Words` unless there is one word
    /// - `Number` if the word is not a number up to 255
    /// - `BadSetup` if the number is out of the range of the heading
    #[tactic(auto, unfolding(crate::specs::Reading::heading_read))]
    pub fn heading(&mut self, heading: Heading, words: &[&[u8]]) -> Result<(), FaultKind>
        ensures { Takes result (heading_read heading (texts words.now) self.old) self.new }
    {
        if self.given.has(heading) || self.setup.opening.len() != 0 || !self.lines.is_empty() {
            return Err(FaultKind::NotFirst);
        }
        if words.len() != 1 {
            return Err(FaultKind::Words);
        }
        let n = number(words[0], 255)? as u8;
        if n < 1 || n > heading.most(self.setup.version) {
            return Err(FaultKind::BadSetup);
        }
        self.set(heading, n);
        Ok(())
    }

    /// Sets a heading whose number is in range.
    fn set(&mut self, heading: Heading, n: u8)
        requires fits { is_in_range 1 (most_of heading self.old.setup.version) n ≡ true }
        requires none_open { self.old.setup.opening ≡ [] }
        requires no_lines { self.old.lines ≡ [] }
        ensures { self.new ≡ heading_set heading n self.old }
    {
        self.given.add(heading);
        heading.set(&mut self.setup, n);
    }

    /// Reads `open NAME VALUE`.
    ///
    /// # Errors
    ///
    /// Returns the first fault that applies, in this order:
    /// - `Unknown` in version 1
    /// - `NotFirst` after a line other than a heading or an opening pair
    /// - `Words` unless there are two words
    /// - `BadName` or `BadValue` if a word is not a name or a value
    /// - `BadSetup` if the setup has no slot left, or has the name already
    #[tactic(auto, unfolding(crate::specs::Reading::open_read))]
    pub fn open(&mut self, words: &[&[u8]]) -> Result<(), FaultKind>
        ensures { Takes result (open_read (texts words.now) self.old) self.new }
    {
        if self.setup.version != 2 {
            return Err(FaultKind::Unknown);
        }
        if !self.lines.is_empty() {
            return Err(FaultKind::NotFirst);
        }
        if words.len() != 2 {
            return Err(FaultKind::Words);
        }
        self.add(name(words[0])?, value(words[1])?)
    }

    /// Adds an opening pair, if there is a slot and the name is new.
    #[tactic(auto, using(crate::proofs::Good::good_with_pair))]
    fn add(&mut self, name: Name, value: Value) -> Result<(), FaultKind>
        requires { self.old.setup.version ≡ 2 }
        ensures { Takes result (pair_read name value self.old) self.new }
    {
        if self.setup.opening.len() >= usize::from(self.setup.slots) {
            return Err(FaultKind::BadSetup);
        }
        match self.setup.opening.add(name, value) {
            Ok(()) => Ok(()),
            Err(_) => Err(FaultKind::BadSetup),
        }
    }

    /// Reads a line of any other kind.
    #[tactic(auto, unfolding(crate::specs::Reading::other_read))]
    fn other(&mut self, name: LineWord, words: &[&[u8]]) -> Result<(), FaultKind>
        ensures { Takes result (other_read name (texts words.now) self.old) self.new }
    {
        let _nested: NestedTypes = None;
        self.keep(statements::line(self.setup.version, name, words)?)
    }

    /// Keeps a line, unless there are 4,000 already.
    #[tactic(auto, using(crate::proofs::Good::all_with_line))]
    fn keep(&mut self, line: Line) -> Result<(), FaultKind>
        requires { is_line_of self.old.setup.version line ≡ true }
        ensures { Takes result (kept_read line self.old) self.new }
    {
        let _nested: NestedTypes = None;
        keep_line(&mut self.lines, line)
    }
}
