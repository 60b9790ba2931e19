//! The forms of lines, in tables: their key words, and the operands after each key word. The readers of this crate accept
//! exactly the lines that have a form, as [`lines_have_forms`] proves.
ghost use Rattle.std.specs.Prelude.{◌≡◌};
ghost use Rattle.scenario.specs.Forms.{BitLinesHaveForms, LinesHaveForms, fault_at, bit_lines, heading_fault as fault_of_heading, heads, is_word_of, patterns_in, phrases_in, statements};
ghost use Rattle.scenario.specs.Operands.{number_at};

use crate::bit_files::one_bit;
use crate::keywords::Heading;
use crate::operands::{integer, name, number, value};
use files::FaultKind;

/// The letter that a form shows for a number.
#[derive(Clone, Copy)]
pub enum Letter {
    P,
    N,
    K,
    /// The word `process`.
    Process,
}

/// A kind of operand.
#[derive(Clone, Copy)]
pub enum Operand {
    /// A number up to `most`, for which a form shows this letter.
    Number { letter: Letter, most: u64 },
    /// The number of a heading, from 1 on.
    Heading(Heading),
    /// A number of 64 bits with a sign.
    Integer,
    /// 0 or 1.
    Bit,
    Name,
    Value,
}

/// Operands, in their order.
pub type Operands = &'static [Operand];

/// A key word, and the operands after it.
pub type Phrase = (&'static str, Operands);

/// The rest of a line after its first word: operands, and then a phrase of one of these tables, unless there are none.
pub type Pattern = (Operands, &'static [&'static [Phrase]]);

/// The number of a process.
pub const PROCESS: Operand = Operand::Number {
    letter: Letter::P,
    most: 255,
};

/// The number of steps or turns.
pub const COUNT: Operand = Operand::Number {
    letter: Letter::N,
    most: 100_000,
};

/// A seed.
const SEED: Operand = Operand::Number {
    letter: Letter::N,
    most: 18_446_744_073_709_551_615,
};

/// The first word of a scenario file. Its versions are 1 and 2.
pub const SCENARIO: &str = "bakery";

/// The first word of a bits file. Its version is 1.
pub const BITS: &str = "bits";

/// The headings and opening pairs of scenarios and records.
pub const HEADS: [(&str, Pattern); 5] = [
    ("processes", (&[Operand::Heading(Heading::Processes)], &[])),
    ("tickets", (&[Operand::Heading(Heading::Tickets)], &[])),
    ("stamps", (&[Operand::Heading(Heading::Stamps)], &[])),
    ("slots", (&[Operand::Heading(Heading::Slots)], &[])),
    ("open", (&[Operand::Name, Operand::Value], &[])),
];

/// The other lines of scenarios.
pub const STATEMENTS: [(&str, Pattern); 9] = [
    ("call", (&[PROCESS], &[&COMMANDS])),
    ("step", (&[PROCESS, COUNT], &[])),
    ("go", (&[PROCESS], &[&TARGET_STAGES])),
    ("fail", (&[PROCESS], &[])),
    ("withdraw", (&[PROCESS], &[])),
    ("restart", (&[PROCESS], &[])),
    ("flick", (&[], &[&FLICKS])),
    ("wander", (&[COUNT], &[])),
    ("show", (&[], &[])),
];

/// The commands of a call.
pub const COMMANDS: [Phrase; 5] = [
    ("read", &[Operand::Name]),
    ("write", &[Operand::Name, Operand::Value]),
    ("add", &[Operand::Name, Operand::Integer]),
    ("cas", &[Operand::Name, Operand::Value, Operand::Value]),
    ("ask", &[]),
];

/// The stages that a process can go up to.
pub const TARGET_STAGES: [Phrase; 4] = [
    ("wait", &[]),
    ("inside", &[]),
    ("idle", &[]),
    ("down", &[]),
];

/// The sources of flicks.
pub const FLICKS: [Phrase; 3] = [("0", &[]), ("1", &[]), ("pcg", &[SEED])];

/// The lines of bits files.
pub const BIT_LINES: [Phrase; 6] = [
    ("write", &[Operand::Bit]),
    ("end", &[]),
    ("settle", &[Operand::Bit]),
    ("read", &[]),
    ("value", &[Operand::Bit]),
    ("drop", &[]),
];

/// Readers accept the second line of a scenario exactly if it has a form of [`HEADS`] or [`STATEMENTS`], and that of a bits
/// file exactly if it is a phrase of [`BIT_LINES`].
pub fn lines_have_forms()
    ensures scenarios { LinesHaveForms }
    ensures bits { BitLinesHaveForms }
{}

/// Returns the tables, which are those of the definitions.
fn tables() -> (
    [(&'static str, Pattern); 5],
    [(&'static str, Pattern); 9],
    [Phrase; 6],
)
    ensures heads { patterns_in result.0 ≡ heads }
    ensures statements { patterns_in result.1 ≡ statements }
    ensures bit_lines { phrases_in result.2 ≡ bit_lines }
{
    (HEADS, STATEMENTS, BIT_LINES)
}

/// Returns whether a version has this key word. Only version 2 has `open` and `ask`.
pub fn has_word(version: u8, word: &str) -> bool
    ensures { result ≡ is_word_of version word.now }
{
    let word = word.as_bytes();
    !(word == b"open".as_slice() || word == b"ask".as_slice()) || version == 2
}

impl Operand {
    /// Returns the fault of a word that is used as this operand in a file of this version, or `None` if the word is allowed.
    pub fn fault(self, version: u8, word: &[u8]) -> Option<FaultKind>
        ensures { result ≡ fault_at version self word.now }
    {
        match self {
            Operand::Number { most, .. } => number(word, most).err(),
            Operand::Heading(heading) => heading_fault(heading.most(version), word),
            Operand::Integer => integer(word).err(),
            Operand::Bit => one_bit(&[word]).err(),
            Operand::Name => name(word).err(),
            Operand::Value => value(word).err(),
        }
    }
}

/// Returns the fault of a heading's number, if it has one.
fn heading_fault(most: u8, word: &[u8]) -> Option<FaultKind>
    ensures { result ≡ fault_of_heading most (number_at 255 word.now) }
{
    match number(word, 255) {
        Err(fault) => Some(fault),
        Ok(number) if number < 1 || number > u64::from(most) => Some(FaultKind::BadSetup),
        Ok(_) => None,
    }
}
