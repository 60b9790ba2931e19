//! The forms of entries and their marks, in tables: their key words, and the operands after each key word. The readers of
//! this crate accept exactly what has a form, as [`entries_have_forms`] proves.
ghost use Rattle.record_file.specs.Forms.{AccessesHaveForms, HeadsHaveForms, MarksHaveForms, copy_numbers, marks, moves};
ghost use Rattle.scenario.specs.{patterns_in, phrases_in};
ghost use Rattle.std.specs.Prelude.{◌≡◌};

use scenario::forms::{COMMANDS, Letter, Operand, PROCESS, Pattern, Phrase};

/// The first word of a record file. Its versions are 1 and 2.
pub const RECORD: &str = "record";

/// The process of an entry.
pub const PROCESS_OF_ENTRY: Operand = Operand::Number {
    letter: Letter::Process,
    most: 255,
};

/// The number of a bit, or of a call.
const OF_16_BITS: Operand = Operand::Number {
    letter: Letter::N,
    most: 65_535,
};

/// A ticket.
const TICKET: Operand = Operand::Number {
    letter: Letter::N,
    most: 4_294_967_295,
};

/// The position at which a command is taken.
const PLACE: Operand = Operand::Number {
    letter: Letter::K,
    most: 18_446_744_073_709_551_615,
};

/// The parts of a copy's word that are numbers, each with its place between the dots: the owner, the bit, and the reader.
pub const COPY_NUMBERS: [(usize, Operand); 3] = [(0, PROCESS), (2, OF_16_BITS), (3, PROCESS)];

/// The moves on a bit.
pub const MOVES: [Phrase; 5] = [
    ("write", &[Operand::Bit]),
    ("end", &[]),
    ("read", &[]),
    ("value", &[Operand::Bit]),
    ("settle", &[Operand::Bit]),
];

/// The marks of an entry.
pub const MARKS: [(&str, Pattern); 11] = [
    ("call", (&[], &[&COMMANDS])),
    ("wait", (&[TICKET], &[])),
    ("enter", (&[], &[])),
    ("taken", (&[PLACE], &[&REPLIES])),
    ("leave", (&[], &[])),
    ("answer", (&[], &[&REPLIES, &OTHER_ANSWERS])),
    ("fail", (&[], &[])),
    ("settled", (&[Operand::Bit], &[])),
    ("down", (&[], &[])),
    ("withdraw", (&[], &[])),
    ("restart", (&[], &[])),
];

/// The replies to a command.
pub const REPLIES: [Phrase; 10] = [
    ("value", &[Operand::Value]),
    ("done", &[]),
    ("sum", &[Operand::Integer]),
    ("swapped", &[]),
    ("kept", &[Operand::Value]),
    ("no-name", &[]),
    ("not-counter", &[]),
    ("overflow", &[]),
    ("store-full", &[]),
    ("last", &[OF_16_BITS]),
];

/// The other answers to a call.
pub const OTHER_ANSWERS: [Phrase; 3] = [
    ("tickets-full", &[PROCESS]),
    ("stamps-full", &[]),
    ("withdrawn", &[]),
];

/// Readers accept words as a mark exactly if they have a form of [`MARKS`], and as an access exactly if they are a copy of a
/// bit and a phrase of [`MOVES`]. Another second line is read exactly if it has a form of [`HEADS`](scenario::forms::HEADS).
pub fn entries_have_forms()
    ensures marks { MarksHaveForms }
    ensures accesses { AccessesHaveForms }
    ensures heads { HeadsHaveForms }
{}

/// Returns the tables, which are those of the definitions.
fn tables() -> (
    [(&'static str, Pattern); 11],
    [Phrase; 5],
    [(usize, Operand); 3],
)
    ensures marks { patterns_in result.0 ≡ marks }
    ensures moves { phrases_in result.1 ≡ moves }
    ensures copy_numbers { result.2 ≡ copy_numbers }
{
    (MARKS, MOVES, COPY_NUMBERS)
}
