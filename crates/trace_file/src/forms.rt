//! The forms of lines, in tables: their key words, and the operands after each key word. The reader accepts exactly what has a
//! form, as [`lines_have_forms`] proves, unless the setup cannot have it.
ghost use Rattle.trace_file.specs.Forms.{HeadsHaveForms, MarksHaveForms, MovesHaveForms, fault_at, forms_in, heads, marks, moves, phrases_in};
ghost use Rattle.std.specs.Prelude.{◌≡◌};

use crate::numbers::value;
use crate::registers::cell_name;
use files::FaultKind;
use scenario::operands::number;

/// The first word of a trace file, whose version is 1.
pub const TRACE: &str = "trace";

/// A kind of operand.
#[derive(Clone, Copy)]
pub enum TraceOperand {
    /// A process, or the index of a cell.
    Process,
    /// The number of processes.
    Count,
    /// The name of a register.
    Name,
    /// The number of bits of a register.
    Width,
    /// A value of a cell.
    Value,
    /// The word `gives`.
    Gives,
}

/// A key word, and the operands after it.
pub type TracePhrase = (&'static str, &'static [TraceOperand]);

/// The rest of a line after its first word.
#[derive(Clone, Copy)]
pub struct TracePattern {
    pub operands: &'static [TraceOperand],
    /// One of these follows the operands.
    pub phrases: &'static [TracePhrase],
    /// Whether the line may end after the operands.
    pub may_end: bool,
}

/// The form of a register.
const REGISTER: TracePattern = TracePattern {
    operands: &[TraceOperand::Name, TraceOperand::Width],
    phrases: &[("opens", &[TraceOperand::Value])],
    may_end: true,
};

/// The headings and registers.
pub const TRACE_HEADS: [(&str, TracePattern); 4] = [
    (
        "processes",
        TracePattern {
            operands: &[TraceOperand::Count],
            phrases: &[],
            may_end: true,
        },
    ),
    (
        "memory",
        TracePattern {
            operands: &[],
            phrases: &[("safe", &[]), ("regular", &[]), ("atomic", &[])],
            may_end: false,
        },
    ),
    ("register", REGISTER),
    ("shared", REGISTER),
];

/// The moves.
pub const CELL_MOVES: [TracePhrase; 9] = [
    ("write", &[TraceOperand::Value]),
    ("end", &[]),
    ("read", &[]),
    ("value", &[TraceOperand::Value]),
    ("set", &[TraceOperand::Value]),
    ("get", &[TraceOperand::Value]),
    (
        "swap",
        &[
            TraceOperand::Value,
            TraceOperand::Gives,
            TraceOperand::Value,
        ],
    ),
    (
        "add",
        &[
            TraceOperand::Value,
            TraceOperand::Gives,
            TraceOperand::Value,
        ],
    ),
    (
        "cas",
        &[
            TraceOperand::Value,
            TraceOperand::Value,
            TraceOperand::Gives,
            TraceOperand::Value,
        ],
    ),
];

/// The marks.
pub const MARK_FORMS: [TracePhrase; 5] = [
    ("call", &[]),
    ("wait", &[]),
    ("enter", &[]),
    ("leave", &[]),
    ("answer", &[]),
];

/// The reader accepts words as a move exactly if they are a phrase of [`CELL_MOVES`], and as a mark exactly if they are one of
/// [`MARK_FORMS`]. A line that is not an entry has a form of [`TRACE_HEADS`] exactly if its only fault can be `BadSetup`.
pub fn lines_have_forms()
    ensures moves { MovesHaveForms }
    ensures marks { MarksHaveForms }
    ensures heads { HeadsHaveForms }
{}

/// Returns the tables, which are those of the definitions.
fn tables() -> (
    [(&'static str, TracePattern); 4],
    [TracePhrase; 9],
    [TracePhrase; 5],
)
    ensures heads { forms_in result.0 ≡ heads }
    ensures moves { phrases_in result.1 ≡ moves }
    ensures marks { phrases_in result.2 ≡ marks }
{
    (TRACE_HEADS, CELL_MOVES, MARK_FORMS)
}

impl TraceOperand {
    /// Returns the fault of a word as this operand, or `None` if the operand accepts it.
    pub fn fault(self, word: &[u8]) -> Option<FaultKind>
        ensures { result ≡ fault_at self word.now }
    {
        match self {
            TraceOperand::Process | TraceOperand::Count | TraceOperand::Width => {
                number(word, 255).err()
            }
            TraceOperand::Name => cell_name(word).err(),
            TraceOperand::Value => value(word).err(),
            TraceOperand::Gives => {
                if word == b"gives".as_slice() {
                    None
                } else {
                    Some(FaultKind::Unknown)
                }
            }
        }
    }
}
