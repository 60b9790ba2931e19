//! The key words of scenario files, in tables that the grammar reads.
ghost use Rattle.std.specs.Prelude.{◌≡◌};
ghost use Rattle.scenario.specs.Keywords.{opener_of, verb_of, target_of};

use crate::lines::Target;
use files::meaning_of;

/// A heading, by the quantity that it gives.
#[derive(Clone, Copy)]
pub enum Heading {
    Processes,
    Tickets,
    Stamps,
    Slots,
}

/// The first word of a line.
#[derive(Clone, Copy)]
pub enum Opener {
    Bakery,
    Heading(Heading),
    Open,
    Line(LineWord),
}

/// The first word of a line other than a heading or an opening pair.
#[derive(Clone, Copy)]
pub enum LineWord {
    Call,
    Step,
    Go,
    Fail,
    Withdraw,
    Restart,
    Flick,
    Wander,
    Show,
}

/// The third word of a call.
#[derive(Clone, Copy)]
pub enum Verb {
    Read,
    Write,
    Add,
    Cas,
    Ask,
}

/// The first words of lines, and the meaning of each.
pub const OPENERS: [(&str, Opener); 15] = [
    ("bakery", Opener::Bakery),
    ("processes", Opener::Heading(Heading::Processes)),
    ("tickets", Opener::Heading(Heading::Tickets)),
    ("stamps", Opener::Heading(Heading::Stamps)),
    ("slots", Opener::Heading(Heading::Slots)),
    ("open", Opener::Open),
    ("call", Opener::Line(LineWord::Call)),
    ("step", Opener::Line(LineWord::Step)),
    ("go", Opener::Line(LineWord::Go)),
    ("fail", Opener::Line(LineWord::Fail)),
    ("withdraw", Opener::Line(LineWord::Withdraw)),
    ("restart", Opener::Line(LineWord::Restart)),
    ("flick", Opener::Line(LineWord::Flick)),
    ("wander", Opener::Line(LineWord::Wander)),
    ("show", Opener::Line(LineWord::Show)),
];

/// The third words of `call`, and the meaning of each.
pub const VERBS: [(&str, Verb); 5] = [
    ("read", Verb::Read),
    ("write", Verb::Write),
    ("add", Verb::Add),
    ("cas", Verb::Cas),
    ("ask", Verb::Ask),
];

/// The third words of `go`, and the meaning of each.
pub const TARGETS: [(&str, Target); 4] = [
    ("wait", Target::Wait),
    ("inside", Target::Inside),
    ("idle", Target::Idle),
    ("down", Target::Down),
];

impl Opener {
    /// Returns the meaning of the first word of a line.
    pub fn of(word: &[u8]) -> Option<Opener>
        ensures { result ≡ opener_of word.now }
    {
        meaning_of(&OPENERS, word)
    }
}

impl Verb {
    /// Returns the meaning of the third word of `call`.
    pub fn of(word: &[u8]) -> Option<Verb>
        ensures { result ≡ verb_of word.now }
    {
        meaning_of(&VERBS, word)
    }
}

impl Target {
    /// Returns the meaning of the third word of `go`.
    pub fn of(word: &[u8]) -> Option<Target>
        ensures { result ≡ target_of word.now }
    {
        meaning_of(&TARGETS, word)
    }
}
