//! The key words that scenario files and bits files do not have, in tables that the grammar reads.
ghost use Rattle.std.specs.Prelude.{◌≡◌};
ghost use Rattle.record_file.specs.Keywords.{field_of, mark_word_of, reply_word_of, answer_word_of, own_answer_of};

use files::meaning_of;
use model::Field;

/// The first word of a mark.
#[derive(Clone, Copy)]
pub enum MarkWord {
    Call,
    Wait,
    Enter,
    Taken,
    Leave,
    Answer,
    Fail,
    Settled,
    Down,
    Withdraw,
    Restart,
}

/// The first word of a reply.
#[derive(Clone, Copy)]
pub enum ReplyWord {
    Value,
    Done,
    Sum,
    Swapped,
    Kept,
    NoName,
    NotCounter,
    Overflow,
    StoreFull,
    Last,
}

/// The first word of an answer.
#[derive(Clone, Copy)]
pub enum AnswerWord {
    Reply(ReplyWord),
    TicketsFull,
    StampsFull,
    Withdrawn,
}

/// The first words of marks, and the meaning of each.
pub const MARK_WORDS: [(&str, MarkWord); 11] = [
    ("call", MarkWord::Call),
    ("wait", MarkWord::Wait),
    ("enter", MarkWord::Enter),
    ("taken", MarkWord::Taken),
    ("leave", MarkWord::Leave),
    ("answer", MarkWord::Answer),
    ("fail", MarkWord::Fail),
    ("settled", MarkWord::Settled),
    ("down", MarkWord::Down),
    ("withdraw", MarkWord::Withdraw),
    ("restart", MarkWord::Restart),
];

/// The first words of replies, and the meaning of each.
pub const REPLY_WORDS: [(&str, ReplyWord); 10] = [
    ("value", ReplyWord::Value),
    ("done", ReplyWord::Done),
    ("sum", ReplyWord::Sum),
    ("swapped", ReplyWord::Swapped),
    ("kept", ReplyWord::Kept),
    ("no-name", ReplyWord::NoName),
    ("not-counter", ReplyWord::NotCounter),
    ("overflow", ReplyWord::Overflow),
    ("store-full", ReplyWord::StoreFull),
    ("last", ReplyWord::Last),
];

/// The first words of the answers that contain no reply, and the meaning of each.
pub const OWN_ANSWERS: [(&str, AnswerWord); 3] = [
    ("tickets-full", AnswerWord::TicketsFull),
    ("stamps-full", AnswerWord::StampsFull),
    ("withdrawn", AnswerWord::Withdrawn),
];

/// The registers, by the second parts of bits.
pub const FIELDS: [(&str, Field); 7] = [
    ("choosing", Field::Choosing),
    ("ticket", Field::Ticket),
    ("commit", Field::Commit),
    ("stamp0", Field::Stamp0),
    ("stamp1", Field::Stamp1),
    ("image0", Field::Image0),
    ("image1", Field::Image1),
];

impl MarkWord {
    /// Returns the meaning of the first word of a mark.
    pub fn of(word: &[u8]) -> Option<MarkWord>
        ensures { result ≡ mark_word_of word.now }
    {
        meaning_of(&MARK_WORDS, word)
    }
}

impl ReplyWord {
    /// Returns the meaning of the first word of a reply.
    pub fn of(word: &[u8]) -> Option<ReplyWord>
        ensures { result ≡ reply_word_of word.now }
    {
        meaning_of(&REPLY_WORDS, word)
    }
}

impl AnswerWord {
    /// Returns the meaning of the first word of an answer.
    pub fn of(word: &[u8]) -> Option<AnswerWord>
        ensures { result ≡ answer_word_of word.now }
    {
        match AnswerWord::own(word) {
            Some(own) => Some(own),
            None => match ReplyWord::of(word) {
                Some(name) => Some(AnswerWord::Reply(name)),
                None => None,
            },
        }
    }

    /// Returns the meaning of the first word of an answer that contains no reply.
    fn own(word: &[u8]) -> Option<AnswerWord>
        ensures { result ≡ own_answer_of word.now }
    {
        meaning_of(&OWN_ANSWERS, word)
    }
}

/// Returns the register that a word names.
pub fn field(word: &[u8]) -> Option<Field>
    ensures { result ≡ field_of word.now }
{
    meaning_of(&FIELDS, word)
}
