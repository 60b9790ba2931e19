//! Reading a mark by its words.
ghost use Rattle.std.specs.Prelude.{◌≡◌, length};
ghost use Rattle.scenario.specs.{operand_count};
ghost use Rattle.files.specs.{texts};
ghost use Rattle.record_file.specs.Reading.{answer_count, answer_of, answered_of, called_of, lone_mark_of, mark_of, named_mark_of, reply_count, reply_of, sum_first, taken_of, waiting_of};

use crate::keywords::{AnswerWord, MarkWord, ReplyWord};
use files::FaultKind;
use model::Mark;
use plain_store::{Answer, NestedTypes, Reply};
use scenario::bit_files::one_bit;
use scenario::keywords::Verb;
use scenario::operands::{integer, number, process, value};
use scenario::statements::command;

/// Returns the mark that the words after a sign specify.
///
/// # Errors
///
/// Returns the fault of the words that comes first in the order of faults.
pub fn mark(words: &[&[u8]]) -> Result<Mark, FaultKind>
    ensures { result ≡ mark_of (texts words.now) }
{
    let [name, operands @ ..] = words else {
        return Err(FaultKind::Words);
    };
    match MarkWord::of(name) {
        None => Err(FaultKind::Unknown),
        Some(name) => named_mark(name, operands),
    }
}

/// Returns a mark, by its first word and the words after it.
fn named_mark(name: MarkWord, words: &[&[u8]]) -> Result<Mark, FaultKind>
    ensures { result ≡ named_mark_of name (texts words.now) }
{
    let _nested: NestedTypes = None;
    match name {
        MarkWord::Call => called(words),
        MarkWord::Wait => waiting(words),
        MarkWord::Enter => lone_mark(&Mark::Entered, words),
        MarkWord::Taken => taken(words),
        MarkWord::Leave => lone_mark(&Mark::Left, words),
        MarkWord::Answer => answered(words),
        MarkWord::Fail => lone_mark(&Mark::Failed, words),
        MarkWord::Settled => one_bit(words).map(Mark::Settled),
        MarkWord::Down => lone_mark(&Mark::Down, words),
        MarkWord::Withdraw => lone_mark(&Mark::Withdrew, words),
        MarkWord::Restart => lone_mark(&Mark::Restarted, words),
    }
}

/// Reads a mark that consists of its first word alone.
fn lone_mark(mark: &Mark, words: &[&[u8]]) -> Result<Mark, FaultKind>
    ensures { result ≡ lone_mark_of mark.now (texts words.now) }
{
    let _nested: NestedTypes = None;
    if words.is_empty() {
        Ok(*mark)
    } else {
        Err(FaultKind::Words)
    }
}

/// Reads `wait TICKET`.
fn waiting(words: &[&[u8]]) -> Result<Mark, FaultKind>
    ensures { result ≡ waiting_of (texts words.now) }
{
    if words.len() != 1 {
        return Err(FaultKind::Words);
    }
    Ok(Mark::Waiting(number(words[0], 4_294_967_295)? as u32))
}

/// Reads `call COMMAND`: any command, in a file of any version.
#[tactic(auto, unfolding(crate::specs::Reading::called_of))]
fn called(words: &[&[u8]]) -> Result<Mark, FaultKind>
    ensures { result ≡ called_of (texts words.now) }
{
    let [verb, operands @ ..] = words else {
        return Err(FaultKind::Words);
    };
    let Some(verb) = Verb::of(verb) else {
        return Err(FaultKind::Unknown);
    };
    if operands.len() != verb.operands() {
        return Err(FaultKind::Words);
    }
    check_sum(verb, operands)?;
    Ok(Mark::Called(command(verb, operands)?))
}

/// Checks the number of an `add` before its name, because the order of faults requires it.
fn check_sum(verb: Verb, operands: &[&[u8]]) -> Result<(), FaultKind>
    requires { length operands.now ≡ operand_count verb }
    ensures { result ≡ sum_first verb (texts operands.now) }
{
    match verb {
        Verb::Add => {
            let _by = integer(operands[1])?;
            Ok(())
        }
        Verb::Read | Verb::Write | Verb::Cas | Verb::Ask => Ok(()),
    }
}

/// Reads `taken PLACE REPLY`.
#[tactic(auto, unfolding(crate::specs::Reading::taken_of))]
fn taken(words: &[&[u8]]) -> Result<Mark, FaultKind>
    ensures { result ≡ taken_of (texts words.now) }
{
    let [place, name, operands @ ..] = words else {
        return Err(FaultKind::Words);
    };
    let Some(name) = ReplyWord::of(name) else {
        return Err(FaultKind::Unknown);
    };
    if operands.len() != name.operands() {
        return Err(FaultKind::Words);
    }
    let place = number(place, u64::MAX)?;
    Ok(Mark::Taken(place, reply(name, operands)?))
}

/// Reads `answer ANSWER`.
#[tactic(auto, unfolding(crate::specs::Reading::answered_of))]
fn answered(words: &[&[u8]]) -> Result<Mark, FaultKind>
    ensures { result ≡ answered_of (texts words.now) }
{
    let [name, operands @ ..] = words else {
        return Err(FaultKind::Words);
    };
    let Some(name) = AnswerWord::of(name) else {
        return Err(FaultKind::Unknown);
    };
    if operands.len() != name.operands() {
        return Err(FaultKind::Words);
    }
    Ok(Mark::Answered(answer(name, operands)?))
}

/// Returns an answer, by its first word and the words after it, exactly as many as it takes.
fn answer(name: AnswerWord, words: &[&[u8]]) -> Result<Answer, FaultKind>
    requires { length words.now ≡ answer_count name }
    ensures { result ≡ answer_of name (texts words.now) }
{
    match name {
        AnswerWord::Reply(name) => Ok(Answer::Reply(reply(name, words)?)),
        AnswerWord::TicketsFull => Ok(Answer::TicketsFull {
            process: process(words[0])?,
        }),
        AnswerWord::StampsFull => Ok(Answer::StampsFull),
        AnswerWord::Withdrawn => Ok(Answer::Withdrawn),
    }
}

/// Returns a reply, by its first word and the words after it, exactly as many as it takes.
fn reply(name: ReplyWord, words: &[&[u8]]) -> Result<Reply, FaultKind>
    requires { length words.now ≡ reply_count name }
    ensures { result ≡ reply_of name (texts words.now) }
{
    match name {
        ReplyWord::Value => value(words[0]).map(Reply::Value),
        ReplyWord::Done => Ok(Reply::Done),
        ReplyWord::Sum => integer(words[0]).map(Reply::Sum),
        ReplyWord::Swapped => Ok(Reply::Swapped),
        ReplyWord::Kept => value(words[0]).map(Reply::Kept),
        ReplyWord::NoName => Ok(Reply::NoName),
        ReplyWord::NotCounter => Ok(Reply::NotCounter),
        ReplyWord::Overflow => Ok(Reply::Overflow),
        ReplyWord::StoreFull => Ok(Reply::StoreFull),
        ReplyWord::Last => Ok(Reply::Last(number(words[0], 65_535)? as u16)),
    }
}

impl ReplyWord {
    /// Returns the number of words that follow the first word of a reply.
    fn operands(self) -> usize
        ensures { result ≡ reply_count self }
    {
        match self {
            ReplyWord::Value | ReplyWord::Sum | ReplyWord::Kept | ReplyWord::Last => 1,
            ReplyWord::Done
            | ReplyWord::Swapped
            | ReplyWord::NoName
            | ReplyWord::NotCounter
            | ReplyWord::Overflow
            | ReplyWord::StoreFull => 0,
        }
    }
}

impl AnswerWord {
    /// Returns the number of words that follow the first word of an answer.
    fn operands(self) -> usize
        ensures { result ≡ answer_count self }
    {
        match self {
            AnswerWord::Reply(name) => name.operands(),
            AnswerWord::TicketsFull => 1,
            AnswerWord::StampsFull | AnswerWord::Withdrawn => 0,
        }
    }
}
