//! The text of names, values, commands and answers, which is the same in files, in replays and for every engine.
ghost use Rattle.std.specs.Prelude.{Some};
ghost use Rattle.plain_store.specs.Shown.{value_text, command_text, reply_text, answer_text};

use crate::commands::{Answer, Command, Reply, Value};
use crate::names::Name;
use crate::texts::Text;
use std::fmt;

impl fmt::Display for Name {
    ghost output = { λ name. Some name };

    fn fmt<W: fmt::Write>(&self, f: &mut fmt::Formatter<W>) -> fmt::Result {
        f.write_str(self.as_str())
    }
}

impl fmt::Display for Text {
    ghost output = { λ text. Some text };

    fn fmt<W: fmt::Write>(&self, f: &mut fmt::Formatter<W>) -> fmt::Result {
        f.write_str(self.as_str())
    }
}

impl fmt::Display for Value {
    ghost output = { λ value. Some (value_text value) };

    fn fmt<W: fmt::Write>(&self, f: &mut fmt::Formatter<W>) -> fmt::Result {
        match self {
            Value::Count(count) => write!(f, "c:{count}"),
            Value::Text(text) => write!(f, "t:{text}"),
        }
    }
}

impl fmt::Display for Command {
    ghost output = { λ command. Some (command_text command) };

    fn fmt<W: fmt::Write>(&self, f: &mut fmt::Formatter<W>) -> fmt::Result {
        match self {
            Command::Read(name) => write!(f, "read {name}"),
            Command::Write(name, value) => write!(f, "write {name} {value}"),
            Command::Add(name, by) => write!(f, "add {name} {by}"),
            Command::Cas(name, expected, value) => write!(f, "cas {name} {expected} {value}"),
            Command::Ask => f.write_str("ask"),
        }
    }
}

impl fmt::Display for Reply {
    ghost output = { λ reply. Some (reply_text reply) };

    fn fmt<W: fmt::Write>(&self, f: &mut fmt::Formatter<W>) -> fmt::Result {
        match self {
            Reply::Value(value) => write!(f, "value {value}"),
            Reply::Done => f.write_str("done"),
            Reply::Sum(sum) => write!(f, "sum {sum}"),
            Reply::Swapped => f.write_str("swapped"),
            Reply::Kept(value) => write!(f, "kept {value}"),
            Reply::NoName => f.write_str("no-name"),
            Reply::NotCounter => f.write_str("not-counter"),
            Reply::Overflow => f.write_str("overflow"),
            Reply::StoreFull => f.write_str("store-full"),
            Reply::Last(number) => write!(f, "last {number}"),
        }
    }
}

impl fmt::Display for Answer {
    ghost output = { λ answer. Some (answer_text answer) };

    fn fmt<W: fmt::Write>(&self, f: &mut fmt::Formatter<W>) -> fmt::Result {
        match self {
            Answer::Reply(reply) => write!(f, "{reply}"),
            Answer::TicketsFull { process } => write!(f, "tickets-full {process}"),
            Answer::StampsFull => f.write_str("stamps-full"),
            Answer::Withdrawn => f.write_str("withdrawn"),
        }
    }
}
