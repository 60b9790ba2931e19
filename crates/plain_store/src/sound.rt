//! Facts about the types of operands, for callers whose contracts cite them. The calls do nothing: only
//! code that holds a value can cite the invariant of its type.
ghost use Rattle.std.specs.Prelude.{◌≡◌, true};
ghost use Rattle.plain_store.specs.Commands.{is_command};
ghost use Rattle.plain_store.specs.Store.{are_pairs};
ghost use Rattle.plain_store.specs.Pairs.{is_pair};

use crate::commands::{Command, Value};
use crate::names::Name;
use crate::openings::Opening;

impl Command {
    /// Does nothing. Its contract states that the operands are names, values and counts of 64 bits, as those of
    /// every command are. A caller that promises something of all such commands needs it.
    pub fn operands_are_sound(&self)
        ensures { is_command self.now ≡ true }
    {
        match self {
            Command::Read(name) => {
                let _bytes = name.bytes();
            }
            Command::Write(name, value) => sound_pair(name, value),
            Command::Add(name, by) => sound_pair(name, &Value::Count(*by)),
            Command::Cas(name, expected, value) => {
                sound_pair(name, expected);
                sound_pair(name, value);
            }
            Command::Ask => {}
        }
    }
}

impl Opening {
    /// Does nothing. Its contract states that the pairs are names with values, and that the names differ, as in
    /// every opening. A caller that promises something of all such lists needs it.
    pub fn pairs_are_sound(&self)
        ensures { are_pairs self.now ≡ true }
    {
        for place in 0..self.len() {
            let (name, value) = self.entry(place).unwrap();
            sound_pair(&name, &value);
        }
    }
}

fn sound_pair(name: &Name, value: &Value)
    ensures { is_pair (name.now, value.now) ≡ true }
{
    let _name = name.bytes();
    match *value {
        Value::Count(_count) => {}
        Value::Text(text) => {
            let _text = text.bytes();
        }
    }
}
