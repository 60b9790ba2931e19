ghost use Rattle.std.specs.Prelude.{◌≡◌, ◌≤◌, nat_lt, length, OnOk, OnErr};
ghost use Rattle.plain_store.specs.Commands.{name_of};
ghost use Rattle.plain_store.specs.Store.{empty_store, store_written, value_for, with_number};

use crate::commands::{Caller, Command, Reply, Value};
use crate::names::Name;
use crate::outcomes::{Outcome, is_new};
use crate::stores::Store;
use indexmap::IndexMap;
use std::alloc::{AllocError, Global};
use std::marker::Model;

/// A store for one thread, in memory that grows: pairs in order of first write, a hash table over the names.
/// Contracts see its contents.
#[derive(Drop)]
pub struct PlainStore {
    pairs: IndexMap<Name, Value>,
    slots: u8,
    callers: u8,
    last: [u16; 16],
}

impl Model for PlainStore {
    ghost use Rattle.std.specs.Prelude.{◌≤◌, take};
    ghost use Rattle.plain_store.specs.Store.{Contents};

    ghost Value = { Contents };

    ghost view = { λ s. record { pairs = s.pairs.entries; slots = s.slots; numbers = take s.callers s.last } };

    ghost invariant = { λ s. s.callers ≤ 16 };
}

impl PlainStore {
    /// Creates an empty store with room for `slots` names and a number for each of `callers` processes
    /// (0 in version 1, all processes in version 2). It does not allocate; `apply` does.
    pub fn new(alloc: Global, slots: u8, callers: u8) -> PlainStore
        requires { callers ≤ 16 }
        ensures { result ≡ empty_store slots callers }
    {
        PlainStore {
            pairs: IndexMap::new(alloc),
            slots,
            callers,
            last: [0; 16],
        }
    }

    fn value_for(&self, command: &Command) -> Option<Value>
        ensures { result ≡ value_for self.now.pairs (name_of command.now) }
    {
        let name = command.name()?;
        self.pairs.get(&name).copied()
    }

    fn write(&mut self, name: Option<Name>, written: Option<Value>) -> Result<(), AllocError>
        ensures contents { OnOk result (self.new ≡ store_written self.old name written) }
        ensures err { OnErr result (self.new ≡ self.old) }
    {
        let Some(value) = written else {
            return Ok(());
        };
        if let Some(name) = name {
            self.pairs.insert(name, value)?;
        }
        Ok(())
    }

    #[tactic(auto, using(crate::proofs::Numbers::numbers))]
    fn note(&mut self, caller: Caller)
        ensures { self.new ≡ with_number caller.process caller.number self.old }
    {
        if caller.process < self.callers {
            self.last[usize::from(caller.process)] = caller.number;
        }
    }

    fn has_room(&self) -> bool
        ensures { result ≡ nat_lt (length self.now.pairs) self.now.slots }
    {
        self.pairs.len() < usize::from(self.slots)
    }
}

impl Store for PlainStore {
    ghost contents = { λ s. s };

    fn apply(&mut self, command: &Command, caller: Caller) -> Result<Reply, AllocError> {
        let before = self.value_for(command);
        let last = self.last(caller.process);
        let Outcome { reply, written } = Outcome::of(command, before, self.has_room(), last);
        self.write(command.name(), written)?;
        if is_new(&before, &written) {
            self.note(caller);
        }
        Ok(reply)
    }

    #[tactic(auto, using(crate::proofs::Changes::changes_differs))]
    fn would_change(&self, command: &Command) -> bool {
        let before = self.value_for(command);
        let Outcome { written, .. } = Outcome::of(command, before, self.has_room(), 0);
        is_new(&before, &written)
    }

    fn len(&self) -> usize {
        self.pairs.len()
    }

    fn entry(&self, place: usize) -> Option<(Name, Value)> {
        let (name, value) = self.pairs.get_index(place)?;
        Some((*name, *value))
    }

    fn last(&self, process: u8) -> u16 {
        if process < self.callers {
            self.last[usize::from(process)]
        } else {
            0
        }
    }
}
