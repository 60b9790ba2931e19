use crate::acts::Act;
use std::marker::Model;

/// One entry of a record: who did what. Contracts see its process, its access and the list of its marks.
#[derive(Drop)]
pub struct Entry {
    /// The process whose event it was, from 0.
    pub process: u8,
    pub act: Act,
}

impl Model for Entry {
    ghost use Rattle.model.specs.Entries.{Entry as Seen};

    ghost Value = { Seen };

    ghost view = { λ e. record { process = e.process; access = e.act.access; marks = e.act.marks } };
}

/// The entries of a run, one for each accepted event, the first one first. Contracts see their list.
#[derive(Drop)]
pub struct Record {
    pub entries: Vec<Entry>,
}

impl Model for Record {
    ghost use Rattle.std.specs.Prelude.{List};
    ghost use Rattle.model.specs.Entries.{Entry as Seen};

    ghost Value = { List Seen };

    ghost view = { λ r. r.entries.items };
}
