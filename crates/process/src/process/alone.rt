//! Parts of a process's work that run without a whole call, and the facts that their drivers need.
ghost use Rattle.std.specs.Prelude.{◌≡◌, IfSome};
ghost use Rattle.model.specs.{IsTornOf};
ghost use Rattle.process.specs.Alone.{answer_of, called_inside, change_of, full_of, settles, settling_with, ticket_of, torn_of};
ghost use Rattle.process.specs.Places.{changes_read, withdrawn};

use super::Process;
use crate::activity::Activity;
use crate::entering::{begin_part, clear};
use model::{Field, TornBit};
use plain_store::{Answer, Command, Reply};

impl Process {
    /// Returns the ticket with which it ends its doorway, or waits.
    pub fn ticket(&self) -> Option<u32>
        ensures { result ≡ ticket_of self.now.doing }
    {
        match self.work {
            Activity::Runs => self.called.ticket(),
            _ => None,
        }
    }

    /// Returns the process because of whose ticket it is refused.
    pub fn full(&self) -> Option<u8>
        ensures { result ≡ full_of self.now.doing }
    {
        match self.work {
            Activity::Runs => self.called.full(),
            _ => None,
        }
    }

    /// Returns the reply, the greatest stamp that it has read and the new value of its commit bit, while it writes a change
    /// of the store.
    pub fn pending(&self) -> Option<(Reply, u32, bool)>
        ensures { result ≡ change_of self.now.setup self.now.process self.now.doing }
    {
        match self.work {
            Activity::Runs => self.called.pending(),
            _ => None,
        }
    }

    /// Returns the answer of its call, while it clears its ticket.
    pub fn answer(&self) -> Option<Answer>
        ensures { result ≡ answer_of self.now.doing }
    {
        match self.work {
            Activity::Runs => self.called.answer(),
            _ => None,
        }
    }

    /// Returns the greatest stamp that it has read if its next access may take the command, and otherwise 0.
    pub fn changes_read(&self) -> u32
        ensures { result ≡ changes_read self.now.doing }
    {
        match self.work {
            Activity::Runs => self.called.changes_read(),
            _ => 0,
        }
    }

    /// Returns the bit that is torn if it fails now.
    pub fn torn(&self) -> Option<TornBit>
        ensures torn { result ≡ torn_of self.now.setup self.now.process self.now.doing }
        ensures known { IfSome result (IsTornOf self.now.setup) }
    {
        match self.work {
            Activity::Runs | Activity::Withdraws => self.cursor.torn(),
            _ => None,
        }
    }

    /// Returns whether its memory unit settles a bit.
    pub fn settles(&self) -> bool
        ensures { result ≡ settles self.now.doing }
    {
        matches!(self.work, Activity::Settles { .. })
    }

    /// Begins a call at the position where it enters the critical section.
    pub fn call_inside(&mut self, command: Command, number: u16)
        ensures { self.new ≡ called_inside self.old command number }
    {
        self.called.start_inside(command, number);
        self.work = Activity::Runs;
        begin_part(&self.called, &mut self.cursor);
    }

    /// Begins to clear its ticket, as a process does that gave up waiting.
    pub fn clear_ticket(&mut self)
        ensures { self.new ≡ withdrawn self.old }
    {
        self.work = Activity::Withdraws;
        clear(&self.called, &mut self.cursor, Field::Ticket);
    }

    /// Starts its memory unit, which settles this bit first, or has none to settle.
    pub fn begin_unit(&mut self, torn: Option<TornBit>)
        requires { IfSome torn (IsTornOf self.old.setup) }
        ensures { self.new ≡ settling_with self.old torn }
    {
        match torn {
            Some(torn) => {
                self.work = Activity::Settles {
                    inside: false,
                    taken: None,
                };
                self.cursor
                    .settle_on(&self.called.setup(), self.called.process(), &torn);
            }
            None => {
                self.work = Activity::Frees { inside: false };
                clear(&self.called, &mut self.cursor, Field::Ticket);
            }
        }
    }
}
