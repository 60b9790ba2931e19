//! A call at one of its parts.
ghost use Rattle.std.specs.Prelude.{◌≡◌, ◌<◌, ◌≤◌, ◌∷◌, [], Bool, IfSome, List, Ok, cond, false, length, option_map, true};
ghost use Rattle.plain_store.specs.{callers_of, checked};
ghost use Rattle.model.specs.declared.marks.Mark.TheVariants.{Left};
ghost use Rattle.laws.specs.{is_inside_at};
ghost use Rattle.model.specs.{Change, Raises, first_marks, is_over, is_read, last_marks, part_after, pending_at, processes, read_at, stage_of, store_read, taken_with, to_e, width, written_at};
ghost use Rattle.model.specs.safe_number.{bits_in};
ghost use Rattle.store_image.specs.{image_of};
ghost use Rattle.process.specs.Alone.{answer_at, full_at, ticket_at};
ghost use Rattle.process.specs.CallParts.{IsAsked, IsOutcome, reads_image, writes_image};
ghost use Rattle.process.specs.Looks.{ticket_known_at};
ghost use Rattle.process.specs.Places.{changes_at, is_reported};
ghost use Rattle.process.specs.Reporting.{changes_reported, marks_reported};
ghost use Rattle.process.specs.Working.{reply_taken};

use crate::access_request::{AccessRequest, asks_at, newest_stamp, other_commit};
use crate::after;
use crate::looks::KnownTicket;
use crate::marks::outcome_before;
use crate::numbers::{greatest, most_of};
use crate::others::others_below;
use crate::outcomes::StepOutcome;
use crate::part::{ProcessCall, ProgramPoint};
use crate::store::applied;
use crate::values_read::ValuesRead;
use model::{Field, Stage};
use plain_store::{Answer, Command, Reply, Setup};
use std::marker::Model;
use store_image::Image;

/// A call of a process, its present part, and the values that the process has read before this part.
#[derive(Drop)]
pub struct CallPart {
    call: ProcessCall,
    part: ProgramPoint,
    seen: ValuesRead,
}

impl Model for CallPart {
    ghost use Rattle.process.specs.CallParts.{PartState};

    ghost Value = { PartState };

    ghost use Rattle.process.specs.ValuesRead.{KeepsPart, call_of, part_at};

    ghost view = { λ k. record { call = call_of k.call; part = part_at (call_of k.call) k.seen k.part } };

    ghost invariant = { λ k. KeepsPart (call_of k.call) k.seen k.part };
}

impl CallPart {
    /// Creates a call at its begin.
    pub fn new(setup: &Setup, process: u8, command: Command, number: u16) -> CallPart
        requires good { checked setup.now ≡ Ok tt }
        requires process { process < setup.now.processes }
        ensures { result
            ≡ record {
              call = record {
                setup = setup.now;
                process = process;
                command = command;
                number = number;
              };
              part = Raises;
            } }
    {
        CallPart {
            call: ProcessCall {
                setup: *setup,
                process,
                command,
                number,
            },
            part: ProgramPoint::Raises,
            seen: ValuesRead {
                numbers: [0; 16],
                commits: [false; 16],
                store: Image::empty(1, 0),
            },
        }
    }

    /// Begins another call of this process.
    pub fn start(&mut self, command: Command, number: u16)
        ensures { self.new
            ≡ record {
              call = record self.old.call { command = command; number = number };
              part = Raises;
            } }
    {
        self.call.command = command;
        self.call.number = number;
        self.part = ProgramPoint::Raises;
    }

    /// Begins another call of this process at the position where it enters the critical section.
    pub fn start_inside(&mut self, command: Command, number: u16)
        ensures { self.new
            ≡ record {
              call = record self.old.call { command = command; number = number };
              part = to_e (processes self.old.call.setup) [];
            } }
    {
        self.call.command = command;
        self.call.number = number;
        self.part = after::version_from(&self.call, 0);
    }

    /// Returns the setup.
    pub fn setup(&self) -> Setup
        ensures { result ≡ self.now.call.setup }
    {
        self.call.setup
    }

    /// Returns the process of the call.
    pub fn process(&self) -> u8
        ensures { result ≡ self.now.call.process }
    {
        self.call.process
    }

    /// Returns its command.
    pub fn command(&self) -> Command
        ensures { result ≡ self.now.call.command }
    {
        self.call.command
    }

    /// Returns its number.
    pub fn number(&self) -> u16
        ensures { result ≡ self.now.call.number }
    {
        self.call.number
    }

    /// Returns whether this call has the process, the command and the number of the other one, which has the same setup.
    pub fn is_same_call(&self, other: &CallPart) -> bool
        requires setup { self.now.call.setup ≡ other.now.call.setup }
        ensures { result ≡ true → self.now.call ≡ other.now.call }
    {
        self.call.process == other.call.process
            && self.call.number == other.call.number
            && self.call.command == other.call.command
    }

    /// Returns whether the call was answered.
    pub fn is_over(&self) -> bool
        ensures { result ≡ is_over self.now.part }
    {
        matches!(self.part, ProgramPoint::Over)
    }

    /// Returns whether the first access of this part has the mark `Left`.
    #[inline]
    pub fn leaves(&self) -> bool
        ensures { first_marks self.now.part ≡ cond result (Left ∷ []) [] }
    {
        matches!(self.part, ProgramPoint::Clears(_))
    }

    /// Returns whether the first access of this part begins the call, or has a mark.
    #[inline]
    pub fn is_reported(&self) -> bool
        ensures { result ≡ is_reported self.now.part }
    {
        matches!(self.part, ProgramPoint::Raises | ProgramPoint::Clears(_))
    }

    /// Returns whether this part reads the image; any other register that it reads has at most 32 bits.
    pub fn reads_image(&self) -> bool
        ensures image { result ≡ reads_image self.now.part }
        ensures narrow { result ≡ false → is_read self.now.part ≡ true →
            width self.now.call.setup (read_at self.now.call self.now.part).1 ≤ 32 }
    {
        matches!(self.part, ProgramPoint::AsksImage)
    }

    /// Returns the stage of its process, by whether the process has made an access of this part.
    pub fn stage(&self, fresh: bool) -> Stage
        ensures { result ≡ stage_of self.now.part fresh }
    {
        match self.part {
            ProgramPoint::AwaitsChoosing { .. } | ProgramPoint::AwaitsTicket { .. } =>
                Stage::Waiting,
            ProgramPoint::AsksCommit { .. }
            | ProgramPoint::AsksStamp { .. }
            | ProgramPoint::AsksImage
            | ProgramPoint::WritesImage
            | ProgramPoint::WritesStamp
            | ProgramPoint::WritesCommit => Stage::Inside,
            ProgramPoint::Clears(_) if fresh => Stage::Inside,
            ProgramPoint::Clears(_) => Stage::Leaving,
            ProgramPoint::Over => Stage::Idle,
            _ => Stage::Doorway,
        }
    }

    /// Returns whether its process is inside, by whether the process has made an access of this part.
    pub fn is_inside(&self, fresh: bool) -> bool
        ensures { result ≡ is_inside_at self.now.part fresh }
    {
        match self.part {
            ProgramPoint::AsksCommit { .. }
            | ProgramPoint::AsksStamp { .. }
            | ProgramPoint::AsksImage
            | ProgramPoint::WritesImage
            | ProgramPoint::WritesStamp
            | ProgramPoint::WritesCommit => true,
            ProgramPoint::Clears(_) => fresh,
            _ => false,
        }
    }

    /// Returns the ticket with which its process ends its doorway, or waits.
    pub fn ticket(&self) -> Option<u32>
        ensures { result ≡ ticket_at self.now.part }
    {
        match self.part {
            ProgramPoint::Lowers(ticket)
            | ProgramPoint::AwaitsChoosing { ticket, .. }
            | ProgramPoint::AwaitsTicket { ticket, .. } => Some(ticket),
            _ => None,
        }
    }

    /// Returns the process because of whose ticket the call is refused.
    pub fn full(&self) -> Option<u8>
        ensures { result ≡ full_at self.now.part }
    {
        match self.part {
            ProgramPoint::Refuses(process) => Some(process),
            _ => None,
        }
    }

    /// Returns the answer of the call, while the ticket is cleared.
    pub fn answer(&self) -> Option<Answer>
        ensures { result ≡ answer_at self.now.part }
    {
        match self.part {
            ProgramPoint::Clears(answer) => Some(answer),
            _ => None,
        }
    }

    /// Returns the reply, the greatest stamp that was read and the new value of the commit bit, while a change is written.
    pub fn pending(&self) -> Option<(Reply, u32, bool)>
        ensures { result ≡ pending_at self.now.call self.now.part }
    {
        match self.part {
            ProgramPoint::WritesImage | ProgramPoint::WritesStamp | ProgramPoint::WritesCommit =>
                Some((
                    applied(&self.call, &self.seen.store).1,
                    newest_stamp(&self.call, &self.seen),
                    other_commit(&self.call, &self.seen),
                )),
            _ => None,
        }
    }

    /// Returns the known facts about the ticket, from the raising of the choosing bit to the end of the doorway.
    pub fn ticket_known(&self) -> Option<KnownTicket>
        ensures { result ≡ ticket_known_at self.now.call.setup self.now.part }
    {
        match self.part {
            ProgramPoint::Asks { owner } => {
                let read = others_below(&self.call, owner);
                Some(KnownTicket::Above(greatest(&self.seen.numbers[..read])))
            }
            ProgramPoint::TakesTicket(ticket) | ProgramPoint::Lowers(ticket) => {
                Some(KnownTicket::Is(ticket))
            }
            ProgramPoint::Refuses(_) => {
                Some(KnownTicket::Above(most_of(self.call.setup.ticket_bits)))
            }
            _ => None,
        }
    }

    /// Returns the greatest stamp that was read, while a change is being written.
    pub fn changes_pending(&self) -> Option<u32>
        ensures { result
            ≡ option_map (λ (change : Change). change.1) (pending_at self.now.call self.now.part) }
    {
        match self.part {
            ProgramPoint::WritesImage | ProgramPoint::WritesStamp | ProgramPoint::WritesCommit => {
                Some(newest_stamp(&self.call, &self.seen))
            }
            _ => None,
        }
    }

    /// Returns the number of changes taken before the command, if the last access of this part may take it: the greatest
    /// stamp that was read. Otherwise it returns 0.
    pub fn changes_read(&self) -> u32
        ensures { result ≡ changes_at self.now.part }
    {
        match self.part {
            ProgramPoint::AsksImage | ProgramPoint::WritesCommit => newest_stamp(
                &self.call, &self.seen,
            ),
            _ => 0,
        }
    }

    /// Returns the new value of the commit bit, at which the command is taken, and the reply, while this bit is written.
    pub fn takes(&self) -> Option<(bool, Reply)>
        ensures reply { reply_taken result
            ≡ taken_with (written_at self.now.call self.now.part).0
            (pending_at self.now.call self.now.part) }
        ensures commit { IfSome result
            (λ (taken : Bool × Reply). written_at self.now.call self.now.part
            ≡ (Field.Commit, taken.0 ∷ [])) }
    {
        match self.part {
            ProgramPoint::WritesCommit => Some((
                other_commit(&self.call, &self.seen),
                applied(&self.call, &self.seen.store).1,
            )),
            _ => None,
        }
    }

    /// Returns the store whose image it writes.
    pub fn image(&self) -> Image
        requires { writes_image self.now.part ≡ true }
        ensures { bits_in (image_of result) (width self.now.call.setup Field.Image0)
            ≡ (written_at self.now.call self.now.part).1 }
    {
        applied(&self.call, &self.seen.store).0
    }

    /// Returns the register access of its present part.
    pub fn asks(&self) -> AccessRequest
        ensures { IsAsked self.now.call self.now.part result }
    {
        asks_at(&self.call, &self.seen, &self.part)
    }

    /// Moves to the next part after a register access other than a read of the image; a read returned `number`.
    /// Returns the outcome of the last access.
    pub fn after(&mut self, number: u32) -> StepOutcome
        requires going { is_over self.old.part ≡ false }
        requires small { reads_image self.old.part ≡ false }
        requires number { (bits : List Bool) × IsOutcome self.old.call self.old.part bits number }
        ensures part { (bits : List Bool) → IsOutcome self.old.call self.old.part bits number →
            self.new ≡ record self.old { part = part_after self.old.call self.old.part bits } }
        ensures marks { (bits : List Bool) → IsOutcome self.old.call self.old.part bits number →
            marks_reported result ≡ last_marks self.old.call self.old.part bits }
        ensures changes { IfSome (changes_reported result)
            (λ changes. changes ≡ changes_at self.old.part) }
    {
        let part = self.part;
        let changes = self.changes_read();
        self.part = after::part_after(&self.call, &mut self.seen, &part, number);
        outcome_before(&part, &self.part, changes)
    }

    /// Moves to the next part after a read of the image, which is that of `store`. Returns the outcome of the last access.
    pub fn after_image(&mut self, store: &Image) -> StepOutcome
        requires image { reads_image self.old.part ≡ true }
        requires slots { store.now.slots ≡ self.old.call.setup.slots }
        requires numbers { length store.now.numbers ≡ callers_of self.old.call.setup }
        ensures part { (bits : List Bool) → store_read self.old.call bits ≡ store.now →
            self.new ≡ record self.old { part = part_after self.old.call self.old.part bits } }
        ensures marks { (bits : List Bool) → store_read self.old.call bits ≡ store.now →
            marks_reported result ≡ last_marks self.old.call self.old.part bits }
        ensures changes { IfSome (changes_reported result)
            (λ changes. changes ≡ changes_at self.old.part) }
    {
        let part = self.part;
        let changes = self.changes_read();
        self.seen.store = *store;
        self.part = after::after_image(&self.call, &self.seen);
        outcome_before(&part, &self.part, changes)
    }

    /// Becomes as the other. It takes no memory.
    pub fn copy_from(&mut self, other: &CallPart)
        ensures { self.new ≡ other.now }
    {
        self.call = other.call;
        self.part = other.part;
        self.seen = other.seen;
    }
}
