//! Closing a board.
ghost use Rattle.std.specs.Prelude.{◌≡◌, ◌≤◌, ◌+◌, ◌<◌, ◌↔◌, ◌∷◌, IsOk, IfOk, IfErr, IsTrue, false, length, vec_capacity, vec_len};
ghost use Rattle.board.specs.Closings.{AddsCallsOf, AreFirstPortsOf, AreListsOf, AreMadeWith, AreOthers, AreQuiet, CanClose, EachIsInRecord, FirstLeaves, HasJoined, HeadLeaves, IsStill, Leaves, AreInRecord, done_calls, lists_in};
ghost use Rattle.model.specs.{lists_of};

use crate::board::Board;
use crate::order::{are_of_all, put_in_order};
use crate::port::Port;
use crate::rule::SeatJoin;
use crate::shown_image::image_shown;
use crate::steps::{SharedWords, WordSeat};
use model::Placed;
use store_image::Image;

/// The result of closing a board: the image of its store, and the finished calls of each port, by process number.
#[derive(Drop)]
pub struct Closing {
    pub image: Image,
    pub answers: Vec<Vec<Placed>>,
}

/// A board and ports that could not be closed: a process was at work, or the ports were not one of each process.
#[derive(Drop)]
pub struct NotQuiet {
    pub board: Board,
    pub ports: Vec<Port>,
}

impl Board {
    /// Closes the board and returns its store and the finished calls. The ports may be in any order. Allocates nothing.
    ///
    /// # Errors
    ///
    /// Returns [`NotQuiet`], with the board and the ports unchanged, if the ports are not one of each process, or if a
    /// process is neither idle nor down.
    pub fn close(self, mut ports: Vec<Port>) -> Result<Closing, NotQuiet>
        requires ports { AreMadeWith self ports.items }
        ensures quiet { IsOk result ↔ CanClose self.setup ports.items }
        ensures leaves { IfOk result (λ closing. FirstLeaves self.setup ports.items closing.image) }
        ensures answers { IfOk result (λ closing. AreListsOf ports.items (lists_in closing)) }
        ensures fit { IfOk result (λ closing. EachIsInRecord self.setup (lists_in closing)) }
        ensures board { IfErr result (λ back. back.board ≡ self) }
        ensures back { IfErr result (λ back. back.ports.items ≡ ports.items) }
    {
        if !are_of_all(&ports, self.setup.processes) || !are_quiet(&ports) {
            return Err(NotQuiet { board: self, ports });
        }
        put_in_order(&mut ports, self.setup.processes);
        Ok(self.close_in_order(ports))
    }

    /// Closes the board, given quiet ports in the order of their processes.
    fn close_in_order(self, mut ports: Vec<Port>) -> Closing
        requires ports { AreFirstPortsOf self ports.items }
        requires nonempty { 0 < length ports.items }
        requires all { length ports.items ≡ self.setup.processes }
        requires quiet { AreQuiet ports.items }
        ensures leaves { HeadLeaves self.setup ports.items result.image }
        ensures answers { lists_in result ≡ done_calls ports.items }
        ensures fit { EachIsInRecord self.setup (lists_in result) }
    {
        let (first, calls) = ports.remove(0).into_parts();
        self.shut(first, calls, ports)
    }

    /// Joins all seats, and returns the image that the words show and the lists, that of port 0 first.
    fn shut(self, mut first: WordSeat, calls: Vec<Placed>, others: Vec<Port>) -> Closing
        requires board { first.table_id ≡ self.table_id }
        requires live { first.me.0.spent ≡ false }
        requires first { first.me.0.own.process ≡ 0 }
        requires still { IsStill self.setup first.me.0.own }
        requires others { AreOthers self.table_id self.setup 1 others.items }
        requires quiet { AreQuiet others.items }
        requires all { vec_len others + 1 ≡ self.setup.processes }
        requires calls { AreInRecord self.setup 0 calls.items }
        ensures leaves { Leaves self.setup first.me.0.own.calls first.me.0.seen result.image }
        ensures answers { lists_in result ≡ calls.items ∷ done_calls others.items }
        ensures fit { EachIsInRecord self.setup (lists_in result) }
    {
        let Board {
            table,
            setup,
            mut answers,
            ..
        } = self;
        answers.push_reserved(calls);
        join_all(&table.shared, &mut first, others, &mut answers);
        let closed = table.close_with(first);
        let image = image_shown(&setup, &closed);
        closed.free();
        Closing { image, answers }
    }
}

/// Returns whether the process of each port is idle or down.
fn are_quiet(ports: &Vec<Port>) -> bool
    ensures { IsTrue result ↔ AreQuiet ports.now.items }
{
    for port in ports {
        if !port.is_still() {
            return false;
        }
    }
    true
}

/// Joins the seats of all other ports to port 0's seat, and appends their lists to `answers`. The next list to append is
/// that of the first of these ports.
fn join_all(
    words: &SharedWords,
    first: &mut WordSeat,
    mut others: Vec<Port>,
    answers: &mut Vec<Vec<Placed>>,
)
    requires table { (first.old.table_id ≡ words.now.table_id) × (0 < words.now.table_id.words) }
    requires first { (first.old.me.0.spent ≡ false) × (first.old.me.0.own.process ≡ 0) }
    requires order { AreOthers words.now.table_id words.now.key (vec_len answers.old) others.items }
    requires quiet { AreQuiet others.items }
    requires answers { vec_len answers.old ≡ 1 }
    requires fit { EachIsInRecord words.now.key (lists_of answers.old.items) }
    requires room { vec_len answers.old + vec_len others ≤ vec_capacity answers.old }
    ensures seat { (first.new.table_id ≡ first.old.table_id) × (first.new.id ≡ first.old.id) }
    ensures joined { HasJoined (vec_len others) first.old.me.0 first.new.me.0 }
    ensures answers { AddsCallsOf others.items answers.old.items answers.new.items }
    ensures fit { EachIsInRecord words.now.key (lists_of answers.new.items) }
{
    while !others.is_empty() {
        let (seat, calls) = others.remove(0).into_parts();
        words.join_seat::<SeatJoin>(first, seat);
        answers.push_reserved(calls);
    }
}
