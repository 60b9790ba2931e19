//! Boards, and the creation of a board with its ports.
ghost use Rattle.std.specs.Prelude.{◌≡◌, ◌+◌, ◌<◌, Ok, IfOk, OnOk, [], vec_len};
ghost use Rattle.board.specs.Seats.{IsSeated};
ghost use Rattle.board.specs.Views.{first_view};
ghost use Rattle.plain_store.specs.{checked};

use crate::layout::WordLayout;
use crate::opening::opening_words;
use crate::port::Port;
use crate::rule::{Agreement, SeatSplit, View};
use crate::steps::WordSeat;
use atomic_table::Table;
use model::Placed;
use plain_store::Setup;
use process::Process;
use std::alloc::{AllocError, Global};
use std::marker::Model;

/// The words of all single-reader bits, which the ports share.
#[derive(Drop)]
pub struct Board {
    pub(crate) table: Table<(), View, Setup, Agreement, Global>,
    pub(crate) setup: Setup,
    /// The positions of the words of its bits.
    pub(crate) layout: WordLayout,
    /// Room for the lists of all ports, which [`Board::close`] returns.
    pub(crate) answers: Vec<Vec<Placed>>,
}

impl Model for Board {
    ghost use Rattle.board.specs.Boards.{BoardState, KeepsBoard};

    ghost Value = { BoardState };

    ghost view = { λ b. record { table_id = b.table.shared.table_id; setup = b.setup } };

    ghost invariant = { λ b. KeepsBoard b.setup b.layout b.table.shared.key b.table.shared.table_id b.answers };
}

impl Board {
    ghost use Rattle.board.specs.Boards.{AreIdle, AreOthersIdle, ArePortsOf};
    ghost use Rattle.board.specs.Closings.{AreMadeWith};
    ghost use Rattle.board.specs.Views.{new_view, with_made};

    /// Creates a board on which nothing has happened, and a port for each process, in ascending order.
    ///
    /// # Errors
    ///
    /// Returns [`AllocError`] if an allocation fails.
    pub fn new(alloc: Global, setup: &Setup) -> Result<(Board, Vec<Port>), AllocError>
        requires good { checked setup.now ≡ Ok tt }
        ensures setup { IfOk result (λ made. made.0.setup ≡ setup.now) }
        ensures ports { IfOk result (λ made. ArePortsOf made.0 made.1.items) }
        ensures idle { IfOk result (λ made. AreIdle made.1.items) }
    {
        let (board, mut seat) = opened(alloc, setup)?;
        let mut ports = board.others(alloc, &mut seat)?;
        let first = Process::new(0, setup);
        ports.insert(0, Port::new(alloc, seat, first))?;
        Ok((board, ports))
    }

    /// Creates the ports of all processes except the first, from the seat of the first.
    fn others(&self, alloc: Global, first: &mut WordSeat) -> Result<Vec<Port>, AllocError>
        requires board { first.old.table_id ≡ self.now.table_id }
        requires first { first.old.me ≡ (first_view, []) }
        ensures board { OnOk result (first.new.table_id ≡ self.now.table_id) }
        ensures first { OnOk result (first.new.me ≡ (new_view 0 self.now.setup.processes, [])) }
        ensures all { IfOk result (λ ports. vec_len ports + 1 ≡ self.now.setup.processes) }
        ensures made_with { IfOk result (λ ports. AreMadeWith self.now ports.items) }
        ensures idle { IfOk result (λ ports. AreOthersIdle ports.items) }
    {
        let mut ports: Vec<Port> = Vec::with_capacity(alloc, usize::from(self.setup.processes))?;
        for number in 1..self.setup.processes {
            let process = Process::new(number, &self.setup);
            let seat = self.newcomer(first);
            ports.push_reserved(Port::new(alloc, seat, process));
        }
        Ok(ports)
    }

    /// Splits the next port's seat from port 0's seat, which counts the seats made.
    fn newcomer(&self, first: &mut WordSeat) -> WordSeat
        requires board { first.old.table_id ≡ self.now.table_id }
        requires first { first.old.me ≡ (new_view 0 first.old.me.0.made, []) }
        requires made { first.old.me.0.made < self.now.setup.processes }
        ensures first { IsSeated self.now.table_id (with_made first.old.me.0) first.new }
        ensures seat { IsSeated self.now.table_id (new_view first.old.me.0.made 0) result }
    {
        self.table.shared.split_seat::<SeatSplit>(first)
    }
}

/// Creates the words of a board at their opening values, and port 0's seat.
fn opened(alloc: Global, setup: &Setup) -> Result<(Board, WordSeat), AllocError>
    requires { checked setup.now ≡ Ok tt }
    ensures setup { IfOk result (λ made. made.0.setup ≡ setup.now) }
    ensures seat { IfOk result (λ made. IsSeated made.0.table_id first_view made.1) }
{
    setup.opening.pairs_are_sound();
    let words = opening_words(alloc, setup)?;
    let (table, seat) = Table::of_words(alloc, words.as_slice(), setup)?;
    let answers = Vec::with_capacity(alloc, usize::from(setup.processes))?;
    Ok((
        Board {
            table,
            setup: *setup,
            layout: WordLayout::of(setup),
            answers,
        },
        seat,
    ))
}
