//! One word step of a port: a load or a store of one word.
ghost use Rattle.std.specs.Prelude.{◌≡◌, ◌<◌, Bool, true};
ghost use Rattle.model.specs.reader_copies.{IsWrite};
ghost use Rattle.process.specs.{may_step};
ghost use Rattle.board.specs.Lists.{AreInSeen};
ghost use Rattle.board.specs.Pending.{nothing};
ghost use Rattle.board.specs.Ports.{IsTied};
ghost use Rattle.board.specs.Seats.{MayLoad, MayStore, ReadsNext, SameSeat, SeatLeads, SeatLists, SeatSteps, StaysTied, WriteTies, WritesNext};
ghost use Rattle.board.specs.Words.{layout_of, loaded, stored, words_in};
ghost use Rattle.board.specs.WordSteps.{Loads, Stores, value_after};

use crate::layout::WordLayout;
use crate::pending::Pending;
use crate::rule::{Agreement, Load, Turn, View, WordStore};
use atomic_table::{Seat, Shared};
use model::Move;
use plain_store::Setup;
use process::{BitCopy, Process, StepOutcome};
use std::marker::Brand;

/// The words of a board, as its ports share them.
pub(crate) type SharedWords = Shared<(), View, Setup, Agreement>;

/// A port's seat at them.
pub(crate) type WordSeat = Seat<(), View>;

// A load. The last two parameters are for the proof alone.
#[inline]
fn load<T: Turn>(
    words: &SharedWords,
    seat: &mut WordSeat,
    word: usize,
    _flick: bool,
    _pending: Pending,
) -> u64
    requires place { (seat.old.table_id ≡ words.now.table_id) × (word < words.now.table_id.words) }
    requires keeps { MayLoad words.now.key words.now.table_id seat.old word T.setup T.flick T.view }
    ensures same { SameSeat seat.old seat.new }
    ensures reported { Loads T.setup T.flick T.view result seat.new.me.0 }
{
    words.load::<Load<T>>(seat, word)
}

// A store. The last two parameters are for the proof alone.
#[inline]
fn store<T: Turn>(
    words: &SharedWords,
    seat: &mut WordSeat,
    word: usize,
    new: u64,
    _flick: bool,
    _pending: Pending,
)
    requires place { (seat.old.table_id ≡ words.now.table_id) × (word < words.now.table_id.words) }
    requires keeps { MayStore words.now.key words.now.table_id seat.old word new
        T.setup T.flick T.view }
    ensures same { SameSeat seat.old seat.new }
    ensures reported { Stores T.setup T.flick T.view seat.new.me.0 }
{
    words.store::<WordStore<T>>(seat, word, new);
}

/// Returns the value of a read whose load found this word.
#[inline]
fn loaded(flick: bool, word: u64) -> bool
    ensures { result ≡ loaded flick word }
{
    if word == 2 { flick } else { word == 1 }
}

/// Returns its argument. Most outcomes are `Nothing`, and then no room for an answer is copied.
#[inline]
fn briefly(reported: StepOutcome) -> StepOutcome
    ensures { result ≡ reported }
{
    match reported {
        StepOutcome::Nothing => StepOutcome::Nothing,
        reported => reported,
    }
}

/// Reads one bit: one load, for its begin and its end.
#[inline]
fn read(
    words: &SharedWords,
    seat: &mut WordSeat,
    process: &mut Process,
    word: usize,
    pending: Pending,
    flick: bool,
) -> StepOutcome
    requires place { (seat.old.table_id ≡ words.now.table_id) × (word < words.now.table_id.words) }
    requires tied { (value : Bool) × IsTied words.now.key pending process.old value seat.old.me.0 }
    requires next { ReadsNext words.now.key process.old flick word }
    requires enabled { may_step process.old.doing ≡ true }
    ensures same { SameSeat seat.old seat.new }
    ensures tied { StaysTied words.now.key pending process.old process.new seat.old seat.new }
    ensures step { SeatSteps words.now.key pending flick seat.old seat.new }
    ensures leads { SeatLeads words.now.key pending result seat.old seat.new }
    ensures lists { SeatLists words.now.key pending result seat.old seat.new }
    ensures fits { AreInSeen words.now.key seat.new.me.0 }
{
    let found = load::<Brand>(words, seat, word, flick, pending);
    let _begun = process.advance(flick, false);
    briefly(process.advance(flick, loaded(flick, found)))
}

/// Makes one access of a write of one bit: one store.
#[inline]
fn write(
    words: &SharedWords,
    seat: &mut WordSeat,
    process: &mut Process,
    word: usize,
    new: u64,
    pending: Pending,
    flick: bool,
) -> StepOutcome
    requires place { (seat.old.table_id ≡ words.now.table_id) × (word < words.now.table_id.words) }
    requires next { WritesNext words.now.key pending process.old seat.old flick word new }
    requires enabled { may_step process.old.doing ≡ true }
    ensures same { SameSeat seat.old seat.new }
    ensures tied { WriteTies words.now.key pending flick process.old process.new seat.old seat.new }
    ensures step { SeatSteps words.now.key pending flick seat.old seat.new }
    ensures leads { SeatLeads words.now.key pending result seat.old seat.new }
    ensures lists { SeatLists words.now.key pending result seat.old seat.new }
    ensures fits { AreInSeen words.now.key seat.new.me.0 }
{
    store::<Brand>(words, seat, word, new, flick, pending);
    briefly(process.advance(flick, false))
}

/// Returns the word that an access of a write stores. A begin sets `value` to the value that it writes.
#[inline]
fn stored(how: Move, value: &mut bool) -> u64
    requires { IsWrite how }
    ensures word { result ≡ stored value.old how }
    ensures value { value.new ≡ value_after how value.old }
{
    match how {
        Move::BeginWrite(new) => {
            *value = new;
            2
        }
        Move::EndWrite => u64::from(*value),
        Move::Settle(settled) => u64::from(settled),
        Move::BeginRead | Move::EndRead(_) => unreachable!(),
    }
}

/// Makes one word step: the next access of the port's process, or of its memory unit; a read is begun and ended in one.
#[inline(never)]
pub(crate) fn word_step(
    words: &SharedWords,
    setup: &Setup,
    layout: &WordLayout,
    seat: &mut WordSeat,
    process: &mut Process,
    pending: Pending,
    value: &mut bool,
    flick: bool,
) -> StepOutcome
    requires laid { layout.now ≡ layout_of setup.now }
    requires table { seat.old.table_id ≡ words.now.table_id }
    requires size { words.now.table_id.words ≡ words_in setup.now }
    requires key { words.now.key ≡ setup.now }
    requires tied { IsTied words.now.key pending process.old value.old seat.old.me.0 }
    requires enabled { may_step process.old.doing ≡ true }
    ensures same { SameSeat seat.old seat.new }
    ensures tied { IsTied words.now.key nothing process.new value.new seat.new.me.0 }
    ensures step { SeatSteps words.now.key pending flick seat.old seat.new }
    ensures leads { SeatLeads words.now.key pending result seat.old seat.new }
    ensures lists { SeatLists words.now.key pending result seat.old seat.new }
    ensures fits { AreInSeen words.now.key seat.new.me.0 }
{
    let access = process.next(flick);
    let word = layout.word_of(setup, BitCopy::of(&access));
    match access.how {
        Move::BeginRead => read(words, seat, process, word, pending, flick),
        Move::EndRead(_) => unreachable!(),
        _ => {
            let new = stored(access.how, value);
            write(words, seat, process, word, new, pending, flick)
        }
    }
}
