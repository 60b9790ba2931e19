//! The notes of the calls by the stores: one store after each change, up to the place without exactly one change.
ghost use Rattle.std.specs.Prelude.{◌≡◌, ◌↔◌, ◌<◌, ◌+◌, IfOk, IsTrue, Ok, length};
ghost use Rattle.plain_store.specs.{changes, checked};
ghost use Rattle.call_check.specs.declared.calls.Call.{Call as Given};
ghost use Rattle.call_check.specs.Following.{AreBlank, AreChainsOf, AreNotedBy, Counts, FollowsIfFew, IsCaller, IsFew, IsOf, ReportsReply, ReportsWrong, calls_in, changes_of};
ghost use Rattle.call_check.specs.Weighing.{changes_at};

use crate::calls::Call;
use crate::chains::{PositionChains, PositionLink, chain};
use model::Placed;
use plain_store::{Answer, Caller, Command, NestedTypes, Reply, Setup, Store, opened};
use std::alloc::{AllocError, Global};
use store_image::Image;

/// The note of a call by the store at its place.
#[derive(Clone, Copy)]
pub(crate) struct Note {
    /// Whether the call would change the store.
    pub changes: bool,
    /// Whether the call has another reply than the store's.
    pub is_wrong: bool,
}

/// The end of the stores, and the notes of the calls by the stores at their places. Only one store is kept at a time.
#[derive(Drop)]
pub(crate) struct CallNotes {
    /// A note of each call, in the order of the lists. If no store is at its place, the note is blank.
    pub notes: Vec<Note>,
    /// The number of changes.
    pub count: usize,
    /// The store after the changes.
    pub store: Image,
    /// Whether several calls would change that store.
    pub several: bool,
}

/// The calls with a place that would change a store.
#[derive(Clone, Copy)]
pub(crate) enum ChangingCalls {
    Nothing,
    One(Call),
    Several,
}

impl ChangingCalls {
    /// Returns the changers with a call before them, if it is a change.
    fn with(self, call: &Call, is_change: bool) -> ChangingCalls
        ensures { Counts self call.now is_change result }
    {
        if !is_change {
            return self;
        }
        match self {
            ChangingCalls::Nothing => ChangingCalls::One(*call),
            _ => ChangingCalls::Several,
        }
    }
}

impl CallNotes {
    /// Follows the stores over the places.
    pub(crate) fn follow(
        alloc: Global,
        setup: &Setup,
        lists: &[Vec<Placed>],
    ) -> Result<CallNotes, AllocError>
        requires { checked setup.now ≡ Ok tt }
        ensures { IfOk result (FollowsIfFew setup.now (calls_in lists.now)) }
    {
        let _nested: NestedTypes = None;
        let chains = chain(alloc, lists)?;
        let mut notes = blank(alloc, chains.links.len())?;
        let mut store = opened(Image::empty(setup.slots, setup.callers()), setup)?;
        let places = chains.heads.len();
        for place in 0..places {
            match note_place(setup, lists, &chains, place, &store, &mut notes) {
                ChangingCalls::Nothing => {
                    return Ok(CallNotes {
                        notes,
                        count: place,
                        store,
                        several: false,
                    });
                }
                ChangingCalls::One(call) => store.apply(
                    &call.placed.command,
                    caller(setup, &call),
                )?,
                ChangingCalls::Several => {
                    return Ok(CallNotes {
                        notes,
                        count: place,
                        store,
                        several: true,
                    });
                }
            };
        }
        Ok(CallNotes {
            notes,
            count: places,
            store,
            several: false,
        })
    }
}

/// Returns `calls` blank notes.
fn blank(alloc: Global, calls: usize) -> Result<Vec<Note>, AllocError>
    ensures { IfOk result (λ notes. AreBlank calls notes.items) }
{
    let note = Note {
        changes: false,
        is_wrong: false,
    };
    vec![in alloc; note; calls]
}

/// Notes the calls with a place, from the last one to the first, by the store there. Returns those that would
/// change it.
fn note_place(
    setup: &Setup,
    lists: &[Vec<Placed>],
    chains: &PositionChains,
    place: usize,
    store: &Image,
    notes: &mut Vec<Note>,
) -> ChangingCalls
    requires chains { AreChainsOf lists.now chains.now }
    requires place { place < length (calls_in lists.now) }
    requires notes { length notes.old.items ≡ length (calls_in lists.now) }
    ensures changes { result ≡ changes_of (changes_at (calls_in lists.now) place store.now) }
    ensures size { length notes.new.items ≡ length notes.old.items }
    ensures notes { AreNotedBy setup.now (calls_in lists.now) place store.now notes.old notes.new }
{
    let mut found = ChangingCalls::Nothing;
    let mut calls = chains.heads[place];
    'chain: while 0 < calls {
        let at = calls - 1;
        let link = chains.links[at];
        let call = call_of(lists, link);
        let note = note_of(setup, &call, store);
        found = found.with(&call, note.changes);
        notes[at] = note;
        calls = link.earlier;
    }
    found
}

/// Returns the call of a link.
fn call_of(lists: &[Vec<Placed>], link: PositionLink) -> Call
    requires { (call : Given) × IsOf lists.now call link }
    ensures { (call : Given) → IsOf lists.now call link → result ≡ call }
{
    Call {
        placed: lists[link.port][link.index],
        port: link.port,
        index: link.index,
    }
}

/// Returns the note of a call by a store.
fn note_of(setup: &Setup, call: &Call, store: &Image) -> Note
    ensures changes { result.changes ≡ changes store.now call.now.placed.command }
    ensures wrong { ReportsWrong setup.now store.now call.now result.is_wrong }
{
    Note {
        changes: would_change(store, &call.placed.command),
        is_wrong: is_wrong(setup, call, store),
    }
}

/// Returns whether a command would change a store.
#[tactic(auto, using(plain_store::proofs::Changes::changes_differs))]
fn would_change(store: &Image, command: &Command) -> bool
    ensures { result ≡ changes store.now command.now }
{
    store.would_change(command)
}

/// Returns whether a call has another reply than that of a store.
fn is_wrong(setup: &Setup, call: &Call, store: &Image) -> bool
    ensures { ReportsWrong setup.now store.now call.now result }
{
    let Some(answer) = call.placed.answer else {
        return false;
    };
    let Answer::Reply(reply) = answer else {
        return false;
    };
    !replies(setup, store, call, &reply)
}

/// Returns whether this is the store's reply to the call.
fn replies(setup: &Setup, store: &Image, call: &Call, reply: &Reply) -> bool
    ensures { ReportsReply setup.now store.now call.now reply.now result }
{
    let mut after = *store;
    match after.apply(&call.placed.command, caller(setup, call)) {
        Ok(own) => is_same(reply, &own),
        Err(_) => false,
    }
}

/// Returns whether two replies are equal.
fn is_same(reply: &Reply, other: &Reply) -> bool
    ensures { IsTrue result ↔ (reply.now ≡ other.now) }
{
    reply == other
}

/// Returns the caller of a call. In version 1 stores do not distinguish their callers.
fn caller(setup: &Setup, call: &Call) -> Caller
    ensures { IsFew setup.now call.now → IsCaller setup.now call.now result }
{
    if setup.version == 1 {
        return Caller {
            process: 0,
            number: 0,
        };
    }
    Caller {
        process: process_at(call.port),
        number: number_at(call.index),
    }
}

fn process_at(port: usize) -> u8
    ensures { port < 16 → result ≡ port }
{
    if port < 16 { port as u8 } else { 0 }
}

fn number_at(index: usize) -> u16
    ensures { index < 65535 → result ≡ index + 1 }
{
    if index < 65_535 { index as u16 + 1 } else { 0 }
}
