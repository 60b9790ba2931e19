//! Histories of one thread, in which processes call in turn.
ghost use Rattle.std.specs.Prelude.{◌≡◌, Ok};
ghost use Rattle.plain_store.specs.{checked};

use crate::counters::counter;
use call_check::Image;
use model::Placed;
use plain_store::{Answer, Caller, Command, NestedTypes, Reply, Setup, Store, Value, opened};
use std::alloc::{AllocError, Global};

/// The commands that the processes of a setup call in turn. The counter opens at 0 in version 2; in version 1 it is absent, and
/// the first call of all writes 1.
#[derive(Drop)]
pub struct History {
    pub name: &'static str,
    pub version: u8,
    /// Whether each process adds 1 to the counter in the odd rounds (first, third and so on), and in the even rounds. In the
    /// others it reads the counter.
    pub adds: [bool; 2],
    /// Whether the last call of all has a reply that no store gives.
    pub is_spoiled: bool,
}

/// Returns the finished calls of each process, `rounds` of them, and the image after them.
///
/// # Errors
///
/// Returns [`AllocError`] if memory runs out.
pub fn called_in_turn(
    alloc: Global,
    setup: &Setup,
    history: &History,
    rounds: u32,
) -> Result<(Vec<Vec<Placed>>, Image), AllocError>
    requires { checked setup.now ≡ Ok tt }
{
    let mut image = opened(Image::empty(setup.slots, setup.callers()), setup)?;
    let mut lists = empty_lists(alloc, setup.processes, rounds)?;
    call_all(history, rounds, &mut image, &mut lists)?;
    if history.is_spoiled
        && let Some(list) = lists.last_mut()
        && let Some(call) = list.last_mut()
    {
        call.answer = Some(Answer::Reply(Reply::Sum(-1)));
    }
    Ok((lists, image))
}

/// Returns a list for each process, with room for `calls` calls.
fn empty_lists(alloc: Global, processes: u8, calls: u32) -> Result<Vec<Vec<Placed>>, AllocError> {
    let _nested: NestedTypes = None;
    let mut lists = Vec::new(alloc);
    for _ in 0..processes {
        lists.push(Vec::with_capacity(alloc, calls as usize)?)?;
    }
    Ok(lists)
}

/// Makes the calls of all rounds.
fn call_all(
    history: &History,
    rounds: u32,
    image: &mut Image,
    lists: &mut Vec<Vec<Placed>>,
) -> Result<(), AllocError> {
    let _nested: NestedTypes = None;
    let mut changes = 0u32;
    let mut number = 0u16;
    for round in 0..rounds {
        number = number.wrapping_add(1);
        let mut process = 0u8;
        for list in lists.iter_mut() {
            let command = if history.version == 1 && changes == 0 {
                Command::Write(counter(), Value::Count(1))
            } else if history.adds[(round % 2) as usize] {
                Command::Add(counter(), 1)
            } else {
                Command::Read(counter())
            };
            let caller = Caller { process, number };
            process = process.wrapping_add(1);
            list.push(finished(image, command, caller, &mut changes)?)?;
        }
    }
    Ok(())
}

/// Carries out a call on the image, after `changes` changes, and returns it as finished.
fn finished(
    image: &mut Image,
    command: Command,
    caller: Caller,
    changes: &mut u32,
) -> Result<Placed, AllocError> {
    let place = *changes;
    if image.would_change(&command) {
        *changes = place.wrapping_add(1);
    }
    let reply = image.apply(&command, caller)?;
    Ok(Placed {
        command,
        answer: Some(Answer::Reply(reply)),
        place: Some(place),
    })
}
