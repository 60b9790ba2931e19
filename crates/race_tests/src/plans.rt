//! What the tests race: two processes with their calls, and what is expected of what they leave.
ghost use Rattle.std.specs.Prelude.{◌≡◌, Ok};
ghost use Rattle.plain_store.specs.{checked};

use call_check::{Weighed, weigh};
use plain_store::{Answer, Command, Name, NestedTypes, Reply, Setup};
use race::{Closing, Gate, RaceFault, race};
use std::alloc::{AllocError, Global};
use std::process::Abort;
use std::sync::Wait;
use std::test::Fail;
use std::thread::Threads;

/// The one name here.
pub fn a() -> Name {
    Name::new(b"a").unwrap()
}

/// The command that adds 1 to it.
pub fn add() -> Command {
    Command::Add(a(), 1)
}

/// A race of two processes of version 1 with so many ticket bits, of which each makes its calls.
pub fn race_of_two<R: Threads + Wait + Sync, G: Gate + Sync>(
    rt: &R,
    alloc: Global,
    tickets: u8,
    calls: [&[Command]; 2],
    gate: &G,
) -> Result<Result<Closing, RaceFault>, Fail> {
    let _nested: NestedTypes = None;
    let setup = Setup::one(2, tickets, 4, 1);
    setup.check()?;
    let [first, second] = calls;
    let plans = [
        Vec::from_slice(alloc, first)?,
        Vec::from_slice(alloc, second)?,
    ];
    Ok(race(rt, alloc, &setup, &plans, gate))
}

/// Returns the closing state of such a race, whose calls belong to one history. A fault of the race fails the test.
pub fn raced<R: Threads + Wait + Abort + Sync, G: Gate + Sync>(
    rt: &R,
    alloc: Global,
    tickets: u8,
    calls: [&[Command]; 2],
    gate: &G,
) -> Result<Closing, Fail> {
    match race_of_two(rt, alloc, tickets, calls, gate)? {
        Ok(closing) => {
            assert!(rt; is_good(alloc, &Setup::one(2, 4, 4, 1), &closing)?);
            Ok(closing)
        }
        Err(fault) => panic!(rt; "{fault:?}"),
    }
}

/// Whether what the processes of version 1 have left is one history.
pub fn is_good(alloc: Global, setup: &Setup, closing: &Closing) -> Result<bool, AllocError>
    requires { checked setup.now ≡ Ok tt }
{
    if setup.version != 1 {
        return Ok(false);
    }
    let weighed = weigh(alloc, setup, closing.answers.as_slice(), &closing.image)?;
    Ok(weighed == Weighed::Good)
}

/// The answer of a call of a race, if it has one.
pub fn answer(closing: &Closing, port: usize, call: usize) -> Option<Answer> {
    closing.answers.get(port)?.get(call)?.answer
}

/// The answer is that there is no such name, or that the tickets are full.
pub fn is_no_name_or_full(answer: Option<Answer>) -> bool {
    matches!(
        answer,
        Some(Answer::Reply(Reply::NoName) | Answer::TicketsFull { .. })
    )
}
