//! Two ports that add to one counter, each on a thread of its own.
ghost use Rattle.board.specs.{IsOf, SamePort};

use crate::plans::add;
use crate::threads::remaining;
use board::Flicks;
use board_runs::{Board, Driven, Port, Work, begin};
use plain_store::{Answer, NestedTypes, Reply, Store, Value};
use race::Closing;
use std::test::Fail;
use std::thread;

/// The setup of the board, and what port 0 does alone.
const HEAD: &str = "bakery 1\ntickets 4\nstamps 4\ncall 0 write a c:0\ngo 0 idle\n";

/// How many additions of each port are answered.
const ADDITIONS: u32 = 3;

/// The most turns of a port.
const TURNS: u64 = 10_000_000;

/// How many turns a port makes before it lets another thread go on.
const AT_A_TIME: u64 = 1_000;

/// The failure of a port that has made all its turns.
const LATE: &str = "three additions of a port are not answered within 10,000,000 turns";

/// The additions of 1 by each port, until three of them are answered with a reply.
#[derive(Drop)]
struct Adding;

impl Work for Adding {
    fn carry_out(&self, board: &Board, port: &mut Port, process: usize) {
        add_up(board, port, process as u64)
    }
}

/// Adds until three calls are answered with a reply, or all turns are made. A call that finds the tickets full begins again.
fn add_up(board: &Board, port: &mut Port, seed: u64)
    requires { IsOf board.now port.old }
    ensures { SamePort port.old port.new }
{
    let _nested: NestedTypes = None;
    let mut flicks = Flicks::pcg(seed);
    let mut answered = 0u32;
    for _ in 0..TURNS / AT_A_TIME {
        match port.drive(board, AT_A_TIME, &mut flicks) {
            Driven::Idle => {
                if begin(board, port, &add()).is_err() {
                    return;
                }
            }
            Driven::Answered(Answer::Reply(_)) => answered = answered.saturating_add(1),
            _ => thread::yield_now(),
        }
        if answered == ADDITIONS {
            return;
        }
    }
}

/// How many calls of a port are answered with a sum.
fn sums(closing: &Closing, port: usize) -> usize {
    let Some(calls) = closing.answers.get(port) else {
        return 0;
    };
    calls
        .iter()
        .filter(|call| matches!(call.answer, Some(Answer::Reply(Reply::Sum(_)))))
        .count()
}

#[test]
fn two_threads_add(rt: HostRuntime) -> Result<(), Fail> {
    let closing = remaining(&rt, HEAD, &Adding, LATE)?;
    for port in 0..2 {
        assert!(&rt; sums(&closing, port) == 3, "port {port}: {LATE}");
    }
    let Some((_, Value::Count(count))) = closing.image.entry(0) else {
        panic!(&rt; "the counter is not there");
    };
    assert!(&rt; count == 6, "{count}");
    Ok(())
}
