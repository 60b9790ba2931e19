//! Three ports that add to one counter, each on a thread of its own, and fail within calls.
ghost use Rattle.board.specs.{IsOf, SamePort};

use crate::plans::add;
use crate::threads::remaining;
use board::Flicks;
use board_runs::{Board, Driven, Port, Work, begin};
use std::test::Fail;

/// The setup of the board, and what port 0 does alone.
const HEAD: &str = "bakery 1\nprocesses 3\ntickets 4\nstamps 5\ncall 0 write a c:0\ngo 0 idle\n";

/// The rounds of each port.
const ROUNDS: u64 = 6;

/// The turns of an undisturbed call before it writes its commit bit.
const BEFORE_COMMIT: u64 = 1_390;

/// More turns than a memory unit makes.
const UNIT: u64 = 1_000_000;

/// Six rounds of each port. In round r it begins an addition of 1 and makes r turns more than lead up to the write of the commit
/// bit. It fails if the call is not answered.
#[derive(Drop)]
struct Failing;

impl Work for Failing {
    fn carry_out(&self, board: &Board, port: &mut Port, process: usize) {
        play_rounds(board, port, process as u64)
    }
}

/// Plays the rounds of a port, up to one after which its process is not idle.
fn play_rounds(board: &Board, port: &mut Port, seed: u64)
    requires { IsOf board.now port.old }
    ensures { SamePort port.old port.new }
{
    let mut flicks = Flicks::pcg(seed);
    for round in 1..ROUNDS + 1 {
        if !add_or_fail(board, port, BEFORE_COMMIT + round, &mut flicks) {
            return;
        }
    }
}

/// Begins a call and makes these turns. If it is not answered, the port fails. Returns whether its process is idle again.
fn add_or_fail(board: &Board, port: &mut Port, turns: u64, flicks: &mut Flicks) -> bool
    requires { IsOf board.now port.old }
    ensures { SamePort port.old port.new }
{
    begin(board, port, &add()).is_ok()
        && (matches!(port.drive(board, turns, flicks), Driven::Answered(_))
            || fail_and_restart(board, port, flicks))
}

/// Fails, makes the steps of the memory unit, and restarts. Returns whether its process is idle again.
fn fail_and_restart(board: &Board, port: &mut Port, flicks: &mut Flicks) -> bool
    requires { IsOf board.now port.old }
    ensures { SamePort port.old port.new }
{
    port.fail().is_ok()
        && matches!(port.drive(board, UNIT, flicks), Driven::Down)
        && port.restart().is_ok()
}

// A port stops at a round after which its process is not idle, and its list is then shorter.
#[test]
fn three_threads_fail(rt: HostRuntime) -> Result<(), Fail> {
    let closing = remaining(&rt, HEAD, &Failing, "a port is neither idle nor down")?;
    let calls = closing.answers.as_slice();
    assert!(&rt; calls.len() == 3);
    assert!(&rt; calls[0].len() == 7 && calls[1].len() == 6 && calls[2].len() == 6);
    Ok(())
}
