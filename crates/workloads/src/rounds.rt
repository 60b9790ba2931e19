//! Rounds of boards whose ports are interrupted by failures, on threads or by turns. `tests/gate/boards.py` and
//! `tests/byhand/soak_boards.py` judge what each round leaves.
ghost use Rattle.std.specs.Prelude.{◌≡◌, Ok};
ghost use Rattle.plain_store.specs.{checked};

use crate::word;
use anyhow::{Result, bail};
use board_runs::{BoardResult, played, read_scenario};
use call_check::weigh;
use plain_store::Setup;
use std::env::Env;
use std::thread::Threads;

/// One process alone. While it is inside, it reads its commit bit, 2 bits of a stamp and 200 of an image. It also writes 200
/// bits of an image and 2 of a stamp, each by two turns. So the write of its commit bit is open after 608 turns. That bit is
/// settled at 1, which the first change was writing, and the second was not.
const ALONE: &str = "bakery 2\nprocesses 1\ntickets 2\nstamps 2\nflick 1\n\
call 0 write a c:5\ngo 0 inside\nstep 0 608\nfail 0\ngo 0 down\nrestart 0\n\
call 0 add a 2\ngo 0 inside\nstep 0 608\nfail 0\ngo 0 down\nrestart 0\n\
call 0 ask\ngo 0 idle\ncall 0 add a 2\ngo 0 idle\n\
call 0 read a\ngo 0 inside\nstep 0 1\nfail 0\ngo 0 down\nrestart 0\n\
call 0 ask\ngo 0 idle\n";

/// Two processes, on two threads, that change nothing. No ticket is above 2, because overlapped bits are read as 0.
const READERS: &str = "bakery 1\nprocesses 2\ntickets 2\nstamps 2\n\
call 0 read a\ngo 0 idle\ncall 1 add a 1\ngo 1 idle\n";

/// Plays the round whose scenario is the second word of the command line, with its first `by_turns` lines carried out by turns
/// and the others on threads. Without that word, plays two rounds whose lists do not depend on the schedule.
///
/// # Errors
///
/// Returns an error if the scenario is faulty, a call is left open, memory runs out, or a stream fails.
pub fn play_all<T: Env + Print + AllocGlobal + Threads + Sync>(
    rt: &T,
    by_turns: usize,
) -> Result<()> {
    if let Some(scenario) = word(rt, 2)? {
        return play(rt, scenario.as_str(), by_turns);
    }
    play(rt, ALONE, by_turns)?;
    play(rt, READERS, by_turns)
}

/// Plays a round: the ports of a board carry out the lines of a scenario, the first `by_turns` of them by turns.
fn play<T: Print + AllocGlobal + Threads + Sync>(
    rt: &T,
    file: &str,
    by_turns: usize,
) -> Result<()> {
    let scenario = read_scenario(rt.alloc(), file.as_bytes())?;
    match played(rt, &scenario, by_turns)? {
        Some(remaining) => report(rt, &scenario.setup, &remaining),
        None => bail!("a process is at work"),
    }
}

/// Prints the setup, the ports' lists and the image that the board leaves, and in version 1 the verdict of weighing them.
fn report<T: Print + AllocGlobal>(rt: &T, setup: &Setup, remaining: &BoardResult<'_>) -> Result<()>
    requires { checked setup.now ≡ Ok tt }
{
    print!(rt; "{remaining}")?;
    if setup.version == 1 {
        let closing = &remaining.closing;
        let verdict = weigh(
            rt.alloc(),
            setup,
            closing.answers.as_slice(),
            &closing.image,
        )?;
        println!(rt; "{verdict}")?;
    }
    Ok(())
}
