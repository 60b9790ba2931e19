//! The time that a word step takes, of a port on one thread, and of two ports on two threads. Also the time that making the
//! largest board takes.
ghost use Rattle.std.specs.Prelude.{◌≡◌, ℕ, Some, slice_get};
ghost use Rattle.board_runs.specs.board.{IsOf, PortState};

mod calls;

use crate::counters::{counter, counting};
use crate::timing::report;
use anyhow::{Result, bail};
use board_runs::{Board, Port};
use calls::{calls_again, calls_alone, steps_of_a_call};
use plain_store::Command;
use std::rt::Clock;
use std::thread::{self, Threads};
use std::time::Instant;

/// The boards of which one port makes calls: their processes and slots.
const ALONE: [(&str, u8, u8); 4] = [
    ("word steps alone of 2, slots 1", 2, 1),
    ("word steps alone of 2, slots 8", 2, 8),
    ("word steps alone of 16, slots 1", 16, 1),
    ("word steps alone of 16, slots 8", 16, 8),
];

/// Prints the results of each run: `calls` calls of a port alone, and ports on threads, each of which is given turns `times`
/// times.
///
/// # Errors
///
/// Returns an error if memory runs out, a call does not end as expected, or the clock or a stream fails.
pub fn times<T: Print + Eprint + Clock + AllocGlobal + Threads + Sync>(
    rt: &T,
    calls: u32,
    times: u32,
) -> Result<()> {
    largest(rt)?;
    for (run, processes, slots) in ALONE {
        alone(rt, run, processes, slots, calls)?;
    }
    together(rt, "ports together of 2, slots 1", 1, times)?;
    together(rt, "ports together of 2, slots 8", 8, times)
}

/// Makes the largest board, and prints how many ports it has.
fn largest<T: Print + Eprint + Clock + AllocGlobal>(rt: &T) -> Result<()> {
    let setup = counting(2, 16, 32, 8)?;
    let start = Instant::now(rt)?;
    let (_board, ports) = Board::new(rt.alloc(), &setup)?;
    let made = ports.len() as u64;
    report(rt, "ports of the largest board", &made, made, &start)?;
    Ok(())
}

/// Times calls of port 0 of a board with `processes` processes.
fn alone<T: Print + Eprint + Clock + AllocGlobal>(
    rt: &T,
    run: &str,
    processes: u8,
    slots: u8,
    calls: u32,
) -> Result<()> {
    let setup = counting(2, processes, 32, slots)?;
    let (board, mut ports) = Board::new(rt.alloc(), &setup)?;
    match ports.get_mut(0) {
        Some(port) => timed_alone(rt, run, &board, port, calls),
        None => bail!("there is no port"),
    }
}

/// Makes `calls` calls of a port, and prints how many word steps each of them takes, and how long all take.
fn timed_alone<T: Print + Eprint + Clock>(
    rt: &T,
    run: &str,
    board: &Board,
    port: &mut Port,
    calls: u32,
) -> Result<()>
    requires { IsOf board.now port.old }
{
    let adds = Command::Add(counter(), 1);
    let Some(steps) = steps_of_a_call(board, port, &adds) else {
        bail!("the call does not end");
    };
    let start = Instant::now(rt)?;
    if !calls_alone(board, port, &adds, steps, calls) {
        bail!("a call takes another number of steps");
    }
    let all = steps.saturating_mul(u64::from(calls));
    report(rt, run, &steps, all, &start)?;
    Ok(())
}

/// Times two ports, each on a thread of its own.
fn together<T: Print + Eprint + Clock + AllocGlobal + Threads + Sync>(
    rt: &T,
    run: &str,
    slots: u8,
    times: u32,
) -> Result<()> {
    let setup = counting(2, 2, 32, slots)?;
    let (board, ports) = Board::new(rt.alloc(), &setup)?;
    timed_together(rt, run, &board, ports, times)
}

/// Gives turns to each of these ports `times` times, on threads, and prints how many ports they are, and the least number of
/// word steps that a port counts.
fn timed_together<T: Print + Eprint + Clock + Threads + Sync>(
    rt: &T,
    run: &str,
    board: &Board,
    ports: Vec<Port>,
    times: u32,
) -> Result<()>
    requires { (k : ℕ) (port : PortState) → slice_get ports.items k ≡ Some port →
        IsOf board.now port }
{
    let adds = Command::Add(counter(), 1);
    let start = Instant::now(rt)?;
    let counts = thread::map_vec(
        rt,
        ports,
        &|port: Port| -> u64
            requires { IsOf board.now port }
        { calls_again(board, port, &adds, times) },
    )?;
    let least = counts.iter().copied().min().unwrap_or(0);
    report(rt, run, &counts.len(), least, &start)?;
    Ok(())
}
