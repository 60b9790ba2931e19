//! Workloads for the crates of the store, each a part of this program: those that bench/ times, and rounds of ports that
//! `tests/byhand/soak_boards.py` judges.
#![tactic(auto)]

mod accesses;
mod boards;
mod counters;
mod images;
mod rounds;
mod timing;
mod weighing;

use anyhow::{Result, bail};
use std::env::{self, Env};
use std::io;
use std::rt::Clock;
use std::thread::Threads;

/// All parts, in the order in which they are run:
///
/// - `registers`: whole writes and whole reads of a register,
/// - `image`: commands on an image,
/// - `board`: word steps of ports, and the making of the largest board,
/// - `weigh`: long lists of finished calls, which are weighed,
/// - `rounds`: rounds of ports that are interrupted by failures.
const PARTS: [&str; 5] = ["registers", "image", "board", "weigh", "rounds"];

/// Runs the part that the first word names, or all parts without that word, and prints what they leave. The second and the
/// third word are numbers that set the size of the part. For `rounds` the second is a scenario, and the third is the number of
/// its lines that are carried out by turns. Timings go to standard error.
fn main(rt: HostRuntime) -> Result<()> {
    if let Some(part) = word(&rt, 1)? {
        return run(&rt, part.as_str());
    }
    for part in PARTS {
        run(&rt, part)?;
    }
    Ok(())
}

/// Runs a part.
fn run<T: Env + Print + Eprint + Clock + AllocGlobal + Threads + Sync>(
    rt: &T,
    part: &str,
) -> Result<()> {
    let second = number(rt, 3)?;
    if part == "rounds" {
        return rounds::play_all(rt, second.unwrap_or(0) as usize);
    }
    let first = number(rt, 2)?;
    let some = first.unwrap_or(1);
    if part == "registers" {
        accesses::times(rt, some)
    } else if part == "image" {
        images::times(rt, some)
    } else if part == "board" {
        boards::times(rt, some, second.unwrap_or(1))
    } else if part == "weigh" {
        weighing::times(rt, first, second)
    } else {
        bail!("there is no part {part}")
    }
}

/// Returns the number that the word at this position denotes, or `None` without that word.
fn number<T: Env + AllocGlobal>(rt: &T, at: usize) -> Result<Option<u32>> {
    match word(rt, at)? {
        Some(word) => Ok(Some(word.parse()?)),
        None => Ok(None),
    }
}

/// Returns the word at this position, if there is one.
fn word<T: Env + AllocGlobal>(rt: &T, at: usize) -> io::Result<Option<String>> {
    Ok(env::args(rt)?.nth(at))
}
