//! The time that the check of sequential consistency (weighing) takes for the largest lists of finished calls.
ghost use Rattle.std.specs.Prelude.{◌≡◌, ◌≤◌, All, IsTrue, List, Ok, length};
ghost use Rattle.plain_store.specs.{checked};
ghost use Rattle.model.specs.declared.calls.Placed.{Placed as Finished};
ghost use Rattle.model.specs.{lists_of};

mod histories;

use crate::counters::counting;
use crate::timing::report;
use anyhow::{Result, bail};
use call_check::{Image, weigh};
use histories::{History, called_in_turn};
use model::Placed;
use plain_store::Setup;
use std::rt::Clock;
use std::time::Instant;

/// The greatest number of calls of a process in version 2.
const MOST_CALLS: u32 = 65_535;

/// The histories that are weighed.
const HISTORIES: [History; 5] = [
    History {
        name: "adds",
        version: 2,
        adds: [true, true],
        is_spoiled: false,
    },
    History {
        name: "reads",
        version: 2,
        adds: [false, false],
        is_spoiled: false,
    },
    History {
        name: "adds and reads",
        version: 2,
        adds: [true, false],
        is_spoiled: false,
    },
    History {
        name: "adds of version 1",
        version: 1,
        adds: [true, true],
        is_spoiled: false,
    },
    History {
        name: "adds, the last one bad",
        version: 2,
        adds: [true, true],
        is_spoiled: true,
    },
];

/// Prints the verdict on each history, or only on history number `only`. Each of 16 processes makes `calls` calls, 65,535 if
/// that is `None`. In version 1, which has no such bound, each of 8 processes makes twice as many.
///
/// # Errors
///
/// Returns an error if memory runs out, a history has too many calls, or the clock or a stream fails.
pub fn times<T: Print + Eprint + Clock + AllocGlobal>(
    rt: &T,
    calls: Option<u32>,
    only: Option<u32>,
) -> Result<()> {
    let rounds = calls.unwrap_or(MOST_CALLS);
    for number in 0..5u32 {
        if only.unwrap_or(number) == number {
            weighed(rt, &HISTORIES[number as usize], rounds)?;
        }
    }
    Ok(())
}

/// Weighs a history with `rounds` calls of each process.
fn weighed<T: Print + Eprint + Clock + AllocGlobal>(
    rt: &T,
    history: &History,
    rounds: u32,
) -> Result<()> {
    let (processes, rounds) = if history.version == 1 {
        (8, rounds.saturating_mul(2))
    } else {
        (16, rounds)
    };
    let setup = counting(history.version, processes, 2, 1)?;
    let calls = u64::from(processes).saturating_mul(u64::from(rounds));
    let (lists, image) = called_in_turn(rt.alloc(), &setup, history, rounds)?;
    timed(rt, &setup, &lists, &image, history.name, calls)
}

/// Weighs these lists, which have `calls` calls together.
fn timed<T: Print + Eprint + Clock + AllocGlobal>(
    rt: &T,
    setup: &Setup,
    lists: &[Vec<Placed>],
    image: &Image,
    name: &str,
    calls: u64,
) -> Result<()>
    requires { checked setup.now ≡ Ok tt }
{
    if setup.version == 2 && !(lists.len() <= usize::from(setup.processes) && are_short(lists)) {
        bail!("there are too many calls");
    }
    let start = Instant::now(rt)?;
    let verdict = weigh(rt.alloc(), setup, lists, image)?;
    report(rt, name, &verdict, calls, &start)?;
    Ok(())
}

/// Returns whether no list has more calls than a process of version 2 may have.
#[tactic(auto, using(crate::proofs::Short::short_lists))]
fn are_short(lists: &[Vec<Placed>]) -> bool
    ensures { IsTrue result →
        All (λ (list : List Finished). length list ≤ 65535) (lists_of lists.now) }
{
    for list in lists {
        if list.len() > 65_535 {
            return false;
        }
    }
    true
}
