//! The time that a command on a full image takes.
use crate::timing::report;
use anyhow::Result;
use call_check::Image;
use plain_store::{Caller, Command, Name, NestedTypes, Reply, Store, Value};
use std::rt::Clock;
use std::time::Instant;

const NAMES: [&str; 8] = [
    "first", "second", "third", "fourth", "fifth", "sixth", "seventh", "eighth",
];

/// Makes `rounds` rounds of 8 adds, and prints the last reply.
///
/// # Errors
///
/// Returns an error if memory runs out, or if the clock or a stream fails.
pub fn times<T: Print + Eprint + Clock>(rt: &T, rounds: u32) -> Result<()> {
    let _nested: NestedTypes = None;
    let mut image = Image::empty(8, 16);
    let adds = fill(&mut image)?;
    let start = Instant::now(rt)?;
    let mut last = Reply::Done;
    let mut number = 0u16;
    for _ in 0..rounds {
        number = number.wrapping_add(1);
        let caller = Caller { process: 0, number };
        for add in &adds {
            last = image.apply(add, caller)?;
        }
    }
    report(rt, "rounds of 8 adds", &last, u64::from(rounds), &start)?;
    println!(rt; "last number {}", image.last(0))?;
    Ok(())
}

/// Writes 0 to 8 counters, and returns the commands that add 1 to each.
fn fill(image: &mut Image) -> Result<[Command; 8]> {
    let _nested: NestedTypes = None;
    let caller = Caller {
        process: 0,
        number: 0,
    };
    let mut adds = [Command::Ask; 8];
    for place in 0..8 {
        let name = Name::new(NAMES[place].as_bytes())?;
        image.apply(&Command::Write(name, Value::Count(0)), caller)?;
        adds[place] = Command::Add(name, 1);
    }
    Ok(adds)
}
