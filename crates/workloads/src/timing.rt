//! The one form in which timings are printed.
use std::fmt::Display;
use std::io;
use std::rt::Clock;
use std::time::Instant;

/// Prints what a run has left, and prints to standard error the number of its steps and the nanoseconds since its start.
///
/// # Errors
///
/// Returns the error of the clock or of a stream.
pub fn report<T: Print + Eprint + Clock>(
    rt: &T,
    run: &str,
    remaining: &impl Display,
    steps: u64,
    start: &Instant,
) -> io::Result<()> {
    let passed = start.elapsed(rt)?;
    println!(rt; "{run}: {remaining}")?;
    eprintln!(rt; "{steps} {} {run}", passed.as_nanos())
}
