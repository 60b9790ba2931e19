//! Tests that cross crates and that no file covers: worlds under single events, the library calls that list, record,
//! audit and sweep a run, and the words of entries. Two more functions use the main theorem as a caller.
#![tactic(auto)]

#[cfg(test)]
mod changed;
#[cfg(test)]
mod growths;
#[cfg(test)]
mod listed;
#[cfg(test)]
mod record_files;
#[cfg(test)]
mod refused;
#[cfg(test)]
mod scenarios;
#[cfg(test)]
mod uses;
#[cfg(test)]
mod verdicts;
#[cfg(test)]
mod worlds;
