//! Tests of engines whose input or output fails at a chosen call.
#![tactic(auto)]

#[cfg(test)]
mod devices;
#[cfg(test)]
mod failing;
#[cfg(test)]
mod recording;
#[cfg(test)]
mod runs;
