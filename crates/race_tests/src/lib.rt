//! Tests of boards that can't be closed yet, of ports at rest, and of ports that add on threads and fail there; and of races:
//! gates that no race on one thread passes, held ports, and exit statuses. Scenarios that ports carry out by turns are in
//! examples/boards/.
#![tactic(auto)]

#[cfg(test)]
mod adding;
#[cfg(test)]
mod closings;
#[cfg(test)]
mod failing;
#[cfg(test)]
mod gates;
#[cfg(test)]
mod plans;
#[cfg(test)]
mod rest;
#[cfg(test)]
mod statuses;
#[cfg(test)]
mod threads;
