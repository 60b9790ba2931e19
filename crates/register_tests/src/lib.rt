//! Tests of the bits, the registers, the lock, the section and the memory unit, in a crate of their own, so that each of
//! those layers is proved once. The uses of these layers by the program are under examples/, not here.
#![tactic(auto)]

#[cfg(test)]
mod bits;
#[cfg(test)]
mod commits;
#[cfg(test)]
mod copies;
#[cfg(test)]
mod doors;
#[cfg(test)]
mod drives;
#[cfg(test)]
mod failures;
#[cfg(test)]
mod locks;
#[cfg(test)]
mod memory;
#[cfg(test)]
mod numbers;
#[cfg(test)]
mod sections;
#[cfg(test)]
mod units;
#[cfg(test)]
mod visitors;
#[cfg(test)]
mod waits;
