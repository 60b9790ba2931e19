//! Tests of both stores and of the image, of weighing, of the law of reads, and of scenarios as text, in a crate of
//! their own, so that those layers are proved once. Tests that a file can express are in examples/, not here.
#![tactic(auto)]

#[cfg(test)]
mod images;
#[cfg(test)]
mod monitoring;
#[cfg(test)]
mod places;
#[cfg(test)]
mod printing;
#[cfg(test)]
mod stores;
#[cfg(test)]
mod weighing;
