//! Pictures of the runs of scenarios.

mod drawing;
pub(crate) mod engines;
mod nowhere;
