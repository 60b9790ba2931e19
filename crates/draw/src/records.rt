//! Pictures of records, with or without a judge.

mod around;
mod drawing;
pub(crate) mod engines;
pub(crate) mod held;
mod judged_bands;
mod sheet;
mod stored;
