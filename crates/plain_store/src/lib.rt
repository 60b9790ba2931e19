//! The sequential specification of the store: named counters and texts, its commands and replies, and the setup of a world.
//! Every other engine here is measured by its results. The store is this project's own profile.
//!
//! ```rust
//! let counter = Name::new(b"a")?;
//! let mut setup = Setup::one(2, 2, 2, 1);
//! setup.version = 2;
//! setup.opening.add(counter, Value::Count(5))?;
//! setup.check()?;
//! ```
#![tactic(auto)]

mod commands;
mod names;
mod nested;
mod openings;
mod outcomes;
mod padding;
mod plain;
mod setups;
mod shown;
mod sound;
mod store_line;
mod stores;
mod texts;

pub use commands::{Answer, Caller, Command, Reply, Value};
pub use names::{BadName, Name};
pub use nested::NestedTypes;
pub use openings::{OpenFault, Opening};
pub use outcomes::{Outcome, changes_are_reported_by_pairs, is_new};
pub use padding::pad;
pub use plain::PlainStore;
pub use setups::{BadSetup, Setup};
pub use store_line::{pair_words, show_line, store_words};
pub use stores::{Store, opened};
pub use texts::{BadText, Text};
