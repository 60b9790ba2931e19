//! The state of one process: its call, the present part of its program, and the cursor of the register access that it
//! makes there.
#![tactic(auto)]

mod access_request;
mod activity;
mod after;
mod call_part;
mod committed;
mod entering;
mod image;
mod looks;
mod marks;
mod newest_version;
mod numbers;
mod opening;
mod others;
mod outcomes;
mod part;
mod process;
mod store;
mod values_read;

pub use access_request::AccessRequest;
pub use call_part::CallPart;
pub use choices::Flicks;
pub use committed::newest;
pub use looks::{AccessProgress, KnownTicket, Settling};
pub use newest_version::NewestVersion;
pub use opening::open_memory;
pub use outcomes::{EventMade, EventOutcome, StepOutcome};
pub use process::Process;
pub use registers::{AccessMade, AccessesMade, BitCopy, BitMemory, CopyState, RegisterName};
pub use store_image::Image;
