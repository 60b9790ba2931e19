//! A register driven by one reader or writer alone, one access after another: whole writes, whole reads, and interrupted
//! writes that are settled. The contracts state the value that the register then has, and the value that a read returns.
#![tactic(auto)]

mod drive;
mod torn;

pub use drive::{read_all, write_all};
pub use safe_number::{ReadRun, Register};
pub use torn::{cut_and_settle, settle_all, write_some};
