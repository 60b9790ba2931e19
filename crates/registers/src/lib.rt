//! The registers of all processes as one memory of safe bits, and the cursor of a register access. A caller makes a single
//! access ([`BitMemory::step`]), or several accesses of a read or a write ([`BitMemory::run`]), with the effect of single
//! accesses. The memory may make several accesses faster than one by one.
#![tactic(auto)]

mod access_made;
mod cursor;
mod fields;
mod laws;
mod memory;
mod word_bytes;

pub use access_made::{AccessMade, AccessesMade};
pub use cursor::{Cursor, RegisterAccessKind, value_returned};
pub use fields::{BitCopy, RegisterName};
pub use laws::cursors_follow_places;
pub use memory::BitMemory;
pub use reader_copies::CopyState;
pub use word_bytes::words_of;
