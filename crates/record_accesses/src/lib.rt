//! The accesses of a run or of a record, good or bad, as a picture shows them.
//!
//! The definitions look back over the entries before an entry. A [`RecordAccessMonitor`] observes the entries one by
//! one. Its method `observe` takes an entry with its number, and returns what is shown of the access of the entry. The
//! monitor keeps the access that each process has open, and the state of each bit that was written, so its memory does
//! not grow with the number of entries. It is created before the first entry:
//!
//! ```rust
//! let mut monitor = RecordAccessMonitor::new(alloc, setup, limit)?;
//! ```
//!
//! Columns keep one open access for each process, whose place the next access of the process takes. The entries of a process
//! that fails are shown so:
//!
//! - If the process fails or withdraws during a read, its box ends there, without words.
//! - If the process fails during a write, its box continues. The settling of the bit ends the box, with the words `settle 1`.
//! - If the memory unit first writes another copy of the bit, that write takes the place of the interrupted one, and the
//!   settling is a whole write. The wave of the bit shows that the interrupted write is open until the settling, and reads
//!   that begin until then overlap it.
//!
//! A picture may begin after the first entry, at the entry with the number `limit.from`. Only a bit for which this entry or a
//! later one begins, ends or settles a write has a wave, and these entries give the waves their order. Earlier entries count
//! only for the state of the bits and for the accesses that are open, so what is shown of them has neither words nor a cell.
//! [`written_bits_have_waves`] states that, from the first entry on, exactly the bits that
//! were written have waves.
//!
//! [`boxes_show_overlapped_reads`] states that the box of an open read is marked exactly if the safe rule finds the read
//! overlapped.
//!
//! | Module | Contents |
//! |---|---|
//! | `bit_names` | the bit of an access, by which its row is found |
//! | `bits` | the state of a bit |
//! | `boxes` | what the boxes of reads show |
//! | `limits` | how many waves are shown |
//! | `moves` | the kind of a move |
//! | `opened` | the access that each process has open |
//! | `openings` | which bits exist, and their opening values |
//! | `overlaps` | which open accesses an access overlaps |
//! | `monitored` | an access in numbers |
//! | `words` | an access in words |
//! | `monitor` | the monitor |
//! | `wave_rows` | the row of each bit that has a wave |
//! | `written_bits` | the state of each bit that was written |
#![tactic(auto)]

mod bit_names;
mod bits;
mod boxes;
mod limits;
mod monitor;
mod monitored;
mod moves;
mod opened;
mod openings;
mod overlaps;
mod wave_rows;
mod words;
mod written_bits;

pub use boxes::boxes_show_overlapped_reads;
pub use monitor::RecordAccessMonitor;
pub use opened::drops_open_read;
pub use picture_layout::{WaveCount, WaveLimit};
pub use plain_store;
pub use wave_rows::written_bits_have_waves;

#[cfg(test)]
mod tests;
