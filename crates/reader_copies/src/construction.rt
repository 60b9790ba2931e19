//! The paper's own construction of many-reader bits: a bit that is the reader's copy for each of its readers, and a row of such
//! bits (Lamport 1986a). The program keeps all registers in one memory instead; docs/CONSTRUCTION.md says what ties the two.
mod bit;
mod row;

pub use bit::CopiedBit;
pub use row::{CopiedRow, MAX_READERS, MAX_WIDTH};
