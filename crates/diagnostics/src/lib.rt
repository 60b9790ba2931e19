//! The position of a fault in a file, and what was expected there: the line, carets under the word that the grammar refused,
//! and the words, numbers or forms that may replace it.
#![tactic(auto)]

mod cells;
mod expected;
mod explaining;
mod forms;
mod kept;
mod kinds;
mod lines;
mod near;
mod parts;
mod places;
mod registers;
mod traces;

pub use explaining::explanation;
pub use kept::{StoredFile, TeeInput};
pub use kinds::FileKind;
