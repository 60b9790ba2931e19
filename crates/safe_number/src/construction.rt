//! The paper's own construction of registers: a number is a row of copied bits, and a write or a read of it goes from bit to
//! bit (Lamport 1986a). The program keeps all registers in one memory instead; docs/CONSTRUCTION.md says what ties the two.
mod reading;
mod register;
mod writing;

pub use reading::ReadRun;
pub use register::Register;
pub use writing::WriteRun;
