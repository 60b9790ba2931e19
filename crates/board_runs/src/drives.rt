//! The drives of ports, as text.
use board::Driven;
use plain_store::NestedTypes;
use std::fmt;

/// A process, and the value that [`drive`](board::Port::drive) of its port returned. The text is `drive`, the process, and `answered`
/// with the answer, `turns`, `down` or `idle`.
#[derive(Clone, Copy)]
pub struct DriveResult {
    pub process: u8,
    pub driven: Driven,
}

impl fmt::Display for DriveResult {
    fn fmt<W: fmt::Write>(&self, f: &mut fmt::Formatter<W>) -> fmt::Result {
        let _nested: NestedTypes = None;
        write!(f, "drive {}: ", self.process)?;
        match &self.driven {
            Driven::Answered(answer) => write!(f, "answered {answer}"),
            Driven::Turns => f.write_str("turns"),
            Driven::Down => f.write_str("down"),
            Driven::Idle => f.write_str("idle"),
        }
    }
}
