//! How a verdict is printed.
ghost use Rattle.call_check.specs.Shown.{verdict_text};

use crate::verdicts::Weighed;
use std::fmt;

impl fmt::Display for Weighed {
    ghost use Rattle.std.specs.Prelude.{Some};

    ghost output = { λ weighed. Some (verdict_text weighed) };

    fn fmt<W: fmt::Write>(&self, f: &mut fmt::Formatter<W>) -> fmt::Result {
        match self {
            Weighed::Good => f.write_str("good"),
            Weighed::Bad(port, call) => write!(f, "bad {port} {call}"),
            Weighed::BadEnd => f.write_str("bad end"),
        }
    }
}
