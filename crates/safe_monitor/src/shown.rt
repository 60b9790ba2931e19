//! The text of laws and verdicts.
ghost use Rattle.std.specs.Prelude.{◌≡◌, ℕ, List, Some, refl};
ghost use Rattle.safe_monitor.specs.Verdicts.{law_text, verdict_text};

use crate::verdicts::{Audited, Law, Verdict};
use std::fmt;

/// A law whose printed name is known.
pub trait NamedLaw: fmt::Display {
    /// The printed name of the law.
    ghost name: { Self → List ℕ };

    ghost prints: { (law : Self) → Self.Display.output law ≡ Some (name law) };
}

impl NamedLaw for Law {
    ghost name = { law_text };

    ghost prints = { λ _. refl };
}

impl fmt::Display for Law {
    ghost output = { λ law. Some (law_text law) };

    fn fmt<W: fmt::Write>(&self, f: &mut fmt::Formatter<W>) -> fmt::Result {
        f.write_str(match self {
            Law::Safe => "safe",
            Law::Program => "program",
            Law::Unit => "unit",
            Law::Together => "together",
            Law::Overtaken => "overtaken",
            Law::History => "history",
        })
    }
}

impl<L: NamedLaw> fmt::Display for Audited<L> {
    ghost output = { λ audited. Some (verdict_text L.name audited.entries audited.verdict) };

    fn fmt<W: fmt::Write>(&self, f: &mut fmt::Formatter<W>) -> fmt::Result {
        match &self.verdict {
            Verdict::Good => write!(f, "good {}", self.entries),
            Verdict::Bad(entry, law) => write!(f, "bad {entry} {law}"),
        }
    }
}
