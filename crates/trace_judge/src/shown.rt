//! How laws and verdicts are printed.
ghost use Rattle.trace_judge.specs.Shown.{trace_law_text, trace_verdict_text};

use crate::verdicts::{TraceJudged, TraceLaw, TraceVerdict};
use std::fmt;

impl fmt::Display for TraceLaw {
    ghost use Rattle.std.specs.Prelude.{Some};

    ghost output = { λ law. Some (trace_law_text law) };

    fn fmt<W: fmt::Write>(&self, f: &mut fmt::Formatter<W>) -> fmt::Result {
        f.write_str(match self {
            TraceLaw::Access => "access",
            TraceLaw::Memory => "memory",
            TraceLaw::Marks => "marks",
            TraceLaw::Together => "together",
            TraceLaw::Overtaken => "overtaken",
        })
    }
}

impl fmt::Display for TraceJudged {
    ghost use Rattle.std.specs.Prelude.{Some};

    ghost output = { λ judged. Some (trace_verdict_text judged.entries judged.verdict) };

    fn fmt<W: fmt::Write>(&self, f: &mut fmt::Formatter<W>) -> fmt::Result {
        match self.verdict {
            TraceVerdict::Good => write!(f, "good {}", self.entries),
            TraceVerdict::Bad(entry, law) => write!(f, "bad {entry} {law}"),
        }
    }
}
