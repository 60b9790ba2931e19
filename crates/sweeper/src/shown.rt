//! The printed form of the result of a sweep.
ghost use Rattle.sweeper.specs.Shown.{bad_text, swept_text};

use crate::swept::{BadRun, Swept};
use std::fmt;

impl fmt::Display for BadRun {
    ghost use Rattle.std.specs.Prelude.{Some};

    ghost output = { λ bad. Some (bad_text bad) };

    fn fmt<W: fmt::Write>(&self, f: &mut fmt::Formatter<W>) -> fmt::Result {
        let value = u8::from(self.value);
        write!(
            f,
            "bad cut {} value {value} entry {} {}",
            self.cut, self.entry, self.law
        )
    }
}

impl fmt::Display for Swept {
    ghost use Rattle.std.specs.Prelude.{Some};

    ghost output = { λ found. Some (swept_text found) };

    fn fmt<W: fmt::Write>(&self, f: &mut fmt::Formatter<W>) -> fmt::Result {
        write!(
            f,
            "sweep runs {} good {} stuck {}",
            self.runs, self.good, self.stuck
        )?;
        match self.first_bad {
            None => Ok(()),
            Some(bad) => write!(f, "\n{bad}"),
        }
    }
}
