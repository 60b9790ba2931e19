//! The lines and exit statuses of verdicts.
ghost use Rattle.std.specs.Prelude.{◌≡◌};
ghost use Rattle.files.specs.{GivesText};
ghost use Rattle.judge.specs.Judgements.{status_of_verdict, verdict_line as line_of_verdict};

use any_lock::{Audited, NamedLaw};
use auditor::Verdict;
use files::DONE;
use std::alloc::{AllocError, Global};

/// The exit status if a law is broken.
const BAD: u8 = 3;

/// Returns the exit status of a verdict: 0 for a good one, 3 for a bad one.
pub fn status_of(verdict: &Verdict) -> u8
    ensures { result ≡ status_of_verdict verdict.now }
{
    verdict_status(verdict)
}

/// Returns the exit status of a verdict by any laws.
pub(crate) fn verdict_status<L>(verdict: &Verdict<L>) -> u8
    ensures { result ≡ status_of_verdict verdict.now }
{
    if verdict.is_good() { DONE } else { BAD }
}

/// Returns the line of a verdict, with its end.
///
/// # Errors
///
/// Returns [`AllocError`] if memory runs out.
pub fn verdict_line<L: NamedLaw>(alloc: Global, audited: &Audited<L>) -> Result<String, AllocError>
    ensures { GivesText result (line_of_verdict L.name audited.now.entries audited.now.verdict) }
{
    format!(in alloc; "{audited}\n")
}
