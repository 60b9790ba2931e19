//! The work of a process.
ghost use Rattle.std.specs.Prelude.{◌≡◌};
ghost use Rattle.process.specs.Working.{value_for_next};

use plain_store::Reply;

/// The work of a process.
#[derive(Clone, Copy)]
pub(crate) enum Activity {
    /// The process has no call.
    Rests,
    /// The process is down.
    Lies,
    /// The process runs its call.
    Runs,
    /// The process clears its ticket after it gave up waiting.
    Withdraws,
    /// The unit settles the torn bit. A commit bit that is settled at the bit of `taken` takes the command, with that
    /// reply.
    Settles {
        inside: bool,
        taken: Option<(bool, Reply)>,
    },
    /// The unit clears the ticket.
    Frees {
        inside: bool,
    },
    /// The unit clears the choosing bit.
    Lowers,
}

impl Activity {
    /// Returns the value of the next access: the flick for a unit that settles, otherwise the value that a read returned.
    #[inline]
    pub(crate) fn value_for_next(&self, flick: bool, value: bool) -> bool
        ensures { result ≡ value_for_next self.now flick value }
    {
        if matches!(self, Activity::Settles { .. }) {
            flick
        } else {
            value
        }
    }
}
