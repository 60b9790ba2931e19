//! The events of a process since the last word step of its port.
ghost use Rattle.std.specs.Prelude.{◌≡◌};
ghost use Rattle.board.specs.Pending.{nothing};

use plain_store::Command;

/// The events that join the next word step of a port: a restart, then a call or a withdrawal, and then a failure.
#[derive(Clone, Copy)]
pub(crate) struct Pending {
    pub(crate) restarted: bool,
    pub(crate) called: Option<Command>,
    pub(crate) withdrew: bool,
    pub(crate) failed: bool,
}

impl Pending {
    /// Creates the value for no events.
    pub(crate) fn new() -> Pending
        ensures { result ≡ nothing }
    {
        Pending {
            restarted: false,
            called: None,
            withdrew: false,
            failed: false,
        }
    }
    /// Forgets the events. Before most word steps there are none, and then nothing is written.
    #[inline]
    pub(crate) fn clear(&mut self)
        ensures { self.new ≡ nothing }
    {
        if self.restarted || self.withdrew || self.failed || self.called.is_some() {
            *self = Pending::new();
        }
    }
}
