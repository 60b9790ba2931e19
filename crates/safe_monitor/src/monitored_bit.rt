//! The state of one bit after its moves, updated move by move.
ghost use Rattle.std.specs.Prelude.{◌≡◌, [], Bool, true};
ghost use Rattle.model.specs.safe_bit.declared.Move.TheVariants.{EndWrite, Settle};
ghost use Rattle.model.specs.safe_bit.{is_overlapped};
ghost use Rattle.model.specs.{begins_read};
ghost use Rattle.safe_monitor.specs.MonitoredBits.{EndsOn, LeftBy, MonitoredAfterMoves, IsMonitoredAfter, ReadsOn, ReportsOverlap, monitored_after};
ghost use Rattle.safe_monitor.specs.Safe.{MayGive, Reports};
ghost use Rattle.safe_monitor.specs.Monitoring.{MonitoredReportsSafe};

use model::Move;

/// The values with which the read that began last may end.
#[derive(Clone, Copy)]
pub(crate) enum ReadEnd {
    /// Anything, and no write is open: a write overlapped the read, or no read has begun.
    Free,
    /// Anything: a write is open.
    Writing,
    /// This value alone: no write was open since the read began.
    Bound(bool),
}

impl ReadEnd {
    /// Returns the end of the read after the open write has ended.
    #[inline]
    fn closed(self) -> ReadEnd
        ensures ended { EndsOn self EndWrite result }
        ensures settled { (value : Bool) → EndsOn self (Settle value) result }
    {
        match self {
            ReadEnd::Writing => ReadEnd::Free,
            other => other,
        }
    }

    /// Returns the end of one more read, before which `written` was last written or settled.
    #[inline]
    fn reading(self, written: bool) -> ReadEnd
        ensures { ReadsOn self written result }
    {
        match self {
            ReadEnd::Writing => ReadEnd::Writing,
            _ => ReadEnd::Bound(written),
        }
    }

    /// Returns whether a read may end with this value, if one has begun.
    #[inline]
    fn allows(self, value: bool) -> bool
        ensures { LeftBy self (λ opening moves. Reports result (MayGive opening moves value)) }
    {
        match self {
            ReadEnd::Bound(only) => value == only,
            _ => true,
        }
    }

    /// Returns whether a write overlapped the read that began last, if one has begun.
    #[inline]
    fn is_overlapped(self) -> bool
        ensures { LeftBy self (λ _ moves. begins_read moves ≡ true → result ≡ is_overlapped moves) }
    {
        match self {
            ReadEnd::Bound(_) => false,
            _ => true,
        }
    }
}

/// The state of one bit after its moves, as far as the safe rule needs it.
#[derive(Clone, Copy)]
pub(crate) struct MonitoredBit {
    /// The value that the write that began last writes.
    pub begun: bool,
    /// The value that was last written or settled.
    pub written: bool,
    /// The values with which the read that began last may end.
    pub ending: ReadEnd,
}

impl MonitoredBit {
    /// Returns the look of a bit that is initially `value`, before the first move.
    pub fn opening(value: bool) -> MonitoredBit
        ensures { result ≡ monitored_after value [] }
    {
        MonitoredBit {
            begun: value,
            written: value,
            ending: ReadEnd::Free,
        }
    }

    /// Returns the look after one more move.
    #[inline]
    pub fn with(self, how: Move) -> MonitoredBit
        ensures { IsMonitoredAfter self how result }
    {
        match how {
            Move::BeginWrite(value) => MonitoredBit {
                begun: value,
                ending: ReadEnd::Writing,
                ..self
            },
            Move::EndWrite => MonitoredBit {
                written: self.begun,
                ending: self.ending.closed(),
                ..self
            },
            Move::Settle(value) => MonitoredBit {
                written: value,
                ending: self.ending.closed(),
                ..self
            },
            Move::BeginRead => MonitoredBit {
                ending: self.ending.reading(self.written),
                ..self
            },
            Move::EndRead(_) => self,
        }
    }

    /// Returns whether the next move keeps the safe rule.
    #[inline]
    pub fn allows(self, how: Move) -> bool
        ensures { MonitoredReportsSafe self how result }
    {
        match how {
            Move::EndRead(value) => self.ending.allows(value),
            _ => true,
        }
    }

    /// Returns whether the next move ends a read that a write overlapped, if one has begun.
    #[inline]
    pub fn overlaps(self, how: Move) -> bool
        ensures { MonitoredAfterMoves self (λ _ moves. ReportsOverlap result moves how) }
    {
        match how {
            Move::EndRead(_) => self.ending.is_overlapped(),
            _ => false,
        }
    }
}
