//! The cursors of one bit: the progress of a write, a read or a settling. Each gives its next access and is
//! advanced by it, whatever memory the access is made on.
ghost use Rattle.std.specs.Prelude.{◌≡◌, ◌+◌, ◌*◌, ◌<◌, ◌==◌, ◌≤◌, true, false, None};
ghost use Rattle.reader_copies.specs.Runs.{HasItsValue, Writing, Reading, Settling, next_write, write_after, next_read, read_after, next_settle, settle_after, settled_at, torn_of, progress_of};

use safe_bit::Move;
use std::marker::Model;

/// One access to one copy of a bit.
#[derive(Clone, Copy, PartialEq, Eq)]
pub struct Made {
    /// The reader of the copy, counted from 0.
    pub reader: u8,
    pub how: Move,
}

/// Whether a run has accesses left.
#[derive(Clone, Copy, PartialEq, Eq)]
pub enum Progress {
    Going,
    Done,
}

/// A write of one bit with a copy for each reader (Lamport 1986a): begin and end on each copy in turn,
/// reader 0 first.
///
/// It belongs to the bit's one writer. It needs the number of readers, 1 to 16, only when it advances.
#[derive(Clone, Copy)]
pub struct CopyWrite {
    value: bool,
    /// The number of its accesses that were made.
    made: u8,
    /// Whether it has ended on every copy.
    ended: bool,
}

impl Model for CopyWrite {
    ghost use Rattle.reader_copies.specs.Runs.{Writing};

    ghost Value = { Writing };

    ghost view = { λ w. record { value = w.value; made = w.made; ended = w.ended } };

    ghost inverse = { λ w. record { value = w.value; made = w.made; ended = w.ended } };
}

impl CopyWrite {
    /// Creates a write of `value`, before its first access.
    pub fn new(value: bool) -> Self
        ensures { result ≡ record { value = value; made = 0; ended = false } }
    {
        CopyWrite {
            value,
            made: 0,
            ended: false,
        }
    }

    /// Returns the settling that remains, if the write has begun and has not ended on every copy.
    pub fn torn(&self) -> Option<Torn>
        ensures { result ≡ torn_of self.now }
    {
        if self.made == 0 || self.ended {
            None
        } else {
            Some(Torn::cut_after(self.made))
        }
    }

    /// Returns the next access. If the number made is even, it is the begin on the copy of half that number;
    /// otherwise it is the end on this copy.
    #[inline]
    pub fn next(&self) -> Made
        ensures { result ≡ next_write self.now }
    {
        Made {
            reader: self.made / 2,
            how: if self.made % 2 == 0 {
                Move::BeginWrite(self.value)
            } else {
                Move::EndWrite
            },
        }
    }

    /// Advances by that access, of a bit with copies for `readers` readers. The write is done once it has ended on
    /// every copy.
    #[inline]
    pub fn advance(&mut self, readers: u8) -> Progress
        requires going { self.old.made < 2 * readers }
        requires readers { readers ≤ 16 }
        ensures run { self.new ≡ write_after readers self.old }
        ensures progress { result ≡ progress_of self.new.ended }
    {
        self.made += 1;
        self.ended = self.made == 2 * readers;
        if self.ended {
            Progress::Done
        } else {
            Progress::Going
        }
    }
}

/// A read of one bit by one reader: begin and end on its own copy. It belongs to that reader.
#[derive(Clone, Copy)]
pub struct CopyRead {
    begun: bool,
    value: Option<bool>,
}

impl Model for CopyRead {
    ghost use Rattle.reader_copies.specs.Runs.{Reading};

    ghost Value = { Reading };

    ghost view = { λ r. record { begun = r.begun; value = r.value } };

    ghost inverse = { λ r. record { begun = r.begun; value = r.value } };
}

impl CopyRead {
    /// Creates a read that has not begun.
    pub fn new() -> Self
        ensures { result ≡ record { begun = false; value = None } }
    {
        CopyRead {
            begun: false,
            value: None,
        }
    }

    /// Returns the value that was read, once the read is done.
    pub fn value(&self) -> Option<bool>
        ensures { result ≡ self.now.value }
    {
        self.value
    }

    /// Returns the next access of this reader's read: the begin, and then the end, which gives `value`.
    #[inline]
    pub fn next(&self, reader: u8, value: bool) -> Made
        ensures { result ≡ next_read reader self.now value }
    {
        Made {
            reader,
            how: if self.begun {
                Move::EndRead(value)
            } else {
                Move::BeginRead
            },
        }
    }

    /// Advances by that access. The end stores `value` as the value that was read; the begin ignores `value`.
    #[inline]
    pub fn advance(&mut self, value: bool) -> Progress
        requires { self.old.value ≡ None }
        ensures run { self.new ≡ read_after self.old value }
        ensures progress { result ≡ progress_of self.old.begun }
    {
        if self.begun {
            self.value = Some(value);
            Progress::Done
        } else {
            self.begun = true;
            Progress::Going
        }
    }
}

/// The settling that remains of a write that was cut: it had begun and not ended on every copy.
///
/// Settling takes all copies in turn, reader 0 first, and gives each the same value. A copy whose write is open
/// gets a single `Settle`, any other copy begin and end of a write. It belongs to the memory itself, which
/// settles in place of the writer.
#[derive(Clone, Copy)]
pub struct Torn {
    /// The number of accesses of the write that were made.
    made: u8,
    /// The copy that is settled next, and whether a write of it has been begun for that.
    reader: u8,
    begun: bool,
    /// The value that is settled at, once the first access was made.
    value: Option<bool>,
}

impl Model for Torn {
    ghost use Rattle.reader_copies.specs.Runs.{HasItsValue, Settling};

    ghost Value = { Settling };

    ghost view = { λ t. record { made = t.made; reader = t.reader; begun = t.begun; value = t.value } };

    ghost invariant = { λ t. HasItsValue t.begun t.value };

    ghost inverse = { λ t. record { made = t.made; reader = t.reader; begun = t.begun; value = t.value } };
}

impl Torn {
    /// Creates the settling of a write that was cut after `made` accesses, before its first access.
    pub fn cut_after(made: u8) -> Torn
        ensures { result ≡ record { made = made; reader = 0; begun = false; value = None } }
    {
        Torn {
            made,
            reader: 0,
            begun: false,
            value: None,
        }
    }

    /// Returns the number of accesses of the write that were made.
    pub fn made(&self) -> u8
        ensures { result ≡ self.now.made }
    {
        self.made
    }

    /// Returns the copy that is settled next.
    pub fn reader(&self) -> u8
        ensures { result ≡ self.now.reader }
    {
        self.reader
    }

    /// Returns whether a write of that copy has begun.
    pub fn has_begun(&self) -> bool
        ensures begun { result ≡ self.now.begun }
        ensures value { HasItsValue result self.now.value }
    {
        self.begun
    }

    /// Returns the value that is settled at, once the first access was made.
    pub fn value(&self) -> Option<bool>
        ensures { result ≡ self.now.value }
    {
        self.value
    }

    /// Returns the next access. All copies are settled at the `value` that is handed in first; later values are
    /// ignored.
    #[inline]
    pub fn next(&self, value: bool) -> Made
        requires { self.now.reader < 16 }
        ensures { result ≡ next_settle self.now (settled_at self.now value) }
    {
        let value = self.settles_at(value);
        Made {
            reader: self.reader,
            how: if self.begun {
                Move::EndWrite
            } else if self.made == 2 * self.reader + 1 {
                Move::Settle(value)
            } else {
                Move::BeginWrite(value)
            },
        }
    }

    /// Advances by that access, of a bit with copies for `readers` readers. The settling is done once every copy is
    /// settled.
    #[inline]
    pub fn advance(&mut self, readers: u8, value: bool) -> Progress
        requires going { self.old.reader < readers }
        requires readers { readers ≤ 16 }
        ensures run { self.new ≡ settle_after self.old (settled_at self.old value) }
        ensures progress { result ≡ progress_of (self.new.reader == readers) }
    {
        self.value = Some(self.settles_at(value));
        if self.begun || self.made == 2 * self.reader + 1 {
            self.reader += 1;
            self.begun = false;
        } else {
            self.begun = true;
        }
        if self.reader == readers {
            Progress::Done
        } else {
            Progress::Going
        }
    }

    /// Returns the value that is settled at, if `value` is handed in.
    #[inline]
    fn settles_at(&self, value: bool) -> bool
        ensures { result ≡ settled_at self.now value }
    {
        match self.value {
            Some(first) => first,
            None => value,
        }
    }
}
