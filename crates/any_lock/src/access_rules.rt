//! The refusals of an access, by the state of its process.
ghost use Rattle.std.specs.Prelude.{◌≡◌, Ok};
ghost use Rattle.plain_store.specs.{checked};
ghost use Rattle.any_lock.specs.Refusals.{access_refusal, first_that, is_end_of, is_of_bit, is_there as bit_is_there, maker_refusals, may_move, move_refusals};

use crate::process_views::{BegunAccess, ProcessView};
use crate::refusals::AccessRefusal;
use model::{Access, Move, Stage, width_of};
use plain_store::Setup;

impl ProcessView {
    /// Returns why an access of its process, with this number, is refused, if it is.
    #[inline]
    pub(crate) fn refuses_access(
        &self,
        setup: &Setup,
        process: u8,
        access: &Access,
    ) -> Option<AccessRefusal>
        requires { checked setup.now ≡ Ok tt }
        ensures { result ≡ access_refusal setup.now process self.now access.now }
    {
        match refuses_maker(setup, process, access) {
            Some(refusal) => Some(refusal),
            None => self.refuses_move(access),
        }
    }

    /// Returns why an access of its process is refused by the state of the process, if it is.
    #[inline]
    fn refuses_move(&self, access: &Access) -> Option<AccessRefusal>
        ensures { result ≡ first_that (move_refusals self.now access.now) }
    {
        let how = access.how;
        if how.settles() && !self.stage.is_settling() {
            Some(AccessRefusal::NotSettling)
        } else if !may_move(self.stage, how) {
            Some(AccessRefusal::NotRunning)
        } else if how.is_end() && !is_end_of(&self.opened, access) {
            Some(AccessRefusal::NotOpen)
        } else if !how.is_end() && self.opened.is_some() {
            Some(AccessRefusal::AccessOpen)
        } else if how.settles() && !is_of_bit(&self.torn, access) {
            Some(AccessRefusal::NotTorn)
        } else if how.is_begin_of_write() && is_of_bit(&self.torn, access) {
            Some(AccessRefusal::Torn)
        } else {
            None
        }
    }
}

/// Returns why an access is refused because this process makes it, if it is.
#[inline]
fn refuses_maker(setup: &Setup, process: u8, access: &Access) -> Option<AccessRefusal>
    requires { checked setup.now ≡ Ok tt }
    ensures { result ≡ first_that (maker_refusals setup.now process access.now) }
{
    if process >= setup.processes {
        Some(AccessRefusal::NoProcess)
    } else if !is_there(setup, access) {
        Some(AccessRefusal::NoBit)
    } else if access.how.is_of_read() {
        (access.reader != process).then_some(AccessRefusal::NotReader)
    } else {
        (access.owner != process).then_some(AccessRefusal::NotOwner)
    }
}

/// Returns whether a process at a stage may make a move that does not settle a bit.
#[inline]
fn may_move(stage: Stage, how: Move) -> bool
    ensures { result ≡ may_move stage how }
{
    how.settles() || stage.is_running() || (stage.is_settling() && !how.is_of_read())
}

/// Returns whether the bit of an access exists.
#[inline]
fn is_there(setup: &Setup, access: &Access) -> bool
    requires { checked setup.now ≡ Ok tt }
    ensures { result ≡ bit_is_there setup.now access.now }
{
    access.owner < setup.processes
        && access.reader < setup.processes
        && access.bit < width_of(access.field, setup)
}

/// Returns whether an access is of the same bit as another.
#[inline]
fn is_of_bit(begun: &Option<BegunAccess>, access: &Access) -> bool
    ensures { result ≡ is_of_bit begun.now access.now }
{
    match begun {
        None => false,
        Some(begun) => begun.access.same_bit(access),
    }
}

/// Returns whether an access ends the one that began here.
#[inline]
fn is_end_of(begun: &Option<BegunAccess>, access: &Access) -> bool
    ensures { result ≡ is_end_of begun.now access.now }
{
    match begun {
        None => false,
        Some(begun) => {
            begun.access.same_bit(access)
                && access.how.is_of_read() == begun.access.how.is_of_read()
        }
    }
}
