ghost use Rattle.std.specs.Prelude.{◌≡◌, ◌<◌, IfOk, IfSome, IsOk, Ok, [], false, true};
ghost use Rattle.plain_store.specs.{checked};
ghost use Rattle.model.specs.{IsTornOf, ended_with, value_of};
ghost use Rattle.model.specs.safe_bit.{is_of_write};
ghost use Rattle.process.specs.{called_inside, change_of, marks_on, next_at, process_after, restarted, stepped, torn_of};
ghost use Rattle.bakery.specs.Memory.{answered_by, memory_after, memory_dropped};
ghost use Rattle.bakery.specs.Sections.{goes_on, is_going, marks_reported, progress_on, IsInRange};

use crate::data_row::DataRow;
use crate::section_progress::SectionProgress;
use model::{Access, Move, TornBit};
use plain_store::{Command, Reply, Setup};
use process::Process;
use std::alloc::{AllocError, Global};
use std::marker::Model;

/// A process inside the critical section.
///
/// It reads each process's commit bit and the stamp that it chooses, then the image with the greatest stamp,
/// of the lowest process on a tie. If the command changes the store that was read, it writes the changed store
/// over the version that its process has not committed: first the image, then the stamp after the greatest
/// one, and at last the commit bit.
///
/// It is a process whose call is inside. It needs no memory.
#[derive(Drop)]
pub struct Section {
    place: Process,
}

impl Model for Section {
    ghost use Rattle.process.specs.{ProcessState};

    ghost Value = { ProcessState };

    ghost view = { λ s. s.place };
}

impl Section {
    /// Creates the section of a process. It is not started and needs no memory.
    ///
    /// # Errors
    ///
    /// Returns no error.
    pub fn new(_alloc: Global, process: u8, setup: &Setup) -> Result<Section, AllocError>
        requires good { checked setup.now ≡ Ok tt }
        requires process { process < setup.now.processes }
        ensures section { IfOk result (λ section. section ≡ process_after setup.now [] process) }
        ensures never { IsOk result }
    {
        Ok(Section {
            place: Process::new(process, setup),
        })
    }

    /// Begins with a command of a call of this number, once its process is inside. The number is 0 in
    /// version 1.
    pub fn start(&mut self, command: Command, number: u16)
        ensures section { self.new ≡ called_inside self.old command number }
        ensures going { is_going self.new ≡ true }
    {
        self.place.call_inside(command, number);
    }

    /// Returns the next access of the process's local program, parts E to G. The end of a read has `value`.
    #[inline]
    pub fn next(&self, value: bool) -> Access
        requires going { is_going self.now ≡ true }
        ensures access { result ≡ ended_with value (next_at self.now false) }
        ensures in_range { IsInRange self.now.setup result }
    {
        let access = self.place.next(false);
        match access.how {
            Move::EndRead(_) => Access {
                how: Move::EndRead(value),
                ..access
            },
            _ => access,
        }
    }

    /// Advances the section by that access. The end of a read stores `value`, which has no effect with any other access.
    #[inline]
    pub fn advance(&mut self, value: bool) -> SectionProgress
        requires going { is_going self.old ≡ true }
        ensures section { self.new ≡ stepped self.old false value }
        ensures progress { result ≡ progress_on self.old self.new }
        ensures marks { marks_reported result ≡ marks_on self.old false value }
        ensures going { is_going self.new ≡ goes_on result }
    {
        let changes = self.place.changes_read();
        let _reported = self.place.advance(false, value);
        SectionProgress::at(changes, self.place.answer(), self.place.pending().is_some())
    }

    /// Makes the next access on the registers, and returns it with its result. The end of a read gives `flick` if a
    /// write of the copy was open at some time during the read.
    #[inline]
    pub fn step(&mut self, row: &mut DataRow, flick: bool) -> (Access, SectionProgress)
        requires going { is_going self.old ≡ true }
        requires setup { self.old.setup ≡ row.old.setup }
        ensures access { result.0 ≡ answered_by self.old row.old flick }
        ensures own_writes { is_of_write result.0.how ≡ true → result.0.owner ≡ self.old.process }
        ensures registers { row.new ≡ memory_after row.old result.0 }
        ensures section { self.new ≡ stepped self.old flick (value_of result.0.how) }
        ensures progress { result.1 ≡ progress_on self.old self.new }
        ensures marks { marks_reported result.1 ≡ marks_on self.old flick (value_of result.0.how) }
        ensures going { is_going self.new ≡ goes_on result.1 }
    {
        let changes = self.place.changes_read();
        let access = row.data.memory.step(&mut self.place, flick);
        (
            access,
            SectionProgress::at(changes, self.place.answer(), self.place.pending().is_some()),
        )
    }

    /// Returns, while a change is written, the reply, the greatest stamp that was read, and the new value of the commit
    /// bit.
    pub fn pending(&self) -> Option<(Reply, u32, bool)>
        ensures { result ≡ change_of self.now.setup self.now.process self.now.doing }
    {
        self.place.pending()
    }

    /// Ends the section because the process has failed: its open read is dropped. Returns the bit whose write was cut, if
    /// it exists. The section does nothing until it starts anew.
    pub fn fail(&mut self, row: &mut DataRow) -> Option<TornBit>
        requires setup { self.old.setup ≡ row.old.setup }
        ensures torn { result ≡ torn_of self.old.setup self.old.process self.old.doing }
        ensures known { IfSome result (IsTornOf self.old.setup) }
        ensures registers { row.new ≡ memory_dropped self.old row.old }
        ensures section { self.new ≡ restarted self.old }
    {
        let torn = self.place.torn();
        row.data.memory.drop_read(&self.place);
        self.place.restart();
        torn
    }
}
