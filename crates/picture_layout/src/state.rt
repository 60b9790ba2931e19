//! The state of all processes after the lines so far.
ghost use Rattle.std.specs.Prelude.{◌≡◌, ◌≤◌, drop, insert, length, map, set, IfOk, None, OnOk};
ghost use Rattle.model.specs.{is_in_doorway, is_waiting_stage};
ghost use Rattle.model.specs.declared.marks.Mark.TheVariants as mark_variants;
ghost use Rattle.picture_layout.specs.declared.line_contents.LineContent.TheVariants.{LockMarked, Marked};
ghost use Rattle.picture_layout.specs.Stages.{stage_among, stages_marked, nothing_reported};
ghost use Rattle.picture_layout.specs.States.{at_first, awaited_in, before_in, first_waiting, freed_by, freed_in, group_of, lined_up, queue_of, stages_next, state_marked, state_reported, ticket_in, ticket_set, with_seats_by, with_seats_marked, word_of};

use crate::groups::{BarWord, ProcessGroup, group_before, place_behind, places_said, waiting_word};
use crate::line_contents::{LineContent, RunLine};
use crate::lock_lines::drawn_like;
use crate::marks::{inside_after, leads_on, places_after, stage_after};
use crate::seats::{ProcessDetails, clear_seat, forget};
use model::{Mark, Stage};
use std::alloc::{AllocError, Global};
use trace::LockMark;

/// The state of all processes after the lines so far.
#[derive(Clone, Copy)]
pub struct State {
    /// The number of processes.
    pub processes: u8,
    /// The stage of each process.
    pub stages: [Stage; 16],
    seats: [ProcessDetails; 16],
    /// The process that is inside, if there is one.
    pub inside: Option<u8>,
    /// The number of positions in the history that were given.
    pub places: u64,
}

impl State {
    /// Returns the state before the first line.
    pub fn new(processes: u8) -> State
        ensures stages { result.stages ≡ nothing_reported }
        ensures processes { result.processes ≡ processes }
        ensures whole { result ≡ at_first processes }
    {
        State {
            processes,
            stages: [Stage::Idle; 16],
            seats: [ProcessDetails::new(); 16],
            inside: None,
            places: 0,
        }
    }

    /// Returns the stage of a process.
    pub fn stage(&self, process: u8) -> Stage
        ensures { result ≡ stage_among self.now.stages process }
    {
        match self.stages.get(usize::from(process)) {
            Some(stage) => *stage,
            None => Stage::Idle,
        }
    }

    fn ticket(&self, process: u8) -> u32
        ensures { result ≡ ticket_in self.now process }
    {
        match self.seats.get(usize::from(process)) {
            Some(seat) => seat.ticket,
            None => 0,
        }
    }

    /// Returns the processes with a ticket, in the order in which the lock serves them.
    ///
    /// # Errors
    ///
    /// Returns [`AllocError`] if an allocation fails.
    pub fn queue(&self, alloc: Global) -> Result<Vec<u8>, AllocError>
        ensures { IfOk result (λ queue. queue.items ≡ queue_of self.now) }
    {
        let mut queue = Vec::new(alloc);
        for process in 0..self.processes {
            if self.ticket(process) != 0 {
                let place = self.place_in(queue.as_slice(), process);
                queue.insert(place, process)?;
            }
        }
        Ok(queue)
    }

    /// Returns the number of these processes that are served before one with a higher number.
    fn place_in(&self, queue: &[u8], process: u8) -> usize
        ensures within { result ≤ length queue.now }
        ensures place { insert queue.now result process ≡ lined_up self.now process queue.now }
    {
        for (place, other) in queue.iter().enumerate() {
            if self.ticket(*other) > self.ticket(process) {
                return place;
            }
        }
        queue.len()
    }

    /// Returns the words in the bar of a process.
    ///
    /// # Errors
    ///
    /// Returns [`AllocError`] if an allocation fails.
    pub fn word(&self, alloc: Global, process: u8) -> Result<BarWord, AllocError>
        ensures { IfOk result (λ word. word ≡ word_of self.now process) }
    {
        let stage = self.stage(process);
        Ok(match stage {
            Stage::Idle | Stage::Leaving => BarWord::Nothing,
            Stage::Waiting => {
                let behind = self.before(alloc, process)?;
                waiting_word(behind, self.awaited(process))
            }
            _ => BarWord::Is(stage),
        })
    }

    /// Returns the processes before a process in the line.
    fn before(&self, alloc: Global, process: u8) -> Result<ProcessGroup, AllocError>
        ensures { IfOk result (λ these. these ≡ group_of (before_in process (queue_of self.now))) }
    {
        let queue = self.queue(alloc)?;
        Ok(group_before(queue.as_slice(), process))
    }

    /// Returns the processes whose doorways a process still awaits.
    fn awaited(&self, process: u8) -> ProcessGroup
        ensures { result ≡ group_of (awaited_in self.now process) }
    {
        match self.seats.get(usize::from(process)) {
            Some(seat) => places_said(seat.awaits),
            None => ProcessGroup::nobody(),
        }
    }

    /// Updates the state by a line, and returns the process that its process frees.
    ///
    /// # Errors
    ///
    /// Returns [`AllocError`] if an allocation fails.
    pub fn take(&mut self, alloc: Global, line: &RunLine) -> Result<Option<u8>, AllocError>
        ensures stages { OnOk result
            (self.new.stages ≡ stages_next self.old line.now.line_content) }
        ensures processes { self.new.processes ≡ self.old.processes }
        ensures whole { OnOk result (self.new ≡ state_reported self.old line.now.line_content) }
        ensures frees { IfOk result (λ freed. freed ≡ freed_by self.old line.now.line_content) }
    {
        match &line.line_content {
            LineContent::Marked { process, mark, .. } => self.take_mark(alloc, *process, mark),
            LineContent::LockMarked { process, mark } => {
                self.take_lock_mark(*process, *mark);
                Ok(None)
            }
            _ => Ok(None),
        }
    }

    /// Updates the state by a mark of a process, if there is one, and returns the process that it frees.
    fn take_mark(
        &mut self,
        alloc: Global,
        process: u8,
        mark: &Mark,
    ) -> Result<Option<u8>, AllocError>
        ensures processes { self.new.processes ≡ self.old.processes }
        ensures whole { OnOk result
            (self.new ≡ state_reported self.old (Marked process mark.now None)) }
        ensures frees { IfOk result
            (λ freed. freed ≡ freed_by self.old (Marked process mark.now None)) }
    {
        if process >= self.processes {
            return Ok(None);
        }
        let freed = match mark {
            Mark::Left | Mark::Answered(_) | Mark::Down => self.freed(alloc, process)?,
            _ => None,
        };
        self.mark(process, mark);
        Ok(freed)
    }

    /// Updates the state by a mark of a process in a trace, which has no tickets.
    fn take_lock_mark(&mut self, process: u8, mark: LockMark)
        ensures { self.new ≡ state_reported self.old (LockMarked process mark) }
    {
        if process >= self.processes {
            return;
        }
        self.mark(process, &drawn_like(mark));
        if mark == LockMark::Wait {
            clear_seat(&mut self.seats, process);
        }
    }

    /// Returns the process that is freed when a process clears its ticket: the first after it in the line that waits.
    fn freed(&self, alloc: Global, process: u8) -> Result<Option<u8>, AllocError>
        ensures { IfOk result (λ freed. freed ≡ freed_in self.now process) }
    {
        let queue = self.queue(alloc)?;
        let from = place_behind(queue.as_slice(), process);
        Ok(self.first_waiting_from(queue.as_slice(), from))
    }

    /// Returns the first of these that waits, from this index on.
    fn first_waiting_from(&self, queue: &[u8], from: usize) -> Option<u8>
        ensures { result ≡ first_waiting self.now.stages (drop from queue.now) }
    {
        for place in from..queue.len() {
            if self.waits(queue[place]) {
                return Some(queue[place]);
            }
        }
        None
    }

    /// Returns whether a process waits.
    fn waits(&self, process: u8) -> bool
        ensures { result ≡ is_waiting_stage (stage_among self.now.stages process) }
    {
        self.stage(process).is_waiting()
    }

    /// Updates the state by a mark of a process.
    fn mark(&mut self, process: u8, mark: &Mark)
        ensures stages { self.new.stages ≡ stages_marked self.old.stages process mark.now }
        ensures processes { self.new.processes ≡ self.old.processes }
        ensures whole { self.new ≡ state_marked self.old process mark.now }
    {
        self.set_stage(process, stage_after(self.stage(process), mark));
        self.set_seats(process, mark);
        self.inside = inside_after(self.inside, process, mark);
        self.places = places_after(self.places, mark);
    }

    /// Updates what is awaited, and the ticket: no process awaits one whose stage has changed.
    fn set_seats(&mut self, process: u8, mark: &Mark)
        ensures { self.new ≡ with_seats_marked self.old process mark.now }
    {
        if leads_on(mark) {
            forget(&mut self.seats, process);
            self.hold_ticket(process, mark);
        }
    }

    /// Updates the ticket of a process by its mark.
    fn hold_ticket(&mut self, process: u8, mark: &Mark)
        ensures { self.new ≡ with_seats_by self.old process mark.now }
    {
        match mark {
            Mark::Waiting(ticket) => self.begin_wait(process, *ticket),
            Mark::Left | Mark::Answered(_) | Mark::Down => self.set_ticket(process, 0),
            Mark::Called(_) | Mark::Entered | Mark::Failed | Mark::Withdrew | Mark::Restarted => {}
            Mark::Taken(_, _) | Mark::Settled(_) => {}
        }
    }

    fn set_stage(&mut self, process: u8, stage: Stage)
        ensures { self.new ≡ record self.old { stages = set self.old.stages process stage } }
    {
        let place = usize::from(process);
        if place < self.stages.len() {
            self.stages[place] = stage;
        }
    }

    fn set_ticket(&mut self, process: u8, ticket: u32)
        ensures { self.new ≡ record self.old { seats = ticket_set self.old.seats process ticket } }
    {
        let place = usize::from(process);
        if place < self.seats.len() {
            let awaits = self.seats[place].awaits;
            self.seats[place] = ProcessDetails { ticket, awaits };
        }
    }

    /// Gives a process a ticket, and lets it await those that are in their doorways now.
    fn begin_wait(&mut self, process: u8, ticket: u32)
        ensures { self.new ≡ with_seats_by self.old process (mark_variants.Waiting ticket) }
    {
        let awaits = self.in_doorways();
        let place = usize::from(process);
        if place < self.seats.len() {
            self.seats[place] = ProcessDetails { ticket, awaits };
        }
    }

    /// Returns the processes that are in their doorways.
    fn in_doorways(&self) -> [bool; 16]
        ensures { result ≡ map is_in_doorway self.now.stages }
    {
        let mut are = [false; 16];
        for place in 0..16usize {
            are[place] = self.stages[place].is_in_doorway();
        }
        are
    }
}
