//! A page that draws bands from the lines of a run, a record or a trace.
ghost use Rattle.std.specs.Prelude.{◌≡◌, ◌++◌, [], ◌∷◌, IfOk, IfSome, None, OnOk};
ghost use Rattle.picture.specs.Adding.{GivesLines, all_reported};
ghost use Rattle.markup.specs.{EndsAll, lines_in};
ghost use Rattle.picture.specs.Bandings.{Accesses, Reads, Reports};
ghost use Rattle.picture_layout.specs.{at_first, no_accesses, nothing_reported, seen, stages_reported, text_of, reported_in};
ghost use Rattle.picture.specs.Pages.{BeginsColumn, DrawsBand, GivesLast, MakesRoom, Passes, Places, Puts, SetsOpening, TakesItem, held_back, lines_of_band, page_of, seen_page, stages_kept};
ghost use Rattle.picture.specs.Verdicts.{titles_if};

mod band_markup;

use crate::bands::{Band, behind};
use crate::openings::{characters, opening_words};
use crate::subjects::Subject;
use markup::Markup;
use picture_layout::{
    AccessState, Column, Layout, OverlappedRead, RunLine, ShownAccess, State, WordEnds, stretch,
};
use shown_verdict::ShownVerdict;
use std::alloc::{AllocError, Global};

/// Where bands are drawn.
#[derive(Clone, Copy)]
pub enum Form {
    /// In a page: each band is a picture of its own.
    Page,
    /// In one picture: each band is a group of it, from this height on.
    Picture(u64),
}

/// The picture of a run, a record or a trace so far: the columns of the current band, and the state before it.
#[derive(Drop)]
pub struct Page {
    alloc: Global,
    form: Form,
    subject: Subject,
    opens: Vec<u8>,
    state: State,
    before: State,
    before_at: u64,
    accesses: AccessState,
    placing: WordEnds,
    columns: Vec<Column>,
    pending: Option<Column>,
    last_at: u64,
    bands: u64,
    height: u64,
}

impl Page {
    /// Creates a page without lines, where `opening` is the store at its left edge, or empty, and `at` the number of
    /// entries before that edge.
    ///
    /// # Errors
    ///
    /// Returns [`AllocError`] if memory is lacking.
    pub fn new(
        alloc: Global,
        form: Form,
        subject: Subject,
        processes: u8,
        opening: &[u8],
        at: u64,
    ) -> Result<Page, AllocError>
        ensures page { IfOk result (λ page. seen_page page ≡ page_of (record {
          form = form;
          subject = subject;
          opening = opening.now;
          state = at_first processes;
          at = at;
          accesses = no_accesses;
        }) []) }
        ensures lines { IfOk result (λ page. held_back page ≡ []) }
        ensures stages { IfOk result (λ page. stages_kept page ≡ nothing_reported) }
        ensures processes { IfOk result (λ page. page.state.processes ≡ processes) }
    {
        let opens = opening_words(alloc, opening)?;
        let state = State::new(processes);
        Ok(Page {
            alloc,
            form,
            subject,
            state,
            before: state,
            before_at: at.saturating_sub(1),
            accesses: AccessState::new(alloc),
            placing: WordEnds::new(characters(opening)),
            opens,
            columns: Vec::new(alloc),
            pending: None,
            last_at: at,
            bands: 0,
            height: 0,
        })
    }

    /// Updates the state and the store at the left edge by a line before it. The page has no items yet.
    ///
    /// # Errors
    ///
    /// Returns [`AllocError`] if memory is lacking.
    pub fn pass(&mut self, line: &RunLine) -> Result<(), AllocError>
        ensures page { OnOk result
            (Passes (Reports line.now) (seen_page self.old) (seen_page self.new)) }
        ensures lines { OnOk result (held_back self.new ≡ held_back self.old) }
        ensures stages { OnOk result
            (stages_kept self.new
            ≡ stages_reported self.old.state.processes (stages_kept self.old)
            line.now.line_content) }
        ensures processes { self.new.state.processes ≡ self.old.state.processes }
    {
        self.state.take(self.alloc, line)?;
        self.before = self.state;
        match line.change() {
            None => Ok(()),
            Some(change) => self.set_opening(change.store.as_slice()),
        }
    }

    /// Updates the accesses and the waves at the left edge by an access before it. The page has no items yet.
    ///
    /// # Errors
    ///
    /// Returns [`AllocError`] if memory is lacking.
    pub fn pass_access(&mut self, access: ShownAccess) -> Result<(), AllocError>
        ensures page { OnOk result
            (Passes (Accesses access) (seen_page self.old) (seen_page self.new)) }
        ensures lines { OnOk result (held_back self.new ≡ held_back self.old) }
        ensures state { self.new.state ≡ self.old.state }
    {
        let columns = [Column::of_access(self.alloc, access, 0, self.state)];
        self.accesses.begin(self.alloc, &columns)?;
        self.accesses.pass(self.alloc, &columns)
    }

    /// Sets the words of the store at the left edge. The page has no items yet.
    fn set_opening(&mut self, words: &[u8]) -> Result<(), AllocError>
        ensures page { OnOk result
            (SetsOpening words.now (seen_page self.old) (seen_page self.new)) }
        ensures lines { OnOk result (held_back self.new ≡ held_back self.old) }
        ensures state { self.new.state ≡ self.old.state }
    {
        self.opens = opening_words(self.alloc, words)?;
        self.placing = WordEnds::new(characters(words));
        Ok(())
    }

    /// Returns the sum of the heights of all bands so far, with 16 more for each. That of the last band has the room of the
    /// verdict.
    pub fn height(&self) -> u64
        ensures { result ≡ self.now.height }
    {
        self.height
    }

    /// Adds the next line, and returns the band before it, if that is full. The lines of that band, and then those that are
    /// held back, are the lines that were held back before, and this one. In the band each element that begins ends. The line
    /// changes the stages.
    pub fn take(&mut self, line: RunLine) -> Result<Option<Markup>, AllocError>
        ensures page { IfOk result
            (λ full. TakesItem (Reports line) (seen_page self.old) full (seen_page self.new)) }
        ensures lines { GivesLines result (held_back self.new)
            (held_back self.old ++ text_of line ∷ []) }
        ensures ended { IfOk result (λ full. IfSome full EndsAll) }
        ensures stages { OnOk result
            (stages_kept self.new
            ≡ stages_reported self.old.state.processes (stages_kept self.old) line.line_content) }
        ensures processes { self.new.state.processes ≡ self.old.state.processes }
    {
        let frees = self.state.take(self.alloc, &line)?;
        if let Some(column) = &mut self.pending {
            if column.has_room_for(&line) {
                column.join(self.alloc, line, frees, self.state)?;
                return Ok(None);
            }
        }
        self.begin_column(line, frees)
    }

    /// Places the pending column, and begins another with a line. Returns the band that is full, if one is.
    fn begin_column(
        &mut self,
        line: RunLine,
        frees: Option<u8>,
    ) -> Result<Option<Markup>, AllocError>
        ensures page { IfOk result
            (λ full. BeginsColumn line frees (seen_page self.old) full (seen_page self.new)) }
        ensures lines { GivesLines result (held_back self.new)
            (held_back self.old ++ text_of line ∷ []) }
        ensures ended { IfOk result (λ full. IfSome full EndsAll) }
        ensures state { self.new.state ≡ self.old.state }
    {
        let full = self.place_pending()?;
        let gap = line.at.saturating_sub(self.last_at);
        self.last_at = line.at;
        self.pending = Some(Column::new(self.alloc, line, gap, frees, self.state)?);
        Ok(full)
    }

    /// Adds a read that a write overlapped, and returns the band before it, if that is full. A read is not a
    /// line.
    pub fn take_read(&mut self, read: OverlappedRead) -> Result<Option<Markup>, AllocError>
        ensures page { IfOk result
            (λ full. TakesItem (Reads read) (seen_page self.old) full (seen_page self.new)) }
        ensures lines { GivesLines result (held_back self.new) (held_back self.old) }
        ensures ended { IfOk result (λ full. IfSome full EndsAll) }
        ensures stages { OnOk result (stages_kept self.new ≡ stages_kept self.old) }
        ensures processes { self.new.state.processes ≡ self.old.state.processes }
    {
        let full = self.place_pending()?;
        let gap = read.end.saturating_sub(self.last_at);
        self.last_at = read.end;
        self.pending = Some(Column::of_read(self.alloc, read, gap, self.state)?);
        Ok(full)
    }

    /// Takes in the part of an access that an entry makes. Returns the band that is full with what came before it, if
    /// one is. No line is added. A mark of the entry is added after the access, and joins its column.
    ///
    /// # Errors
    ///
    /// Returns [`AllocError`] if memory is lacking.
    pub fn take_access(&mut self, access: ShownAccess) -> Result<Option<Markup>, AllocError>
        ensures page { IfOk result
            (λ full. TakesItem (Accesses access) (seen_page self.old) full (seen_page self.new)) }
        ensures lines { GivesLines result (held_back self.new) (held_back self.old) }
        ensures ended { IfOk result (λ full. IfSome full EndsAll) }
        ensures stages { OnOk result (stages_kept self.new ≡ stages_kept self.old) }
        ensures processes { self.new.state.processes ≡ self.old.state.processes }
    {
        let full = self.place_pending()?;
        let gap = access.event.saturating_sub(self.last_at);
        self.last_at = access.event;
        self.pending = Some(Column::of_access(self.alloc, access, gap, self.state));
        Ok(full)
    }

    /// Ends the page, and returns the last bands, which have the lines that were held back, and then those of the verdict, if
    /// there is one. The last band outlines the stages and accesses that its lines name, and its box is below that band.
    ///
    /// # Errors
    ///
    /// Returns [`AllocError`] if memory is lacking.
    pub fn end(
        &mut self,
        verdict: Option<ShownVerdict>,
    ) -> Result<(Option<Markup>, Markup), AllocError>
        ensures page { IfOk result
            (λ bands. GivesLast verdict (seen_page self.old) bands.0 bands.1 (seen_page self.new)) }
        ensures lines { IfOk result
            (λ bands. lines_of_band bands.0 ++ lines_in bands.1
            ≡ held_back self.old ++ titles_if verdict) }
        ensures full { IfOk result (λ bands. IfSome bands.0 EndsAll) }
        ensures last { IfOk result (λ bands. EndsAll bands.1) }
    {
        let full = self.place_pending()?;
        let last = self.draw_band(true, verdict)?;
        Ok((full, last))
    }

    /// Places the pending column, and returns the band before it, if that is full.
    fn place_pending(&mut self) -> Result<Option<Markup>, AllocError>
        ensures page { IfOk result (λ full. Places (seen_page self.old) full (seen_page self.new)) }
        ensures placed { OnOk result (self.new.pending ≡ None) }
        ensures state { self.new.state ≡ self.old.state }
        ensures lines { GivesLines result (all_reported self.new.columns.items)
            (held_back self.old) }
        ensures ended { IfOk result (λ full. IfSome full EndsAll) }
    {
        let Some(column) = self.pending.take() else {
            return Ok(None);
        };
        let full = self.make_room(&column)?;
        self.put(column)?;
        Ok(full)
    }

    /// Draws the band and begins another, if a column has no room in it.
    fn make_room(&mut self, column: &Column) -> Result<Option<Markup>, AllocError>
        ensures page { IfOk result
            (λ full. MakesRoom (seen column.now) (seen_page self.old) full (seen_page self.new)) }
        ensures pending { OnOk result (self.new.pending ≡ self.old.pending) }
        ensures state { self.new.state ≡ self.old.state }
        ensures lines { GivesLines result (all_reported self.new.columns.items)
            (all_reported self.old.columns.items) }
        ensures ended { IfOk result (λ full. IfSome full EndsAll) }
    {
        let place = self.placing.place(self.alloc, column)?;
        if self.placing.has_room(place) {
            return Ok(None);
        }
        Ok(Some(self.draw_band(false, None)?))
    }

    /// Puts a column after the others of the band.
    fn put(&mut self, column: Column) -> Result<(), AllocError>
        ensures page { OnOk result (Puts (seen column) (seen_page self.old) (seen_page self.new)) }
        ensures pending { OnOk result (self.new.pending ≡ self.old.pending) }
        ensures state { self.new.state ≡ self.old.state }
        ensures lines { OnOk result
            (all_reported self.new.columns.items
            ≡ all_reported self.old.columns.items ++ reported_in column) }
    {
        let mut column = column;
        let place = self.placing.place(self.alloc, &column)?;
        self.placing.put(self.alloc, &mut column, place)?;
        Ok(self.columns.push(column)?)
    }

    /// Draws the columns of the band, with a verdict, if there is one, and begins another band.
    fn draw_band(
        &mut self,
        is_last: bool,
        verdict: Option<ShownVerdict>,
    ) -> Result<Markup, AllocError>
        ensures page { IfOk result
            (λ band. DrawsBand is_last verdict (seen_page self.old) band (seen_page self.new)) }
        ensures pending { OnOk result (self.new.pending ≡ self.old.pending) }
        ensures state { self.new.state ≡ self.old.state }
        ensures begun { OnOk result (self.new.columns.items ≡ []) }
        ensures lines { IfOk result
            (λ band. lines_in band ≡ all_reported self.old.columns.items ++ titles_if verdict) }
        ensures ended { IfOk result EndsAll }
    {
        let mut columns = std::mem::replace(&mut self.columns, Vec::new(self.alloc));
        let before = self.before;
        let before_at = self.before_at;
        let (behind, behind_at) = behind(columns.as_slice(), before, before_at);
        self.before = behind;
        self.before_at = behind_at;
        self.placing = WordEnds::new(0);
        stretch(self.alloc, columns.as_mut_slice())?;
        self.accesses.begin(self.alloc, columns.as_slice())?;
        let processes = self.state.processes;
        let layout = Layout::new(processes, &self.accesses, columns.as_slice(), is_last);
        let band = Band {
            columns,
            before,
            before_at,
            layout,
            is_last,
            opens: std::mem::replace(&mut self.opens, Vec::new(self.alloc)),
            subject: self.subject,
            verdict,
        };
        self.bands = self.bands.saturating_add(1);
        let markup = self.markup_of(&band)?;
        self.accesses.pass(self.alloc, band.columns.as_slice())?;
        self.height = self.height.saturating_add(u64::from(band.height()) + 16);
        Ok(markup)
    }
}
