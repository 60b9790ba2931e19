//! A page that draws the entries of a window.
ghost use Rattle.std.specs.Prelude.{◌≡◌, ◌++◌, [], ◌∷◌, nat_lt, true, IfOk, IfSome, OnOk};
ghost use Rattle.picture_layout.specs.{text_of};
ghost use Rattle.markup.specs.{EndsAll, lines_in};
ghost use Rattle.picture.specs.Adding.{GivesLines};
ghost use Rattle.picture.specs.Bandings.{Accesses, Reads, Reports};
ghost use Rattle.picture.specs.Pages.{lines_of_band};
ghost use Rattle.picture.specs.Verdicts.{titles_if};
ghost use Rattle.picture.specs.Windows.{GivesRest, GoesOn, TakesIn, held, lines_if, said_before, seen_windowed, shows_end, shows_line, verdict_if, windowed};

use crate::page::{Form, Page};
use crate::subjects::Subject;
use crate::windows::Window;
use markup::Markup;
use picture_layout::{OverlappedRead, RunLine, ShownAccess};
use shown_verdict::ShownVerdict;
use std::alloc::{AllocError, Global};

/// The picture of a run, a record or a trace so far, of which it shows the entries of a window.
#[derive(Drop)]
pub struct WindowedPage {
    window: Window,
    /// Whether an item came that is not before the window.
    begun: bool,
    page: Page,
}

impl WindowedPage {
    /// Creates a page without lines, where `opening` is the opening store, or empty.
    ///
    /// # Errors
    ///
    /// Returns [`AllocError`] if memory is lacking.
    pub fn new(
        alloc: Global,
        form: Form,
        subject: Subject,
        processes: u8,
        opening: &[u8],
        window: Window,
    ) -> Result<WindowedPage, AllocError>
        ensures page { IfOk result (λ page. seen_windowed page ≡ windowed (record {
          form = form;
          subject = subject;
          processes = processes;
          opening = opening.now;
          window = window;
        }) []) }
        ensures lines { IfOk result (λ page. held page ≡ []) }
        ensures window { IfOk result (λ page. page.window ≡ window) }
    {
        let page = Page::new(alloc, form, subject, processes, opening, window.from)?;
        Ok(WindowedPage {
            window,
            begun: false,
            page,
        })
    }

    /// Returns the sum of the heights of all bands so far, with 16 more for each. That of the last band has the room of the
    /// verdict.
    pub fn height(&self) -> u64
        ensures { result ≡ self.now.page.height }
    {
        self.page.height()
    }

    /// Adds the next line, and returns the band before it, if that is full. A line before the window changes the state at
    /// the left edge; one after it is not shown. The lines of the band, and then those that are held back, are the lines
    /// that were held back before, and this one, if it is shown. In the band each element that begins ends.
    ///
    /// # Errors
    ///
    /// Returns [`AllocError`] if memory is lacking.
    pub fn take(&mut self, line: RunLine) -> Result<Option<Markup>, AllocError>
        ensures page { IfOk result
            (λ full. GoesOn (Reports line) (seen_windowed self.old) full (seen_windowed self.new)) }
        ensures lines { GivesLines result (held self.new)
            (held self.old ++ lines_if (shows_line self.old.window line) (text_of line ∷ [])) }
        ensures ended { IfOk result (λ full. IfSome full EndsAll) }
        ensures window { self.new.window ≡ self.old.window }
    {
        if self.window.is_after(&line) {
            self.pass(&line)?;
            return Ok(None);
        }
        self.begun = true;
        if !self.window.shows_line(&line) {
            return Ok(None);
        }
        self.page.take(line)
    }

    /// Passes a line before the window, unless the window has begun.
    fn pass(&mut self, line: &RunLine) -> Result<(), AllocError>
        requires { said_before self.old.window line.now.at line.now.line_content ≡ true }
        ensures page { OnOk result
            (TakesIn (Reports line.now) (seen_windowed self.old) (seen_windowed self.new)) }
        ensures lines { OnOk result (held self.new ≡ held self.old) }
        ensures window { self.new.window ≡ self.old.window }
    {
        if self.begun {
            return Ok(());
        }
        self.page.pass(line)
    }

    /// Adds a read that a write overlapped, if its end is in the window, and returns the band before it, if that is full. A
    /// read is not a line.
    ///
    /// # Errors
    ///
    /// Returns [`AllocError`] if memory is lacking.
    pub fn take_read(&mut self, read: OverlappedRead) -> Result<Option<Markup>, AllocError>
        ensures page { IfOk result
            (λ full. GoesOn (Reads read) (seen_windowed self.old) full (seen_windowed self.new)) }
        ensures lines { GivesLines result (held self.new) (held self.old) }
        ensures ended { IfOk result (λ full. IfSome full EndsAll) }
        ensures window { self.new.window ≡ self.old.window }
    {
        if self.window.is_after_entry(read.end) {
            return Ok(None);
        }
        self.begun = true;
        if !self.window.shows_entry(read.end) {
            return Ok(None);
        }
        self.page.take_read(read)
    }

    /// Takes in the part of an access that an entry makes, and returns the band that is full with what came before it, if
    /// one is. An access before the window changes the accesses at the left edge; one after it is not shown. No line is
    /// added. A mark of the entry is added after the access, and joins its column.
    ///
    /// # Errors
    ///
    /// Returns [`AllocError`] if memory is lacking.
    pub fn take_access(&mut self, access: ShownAccess) -> Result<Option<Markup>, AllocError>
        ensures page { IfOk result
            (λ full. GoesOn (Accesses access) (seen_windowed self.old) full
            (seen_windowed self.new)) }
        ensures lines { GivesLines result (held self.new) (held self.old) }
        ensures ended { IfOk result (λ full. IfSome full EndsAll) }
        ensures window { self.new.window ≡ self.old.window }
    {
        if self.window.is_after_entry(access.event) {
            self.pass_access(access)?;
            return Ok(None);
        }
        self.begun = true;
        if !self.window.shows_entry(access.event) {
            return Ok(None);
        }
        self.page.take_access(access)
    }

    /// Passes an access before the window, unless the window has begun.
    fn pass_access(&mut self, access: ShownAccess) -> Result<(), AllocError>
        requires { nat_lt access.event self.old.window.from ≡ true }
        ensures page { OnOk result
            (TakesIn (Accesses access) (seen_windowed self.old) (seen_windowed self.new)) }
        ensures lines { OnOk result (held self.new ≡ held self.old) }
        ensures window { self.new.window ≡ self.old.window }
    {
        if self.begun {
            return Ok(());
        }
        self.page.pass_access(access)
    }

    /// Ends the page after `at` entries, and returns the last bands, which have the lines that were held back, and then those
    /// of the verdict, if there is one and the end is shown.
    ///
    /// # Errors
    ///
    /// Returns [`AllocError`] if memory is lacking.
    pub fn end(
        &mut self,
        verdict: Option<ShownVerdict>,
        at: u64,
    ) -> Result<(Option<Markup>, Markup), AllocError>
        ensures page { IfOk result (λ bands. GivesRest at verdict
            (seen_windowed self.old) bands.0 bands.1 (seen_windowed self.new)) }
        ensures lines { IfOk result (λ bands. lines_of_band bands.0 ++ lines_in bands.1
            ≡ held self.old ++ lines_if (shows_end self.old.window at) (titles_if verdict)) }
        ensures full { IfOk result (λ bands. IfSome bands.0 EndsAll) }
        ensures last { IfOk result (λ bands. EndsAll bands.1) }
    {
        let shown = self.shown_verdict(verdict, at);
        self.page.end(shown)
    }

    /// Returns the verdict, if a picture that ends after `at` entries shows its end.
    fn shown_verdict(&self, verdict: Option<ShownVerdict>, at: u64) -> Option<ShownVerdict>
        ensures { result ≡ verdict_if (shows_end self.now.window at) verdict }
    {
        if self.window.shows_end(at) {
            return verdict;
        }
        None
    }
}
