//! The start of the picture of a record.
ghost use Rattle.std.specs.Prelude.{◌≡◌, ◌-◌, ◌^◌, ◌<◌, [], IfOk, Ok, OnOk, Some};
ghost use Rattle.model.specs.plain_store.{checked};
ghost use Rattle.picture.specs.{page_front, page_names};
ghost use Rattle.picture.specs.declared.subjects.Subject.TheVariants as subject;
ghost use Rattle.picture.specs.markup.{lines_in, opens_in};
ghost use Rattle.draw.specs.Sheets.{Heads, IsDrawn, listed};
ghost use Rattle.scenario.specs.files.{FailsAsWriting};

use crate::records::drawing::RecordDrawing;
use crate::views::AccessView;
use crate::writing::write_markup;
use judge::print_setup;
use picture::{Form, Markup, PictureOptions, Reads, Subject, page_head};
use record_accesses::plain_store::Setup;
use scenario::{Fault, Sink};
use std::alloc::{AllocError, Global};

/// The form of the picture of a record, and the accesses and the window that are asked for.
#[derive(Clone, Copy)]
pub(crate) struct PictureForm {
    pub alloc: Global,
    pub form: Form,
    /// All accesses are shown if the record or the window is short. Otherwise this is shown.
    pub asked: PictureOptions,
}

impl PictureForm {
    /// Begins a picture without entries, and writes the start of a page.
    ///
    /// # Errors
    ///
    /// Returns [`Fault::Write`] if a call of the sink fails, and [`Fault::Memory`] if memory is lacking.
    pub fn begin<W: Sink>(
        self,
        setup: &Setup,
        view: AccessView,
        output: &mut W,
    ) -> Result<RecordDrawing, Fault>
        requires good { checked setup.now ≡ Ok tt }
        requires writes { W.failures output.old < 2 ^ 64 - 1 }
        ensures drawn { IfOk result (λ d. IsDrawn view self.form setup.now [] d
            (W.taken output.old) (W.taken output.new)) }
        ensures fails { FailsAsWriting W.failures result output.old output.new }
    {
        let drawing = RecordDrawing::new(self.alloc, setup, self.form, view)?;
        self.write_head(setup, view.reads, output)?;
        Ok(drawing)
    }

    /// Writes the start of a page, if the form is one.
    fn write_head<W: Sink>(self, setup: &Setup, shows: Reads, output: &mut W) -> Result<(), Fault>
        requires { W.failures output.old < 2 ^ 64 - 1 }
        ensures heads { OnOk result
            (Heads shows self.form setup.now (W.taken output.old) (W.taken output.new)) }
        ensures fails { FailsAsWriting W.failures result output.old output.new }
    {
        match self.form {
            Form::Page => {
                let head = self.head(setup, shows)?;
                write_markup(&head, output)
            }
            Form::Picture(_) => Ok(()),
        }
    }

    /// Returns the start of a page.
    fn head(self, setup: &Setup, shows: Reads) -> Result<Markup, AllocError>
        ensures draws { IfOk result
            (λ markup. markup ≡ page_front subject.Record setup.now (listed setup.now) shows) }
        ensures lines { IfOk result (λ markup. lines_in markup ≡ []) }
        ensures elements { IfOk result (λ markup. opens_in markup (Some []) ≡ Some page_names) }
    {
        let printed = listed_lines(self.alloc, setup)?;
        page_head(
            self.alloc,
            Subject::Record,
            setup,
            printed.as_slice(),
            shows,
        )
    }
}

/// Returns the lines that a page lists: the headings and the opening pairs of a record, and one line for all entries of
/// the record.
fn listed_lines(alloc: Global, setup: &Setup) -> Result<Vec<u8>, AllocError>
    ensures { IfOk result (λ lines. lines.items ≡ listed setup.now) }
{
    let mut lines = print_setup(alloc, setup)?;
    lines.extend_from_slice(b"(entries)\n")?;
    Ok(lines)
}
