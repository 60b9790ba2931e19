//! The subject of a picture: a run, a record or a trace.
ghost use Rattle.std.specs.Prelude.{◌≡◌, ◌++◌, OnOk};
ghost use Rattle.markup.specs.{opens_in, reading, with_tags};
ghost use Rattle.picture.specs.Subjects.{format_word, has_history, legend_of, list_begun, script_of, shown_by, subject_word, time_unit};

use crate::constants::{SCRIPT, TRACE_SCRIPT};
use crate::legends::{ACCESS_LEGEND, LEGEND, READS_LEGEND, TRACE_ACCESS_LEGEND, TRACE_LEGEND};
use crate::reads::Reads;
use markup::Markup;
use std::alloc::AllocError;

/// The description of the picture of a run or a record.
const DESCRIPTION: &[u8] =
    b"A lane for each process, time to the right in events. A bar is the stage of the process. Each mark has its event number. The lowest lane is the one history of the commands taken.";

/// The description of the picture of a trace.
const TRACE_DESCRIPTION: &[u8] =
    b"A lane for each process, time to the right in entries. A bar is the stage of the process. Each mark has the number of its entry.";

/// The subject of a picture.
#[derive(Clone, Copy, PartialEq, Eq)]
pub enum Subject {
    /// The run of a scenario, which has a history of the commands taken.
    Run,
    /// The record of a run or of another lock, which has such a history.
    Record,
    /// A trace, which has no store.
    Trace,
}

impl Subject {
    /// Returns whether the lowest lane is a history.
    pub(crate) fn has_history(self) -> bool
        ensures { result ≡ has_history self }
    {
        self != Subject::Trace
    }

    /// Returns the word with which the heading of a picture begins.
    pub(crate) fn word(self) -> &'static str
        ensures { result.now ≡ subject_word self }
    {
        match self {
            Subject::Run => "Run",
            Subject::Record => "Record",
            Subject::Trace => "Trace",
        }
    }

    /// Returns the first word of its file, which names the format.
    pub(crate) fn file_word(self) -> &'static str
        ensures { result.now ≡ format_word self }
    {
        match self {
            Subject::Run => "bakery",
            Subject::Record => "record",
            Subject::Trace => "trace",
        }
    }

    /// Returns what the axis counts.
    pub(crate) fn time_unit(self) -> &'static [u8]
        ensures { result.now ≡ time_unit self }
    {
        match self {
            Subject::Run | Subject::Record => b"events",
            Subject::Trace => b"entries",
        }
    }

    /// Returns what one picture states that it shows.
    pub(crate) fn description(self) -> &'static [u8]
        ensures { result.now ≡ shown_by self }
    {
        match self {
            Subject::Run | Subject::Record => DESCRIPTION,
            Subject::Trace => TRACE_DESCRIPTION,
        }
    }

    /// Adds the legend: what signs, bars and words mean, and boxes if all accesses are shown.
    pub(crate) fn add_legend(self, reads: Reads, markup: &mut Markup) -> Result<(), AllocError>
        ensures draws { OnOk result (markup.new ≡ markup.old ++ legend_of self reads) }
        ensures read { OnOk result (reading markup.new ≡ reading markup.old) }
    {
        match (self, reads) {
            (Subject::Run | Subject::Record, Reads::Hidden) => markup.constant(LEGEND),
            (Subject::Run | Subject::Record, Reads::Shown) => markup.constant(READS_LEGEND),
            (Subject::Run | Subject::Record, Reads::All) => markup.constant(ACCESS_LEGEND),
            (Subject::Trace, Reads::Hidden | Reads::Shown) => markup.constant(TRACE_LEGEND),
            (Subject::Trace, Reads::All) => markup.constant(TRACE_ACCESS_LEGEND),
        }
    }

    /// Ends the legend of a page, and begins the list of lines.
    pub(crate) fn begin_list(self, markup: &mut Markup) -> Result<(), AllocError>
        ensures draws { OnOk result (markup.new ≡ markup.old ++ list_begun self) }
        ensures read { OnOk result
            (reading markup.new ≡ with_tags (opens_in (list_begun self)) (reading markup.old)) }
    {
        match self {
            Subject::Run => {
                markup.frame("\n</svg>\n<details open><summary>The scenario</summary><ol>\n")
            }
            Subject::Record => {
                markup.frame("\n</svg>\n<details open><summary>The record</summary><ol>\n")
            }
            Subject::Trace => {
                markup.frame("\n</svg>\n<details open><summary>The trace</summary><ol>\n")
            }
        }
    }

    /// Adds the script of a page.
    pub(crate) fn add_script(self, markup: &mut Markup) -> Result<(), AllocError>
        ensures draws { OnOk result (markup.new ≡ markup.old ++ script_of self) }
        ensures read { OnOk result
            (reading markup.new ≡ with_tags (opens_in (script_of self)) (reading markup.old)) }
    {
        match self {
            Subject::Run | Subject::Record => markup.frame(SCRIPT),
            Subject::Trace => markup.frame(TRACE_SCRIPT),
        }
    }
}
