//! Overlapped reads, as a picture shows them between the lines of a run.
ghost use Rattle.std.specs.Prelude.{◌≡◌, OnOk};
ghost use Rattle.picture.specs.Adding.{Draws};
ghost use Rattle.markup.specs.{reading};
ghost use Rattle.picture.specs.Drawings.{open_shapes, read_shapes, seen_band};
ghost use Rattle.picture.specs.Sheets.{height_of_legend};

use crate::bands::Band;
use crate::signs::below;
use crate::windows::Window;
use markup::{Markup, Point};
use picture_layout::{OverlappedRead, event_place};
use std::alloc::{AllocError, Global};

/// The accesses that a picture shows with its stages and marks.
#[derive(Clone, Copy, PartialEq, Eq)]
pub enum Reads {
    /// No accesses.
    Hidden,
    /// The reads that writes overlapped, as brackets.
    Shown,
    /// All accesses, as boxes. The reads that writes overlapped have no brackets.
    All,
}

/// The accesses and the entries that are asked for in a picture.
#[derive(Clone, Copy)]
pub struct PictureOptions {
    pub reads: Reads,
    pub window: Window,
}

/// Returns the height of the legend.
pub(crate) fn legend_height(reads: Reads) -> u64
    ensures { result ≡ height_of_legend reads }
{
    match reads {
        Reads::Hidden => 104,
        Reads::Shown => 122,
        Reads::All => 182,
    }
}

/// Draws the words of a read. Its title is not a line of the run.
pub(crate) fn draw_read(
    alloc: Global,
    read: &OverlappedRead,
    at: Point,
    markup: &mut Markup,
) -> Result<(), AllocError>
    ensures draws { Draws result markup.old markup.new (read_shapes read.now at) }
    ensures read { OnOk result (reading markup.new ≡ reading markup.old) }
{
    let title = read.title(alloc)?;
    let saw = read.saw(alloc)?;
    let bit = read.bit_words(alloc)?;
    markup.note(title.as_bytes())?;
    markup.label("saw", at, saw.as_bytes())?;
    markup.label("of-what", below(at, 11), bit.as_bytes())?;
    markup.end_group()
}

impl Band {
    /// Draws the bracket of a read, and a line to the lane of its owner.
    pub(crate) fn draw_open(
        &self,
        alloc: Global,
        read: &OverlappedRead,
        x: u32,
        markup: &mut Markup,
    ) -> Result<(), AllocError>
        ensures draws { Draws result markup.old markup.new
            (open_shapes (seen_band self.now) read.now x) }
        ensures read { OnOk result (reading markup.new ≡ reading markup.old) }
    {
        let reader = self.layout.lane(read.reader).bar();
        let owner = self.layout.lane(read.owner).bar();
        let top = reader + 9;
        let foot = reader + 15;
        let rest = format!(in alloc; "V{foot}H{x}V{top}")?;
        let begin = event_place(self.columns.as_slice(), self.before_at, read.begin);
        markup.path("open", Point::at(u32::from(begin), top), rest.as_str())?;
        let from = if owner > reader { foot } else { reader };
        markup.line("of", Point::at(x, from), Point::at(x, owner))
    }
}
