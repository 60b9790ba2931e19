//! A band: its columns, and the state before them.
ghost use Rattle.std.specs.Prelude.{◌≡◌, flat_map, map, OnOk};
ghost use Rattle.picture.specs.Adding.{Draws, ReportsLines, all_reported};
ghost use Rattle.markup.specs.{reading};
ghost use Rattle.picture_layout.specs.{seen, seen_accesses};
ghost use Rattle.picture.specs.AccessShapes.{begun, guide, ties};
ghost use Rattle.picture.specs.Bandings.{behind_columns};
ghost use Rattle.picture.specs.Drawings.{band_shapes, column_shapes, for_each, lane_accesses, lane_shapes, lane_words, links, seen_band};

use crate::subjects::Subject;
use markup::Markup;
use picture_layout::{AccessState, Column, Layout, State};
use shown_verdict::ShownVerdict;
use std::alloc::{AllocError, Global};

/// A band that is full, or the last one.
#[derive(Drop)]
pub(crate) struct Band {
    pub columns: Vec<Column>,
    /// The state before its first column.
    pub before: State,
    /// The number of events that were accepted before that column.
    pub before_at: u64,
    pub layout: Layout,
    pub is_last: bool,
    /// The words of the opening store, in the first band.
    pub opens: Vec<u8>,
    pub subject: Subject,
    /// The verdict below it, in the last band.
    pub verdict: Option<ShownVerdict>,
}

impl Band {
    /// Draws the band, with the accesses that are open at its left edge and with its waves. The titles of its marks are the
    /// lines of its columns, and each element that begins ends.
    pub fn draw(
        &self,
        alloc: Global,
        accesses: &AccessState,
        markup: &mut Markup,
    ) -> Result<(), AllocError>
        ensures draws { Draws result markup.old markup.new
            (band_shapes (seen_band self.now) (seen_accesses accesses.now)) }
        ensures read { ReportsLines result markup.old markup.new
            (all_reported self.now.columns.items) }
    {
        self.draw_shades(markup)?;
        self.draw_guides(markup)?;
        self.draw_axis(alloc, markup)?;
        self.draw_lanes(alloc, markup)?;
        self.draw_chain(markup)?;
        self.draw_all_links(alloc, markup)?;
        self.draw_all_accesses(alloc, accesses, markup)?;
        self.draw_ties(markup)?;
        self.draw_begun(alloc, markup)?;
        self.draw_waves(accesses, markup)?;
        self.draw_all_words(alloc, markup)?;
        self.draw_columns(alloc, markup)
    }

    /// Draws all lanes.
    fn draw_lanes(&self, alloc: Global, markup: &mut Markup) -> Result<(), AllocError>
        ensures draws { Draws result markup.old markup.new
            (for_each (lane_shapes (seen_band self.now)) self.now.before.processes) }
        ensures read { OnOk result (reading markup.new ≡ reading markup.old) }
    {
        for process in 0..self.before.processes {
            self.draw_lane(alloc, process, markup)?;
        }
        Ok(())
    }

    /// Draws the links between lanes.
    fn draw_all_links(&self, alloc: Global, markup: &mut Markup) -> Result<(), AllocError>
        ensures draws { Draws result markup.old markup.new
            (flat_map (links (seen_band self.now)) (map seen self.now.columns.items)) }
        ensures read { OnOk result (reading markup.new ≡ reading markup.old) }
    {
        for column in &self.columns {
            self.draw_links(alloc, column, markup)?;
        }
        Ok(())
    }

    /// Draws the guides of the columns that show accesses.
    fn draw_guides(&self, markup: &mut Markup) -> Result<(), AllocError>
        ensures draws { Draws result markup.old markup.new
            (flat_map (guide self.now.layout) (map seen self.now.columns.items)) }
        ensures read { OnOk result (reading markup.new ≡ reading markup.old) }
    {
        for column in &self.columns {
            self.draw_guide(column, markup)?;
        }
        Ok(())
    }

    /// Draws the accesses of all processes.
    fn draw_all_accesses(
        &self,
        alloc: Global,
        accesses: &AccessState,
        markup: &mut Markup,
    ) -> Result<(), AllocError>
        ensures draws { Draws result markup.old markup.new
            (for_each (lane_accesses (seen_band self.now) (seen_accesses accesses.now))
            self.now.before.processes) }
        ensures read { OnOk result (reading markup.new ≡ reading markup.old) }
    {
        for process in 0..self.before.processes {
            self.draw_accesses(alloc, accesses, process, markup)?;
        }
        Ok(())
    }

    /// Draws the ties between accesses that overlap.
    fn draw_ties(&self, markup: &mut Markup) -> Result<(), AllocError>
        ensures draws { Draws result markup.old markup.new
            (flat_map (ties self.now.layout) (map seen self.now.columns.items)) }
        ensures read { OnOk result (reading markup.new ≡ reading markup.old) }
    {
        for column in &self.columns {
            self.draw_ties_of(column, markup)?;
        }
        Ok(())
    }

    /// Draws the words of the accesses that columns begin.
    fn draw_begun(&self, alloc: Global, markup: &mut Markup) -> Result<(), AllocError>
        ensures draws { Draws result markup.old markup.new
            (flat_map (begun self.now.layout) (map seen self.now.columns.items)) }
        ensures read { OnOk result (reading markup.new ≡ reading markup.old) }
    {
        for column in &self.columns {
            self.draw_begun_by(alloc, column, markup)?;
        }
        Ok(())
    }

    /// Draws the words in the bars of the lanes with columns.
    fn draw_all_words(&self, alloc: Global, markup: &mut Markup) -> Result<(), AllocError>
        ensures draws { Draws result markup.old markup.new
            (for_each (lane_words (seen_band self.now)) self.now.before.processes) }
        ensures read { OnOk result (reading markup.new ≡ reading markup.old) }
    {
        for process in 0..self.before.processes {
            if !self.layout.lane(process).is_full {
                continue;
            }
            self.draw_words(alloc, process, markup)?;
        }
        Ok(())
    }

    /// Draws all columns.
    fn draw_columns(&self, alloc: Global, markup: &mut Markup) -> Result<(), AllocError>
        ensures draws { Draws result markup.old markup.new
            (flat_map (column_shapes (seen_band self.now)) (map seen self.now.columns.items)) }
        ensures read { ReportsLines result markup.old markup.new
            (all_reported self.now.columns.items) }
    {
        for column in &self.columns {
            self.draw_column(alloc, column, markup)?;
        }
        Ok(())
    }
}

/// Returns the state after columns and the number of events accepted until then, by those before them.
pub(crate) fn behind(columns: &[Column], before: State, before_at: u64) -> (State, u64)
    ensures { result ≡ behind_columns (map seen columns.now) (before, before_at) }
{
    match columns.last() {
        Some(column) => (column.after, column.at),
        None => (before, before_at),
    }
}
