//! The waves of registers below the lanes.
ghost use Rattle.std.specs.Prelude.{◌≡◌, ◌≤◌, drop, length, map, OnOk, option_copied};
ghost use Rattle.picture.specs.Adding.{Draws};
ghost use Rattle.markup.specs.{reading};
ghost use Rattle.picture_layout.specs.{change_in, seen, seen_accesses, seen_wave};
ghost use Rattle.picture.specs.WaveShapes.{change_if, change_shapes, level_of, next_change, value_label, wave_from, wave_part, wave_shapes, waves_from};

use crate::bands::Band;
use markup::{Markup, Point};
use picture_layout::{AccessState, Column, LEFT, Wave, WaveChange, characters, room};
use std::alloc::AllocError;

impl Band {
    /// Draws the waves.
    pub(crate) fn draw_waves(
        &self,
        accesses: &AccessState,
        markup: &mut Markup,
    ) -> Result<(), AllocError>
        ensures draws { Draws result markup.old markup.new
            (waves_from self.now.layout (map seen self.now.columns.items) 0
            (seen_accesses accesses.now).waves) }
        ensures read { OnOk result (reading markup.new ≡ reading markup.old) }
    {
        for (row, wave) in accesses.waves.iter().enumerate() {
            self.draw_wave(row, wave, markup)?;
        }
        Ok(())
    }

    /// Draws the wave of a row: its name, its value at the left edge, and its changes.
    fn draw_wave(&self, row: usize, wave: &Wave, markup: &mut Markup) -> Result<(), AllocError>
        ensures draws { Draws result markup.old markup.new
            (wave_shapes self.now.layout (map seen self.now.columns.items) row
            (seen_wave wave.now)) }
        ensures read { OnOk result (reading markup.new ≡ reading markup.old) }
    {
        let y = self.layout.wave_row(row);
        let columns = self.columns.as_slice();
        let end = self.layout.end;
        let to = change_place(columns, 0, row, end);
        markup.label("cell", Point::at(8, u32::from(y) + 8), wave.name.as_slice())?;
        draw_part(y, wave.value.as_slice(), wave.is_open, LEFT, to, markup)?;
        draw_changes(columns, row, y, end, markup)
    }
}

/// Returns where the next change of a row is, from a column on, or where the lanes end.
fn change_place(columns: &[Column], first: usize, row: usize, end: u16) -> u16
    requires { first ≤ length columns.now }
    ensures { result ≡ next_change row end (map seen (drop first columns.now)) }
{
    for place in first..columns.len() {
        if change_of(&columns[place], row).is_some() {
            return columns[place].x;
        }
    }
    end
}

/// Returns the change of a row that a column shows, if it shows one.
fn change_of(column: &Column, row: usize) -> Option<&WaveChange>
    ensures { option_copied result ≡ change_if row (change_in (seen column.now)) }
{
    match column.wave_change() {
        Some(change) if usize::from(change.row) == row => Some(change),
        _ => None,
    }
}

/// Draws the wave of a row after each of its changes.
fn draw_changes(
    columns: &[Column],
    row: usize,
    y: u16,
    end: u16,
    markup: &mut Markup,
) -> Result<(), AllocError>
    ensures draws { Draws result markup.old markup.new
        (wave_from row y end (map seen columns.now)) }
    ensures read { OnOk result (reading markup.new ≡ reading markup.old) }
{
    for place in 0..columns.len() {
        let next = change_place(columns, place + 1, row, end);
        draw_change(&columns[place], row, y, next, markup)?;
    }
    Ok(())
}

/// Draws the change of a row that a column shows, up to the next change.
fn draw_change(
    column: &Column,
    row: usize,
    y: u16,
    next: u16,
    markup: &mut Markup,
) -> Result<(), AllocError>
    ensures draws { Draws result markup.old markup.new
        (change_shapes y column.now.x next (change_if row (change_in (seen column.now)))) }
    ensures read { OnOk result (reading markup.new ≡ reading markup.old) }
{
    let Some(change) = change_of(column, row) else {
        return Ok(());
    };
    let x = u32::from(column.x);
    let top = u32::from(y);
    markup.line("wave", Point::at(x, top + 13), Point::at(x, top + 27))?;
    draw_part(
        y,
        change.value.as_slice(),
        change.is_open,
        column.x,
        next,
        markup,
    )
}

/// Draws a wave from one place to another.
fn draw_part(
    y: u16,
    value: &[u8],
    is_open: bool,
    from: u16,
    to: u16,
    markup: &mut Markup,
) -> Result<(), AllocError>
    ensures draws { Draws result markup.old markup.new (wave_part y value.now is_open from to) }
    ensures read { OnOk result (reading markup.new ≡ reading markup.old) }
{
    let x = u32::from(from);
    let top = u32::from(y);
    if is_open {
        let corner = Point::at(x, top + 13);
        return markup.block("unsure", corner, u32::from(to.saturating_sub(from)), 14);
    }
    let level = top + level(value);
    markup.line("wave", Point::at(x, level), Point::at(u32::from(to), level))?;
    draw_value(y, value, from, to, markup)
}

/// Returns the height of the line of a value.
fn level(value: &[u8]) -> u32
    ensures exact { result ≡ level_of value.now }
    ensures small { result ≤ 26 }
{
    if value == b"0".as_slice() { 26 } else { 14 }
}

/// Draws a value, if it has room.
fn draw_value(
    y: u16,
    value: &[u8],
    from: u16,
    to: u16,
    markup: &mut Markup,
) -> Result<(), AllocError>
    ensures draws { Draws result markup.old markup.new (value_label y value.now from to) }
    ensures read { OnOk result (reading markup.new ≡ reading markup.old) }
{
    let needed = room(characters(value), 7).saturating_add(8);
    if needed > to.saturating_sub(from) {
        return Ok(());
    }
    let at = Point::at(u32::from(from) + 4, u32::from(y) + 24);
    markup.label("cell", at, value)
}
