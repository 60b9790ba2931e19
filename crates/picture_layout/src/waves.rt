//! The waves of registers: the value of each, and whether a write of it is open.
ghost use Rattle.std.specs.Prelude.{◌≡◌, map, option_copied, IfOk, OnOk};
ghost use Rattle.picture_layout.specs.Columns.{seen};
ghost use Rattle.picture_layout.specs.Waves.{change_in, row_begun, row_set, seen_wave, seen_waves, wave_before, wave_behind, waves_after, waves_begun};

use crate::accesses::WaveChange;
use crate::columns::Column;
use std::alloc::{AllocError, Global};

/// The wave of a register.
#[derive(Drop)]
pub struct Wave {
    /// The register.
    pub name: Vec<u8>,
    /// Its value.
    pub value: Vec<u8>,
    /// Whether a write of it is open.
    pub is_open: bool,
}

impl WaveChange {
    /// Returns the wave before this change, the first one of it.
    fn wave_before(&self, alloc: Global) -> Result<Wave, AllocError>
        ensures { IfOk result (λ wave. seen_wave wave ≡ wave_before self.now) }
    {
        Ok(Wave {
            name: copied(alloc, self.name.as_slice())?,
            value: copied(alloc, self.old.as_slice())?,
            is_open: self.was_open,
        })
    }

    /// Returns the wave after this change.
    fn wave_after(&self, alloc: Global) -> Result<Wave, AllocError>
        ensures { IfOk result (λ wave. seen_wave wave ≡ wave_behind self.now) }
    {
        Ok(Wave {
            name: copied(alloc, self.name.as_slice())?,
            value: copied(alloc, self.value.as_slice())?,
            is_open: self.is_open,
        })
    }
}

impl Column {
    /// Returns the change of a wave that this column shows, if it shows one.
    pub fn wave_change(&self) -> Option<&WaveChange>
        ensures { option_copied result ≡ change_in (seen self.now) }
    {
        match &self.access {
            Some(access) => access.change.as_ref(),
            None => None,
        }
    }
}

/// Adds the waves that begin in columns, as they are before the columns.
pub(crate) fn begin_waves(
    alloc: Global,
    columns: &[Column],
    waves: &mut Vec<Wave>,
) -> Result<(), AllocError>
    ensures { OnOk result
        (seen_waves waves.new ≡ waves_begun (seen_waves waves.old) (map seen columns.now)) }
{
    for column in columns {
        begin_wave(alloc, column, waves)?;
    }
    Ok(())
}

/// Adds the wave that begins in a column, if one does.
fn begin_wave(alloc: Global, column: &Column, waves: &mut Vec<Wave>) -> Result<(), AllocError>
    ensures { OnOk result
        (seen_waves waves.new ≡ row_begun (seen_waves waves.old) (change_in (seen column.now))) }
{
    match column.wave_change() {
        Some(change) if usize::from(change.row) >= waves.len() => {
            Ok(waves.push(change.wave_before(alloc)?)?)
        }
        _ => Ok(()),
    }
}

/// Updates waves by columns.
pub(crate) fn pass_waves(
    alloc: Global,
    columns: &[Column],
    waves: &mut Vec<Wave>,
) -> Result<(), AllocError>
    ensures { OnOk result
        (seen_waves waves.new ≡ waves_after (seen_waves waves.old) (map seen columns.now)) }
{
    for column in columns {
        pass_wave(alloc, column, waves)?;
    }
    Ok(())
}

/// Updates a wave by a column, if the column changes one.
fn pass_wave(alloc: Global, column: &Column, waves: &mut Vec<Wave>) -> Result<(), AllocError>
    ensures { OnOk result
        (seen_waves waves.new ≡ row_set (seen_waves waves.old) (change_in (seen column.now))) }
{
    match column.wave_change() {
        Some(change) if usize::from(change.row) < waves.len() => {
            waves[usize::from(change.row)] = change.wave_after(alloc)?;
            Ok(())
        }
        _ => Ok(()),
    }
}

/// Returns a copy of bytes.
fn copied(alloc: Global, bytes: &[u8]) -> Result<Vec<u8>, AllocError>
    ensures { IfOk result (λ copy. copy.items ≡ bytes.now) }
{
    let mut copy = Vec::new(alloc);
    copy.extend_from_slice(bytes)?;
    Ok(copy)
}
