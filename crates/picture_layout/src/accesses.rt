//! Accesses, as values: the begin, the end or the whole of an access, and the change of a wave.
ghost use Rattle.std.specs.Prelude.{◌≡◌, ◌++◌, codes, string_bytes, IfOk};
ghost use Rattle.std.specs.Fmt.{decimal};
ghost use Rattle.picture_layout.specs.Accesses.{access_title, characters_by, characters_of, is_inner, title_front};

use std::alloc::{AllocError, Global};

/// The kind of an access.
#[derive(Clone, Copy, PartialEq, Eq)]
pub enum AccessKind {
    /// It reads.
    Read,
    /// It writes.
    Write,
    /// It reads and writes in one step.
    Update,
}

/// The part of an access that an entry makes.
#[derive(Clone, Copy, PartialEq, Eq)]
pub enum AccessStep {
    /// The access begins.
    Begin,
    /// The access ends.
    End,
    /// The access begins and ends.
    Whole,
}

/// A change of the wave of a register.
#[derive(Drop)]
pub struct WaveChange {
    /// The row of the wave, from 0. A wave that begins has the next row.
    pub row: u16,
    /// The register.
    pub name: Vec<u8>,
    /// The value before the entry.
    pub old: Vec<u8>,
    /// The value after the entry.
    pub value: Vec<u8>,
    /// Whether a write of the register was open before the entry.
    pub was_open: bool,
    /// Whether a write of the register is open after the entry.
    pub is_open: bool,
}

/// The part of an access that an entry makes, as a column shows it.
#[derive(Drop)]
pub struct ShownAccess {
    /// The number of the entry.
    pub event: u64,
    pub process: u8,
    pub kind: AccessKind,
    pub step: AccessStep,
    /// The number of the entry with which the access began.
    pub begin: u64,
    /// The move, as `write 1`. If a read ends, its value, as `→ 0`.
    pub words: Vec<u8>,
    /// The cell, as `flag[0]`.
    pub cell: Vec<u8>,
    /// The processes whose open accesses of the cell this access overlaps as it begins, if one of the
    /// two writes.
    pub overlaps: [bool; 16],
    /// The change of a wave, if the entry makes one.
    pub change: Option<WaveChange>,
}

impl ShownAccess {
    /// Returns the number of characters of its longest row. An access that ends has one row.
    pub(crate) fn characters(&self) -> usize
        ensures { result ≡ characters_by self.now.step self.now.words.items self.now.cell.items }
    {
        let words = characters(self.words.as_slice());
        match self.step {
            AccessStep::End => words,
            AccessStep::Begin | AccessStep::Whole => words.max(characters(self.cell.as_slice())),
        }
    }

    /// Returns its title: entry, process and cell, the entry that began it if it ends here, and its words.
    ///
    /// # Errors
    ///
    /// Returns [`AllocError`] if an allocation fails.
    pub fn title(&self, alloc: Global) -> Result<Vec<u8>, AllocError>
        ensures { IfOk result (λ title. title.items ≡ access_title self.now) }
    {
        let mut title = self.title_front(alloc)?;
        title.extend_from_slice(self.cell.as_slice())?;
        if self.step == AccessStep::End {
            let since = since(alloc, self.begin)?;
            title.extend_from_slice(since.as_bytes())?;
        }
        if !self.words.is_empty() {
            title.extend_from_slice(b" ")?;
            title.extend_from_slice(self.words.as_slice())?;
        }
        Ok(title)
    }

    /// Returns how its title begins: entry and process.
    fn title_front(&self, alloc: Global) -> Result<Vec<u8>, AllocError>
        ensures { IfOk result (λ front. front.items ≡ title_front self.now) }
    {
        let event = self.event;
        let process = self.process;
        let front = format!(in alloc; "{event} {process} ")?;
        Ok(front.into_bytes())
    }
}

/// Returns where an access began, in words.
fn since(alloc: Global, begin: u64) -> Result<String, AllocError>
    ensures { IfOk result (λ text. string_bytes text ≡ codes " from " ++ decimal begin) }
{
    format!(in alloc; " from {begin}")
}

/// Returns the number of characters of a text. A byte that continues a character is not counted.
pub fn characters(text: &[u8]) -> usize
    ensures { result ≡ characters_of text.now }
{
    let mut count: usize = 0;
    for byte in text {
        if !continues(*byte) {
            count += 1;
        }
    }
    count
}

/// Returns whether a byte of a text continues a character.
fn continues(byte: u8) -> bool
    ensures { result ≡ is_inner byte }
{
    128 <= byte && byte < 192
}
