//! Reads that writes overlapped, and the words that a picture has of them.
ghost use Rattle.std.specs.Prelude.{◌≡◌, ◌++◌, IfOk, OnOk, string_bytes};
ghost use Rattle.std.specs.Fmt.{decimal};
ghost use Rattle.picture_layout.specs.Columns.{GivesRows, verb_and_rest};
ghost use Rattle.picture_layout.specs.Overlaps.{bit_text, read_text, saw_text, title_text};

use crate::rows::{TextRow, two_rows};
use model::Field;
use std::alloc::{AllocError, Global};

/// A read that a write of its bit overlapped.
#[derive(Clone, Copy)]
pub struct OverlappedRead {
    pub reader: u8,
    pub owner: u8,
    pub field: Field,
    pub bit: u16,
    /// Whether the register has more bits than this one.
    pub is_wide: bool,
    /// The number of the event that began it.
    pub begin: u64,
    /// The number of the event that ended it.
    pub end: u64,
    /// The value that it returned.
    pub value: bool,
    /// The number of reads that ended after it, before the next line of the run, and are not shown.
    pub more: u64,
}

impl OverlappedRead {
    /// Returns the rows of its column.
    pub(crate) fn rows(&self, alloc: Global) -> Result<Vec<TextRow>, AllocError>
        ensures { GivesRows result (verb_and_rest (saw_text self.now) (bit_text self.now)) }
    {
        two_rows(alloc, self.saw(alloc)?, self.bit_words(alloc)?)
    }

    /// Returns the value of the read, in words.
    ///
    /// # Errors
    ///
    /// Returns [`AllocError`] if an allocation fails.
    pub fn saw(&self, alloc: Global) -> Result<String, AllocError>
        ensures { IfOk result (λ text. string_bytes text ≡ saw_text self.now) }
    {
        let value = u8::from(self.value);
        format!(in alloc; "saw {value}")
    }

    /// Returns the bit that it read, and the number of reads that are not shown.
    ///
    /// # Errors
    ///
    /// Returns [`AllocError`] if an allocation fails.
    pub fn bit_words(&self, alloc: Global) -> Result<String, AllocError>
        ensures { IfOk result (λ text. string_bytes text ≡ bit_text self.now) }
    {
        let OverlappedRead {
            owner,
            bit,
            more,
            ..
        } = *self;
        let field = self.field.word();
        let mut text = format!(in alloc; "{field}[{owner}]")?;
        if self.is_wide {
            push_number(alloc, ".", u64::from(bit), &mut text)?;
        }
        if more > 0 {
            push_number(alloc, " +", more, &mut text)?;
        }
        Ok(text)
    }

    /// Returns its title: the process, the bit, the events of its begin and its end, and the value.
    ///
    /// # Errors
    ///
    /// Returns [`AllocError`] if an allocation fails.
    pub fn title(&self, alloc: Global) -> Result<String, AllocError>
        ensures { IfOk result (λ text. string_bytes text ≡ title_text self.now) }
    {
        let OverlappedRead { begin, end, .. } = *self;
        let read = self.bit_read(alloc)?;
        let value = u8::from(self.value);
        format!(in alloc; "{read} from event {begin} to {end} while it was written: {value}")
    }

    /// Returns in words the process and the bit that it read.
    fn bit_read(&self, alloc: Global) -> Result<String, AllocError>
        ensures { IfOk result (λ text. string_bytes text ≡ read_text self.now) }
    {
        let OverlappedRead {
            reader,
            owner,
            bit,
            ..
        } = *self;
        let field = self.field.word();
        format!(in alloc; "process {reader} read bit {bit} of {field}[{owner}]")
    }
}

/// Appends a number after a sign.
fn push_number(alloc: Global, sign: &str, number: u64, text: &mut String) -> Result<(), AllocError>
    ensures { OnOk result
        (string_bytes text.new ≡ string_bytes text.old ++ (sign.now ++ decimal number)) }
{
    text.push_str(sign)?;
    let digits = number.to_string(alloc)?;
    text.push_str(digits.as_str())
}
