//! The position of a fault in a line of a trace, by the kind of the fault.
use crate::cells::{index_in, name_in, register_named, register_names};
use crate::expected::{add_keys, add_number, add_trace_operand};
use crate::forms::{
    refused_trace_operand, trace_access_form, trace_head_form, trace_mark_form, word_at,
};
use crate::lines::SplitLine;
use crate::near::add_near;
use crate::parts::{EntryFault, FoundPosition, LinePart, found, found_by};
use crate::places::FileWithFault;
use crate::registers::{RegisterPart, refused_part, register_of};
use files::FaultKind;
use std::alloc::AllocError;
use trace_file::TraceReader;
use trace_file::forms::TraceOperand;
use trace_file::keywords::{TraceLineKind, lock_mark};

/// A trace that has a fault, and what the lines before the fault have declared.
#[derive(Clone, Copy)]
pub(crate) struct FaultyTrace<'r> {
    pub faulty: FileWithFault,
    pub read: &'r TraceReader,
}

impl<'r> FaultyTrace<'r> {
    /// Returns the position of the fault in the line of this number, and adds what was expected there.
    pub fn place(&self, line: &SplitLine<'_>, number: u64, what: &mut String) -> FoundPosition {
        match self.faulty.fault {
            FaultKind::TooLong => self.faulty.place(line, number, what),
            FaultKind::NotFirst => too_late(line, what),
            FaultKind::BadSetup => self.not_declared(line, what),
            _ => self.in_line(line, what),
        }
    }

    /// Looks for the fault in the words of a line.
    fn in_line(&self, line: &SplitLine<'_>, what: &mut String) -> FoundPosition {
        let words = line.words.as_slice();
        if let Some(TraceLineKind::Entry) = TraceLineKind::of(word_at(words, 0)) {
            let place = self.in_entry(line, what)?;
            add_hints(words, what)?;
            return Ok(place);
        }
        let form = trace_head_form(self.faulty.alloc, words)?;
        self.in_part(
            &LinePart {
                line,
                at: 0,
                words,
                form: &form,
            },
            what,
        )
    }

    /// Looks for the fault in words that should have a form.
    fn in_part(&self, part: &LinePart<'_, '_>, what: &mut String) -> FoundPosition {
        match self.faulty.fault {
            FaultKind::Unknown => self.unknown(part, what),
            FaultKind::Words => part.wrong_number(what),
            _ => self.refused(part, what),
        }
    }

    /// Looks for a cell of no register, or for another word in the place of a key word.
    fn unknown(&self, part: &LinePart<'_, '_>, what: &mut String) -> FoundPosition {
        if let Some(span) = self.no_cell(part, what)? {
            return Ok(Some(span));
        }
        match self.faulty.unknown_key(part, what)? {
            Some(span) => Ok(Some(span)),
            None => self.refused(part, what),
        }
    }

    /// Returns the word of the cell, if it has the fault.
    fn faulty_cell<'w>(&self, part: &LinePart<'_, 'w>) -> Option<&'w [u8]> {
        let word = part.cell()?;
        match self.read.cell(word) {
            Err(fault) if fault == self.faulty.fault => Some(word),
            _ => None,
        }
    }

    /// Returns the position of a cell's name if no register has it, and of the whole cell if the register has other cells.
    fn no_cell(&self, part: &LinePart<'_, '_>, what: &mut String) -> FoundPosition {
        let Some(word) = self.faulty_cell(part) else {
            return Ok(None);
        };
        let registers = self.read.setup().registers.as_slice();
        let (span, name) = name_in(part.word(1), word);
        match register_named(registers, name) {
            None => found_by(span, self.add_names(name, what)),
            Some(register) => {
                let name = register.name.as_str();
                let added = if register.is_shared {
                    write!(what, "a cell as {name}, which is shared")
                } else {
                    write!(what, "a cell as {name}[p]")
                };
                found_by(part.word(1), added)
            }
        }
    }

    /// Adds that the name of a register was expected, and the nearest of these names.
    fn add_names(&self, name: &[u8], what: &mut String) -> Result<(), AllocError> {
        let registers = self.read.setup().registers.as_slice();
        let names = register_names(self.faulty.alloc, registers)?;
        if names.is_empty() {
            return what.push_str("a declared register, of which there is none");
        }
        add_keys(names.as_slice(), "", what)?;
        if names.len() > 1 {
            add_near(self.faulty.alloc, name, names.as_slice(), what)?;
        }
        Ok(())
    }

    /// Returns the position of the first operand that has the fault. The index of a cell comes after the process.
    fn refused(&self, part: &LinePart<'_, '_>, what: &mut String) -> FoundPosition {
        let form = part.form.items.as_slice();
        let refused = refused_trace_operand(form, part.words, self.faulty.fault);
        if let (Some(word), true) = (self.faulty_cell(part), !is_first(refused)) {
            return found_by(index_in(part.word(1), word), add_number(0, 255, what));
        }
        let Some((place, operand)) = refused else {
            return Ok(None);
        };
        let memory = self.read.setup().memory;
        found_by(part.word(place), add_trace_operand(operand, memory, what))
    }

    /// Returns the position of what the setup refuses: the number of processes, or a part of a register.
    fn not_declared(&self, line: &SplitLine<'_>, what: &mut String) -> FoundPosition {
        let words = line.words.as_slice();
        let setup = self.read.setup();
        let Some(register) = register_of(words) else {
            let added = add_trace_operand(TraceOperand::Count, setup.memory, what);
            return found_by(line.word(1), added);
        };
        let Some(refused) = refused_part(setup, &register) else {
            return Ok(None);
        };
        match refused {
            RegisterPart::Sharing => found(
                line.word(0),
                "register, or memory atomic before shared",
                what,
            ),
            RegisterPart::Count => found(line.word(0), "at most 64 registers", what),
            RegisterPart::Name => found(line.word(1), "each name declared once", what),
            RegisterPart::Width => {
                let added = add_trace_operand(TraceOperand::Width, setup.memory, what);
                found_by(line.word(2), added)
            }
            RegisterPart::Opens(most) => found_by(line.word(4), add_number(0, most, what)),
        }
    }
}

impl<'r> EntryFault for FaultyTrace<'r> {
    fn in_entry_part(
        &self,
        line: &SplitLine<'_>,
        at: usize,
        end: usize,
        marks: usize,
        what: &mut String,
    ) -> FoundPosition {
        let words = line.words.get(at..end).unwrap_or(&[]);
        let form = if marks == 0 {
            trace_access_form(self.faulty.alloc, words)?
        } else {
            trace_mark_form(self.faulty.alloc, words)?
        };
        let part = LinePart {
            line,
            at,
            words,
            form: &form,
        };
        match self.in_part(&part, what)? {
            None if self.faulty.fault == FaultKind::Words => wrong_marks(line, at, marks, what),
            place => Ok(place),
        }
    }
}

/// Returns the position of a fifth mark, or the column after the process of an entry with neither an access nor a mark.
fn wrong_marks(line: &SplitLine<'_>, at: usize, marks: usize, what: &mut String) -> FoundPosition {
    if line.words.len() == 1 {
        return found(
            line.behind(0),
            "an access or a mark after the process",
            what,
        );
    }
    if marks > 4 {
        return found(line.word(at.saturating_sub(1)), "at most four marks", what);
    }
    Ok(None)
}

/// Returns whether the first operand is refused.
fn is_first(refused: Option<(usize, TraceOperand)>) -> bool {
    match refused {
        Some((0, _)) => true,
        _ => false,
    }
}

/// Returns the position of a line that comes too late.
fn too_late(line: &SplitLine<'_>, what: &mut String) -> FoundPosition {
    let expected = match TraceLineKind::of(word_at(line.words.as_slice(), 0)) {
        Some(TraceLineKind::Processes) => "processes once, and before registers and entries",
        Some(TraceLineKind::Memory) => "memory once, and before registers and entries",
        Some(TraceLineKind::Register) => "register before entries",
        Some(TraceLineKind::Shared) => "shared before entries",
        _ => "trace 1 in the first line alone",
    };
    found(line.word(0), expected, what)
}

/// Adds what the words of an entry show besides the fault: a colon without blanks around it, two marks after one colon, or a
/// comment.
fn add_hints(words: &[&[u8]], what: &mut String) -> Result<(), AllocError> {
    let has_colon = |word: &&[u8]| word.len() > 1 && word.iter().any(|byte| *byte == b':');
    if words.iter().any(has_colon) {
        what.push_str("; a colon has blanks around it")?;
    }
    if has_adjacent_marks(words) {
        what.push_str("; each mark has a colon before it")?;
    }
    if words.iter().any(|word| word.starts_with(b"#")) {
        what.push_str("; a comment has a line of its own")?;
    }
    Ok(())
}

/// Returns whether a mark follows another one with no colon between them.
fn has_adjacent_marks(words: &[&[u8]]) -> bool {
    let mut follows = false;
    for word in words {
        let is_mark = lock_mark(word).is_some();
        if follows && is_mark {
            return true;
        }
        follows = is_mark;
    }
    false
}
