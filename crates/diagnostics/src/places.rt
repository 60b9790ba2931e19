//! The position of a fault in a line, by the kind of the fault.
use crate::expected::{add_keys, add_meant, add_operand, add_two};
use crate::forms::{
    FormItem, access_form, bits_form, head_form, line_form, mark_form, refused_operand,
    trace_head_form, word_at,
};
use crate::kinds::{FileKind, name_of_file};
use crate::lines::{Span, SplitLine, dotted_part};
use crate::near::add_near;
use crate::parts::{EntryFault, FoundPosition, LinePart, found, found_by};
use files::FaultKind;
use plain_store::{OpenFault, Setup, Value};
use record_file::LineKind;
use record_file::forms::{COPY_NUMBERS, PROCESS_OF_ENTRY, RECORD};
use record_file::keywords::FIELDS;
use scenario::forms::{HEADS, Operand};
use scenario::keywords::Opener;
use scenario::operands::name;
use std::alloc::{AllocError, Global};
use trace_file::forms::TRACE;

/// A file that has a fault.
#[derive(Clone, Copy)]
pub(crate) struct FileWithFault {
    pub alloc: Global,
    pub kind: FileKind,
    /// The setup that the lines before the fault declare; `None` if they are all skipped.
    pub setup: Option<Setup>,
    pub fault: FaultKind,
}

impl FileWithFault {
    /// Returns the version of the file.
    fn version(&self) -> u8 {
        match &self.setup {
            Some(setup) => setup.version,
            None => 1,
        }
    }

    /// Returns the position of the fault in the line with this number, and adds what was expected there.
    pub fn place(&self, line: &SplitLine<'_>, number: u64, what: &mut String) -> FoundPosition {
        match self.fault {
            FaultKind::TooLong => self.too_long(line, number, what),
            FaultKind::NotFirst if self.setup.is_none() => self.not_first(line, what),
            FaultKind::NotFirst => self.too_late(line, what),
            FaultKind::BadSetup if opens(line) => self.not_opened(line, what),
            _ => self.in_line(line, what),
        }
    }

    /// Returns the position in a line that is too long, or in one line too many.
    fn too_long(&self, line: &SplitLine<'_>, number: u64, what: &mut String) -> FoundPosition {
        if line.len() > 128 {
            let place = Span { from: 128, to: 129 };
            return found(place, "at most 128 bytes in a line", what);
        }
        let most = match self.kind {
            FileKind::Scenario | FileKind::Bits if number > 4096 => "at most 4096 lines",
            FileKind::Scenario => "at most 4000 lines behind headings and open lines",
            FileKind::Bits | FileKind::Record | FileKind::Trace => {
                "at most 4000 lines behind the first"
            }
        };
        found(line.word(0), most, what)
    }

    /// Returns the position in the first line: the word that differs, or the words that are too many.
    fn not_first(&self, line: &SplitLine<'_>, what: &mut String) -> FoundPosition {
        let Some(first) = line.words.first() else {
            return Ok(None);
        };
        if *first != self.kind.word().as_bytes() {
            return found_by(line.word(0), self.add_other_kind(first, what));
        }
        self.kind.add_first_lines(what)?;
        found(self.no_version(line), " as the first line", what)
    }

    /// Returns the position in a first line whose first word is right.
    fn no_version(&self, line: &SplitLine<'_>) -> Span {
        match line.words.get(1) {
            None => line.behind(0),
            Some(version) if self.kind.has_version(version) => line.from(2),
            Some(_) => line.word(1),
        }
    }

    /// Adds which first lines were expected, and the kind of a file that begins with another word.
    fn add_other_kind(&self, first: &[u8], what: &mut String) -> Result<(), AllocError> {
        self.kind.add_all_first_lines(what)?;
        what.push_str(" as the first line")?;
        if let Some(name) = name_of_file(first) {
            return add_two("; this is ", name, what);
        }
        if begins_with_mark(first) {
            return what.push_str("; this begins with a byte order mark");
        }
        match self.kind {
            FileKind::Record => add_near(self.alloc, first, &[RECORD, TRACE], what),
            _ => add_near(self.alloc, first, &[self.kind.word()], what),
        }
    }

    /// Returns the position in a line that comes too late.
    fn too_late(&self, line: &SplitLine<'_>, what: &mut String) -> FoundPosition {
        let Some(first) = line.words.first() else {
            return Ok(None);
        };
        let only = match Opener::of(first) {
            Some(Opener::Heading(_)) => " once, and before other lines",
            Some(Opener::Open) => " before other lines",
            _ => " in the first line alone",
        };
        match head_word(first) {
            Some(head) => what.push_str(head)?,
            None => self.kind.add_first_lines(what)?,
        }
        found(line.word(0), only, what)
    }

    /// Returns the position in an opening pair for which the store has no slot, or whose name is already open.
    fn not_opened(&self, line: &SplitLine<'_>, what: &mut String) -> FoundPosition {
        let Some(setup) = &self.setup else {
            return Ok(None);
        };
        if is_open(setup, word_at(line.words.as_slice(), 1)) {
            return found(line.word(1), "each name opened once", what);
        }
        let slots = setup.slots;
        let added = write!(what, "no more open lines than slots, {slots}");
        found_by(line.word(0), added)
    }

    /// Returns the position in a line whose words are at fault.
    fn in_line(&self, line: &SplitLine<'_>, what: &mut String) -> FoundPosition {
        let words = line.words.as_slice();
        let form = match self.kind {
            FileKind::Scenario => line_form(self.alloc, self.version(), words)?,
            FileKind::Bits => bits_form(self.alloc, words)?,
            FileKind::Record => match LineKind::of(word_at(words, 0)) {
                Some(LineKind::Entry) => return self.in_entry(line, what),
                _ => head_form(self.alloc, self.version(), words)?,
            },
            FileKind::Trace => trace_head_form(self.alloc, words)?,
        };
        self.in_part(
            &LinePart {
                line,
                at: 0,
                words,
                form: &form,
            },
            what,
        )
    }

    /// Returns the position in words that should have a form.
    fn in_part(&self, part: &LinePart<'_, '_>, what: &mut String) -> FoundPosition {
        match self.fault {
            FaultKind::Unknown => self.unknown(part, what),
            FaultKind::Words => part.wrong_number(what),
            _ => self.refused(part, what),
        }
    }

    /// Returns the position of a bit or a key word that does not exist.
    fn unknown(&self, part: &LinePart<'_, '_>, what: &mut String) -> FoundPosition {
        if let Some(span) = self.no_bit(part, what)? {
            return Ok(Some(span));
        }
        self.unknown_key(part, what)
    }

    /// Returns the position of a word in the place of a choice.
    pub fn unknown_key(&self, part: &LinePart<'_, '_>, what: &mut String) -> FoundPosition {
        let place = part.form.items.len().saturating_sub(1);
        let (Some(FormItem::Choice), Some(word)) = (part.form.items.last(), part.words.get(place))
        else {
            return Ok(None);
        };
        let other = match self.kind {
            FileKind::Record | FileKind::Trace if part.at == 0 && place == 0 => ", or a process",
            _ => "",
        };
        add_keys(part.form.keys.as_slice(), other, what)?;
        let added = add_meant(self.alloc, self.kind, part.form, word, what);
        found_by(part.word(place), added)
    }

    /// Returns the position of a word that is not a bit, or of its part that does not name a register.
    fn no_bit(&self, part: &LinePart<'_, '_>, what: &mut String) -> FoundPosition {
        let Some(bit) = part.bit() else {
            return Ok(None);
        };
        let (Some(_), None) = (dotted_part(bit, 3), dotted_part(bit, 4)) else {
            return found(part.word(1), "a bit as owner.field.bit.reader", what);
        };
        let Some(field) = dotted_part(bit, 1) else {
            return Ok(None);
        };
        let field = field.of(bit);
        if record_file::keywords::field(field).is_some() {
            return Ok(None);
        }
        let names = field_names(self.alloc)?;
        add_keys(names.as_slice(), "", what)?;
        let added = add_near(self.alloc, field, names.as_slice(), what);
        found_by(part.line.part(1, 1), added)
    }

    /// Returns the position of the first operand that has the fault.
    fn refused(&self, part: &LinePart<'_, '_>, what: &mut String) -> FoundPosition {
        if let Some(span) = self.refused_number(part, what)? {
            return Ok(Some(span));
        }
        let form = part.form.items.as_slice();
        let refused = refused_operand(self.version(), form, part.words, self.fault);
        let Some((place, operand)) = refused else {
            return Ok(None);
        };
        let added = add_operand(operand, self.kind, self.version(), what);
        found_by(part.word(place), added)
    }

    /// Returns the position of the first part of a bit that is not the number of an owner, a bit or a reader.
    fn refused_number(&self, part: &LinePart<'_, '_>, what: &mut String) -> FoundPosition {
        let (Some(process), Some(bit)) = (part.words.first(), part.bit()) else {
            return Ok(None);
        };
        if self.is_fault_of(PROCESS_OF_ENTRY, process) {
            return Ok(None);
        }
        for (place, operand) in &COPY_NUMBERS {
            let Some(number) = dotted_part(bit, *place) else {
                return Ok(None);
            };
            if self.is_fault_of(*operand, number.of(bit)) {
                let added = add_operand(*operand, self.kind, self.version(), what);
                return found_by(part.line.part(1, *place), added);
            }
        }
        Ok(None)
    }

    /// Returns whether a word in the place of an operand has the fault.
    fn is_fault_of(&self, operand: Operand, word: &[u8]) -> bool {
        operand.fault(self.version(), word) == Some(self.fault)
    }
}

impl EntryFault for FileWithFault {
    fn in_entry_part(
        &self,
        line: &SplitLine<'_>,
        at: usize,
        end: usize,
        marks: usize,
        what: &mut String,
    ) -> FoundPosition {
        let words = line.words.get(at..end).unwrap_or(&[]);
        let form = if marks == 0 {
            access_form(self.alloc, words)?
        } else {
            mark_form(self.alloc, words)?
        };
        let part = LinePart {
            line,
            at,
            words,
            form: &form,
        };
        match self.in_part(&part, what)? {
            None if marks > 3 && self.fault == FaultKind::Words => {
                found(line.word(at.saturating_sub(1)), "at most three marks", what)
            }
            place => Ok(place),
        }
    }
}

/// Returns whether a line is an opening pair.
fn opens(line: &SplitLine<'_>) -> bool {
    match Opener::of(word_at(line.words.as_slice(), 0)) {
        Some(Opener::Open) => true,
        _ => false,
    }
}

/// Returns the first word of a heading or an opening pair, if this is one.
fn head_word(first: &[u8]) -> Option<&'static str> {
    for head in &HEADS {
        if first == head.0.as_bytes() {
            return Some(head.0);
        }
    }
    None
}

/// Returns the names of the registers.
fn field_names(alloc: Global) -> Result<Vec<&'static str>, AllocError> {
    let mut names = Vec::new(alloc);
    for field in &FIELDS {
        names.push(field.0)?;
    }
    Ok(names)
}

/// Returns whether a file begins with a byte order mark.
fn begins_with_mark(first: &[u8]) -> bool {
    match first {
        [0xEF, 0xBB, 0xBF, ..] | [0xFF, 0xFE, ..] | [0xFE, 0xFF, ..] => true,
        _ => false,
    }
}

/// Returns whether a setup has opened this name.
fn is_open(setup: &Setup, word: &[u8]) -> bool {
    let mut opening = setup.opening;
    match name(word) {
        Ok(name) => match opening.add(name, Value::Count(0)) {
            Err(OpenFault::Double) => true,
            _ => false,
        },
        Err(_) => false,
    }
}
