//! The form of a line: the key words and operands that the tables of its grammar have for the words that it begins with.
ghost use Rattle.std.specs.Prelude.{◌≡◌, [], IfSome, Some, slice_get, slice_index_or};
ghost use Rattle.files.specs.{texts};
ghost use Rattle.scenario.specs.Forms.{fault_at};
ghost use Rattle.trace_file.specs.Forms.{fault_at as trace_fault_at};

use files::FaultKind;
use record_file::forms::{MARKS, MOVES, PROCESS_OF_ENTRY};
use scenario::forms::{BIT_LINES, HEADS, Operand, Pattern, Phrase, STATEMENTS, has_word};
use std::alloc::{AllocError, Global};
use trace_file::forms::{
    CELL_MOVES, MARK_FORMS, TRACE_HEADS, TraceOperand, TracePattern, TracePhrase,
};

/// An item of a form.
#[derive(Clone, Copy)]
pub(crate) enum FormItem {
    /// This key word.
    Key(&'static str),
    /// A choice of key words, of which the line has none.
    Choice,
    /// An operand.
    Operand(Operand),
    /// The bit of an entry.
    Bit,
    /// The cell of an entry of a trace.
    Cell,
    /// An operand of a trace.
    OfTrace(TraceOperand),
}

/// A form. Its last item is a choice if the line has no such key word; then nothing is known of the items after it.
#[derive(Drop)]
pub(crate) struct LineForm {
    version: u8,
    pub items: Vec<FormItem>,
    /// The key words of the choice.
    pub keys: Vec<&'static str>,
    /// The key word of version 2 that the line has in place of one of them.
    pub of_version_2: Option<&'static str>,
}

/// Returns the word at an index of a line, or the empty word after the last one. The empty word is not a key word.
pub(crate) fn word_at<'w>(words: &[&'w [u8]], place: usize) -> &'w [u8] {
    match words.get(place) {
        Some(word) => *word,
        None => &[],
    }
}

/// Returns the form of a line of a scenario of this version, other than the first.
pub(crate) fn line_form(
    alloc: Global,
    version: u8,
    words: &[&[u8]],
) -> Result<LineForm, AllocError> {
    let mut form = LineForm::new(alloc, version);
    form.add_form(&[&HEADS, &STATEMENTS], words)?;
    Ok(form)
}

/// Returns the form of a heading or an opening pair of a record of this version.
pub(crate) fn head_form(
    alloc: Global,
    version: u8,
    words: &[&[u8]],
) -> Result<LineForm, AllocError> {
    let mut form = LineForm::new(alloc, version);
    form.add_form(&[&HEADS], words)?;
    Ok(form)
}

/// Returns the form of a line of a bits file, other than the first.
pub(crate) fn bits_form(alloc: Global, words: &[&[u8]]) -> Result<LineForm, AllocError> {
    let mut form = LineForm::new(alloc, 1);
    form.add_phrase(&[&BIT_LINES], words)?;
    Ok(form)
}

/// Returns the form of the words of an entry before its marks.
pub(crate) fn access_form(alloc: Global, words: &[&[u8]]) -> Result<LineForm, AllocError> {
    let mut form = LineForm::new(alloc, 2);
    form.items.push(FormItem::Operand(PROCESS_OF_ENTRY))?;
    if words.len() >= 2 {
        form.items.push(FormItem::Bit)?;
        form.add_phrase(&[&MOVES], words)?;
    }
    Ok(form)
}

/// Returns the form of a mark, by the words after its sign.
pub(crate) fn mark_form(alloc: Global, words: &[&[u8]]) -> Result<LineForm, AllocError> {
    let mut form = LineForm::new(alloc, 2);
    form.add_form(&[&MARKS], words)?;
    Ok(form)
}

/// Returns the form of a heading or a register of a trace.
pub(crate) fn trace_head_form(alloc: Global, words: &[&[u8]]) -> Result<LineForm, AllocError> {
    let mut form = LineForm::new(alloc, 2);
    form.add_trace_form(&TRACE_HEADS, words)?;
    Ok(form)
}

/// Returns the form of the words of an entry of a trace before its marks.
pub(crate) fn trace_access_form(alloc: Global, words: &[&[u8]]) -> Result<LineForm, AllocError> {
    let mut form = LineForm::new(alloc, 2);
    form.items.push(FormItem::OfTrace(TraceOperand::Process))?;
    if words.len() >= 2 {
        form.items.push(FormItem::Cell)?;
        form.add_trace_phrase(&CELL_MOVES, words)?;
    }
    Ok(form)
}

/// Returns the form of a mark of a trace, by the words after its sign.
pub(crate) fn trace_mark_form(alloc: Global, words: &[&[u8]]) -> Result<LineForm, AllocError> {
    let mut form = LineForm::new(alloc, 2);
    form.add_trace_phrase(&MARK_FORMS, words)?;
    Ok(form)
}

impl LineForm {
    /// Creates a form without items.
    fn new(alloc: Global, version: u8) -> LineForm {
        LineForm {
            version,
            items: Vec::new(alloc),
            keys: Vec::new(alloc),
            of_version_2: None,
        }
    }

    /// Adds the form in these tables whose key word the line has at the next place, or a choice.
    fn add_form(
        &mut self,
        tables: &[&[(&'static str, Pattern)]],
        words: &[&[u8]],
    ) -> Result<(), AllocError> {
        let word = word_at(words, self.items.len());
        for table in tables {
            for row in *table {
                let (key, (operands, phrases)) = *row;
                if self.add_key(key, word)? {
                    self.add_operands(operands)?;
                    return self.add_ending(phrases, words);
                }
            }
        }
        self.items.push(FormItem::Choice)?;
        Ok(())
    }

    /// Adds a phrase of these tables, unless there are none.
    fn add_ending(&mut self, tables: &[&[Phrase]], words: &[&[u8]]) -> Result<(), AllocError> {
        if tables.is_empty() {
            return Ok(());
        }
        self.add_phrase(tables, words)
    }

    /// Adds the phrase in these tables whose key word the line has at the next place, or a choice.
    fn add_phrase(&mut self, tables: &[&[Phrase]], words: &[&[u8]]) -> Result<(), AllocError> {
        let word = word_at(words, self.items.len());
        for table in tables {
            for row in *table {
                let (key, operands) = *row;
                if self.add_key(key, word)? {
                    return self.add_operands(operands);
                }
            }
        }
        self.items.push(FormItem::Choice)?;
        Ok(())
    }

    /// Adds a key word if the line has this word and the version has it, and returns whether it did. Otherwise the key word
    /// belongs to the choice.
    fn add_key(&mut self, key: &'static str, word: &[u8]) -> Result<bool, AllocError> {
        if word != key.as_bytes() {
            self.add_choice_of(key)?;
            return Ok(false);
        }
        if !has_word(self.version, key) {
            self.of_version_2 = Some(key);
            return Ok(false);
        }
        self.keys.clear();
        self.items.push(FormItem::Key(key))?;
        Ok(true)
    }

    /// Adds a key word of the choice, if the version has it.
    fn add_choice_of(&mut self, word: &'static str) -> Result<(), AllocError> {
        if has_word(self.version, word) {
            self.keys.push(word)?;
        }
        Ok(())
    }

    /// Adds operands, in their order.
    fn add_operands(&mut self, operands: &[Operand]) -> Result<(), AllocError> {
        for operand in operands {
            self.items.push(FormItem::Operand(*operand))?;
        }
        Ok(())
    }

    /// Adds the form in this table of a trace whose key word the line has at the next place, or a choice.
    fn add_trace_form(
        &mut self,
        table: &[(&'static str, TracePattern)],
        words: &[&[u8]],
    ) -> Result<(), AllocError> {
        let word = word_at(words, self.items.len());
        for row in table {
            let (key, pattern) = *row;
            if self.add_key(key, word)? {
                self.add_trace_operands(pattern.operands)?;
                if pattern.may_end && words.len() <= self.items.len() {
                    return Ok(());
                }
                return self.add_trace_ending(pattern.phrases, words);
            }
        }
        self.items.push(FormItem::Choice)?;
        Ok(())
    }

    /// Adds a phrase of this table, unless it has none.
    fn add_trace_ending(
        &mut self,
        table: &[TracePhrase],
        words: &[&[u8]],
    ) -> Result<(), AllocError> {
        if table.is_empty() {
            return Ok(());
        }
        self.add_trace_phrase(table, words)
    }

    /// Adds the phrase in this table of a trace whose key word the line has at the next place, or a choice.
    fn add_trace_phrase(
        &mut self,
        table: &[TracePhrase],
        words: &[&[u8]],
    ) -> Result<(), AllocError> {
        let word = word_at(words, self.items.len());
        for row in table {
            let (key, operands) = *row;
            if self.add_key(key, word)? {
                return self.add_trace_operands(operands);
            }
        }
        self.items.push(FormItem::Choice)?;
        Ok(())
    }

    /// Adds operands of a trace, in their order.
    fn add_trace_operands(&mut self, operands: &[TraceOperand]) -> Result<(), AllocError> {
        for operand in operands {
            self.items.push(FormItem::OfTrace(*operand))?;
        }
        Ok(())
    }
}

/// Returns the first operand of a form that refuses the word at its place with this fault, in a file of this version.
pub(crate) fn refused_operand(
    version: u8,
    form: &[FormItem],
    words: &[&[u8]],
    fault: FaultKind,
) -> Option<(usize, Operand)>
    ensures item { IfSome result (λ r. slice_get form.now r.0 ≡ Some (FormItem.Operand r.1)) }
    ensures word { IfSome result
        (λ r. fault_at version r.1 (slice_index_or (texts words.now) r.0 []) ≡ Some fault) }
{
    for place in 0..form.len().min(words.len()) {
        if let FormItem::Operand(operand) = form[place] {
            if operand.fault(version, words[place]) == Some(fault) {
                return Some((place, operand));
            }
        }
    }
    None
}

/// Returns the first operand of a form of a trace that refuses the word at its place with this fault.
pub(crate) fn refused_trace_operand(
    form: &[FormItem],
    words: &[&[u8]],
    fault: FaultKind,
) -> Option<(usize, TraceOperand)>
    ensures item { IfSome result (λ r. slice_get form.now r.0 ≡ Some (FormItem.OfTrace r.1)) }
    ensures word { IfSome result
        (λ r. trace_fault_at r.1 (slice_index_or (texts words.now) r.0 []) ≡ Some fault) }
{
    for place in 0..form.len().min(words.len()) {
        if let FormItem::OfTrace(operand) = form[place] {
            if operand.fault(words[place]) == Some(fault) {
                return Some((place, operand));
            }
        }
    }
    None
}
