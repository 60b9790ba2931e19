//! The texts that state what was expected at the position of a word.
use crate::forms::{FormItem, LineForm};
use crate::kinds::FileKind;
use crate::near::add_near;
use scenario::forms::{Letter, Operand};
use std::alloc::{AllocError, Global};
use trace::TraceMemory;
use trace_file::forms::TraceOperand;
use trace_file::most_bits;

/// Adds that one of these key words was expected, or what `other` names.
pub(crate) fn add_keys(
    keys: &[&str],
    other: &'static str,
    text: &mut String,
) -> Result<(), AllocError> {
    if keys.len() > 1 {
        text.push_str("one of ")?;
    }
    add_between(keys, ", ", text)?;
    text.push_str(other)
}

/// Adds the key words of a form's choice for which a word may have been meant.
pub(crate) fn add_meant(
    alloc: Global,
    kind: FileKind,
    form: &LineForm,
    word: &[u8],
    text: &mut String,
) -> Result<(), AllocError> {
    match form.of_version_2 {
        Some(key) => {
            let first = kind.word();
            write!(text, "; {key} stands behind {first} 2 alone")
        }
        None if form.keys.len() > 1 => add_near(alloc, word, form.keys.as_slice(), text),
        None => Ok(()),
    }
}

/// Adds words, with `between` between them.
fn add_between(words: &[&str], between: &'static str, text: &mut String) -> Result<(), AllocError> {
    let mut front = "";
    for word in words {
        add_two(front, word, text)?;
        front = between;
    }
    Ok(())
}

/// Adds two texts, one after the other.
pub(crate) fn add_two(first: &str, second: &str, text: &mut String) -> Result<(), AllocError> {
    text.push_str(first)?;
    text.push_str(second)
}

/// Adds that this form was expected.
pub(crate) fn add_form(form: &LineForm, text: &mut String) -> Result<(), AllocError> {
    text.push_str("the form")?;
    for item in &form.items {
        text.push_str(" ")?;
        match *item {
            FormItem::Key(word) => text.push_str(word)?,
            FormItem::Choice => add_between(form.keys.as_slice(), "|", text)?,
            FormItem::Operand(operand) => text.push_str(letters(operand))?,
            FormItem::Bit => text.push_str("bit")?,
            FormItem::Cell => text.push_str("cell")?,
            FormItem::OfTrace(operand) => text.push_str(trace_letters(operand))?,
        }
    }
    Ok(())
}

/// Returns an operand as a form shows it.
fn letters(operand: Operand) -> &'static str {
    match operand {
        Operand::Number { letter, .. } => match letter {
            Letter::P => "p",
            Letter::N => "n",
            Letter::K => "k",
            Letter::Process => "process",
        },
        Operand::Heading(_) => "n",
        Operand::Integer => "INT",
        Operand::Bit => "0|1",
        Operand::Name => "NAME",
        Operand::Value => "VALUE",
    }
}

/// Returns an operand of a trace as a form shows it.
fn trace_letters(operand: TraceOperand) -> &'static str {
    match operand {
        TraceOperand::Process => "process",
        TraceOperand::Count => "n",
        TraceOperand::Name => "NAME",
        TraceOperand::Width => "width",
        TraceOperand::Value => "v",
        TraceOperand::Gives => "gives",
    }
}

/// Adds that such an operand of a trace was expected, in a trace with this memory.
pub(crate) fn add_trace_operand(
    operand: TraceOperand,
    memory: TraceMemory,
    text: &mut String,
) -> Result<(), AllocError> {
    match operand {
        TraceOperand::Process => add_number(0, 255, text),
        TraceOperand::Count => add_number(1, 16, text),
        TraceOperand::Name => text.push_str(
            "a name of 1 to 8 of a to z, 0 to 9, _, the first not a digit",
        ),
        TraceOperand::Width => {
            add_number(1, u64::from(most_bits(memory)), text)?;
            let memory = memory_word(memory);
            write!(text, ", in {memory} memory")
        }
        TraceOperand::Value => add_number(0, 4_294_967_295, text),
        TraceOperand::Gives => text.push_str("gives"),
    }
}

/// Returns the word of a memory.
fn memory_word(memory: TraceMemory) -> &'static str {
    match memory {
        TraceMemory::Safe => "safe",
        TraceMemory::Regular => "regular",
        TraceMemory::Atomic => "atomic",
    }
}

/// Adds that such an operand was expected, in a file of this kind and version.
pub(crate) fn add_operand(
    operand: Operand,
    kind: FileKind,
    version: u8,
    text: &mut String,
) -> Result<(), AllocError> {
    text.push_str(match operand {
        Operand::Number { most, .. } => return add_number(0, most, text),
        Operand::Heading(heading) => {
            add_number(1, u64::from(heading.most(version)), text)?;
            let first = kind.word();
            return write!(text, ", behind {first} {version}");
        }
        Operand::Integer => {
            "a whole number from -9223372036854775808 to 9223372036854775807 without leading zeros"
        }
        Operand::Bit => "0 or 1",
        Operand::Name => "a name of 1 to 8 of a to z, 0 to 9, _",
        Operand::Value => {
            "c: and a whole number from -9223372036854775808 to 9223372036854775807, or t: and at most 12 visible ASCII characters"
        }
    })
}

/// Adds that a number in this range was expected.
pub(crate) fn add_number(least: u8, most: u64, text: &mut String) -> Result<(), AllocError> {
    write!(
        text,
        "a number from {least} to {most} without leading zeros"
    )
}
