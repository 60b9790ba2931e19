//! The lines of registers.
ghost use Rattle.std.specs.Prelude.{◌≡◌, ◌<◌, ◌++◌, [], IfOk, List, Ok, OnOk, codes, cond, flat_map, length, ℕ};
ghost use Rattle.std.specs.List.{range_with_len};
ghost use Rattle.std.specs.Str.{bytes_eq};
ghost use Rattle.std.specs.String.{string_bytes};
ghost use Rattle.plain_store.specs.{checked};
ghost use Rattle.model.specs.{Past, fields};
ghost use Rattle.run_state.specs.Knowing.{CoreShows};
ghost use Rattle.run_state.specs.Copies.{are_all, copies_lines, is_among, line_of_first, lines_of_register, reader_if, register_lines, register_words, texts_in};
ghost use Rattle.run_state.specs.Stores.{number_word};

use crate::copies::{are_changed, copies_held, copy_texts, opening_bytes};
use calls::world::{Core, RegisterName};
use model::{FIELDS, field_numbered};
use plain_store::Setup;
use std::alloc::{AllocError, Global};

/// Writes the lines of the registers of which a copy is not as it opened, or is being written.
pub(crate) fn push_registers(
    alloc: Global,
    setup: &Setup,
    core: &Core,
    text: &mut Vec<u8>,
) -> Result<(), AllocError>
    requires good { checked setup.now ≡ Ok tt }
    requires setup { core.now.setup ≡ setup.now }
    ensures { OnOk result ((past : Past) → CoreShows core.now past
        → text.new.items ≡ text.old.items ++ register_lines setup.now past) }
{
    for owner in 0..setup.processes {
        push_owned(alloc, setup, core, owner, text)?;
    }
    Ok(())
}

/// Writes the lines of the registers of a process.
fn push_owned(
    alloc: Global,
    setup: &Setup,
    core: &Core,
    owner: u8,
    text: &mut Vec<u8>,
) -> Result<(), AllocError>
    requires good { checked setup.now ≡ Ok tt }
    requires setup { core.now.setup ≡ setup.now }
    requires owner { owner < setup.now.processes }
    ensures { OnOk result ((past : Past) → CoreShows core.now past
        → text.new.items ≡ text.old.items ++ flat_map
        (lines_of_register setup.now past owner) fields) }
{
    for number in 0..FIELDS.len() {
        let field = field_numbered(number);
        push_register(alloc, setup, core, RegisterName { owner, field }, text)?;
    }
    Ok(())
}

/// Writes the lines of a register, if a copy is not as it opened, or is being written.
fn push_register(
    alloc: Global,
    setup: &Setup,
    core: &Core,
    register: RegisterName,
    text: &mut Vec<u8>,
) -> Result<(), AllocError>
    requires good { checked setup.now ≡ Ok tt }
    requires setup { core.now.setup ≡ setup.now }
    requires owner { register.owner < setup.now.processes }
    ensures { OnOk result ((past : Past) → CoreShows core.now past
        → text.new.items ≡ text.old.items ++ lines_of_register setup.now past
        register.owner register.field) }
{
    let copies = copies_held(alloc, setup, core, register)?;
    let opening = opening_bytes(setup, register)?;
    if !are_changed(copies.as_slice(), &opening) {
        return Ok(());
    }
    let texts = copy_texts(alloc, setup, register.field, copies.as_slice())?;
    let name = register_words(alloc, register)?;
    push_copies(alloc, &name, texts.as_slice(), text)
}

/// Returns the word `register` and the name of a register.
fn register_words(alloc: Global, register: RegisterName) -> Result<String, AllocError>
    ensures { IfOk result
        (λ words. string_bytes words ≡ register_words register.owner register.field) }
{
    let owner = register.owner;
    let word = register.field.word();
    format!(in alloc; "register {owner}.{word}")
}

/// Writes the lines of a register by the texts of its copies: one line if all are equal, otherwise a line for each text.
fn push_copies(
    alloc: Global,
    name: &str,
    texts: &[Vec<u8>],
    text: &mut Vec<u8>,
) -> Result<(), AllocError>
    requires { 0 < length texts.now }
    ensures { OnOk result (text.new.items
        ≡ text.old.items ++ copies_lines name.now (texts_in texts.now)) }
{
    let first = texts[0].as_slice();
    if are_all(texts, first) {
        text.extend_from_slice(name.as_bytes())?;
        return push_copy(first, text);
    }
    for reader in 0..texts.len() {
        push_if_first(alloc, name, texts, reader, text)?;
    }
    Ok(())
}

/// Returns whether all texts are this one.
fn are_all(texts: &[Vec<u8>], text: &[u8]) -> bool
    ensures { result ≡ are_all text.now (texts_in texts.now) }
{
    texts.iter().all(|other| is_same(other, text))
}

/// Returns whether a text is among texts.
fn is_among(texts: &[Vec<u8>], text: &[u8]) -> bool
    ensures { result ≡ is_among text.now (texts_in texts.now) }
{
    texts.iter().any(|other| is_same(other, text))
}

/// Returns whether a text is this one.
fn is_same(other: &Vec<u8>, text: &[u8]) -> bool
    ensures { result ≡ bytes_eq other.now.items text.now }
{
    other.as_slice() == text
}

/// Writes the line of a reader's text, unless an earlier reader has it.
fn push_if_first(
    alloc: Global,
    name: &str,
    texts: &[Vec<u8>],
    reader: usize,
    text: &mut Vec<u8>,
) -> Result<(), AllocError>
    requires { reader < length texts.now }
    ensures { OnOk result (text.new.items
        ≡ text.old.items ++ line_of_first name.now (texts_in texts.now) reader) }
{
    let copy = texts[reader].as_slice();
    if is_among(&texts[..reader], copy) {
        return Ok(());
    }
    text.extend_from_slice(name.as_bytes())?;
    text.extend_from_slice(b" readers")?;
    push_readers(alloc, texts, copy, text)?;
    push_copy(copy, text)
}

/// Writes the readers that have this text.
fn push_readers(
    alloc: Global,
    texts: &[Vec<u8>],
    copy: &[u8],
    text: &mut Vec<u8>,
) -> Result<(), AllocError>
    ensures { OnOk result
        (text.new.items
        ≡ text.old.items
        ++ flat_map (reader_if (texts_in texts.now) copy.now)
        (range_with_len 0 (length (texts_in texts.now)))) }
{
    for reader in 0..texts.len() {
        let has = is_same(&texts[reader], copy);
        push_reader_if(alloc, has, reader, text)?;
    }
    Ok(())
}

/// Writes the word of a reader, if it belongs to the line.
fn push_reader_if(
    alloc: Global,
    is_listed: bool,
    reader: usize,
    text: &mut Vec<u8>,
) -> Result<(), AllocError>
    ensures { OnOk result
        (text.new.items ≡ text.old.items ++ cond is_listed (number_word reader) []) }
{
    if !is_listed {
        return Ok(());
    }
    let word = format!(in alloc; " {reader}")?;
    text.extend_from_slice(word.as_bytes())
}

/// Writes the text of a copy, which ends its line.
fn push_copy(copy: &[u8], text: &mut Vec<u8>) -> Result<(), AllocError>
    ensures { OnOk result (text.new.items ≡ text.old.items ++ (codes " "
        ++ (copy.now ++ codes "\n"))) }
{
    text.extend_from_slice(b" ")?;
    text.extend_from_slice(copy)?;
    text.extend_from_slice(b"\n")
}
