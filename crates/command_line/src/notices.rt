//! The texts that the program prints if it runs no file.
ghost use Rattle.std.specs.Prelude.{◌≡◌, ◌⊎◌, IfOk, OnErr};
ghost use Rattle.clap.specs.Words.{kind_of};

use crate::pages::{HelpPage, print_page};
use crate::program::{matched, program};
use clap::Error;
use clap::error::ErrorKind;
use files::Fault;
use std::alloc::{AllocError, Global};

/// The exit status of invalid arguments.
pub const USAGE_STATUS: u8 = 2;

/// The message about a word that is not UTF-8.
const NOT_TEXT: &str =
    "an argument is not UTF-8 (to read a file of such a name: bakerystore COMMAND - < FILE)";

/// The number of bytes of a word that an error shows.
const MOST_SHOWN: usize = 64;

/// A text that the program prints if it runs no file: a page, the version, an error in its arguments, or an allocation failure.
#[derive(Drop)]
pub struct Notice {
    error: Error,
}

impl Notice {
    /// Prints the notice, and returns the exit status.
    ///
    /// # Errors
    ///
    /// Returns [`Fault::Memory`] if an allocation fails or failed, and [`Fault::Write`] if standard output cannot be written.
    pub fn print_page<T: Print + Eprint + AllocGlobal>(&self, rt: &T) -> Result<u8, Fault> {
        match self.error.kind() {
            ErrorKind::OutOfMemory => Err(Fault::Memory),
            ErrorKind::DisplayHelp => self.print_named_page(rt),
            ErrorKind::DisplayVersion => print_page(rt, self.text(rt.alloc())?.as_str()),
            _ => {
                let _ = rt.eprint(&self.error);
                Ok(USAGE_STATUS)
            }
        }
    }

    /// Prints the page that `clap` names: the help of each command is the name of its page (`program`).
    fn print_named_page<T: Print + AllocGlobal>(&self, rt: &T) -> Result<u8, Fault> {
        let name = self.text(rt.alloc())?;
        let page = HelpPage::named(name.as_str().trim_end());
        page.unwrap_or(HelpPage::Words).print_page(rt)
    }

    /// Prints the text that `clap` has for it.
    fn text(&self, alloc: Global) -> Result<String, Fault> {
        let error = &self.error;
        format!(in alloc; "{error}").map_err(|_| Fault::Memory)
    }
}

impl From<Error> for Notice {
    ghost from_gives = { λ error notice. notice.error ≡ error };

    fn from(error: Error) -> Notice {
        Notice { error }
    }
}

/// Returns an error of the same kind, with words that a terminal can show, or an allocation failure.
///
/// # Errors
///
/// Returns [`AllocError`] if an allocation fails.
pub fn shown_error(alloc: Global, words: &[String], error: Error) -> Result<Error, AllocError>
    ensures { IfOk result (λ e. (kind_of e ≡ kind_of error)
        ⊎ (kind_of e ≡ ErrorKind.OutOfMemory)) }
{
    if !error.use_stderr() {
        return Ok(error);
    }
    error_as_shown(alloc, words, error.kind())
}

/// Returns an error of this kind, with words as an error shows them, or an allocation failure.
fn error_as_shown(alloc: Global, words: &[String], kind: ErrorKind) -> Result<Error, AllocError>
    ensures { IfOk result (λ e. (kind_of e ≡ kind) ⊎ (kind_of e ≡ ErrorKind.OutOfMemory)) }
{
    let shown = shown_words(alloc, words)?;
    match error_of(alloc, shown.as_slice()) {
        Some(error) if error.kind() == kind || error.kind() == ErrorKind::OutOfMemory => Ok(error),
        _ => program_error(alloc, kind, "invalid arguments"),
    }
}

/// Returns the error that was made, or the allocation failure of making it.
pub fn reported(made: Result<Error, AllocError>) -> Error
    ensures error { IfOk made (λ e. result ≡ e) }
    ensures memory { OnErr made (kind_of result ≡ ErrorKind.OutOfMemory) }
{
    match made {
        Ok(error) => error,
        Err(error) => error.into(),
    }
}

/// Returns the error of arguments that `clap` refuses.
fn error_of(alloc: Global, words: &[String]) -> Option<Error> {
    matched(alloc, words).err()
}

/// Returns the words as an error shows them: cut to a length, and with escapes for what a terminal must not receive.
fn shown_words(alloc: Global, words: &[String]) -> Result<Vec<String>, AllocError> {
    let mut shown = Vec::new(alloc);
    for word in words {
        shown.push(shown_word(alloc, word.as_str())?)?;
    }
    Ok(shown)
}

/// Returns a word as an error shows it: the letters that end within its first 64 bytes, escaped for a terminal, and `..` for the
/// others.
///
/// # Errors
///
/// Returns [`AllocError`] if an allocation fails.
pub fn shown_word(alloc: Global, word: &str) -> Result<String, AllocError> {
    let mut shown = String::new(alloc);
    let mut bytes: usize = 0;
    for letter in word.chars() {
        bytes = bytes.saturating_add(letter.len_utf8());
        if bytes > MOST_SHOWN {
            shown.push_str("..")?;
            return Ok(shown);
        }
        push_escaped(&mut shown, letter)?;
    }
    Ok(shown)
}

/// Appends a letter, or an escape for it if a terminal must not receive it.
fn push_escaped(shown: &mut String, letter: char) -> Result<(), AllocError> {
    for escaped in letter.escape_debug() {
        shown.push(escaped)?;
    }
    Ok(())
}

/// Returns why there is no page of this name, which is the message if the name is given as a command.
///
/// # Errors
///
/// Returns [`AllocError`] if an allocation fails.
pub fn no_such_page(alloc: Global, name: &str) -> Result<Error, AllocError> {
    let mut words = Vec::new(alloc);
    words.push(String::from_str(alloc, "bakerystore")?)?;
    words.push(shown_word(alloc, name)?)?;
    match error_of(alloc, words.as_slice()) {
        Some(error) if error.use_stderr() => Ok(error),
        _ => program_error(alloc, ErrorKind::InvalidSubcommand, "no such page"),
    }
}

/// Returns the error of arguments of which one is not UTF-8.
///
/// # Errors
///
/// Returns [`AllocError`] if an allocation fails.
pub fn no_text(alloc: Global) -> Result<Error, AllocError> {
    program_error(alloc, ErrorKind::InvalidValue, NOT_TEXT)
}

/// Returns an error of this kind, with the usage of the program.
fn program_error(alloc: Global, kind: ErrorKind, message: &str) -> Result<Error, AllocError>
    ensures { IfOk result (λ e. kind_of e ≡ kind) }
{
    program(alloc)?.error(kind, message)
}
