//! The help pages, as they are printed.
ghost use Rattle.std.specs.Prelude.{◌≡◌, option_map};
ghost use Rattle.command_line.specs.Meaning.{page_named, reported_by};

use crate::commands::{CommandEntry, command_named, command_rows};
use crate::help::{FAULTS, MORE_WORDS, RUN, WORDS};
use crate::program::{file_command, program};
use files::{DONE, Fault};
use std::alloc::{AllocError, Global};

/// A help page.
#[derive(Clone, Copy)]
pub enum HelpPage {
    /// The general page: all arguments, the statuses, and where to read on.
    Words,
    /// The page of the words that a run prints.
    Run,
    /// The page of a command.
    Command(CommandEntry),
    /// The page of faults, with their causes.
    Faults,
}

impl HelpPage {
    /// Returns the page of this name: the name of a command, or `help`, `run` or `faults`.
    pub fn named(name: &str) -> Option<HelpPage>
        ensures { option_map reported_by result ≡ page_named name.now }
    {
        match name {
            "help" => Some(HelpPage::Words),
            "run" => Some(HelpPage::Run),
            "faults" => Some(HelpPage::Faults),
            _ => Some(HelpPage::Command(command_named(name)?)),
        }
    }

    /// Prints the page to standard output, and returns the exit status.
    ///
    /// # Errors
    ///
    /// Returns [`Fault::Memory`] if an allocation fails, and [`Fault::Write`] if the write fails.
    pub fn print_page<T: Print + AllocGlobal>(self, rt: &T) -> Result<u8, Fault> {
        match self.text(rt.alloc()) {
            Ok(text) => print_page(rt, text.as_str()),
            Err(AllocError) => Err(Fault::Memory),
        }
    }

    /// Returns the text of the page.
    fn text(self, alloc: Global) -> Result<String, AllocError> {
        match self {
            HelpPage::Words => page_of_words(alloc),
            HelpPage::Run => String::from_str(alloc, RUN),
            HelpPage::Command(command) => page_of(alloc, command),
            HelpPage::Faults => String::from_str(alloc, FAULTS),
        }
    }
}

/// Prints a text to standard output, and returns the exit status.
///
/// # Errors
///
/// Returns [`Fault::Write`] if the write fails.
pub fn print_page<T: Print>(rt: &T, text: &str) -> Result<u8, Fault> {
    match rt.write_all(text.as_bytes()) {
        Ok(()) => Ok(DONE),
        Err(_) => Err(Fault::Write),
    }
}

/// Returns the general page, with each command of the table.
fn page_of_words(alloc: Global) -> Result<String, AllocError> {
    let mut text = usage(alloc)?;
    text.push_str("\n")?;
    text.push_str(WORDS)?;
    add_commands(&mut text)?;
    text.push_str(MORE_WORDS)?;
    Ok(text)
}

/// Returns the usage line of the program.
fn usage(alloc: Global) -> Result<String, AllocError> {
    program(alloc)?.render_usage()
}

/// Appends the lines of each command of the table.
fn add_commands(text: &mut String) -> Result<(), AllocError> {
    for row in command_rows() {
        let command = CommandEntry::of(row);
        write!(text, "{command}")?;
    }
    Ok(())
}

/// Returns the page of a command.
fn page_of(alloc: Global, command: CommandEntry) -> Result<String, AllocError> {
    let mut text = usage_of(alloc, command)?;
    text.push_str("\n")?;
    text.push_str(command.page)?;
    Ok(text)
}

/// Returns the usage line of a command.
fn usage_of(alloc: Global, command: CommandEntry) -> Result<String, AllocError> {
    let name = command.name;
    let name = format!(in alloc; "bakerystore {name}")?;
    file_command(alloc, command)?
        .bin_name(name.as_str())?
        .render_usage()
}
